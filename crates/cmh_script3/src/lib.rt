//! The lines of scripts of edition 3: how they are read, and what they say. And how a frame is spelled in answers and in the
//! lines of journals.
#![tactic(auto)]

mod frame_text;
mod lines;
mod script;

pub use crate::frame_text::FrameText;
pub use crate::lines::{MAX_LINE, read_line};
pub use crate::script::{Command, Line, parse};
