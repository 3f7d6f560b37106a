//! The text of pictures, for Graphviz and as SVG, and the command `draw`, which writes it.
#![tactic(auto)]

mod curve;
mod dot;
mod drawing;
mod format;
mod label;
mod layout;
mod look;
mod name;
mod part;
mod picture_fault;
mod picture_text;
mod point;
mod scene;
mod style;
mod svg;
mod svg_run;
mod svg_waits;
mod words;

pub use crate::drawing::{Drawing, run_draw, write_picture};
pub use crate::format::{Format, NoFormat};
pub use crate::part::Part;
pub use crate::picture_fault::PictureFault;
pub use cmh_draw::{Kind, NoKind, Picture};
