//! A reader of a link's bytes that come in pieces, cut anywhere.
#![tactic(auto)]

mod fault;
pub mod laws;
mod reader;
mod reading;
mod standing;

pub use crate::fault::ReadFault;
pub use crate::reader::FrameReader;
