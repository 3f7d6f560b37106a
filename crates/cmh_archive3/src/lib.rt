//! Which segments of a world may be archived: their lines, for a command, and the records of those that an audit accepted.
//!
//! `run_segments` reads the segments of all sites and writes a line for each. `record_audited` keeps the records that it looks
//! for, once an audit has accepted the journals.
#![tactic(auto)]

mod lines;
mod list_fault;
mod listing;
mod names;
mod reading;
mod recording;
mod records;
mod summary;

pub use crate::lines::{SegmentLine, State};
pub use crate::list_fault::ListFault;
pub use crate::listing::run_segments;
pub use crate::names::segment_path;
pub use crate::recording::{RecordFiles, RecordKeeper, record_audited};
pub use crate::summary::{Folder, Summary};
