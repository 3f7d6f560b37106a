//! The files that a command reads: those at the paths of its command line.
//!
//! `files_of` reads the files of an audit over any `Inputs`, and `Disk` is those of the disk. Where the files are told, what
//! is read is what stands at the paths.
//!
//! The files of running sites grow while they are read, so they are read twice. `kept_of` says what is kept of editions 1 and
//! 2. Of edition 3 it is what the furthest run has that has all that was read first, if there is one (`segments_kept`).
#![tactic(auto)]

mod between_reads;
mod disk;
mod file_fault;
mod growing;
mod inputs;
mod kept;
mod reading;
mod readings;
mod span;
mod two_reads;

pub use crate::disk::Disk;
pub use crate::file_fault::FileFault;
pub use crate::growing::kept_of;
pub use crate::inputs::{InputFile, Inputs, NotRead};
pub use crate::kept::segments_kept;
pub use crate::reading::{
    LONGEST_SCRIPT, LONGEST_SEGMENT, LONGEST_TOPOLOGY, begins_segment, read_journal, read_script,
    read_topology,
};
pub use crate::readings::{AuditFiles, files_of, journals_of};
pub use crate::two_reads::two_reads_law;
