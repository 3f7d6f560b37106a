//! A world of edition 3 that is set back, for a command: all its sites together, to the bases with which they began an epoch.
//!
//! No other set of backups is consistent. `restored_world` makes the first segments of a new world of the segments that stand
//! for the epoch, and `restore_law` says how that world goes on with the history of the older one.
#![tactic(auto)]

mod checks;
mod fault;
mod folders;
mod keeping;
mod laws;
mod reading;
mod restoring;

pub use crate::checks::{NotRestored, restored_world};
pub use crate::fault::RestoreFault;
pub use crate::folders::NewFolders;
pub use crate::keeping::NewJournals;
pub use crate::laws::restore_law;
pub use crate::restoring::{RestoreStart, run_restore};
