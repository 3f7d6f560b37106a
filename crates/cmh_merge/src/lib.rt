//! Journals of all sites, merged into one order in which their entries can have been made, whatever the rules of the
//! sites are.
//!
//! A reader of journals gives a `Walk` through each. `merge` takes their entries, as long as each frame that was got is
//! the next of its link. `merge_from` does so where frames are under way before the journals begin.
#![tactic(auto)]

mod merging;
mod queues;
mod taking;
mod walk;

pub use crate::merging::{Merged, merge, merge_from};
pub use crate::queues::Queues;
pub use crate::walk::{Next, SiteWalk, Walk};
