//! The threads of a site, and the loops with which they read and write its links, over any carriers.
#![tactic(auto)]

mod accepting;
mod backlog;
mod berth;
mod dialler;
mod draining;
mod lent;
mod opening;
mod reading;
mod seats;
mod shared;
mod threads;
mod turned_away;
mod watching;
mod writing;

pub use crate::backlog::BacklogLimit;
pub use crate::lent::{Lent, lent_law};
pub use crate::reading::{Handover, ReaderEnd, run_reader};
pub use crate::threads::{LinkView, SiteParts, SiteThreads};
pub use crate::turned_away::stranger_law;
pub use crate::writing::{FrameSource, Next, run_writer};
pub use cmh_carriers::{LinkFault, LinkState, LinkTable, SharedLinks};
