//! The auditor of edition 3, over segments of epoch 0: whether the segments of all sites come from one run.
//!
//! `read_file` reads each file, `check_set` says whether they are those of one world, and `audit` merges them into one order
//! or says where they stop. `run_of` gives the entries of all sites in that order, over which a report can be made.
#![tactic(auto)]

mod file;
mod judgement;
mod lawful;
mod order;
mod queues;
mod run;
mod set;
mod stops;
mod survey;
mod verdict;
mod walk;

pub use crate::file::{FileFault, read_file};
pub use crate::judgement::{Judged, judge};
pub use crate::order::Order;
pub use crate::run::run_of;
pub use crate::set::{SetFault, check_set, check_world};
pub use crate::stops::{Reason, Stop, Stops};
pub use crate::verdict::{AuditMemory, Verdict, audit};
pub use cmh_segment3::{Segment, SegmentFault};
