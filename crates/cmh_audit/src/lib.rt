//! The auditor: whether the journals of all sites come from one run, and what that run comes to.
#![tactic(auto)]

mod count;
mod declared;
mod entries;
mod merge;
mod open_waits;
mod places;
mod report;
mod runs;
mod set;
mod step;
mod stops;
mod survey;
mod totals;
mod verdict;
mod waits;
mod walk;

pub use crate::entries::entries_at;
pub use crate::report::Report;
pub use crate::runs::run_of;
pub use crate::set::{check_set, place_of};
pub use crate::step::Step;
pub use crate::stops::Stops;
pub use crate::totals::Totals;
pub use crate::verdict::{AuditMemory, Verdict, audit};
pub use cmh_journal::SetFault;
