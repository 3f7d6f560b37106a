//! Runs of sites that step, send frames and keep journals, whatever the rules of their controllers are: numbers;
//! sendings, entries and the events of a world over any event and any frame; journals, runs and stops over a record of
//! rules; and the laws that hold for all rules.
//!
//! A model gives its events, its frames and its rules, as `cmh_frames` does, and gets these definitions and laws for them.
#![tactic(auto)]

mod entry;
mod number;

pub use crate::entry::{Entry, Outcome, Sendings, WorldEvent};
pub use crate::number::{ProcId, SiteId, is_number};
