//! The model of edition 3, in which a process may withdraw: what happens at a controller, what sites send to one another,
//! the rules, and the laws of all runs.
//!
//! The definitions are in `specs/`, over the journals, runs and stops of `cmh_runs`. Section 8 of `docs/rules.md` explains
//! them. No command of the program has this edition yet.
#![tactic(auto)]

mod event;
mod frame;
mod laws;
mod stamp;

pub use crate::event::{Event, Targets};
pub use crate::frame::{Frame, Message};
pub use crate::laws::{
    delivery_law, each_cycle_law, growing_law, journal_law, no_phantom_law, none_missed_law,
    order_law, outcome_law, rest_law, stop_law, turn_law, victim_law, wait_law, withdrawal_law,
    witness_law,
};
pub use crate::stamp::Stamp;
pub use cmh_runs::{Entry, Outcome, ProcId, Sendings, SiteId, WorldEvent};
