//! The laws of runs, and the frames that are under way in one.
//!
//! The laws stand over the definitions of `cmh_frames` alone; `docs/rules.md` explains each.
#![tactic(auto)]

mod laws;
mod links;

pub use crate::laws::{
    count_law, count_law_of_every_run, cut_law, cut_law_of_every_run, dark_path_law,
    dark_path_of_every_run, deadlock_is_found_law, delivery_law, drained_law,
    drained_law_of_every_run, growing_law, journal_law, order_law, order_law_of_every_run,
    outcome_law, settling_law, stranger_law, wait_law,
};
pub use crate::links::Links;
pub use cmh_frames::WorldEvent;
