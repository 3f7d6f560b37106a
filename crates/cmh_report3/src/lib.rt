//! The report on a world of edition 3: who waits for whom at the end of a run, who cannot ask again yet, and of each
//! process that is declared what became of the cycle on which it lay. The same can be told of each declaration of the run.
//!
//! It is made of the world's entries in one order in which they can have been made, and of the controllers to which they
//! lead. Whoever plays a world has both, and so has whoever merges its journals.
#![tactic(auto)]

mod clocks;
mod cycle;
mod declarations;
mod declared;
mod laws;
mod pairs;
mod report;
mod stop;
mod text;
mod totals;
mod waits;

pub use crate::cycle::{CycleNow, Deadlock};
pub use crate::declarations::declarations_of;
pub use crate::laws::{declarations_law, report_law};
pub use crate::report::Report;
pub use crate::text::Deadlocks;
