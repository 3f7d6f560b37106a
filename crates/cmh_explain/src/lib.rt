//! What the line of a fault means, for people: a second line on standard error.
#![tactic(auto)]

mod explaining;
mod listener;
mod topology_trouble;

pub use crate::explaining::explanation;
pub use crate::listener::Listener;
