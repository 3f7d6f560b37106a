//! Cycles of waits: the shortest one through a process, and of those the least.
#![tactic(auto)]

mod cycle;
mod graph;
mod unions;

pub use crate::cycle::shortest_cycle;
pub use crate::graph::{Graph, place_of};
