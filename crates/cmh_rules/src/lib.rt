//! What a controller finds when a probe computation starts, and when a probe comes to it.
//!
//! Neither call changes anything; the caller brings about what the verdict says.
#![tactic(auto)]

mod edges;
mod receipts;
mod starts;

pub use crate::receipts::{ProbeVerdict, on_probe};
pub use crate::starts::{StartVerdict, start};
