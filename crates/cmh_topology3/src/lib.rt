//! The world of edition 3: its number, and which process is at which site.
#![tactic(auto)]

mod rows;
mod topology;
mod world;

pub use crate::topology::Topology;
pub use crate::world::{NoWorld, World};
pub use cmh_frames::{SiteRow, TopologyFault};
pub use cmh_runs::{ProcId, SiteId};
