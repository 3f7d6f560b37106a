//! The command `cluster`, which runs all sites of a topology as threads of one program.
#![tactic(auto)]

mod cluster;
mod cluster_fault;
mod descriptors;
mod settling;
mod strictly;

pub use crate::cluster::{
    ClusterEnd, ClusterStart, run_cluster, run_cluster_counting, run_cluster_noting,
};
pub use crate::cluster_fault::ClusterFault;
pub use crate::descriptors::{Shortage, allowed_descriptors, shortage_of};
pub use crate::strictly::run_cluster_strictly;
