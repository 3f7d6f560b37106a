//! The command `cluster` of edition 3: all sites of a topology in one thread, each a node over the folder of its journal, with
//! their connections carried in memory, so that a script can kill sites, start them again, and cut links.
//!
//! The sites and their links are a value. What opens a site is a trait: `DiskFolders` are the folders on the disk.
#![tactic(auto)]

mod answering;
mod cluster;
mod cluster_fault;
mod folders;
mod line;
mod link;
mod no_node;
mod places;
mod reply;
mod stepping;
mod world;

pub use crate::cluster::{ClusterStart3, run_cluster3, run_cluster3_in};
pub use crate::cluster_fault::ClusterFault3;
pub use crate::folders::{DiskFolders, Folders, Opener};
pub use crate::line::{ClusterLine, LinkOrder, SiteOrder, parse};
pub use crate::no_node::NoNode;
pub use crate::reply::{ClusterReply, KeptLink};
