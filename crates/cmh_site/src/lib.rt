//! The commands `site` and `cluster`, and the functions of the other commands that callers want under one name.
#![tactic(auto)]

pub use cmh_carriers::{NoVoice, Note, Noted, Voice};
pub use cmh_cluster::{
    ClusterEnd, ClusterFault, ClusterStart, Shortage, allowed_descriptors, run_cluster,
    run_cluster_counting, run_cluster_noting, run_cluster_strictly, shortage_of,
};
pub use cmh_console::{
    Ahead, Fault, Input, NoFile, Output, TopologyFile, TopologyFileFault, read_topology_file,
    read_topology_file_with_ports,
};
pub use cmh_files::{run_audit, run_show};
pub use cmh_host::{LinkEnds, SiteFault, SiteReply, SiteStart, System};
pub use cmh_play::{Folder, Keeper, NoKeeper, PlayFault, run_play, run_play_keeping};
pub use cmh_run_site::{run_site, run_site_noting};
