//! Why a cluster of edition 3 ends without an audit.

ghost use Rattle.std.specs.Prelude.{◌≡◌};
ghost use Rattle.cmh_cluster3.specs.Faults.{as_fault, of_dialogue, of_file, of_node, of_topology, of_topology_file};
ghost use Rattle.cmh_cluster3.specs.declared.cluster_fault.ClusterFault3.TheVariants.{Output, Memory};

use crate::no_node::NoNode;
use cmh_console::{DialogueFault, Fault, NoFile, TopologyFileFault, WriteFault};
use cmh_frames::TopologyFault;
use std::alloc::AllocError;

/// Why a cluster of edition 3 ends without an audit.
#[derive(Clone, Copy)]
pub enum ClusterFault3 {
    /// What the topology file holds is not the JSON of a topology of edition 3.
    Json,
    /// The sites of the topology file make no topology.
    Topology(TopologyFault),
    /// The script is too long to be counted.
    ScriptFile,
    /// A journal can't be made or read back.
    OutFile,
    /// The answers can't be written.
    Output,
    /// Memory was refused, and no answer can say so.
    Memory,
}

impl From<ClusterFault3> for Fault {
    ghost from_gives = { λ lower fault. fault ≡ as_fault lower };

    fn from(fault: ClusterFault3) -> Fault {
        match fault {
            ClusterFault3::Json => Fault::Json,
            ClusterFault3::Topology(fault) => Fault::Topology(fault),
            ClusterFault3::ScriptFile => Fault::ScriptFile,
            ClusterFault3::OutFile => Fault::OutFile,
            ClusterFault3::Output => Fault::Output,
            ClusterFault3::Memory => Fault::Memory,
        }
    }
}

impl From<TopologyFileFault> for ClusterFault3 {
    ghost from_gives = { λ lower fault. fault ≡ of_topology_file lower };

    fn from(fault: TopologyFileFault) -> ClusterFault3 {
        match fault {
            TopologyFileFault::Json => ClusterFault3::Json,
            TopologyFileFault::Memory => ClusterFault3::Memory,
        }
    }
}

impl From<TopologyFault> for ClusterFault3 {
    ghost from_gives = { λ lower fault. fault ≡ of_topology lower };

    fn from(fault: TopologyFault) -> ClusterFault3 {
        match fault {
            TopologyFault::Memory => ClusterFault3::Memory,
            _ => ClusterFault3::Topology(fault),
        }
    }
}

impl From<NoFile> for ClusterFault3 {
    ghost from_gives = { λ lower fault. fault ≡ of_file lower };

    fn from(fault: NoFile) -> ClusterFault3 {
        match fault {
            NoFile::Disk => ClusterFault3::OutFile,
            NoFile::Memory => ClusterFault3::Memory,
        }
    }
}

impl From<NoNode> for ClusterFault3 {
    ghost from_gives = { λ lower fault. fault ≡ of_node lower };

    fn from(fault: NoNode) -> ClusterFault3 {
        match fault {
            NoNode::Memory => ClusterFault3::Memory,
            _ => ClusterFault3::OutFile,
        }
    }
}

impl From<DialogueFault> for ClusterFault3 {
    ghost from_gives = { λ lower fault. fault ≡ of_dialogue lower };

    fn from(fault: DialogueFault) -> ClusterFault3 {
        match fault {
            DialogueFault::Input => ClusterFault3::ScriptFile,
            DialogueFault::Output => ClusterFault3::Output,
            DialogueFault::Memory => ClusterFault3::Memory,
        }
    }
}

impl From<WriteFault> for ClusterFault3 {
    ghost from_gives = { λ _ fault. fault ≡ Output };

    fn from(_: WriteFault) -> ClusterFault3 {
        ClusterFault3::Output
    }
}

impl From<AllocError> for ClusterFault3 {
    ghost from_gives = { λ _ fault. fault ≡ Memory };

    fn from(_: AllocError) -> ClusterFault3 {
        ClusterFault3::Memory
    }
}
