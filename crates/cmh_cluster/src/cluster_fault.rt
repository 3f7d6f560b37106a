//! Why a cluster ends without an audit.

ghost use Rattle.std.specs.Prelude.{◌≡◌};
ghost use Rattle.cmh_cluster.specs.ClusterFaults.{as_fault, of_dialogue, of_file, of_setting};
ghost use Rattle.cmh_cluster.specs.declared.cluster_fault.ClusterFault.TheVariants.{Output, Memory};

use cmh_console::{DialogueFault, Fault, NoFile, WriteFault};
use cmh_frames::TopologyFault;
use cmh_host::SettingFault;
use std::alloc::{AllocError, AllocFailed};

/// Why a cluster ends without an audit.
#[derive(Clone, Copy)]
pub enum ClusterFault {
    /// What the topology file holds is not the JSON of a topology with ports.
    Json,
    /// The sites of the topology file make no topology.
    Topology(TopologyFault),
    /// The script is too long to be counted.
    ScriptFile,
    /// A journal can't be made or read back.
    OutFile,
    /// A site can't listen on its port.
    Listen,
    /// The answers can't be written.
    Output,
    /// Memory or a thread was refused, and no answer can say so.
    Memory,
}

impl From<ClusterFault> for Fault {
    ghost from_gives = { λ lower fault. fault ≡ as_fault lower };

    fn from(fault: ClusterFault) -> Fault {
        match fault {
            ClusterFault::Json => Fault::Json,
            ClusterFault::Topology(fault) => Fault::Topology(fault),
            ClusterFault::ScriptFile => Fault::ScriptFile,
            ClusterFault::OutFile => Fault::OutFile,
            ClusterFault::Listen => Fault::Listen,
            ClusterFault::Output => Fault::Output,
            ClusterFault::Memory => Fault::Memory,
        }
    }
}

impl From<SettingFault> for ClusterFault {
    ghost from_gives = { λ lower fault. fault ≡ of_setting lower };

    fn from(fault: SettingFault) -> ClusterFault {
        match fault {
            SettingFault::Json => ClusterFault::Json,
            SettingFault::Topology(fault) => ClusterFault::Topology(fault),
            SettingFault::Memory => ClusterFault::Memory,
        }
    }
}

impl From<DialogueFault> for ClusterFault {
    ghost from_gives = { λ lower fault. fault ≡ of_dialogue lower };

    fn from(fault: DialogueFault) -> ClusterFault {
        match fault {
            DialogueFault::Input => ClusterFault::ScriptFile,
            DialogueFault::Output => ClusterFault::Output,
            DialogueFault::Memory => ClusterFault::Memory,
        }
    }
}

impl From<NoFile> for ClusterFault {
    ghost from_gives = { λ lower fault. fault ≡ of_file lower };

    fn from(fault: NoFile) -> ClusterFault {
        match fault {
            NoFile::Disk => ClusterFault::OutFile,
            NoFile::Memory => ClusterFault::Memory,
        }
    }
}

impl From<WriteFault> for ClusterFault {
    ghost from_gives = { λ _ fault. fault ≡ Output };

    fn from(_: WriteFault) -> ClusterFault {
        ClusterFault::Output
    }
}

impl From<AllocError> for ClusterFault {
    ghost from_gives = { λ _ fault. fault ≡ Memory };

    fn from(_: AllocError) -> ClusterFault {
        ClusterFault::Memory
    }
}

impl<T: Drop> From<AllocFailed<T>> for ClusterFault {
    ghost from_gives = { λ _ fault. fault ≡ Memory };

    fn from(_: AllocFailed<T>) -> ClusterFault {
        ClusterFault::Memory
    }
}
