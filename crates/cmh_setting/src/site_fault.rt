//! Why a site ends before it is told to.

ghost use Rattle.std.specs.Prelude.{◌≡◌};
ghost use Rattle.cmh_setting.specs.SiteFaults.{as_fault, of_dialogue, of_file, of_setting};
ghost use Rattle.cmh_setting.specs.declared.site_fault.SiteFault.TheVariants.{Output, Memory};

use crate::setting::SettingFault;
use cmh_console::{DialogueFault, Fault, NoFile, WriteFault};
use cmh_frames::TopologyFault;
use std::alloc::{AllocError, AllocFailed};

/// Why a site ends before it is told to, as `site` or as a service.
#[derive(Clone, Copy)]
pub enum SiteFault {
    /// What the topology file holds is not the JSON of a topology with ports.
    Json,
    /// The sites of the topology file make no topology.
    Topology(TopologyFault),
    /// The site isn't in the topology.
    Site,
    /// The journal can't be made.
    JournalDisk,
    /// The site can't listen on its port, or a service on that for its clients.
    Listen,
    /// The lines can't be read.
    Input,
    /// The answers can't be written.
    Output,
    /// Memory or a thread was refused, and no answer can say so.
    Memory,
}

impl From<SiteFault> for Fault {
    ghost from_gives = { λ lower fault. fault ≡ as_fault lower };

    fn from(fault: SiteFault) -> Fault {
        match fault {
            SiteFault::Json => Fault::Json,
            SiteFault::Topology(fault) => Fault::Topology(fault),
            SiteFault::Site => Fault::Site,
            SiteFault::JournalDisk => Fault::JournalDisk,
            SiteFault::Listen => Fault::Listen,
            SiteFault::Input => Fault::Input,
            SiteFault::Output => Fault::Output,
            SiteFault::Memory => Fault::Memory,
        }
    }
}

impl From<SettingFault> for SiteFault {
    ghost from_gives = { λ lower fault. fault ≡ of_setting lower };

    fn from(fault: SettingFault) -> SiteFault {
        match fault {
            SettingFault::Json => SiteFault::Json,
            SettingFault::Topology(fault) => SiteFault::Topology(fault),
            SettingFault::Memory => SiteFault::Memory,
        }
    }
}

impl From<DialogueFault> for SiteFault {
    ghost from_gives = { λ lower fault. fault ≡ of_dialogue lower };

    fn from(fault: DialogueFault) -> SiteFault {
        match fault {
            DialogueFault::Input => SiteFault::Input,
            DialogueFault::Output => SiteFault::Output,
            DialogueFault::Memory => SiteFault::Memory,
        }
    }
}

impl From<NoFile> for SiteFault {
    ghost from_gives = { λ lower fault. fault ≡ of_file lower };

    fn from(fault: NoFile) -> SiteFault {
        match fault {
            NoFile::Disk => SiteFault::JournalDisk,
            NoFile::Memory => SiteFault::Memory,
        }
    }
}

impl From<WriteFault> for SiteFault {
    ghost from_gives = { λ _ fault. fault ≡ Output };

    fn from(_: WriteFault) -> SiteFault {
        SiteFault::Output
    }
}

impl From<AllocError> for SiteFault {
    ghost from_gives = { λ _ fault. fault ≡ Memory };

    fn from(_: AllocError) -> SiteFault {
        SiteFault::Memory
    }
}

impl<T: Drop> From<AllocFailed<T>> for SiteFault {
    ghost from_gives = { λ _ fault. fault ≡ Memory };

    fn from(_: AllocFailed<T>) -> SiteFault {
        SiteFault::Memory
    }
}
