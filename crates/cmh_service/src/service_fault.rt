//! Why a service ends.

ghost use Rattle.std.specs.Prelude.{◌≡◌};
ghost use Rattle.cmh_service.specs.ServiceFaults.{as_fault, of_setting, of_shortage, of_site};
ghost use Rattle.cmh_service.specs.declared.service_fault.ServiceFault.TheVariants.{Memory};
ghost use Rattle.cmh_service.specs.declared.service_fault.Shortage.TheVariants as shortages;

use cmh_console::Fault;
use cmh_frames::TopologyFault;
use cmh_host::{SettingFault, SiteFault};
use std::alloc::{AllocError, AllocFailed};

/// Why a service ends.
#[derive(Clone, Copy)]
pub enum ServiceFault {
    /// What the topology file holds is not the JSON of a topology with ports.
    Json,
    /// The sites of the topology file make no topology.
    Topology(TopologyFault),
    /// The site isn't in the topology.
    Site,
    /// The journal can't be made.
    JournalDisk,
    /// The site can't listen on its port, or the service on that for its clients, or it can't wait for them any more.
    Listen,
    /// It can't say that it listens.
    Output,
    /// Memory or a thread was refused, and no answer can say so.
    Memory,
}

/// What a service that has its topology runs short of.
#[derive(Clone, Copy)]
pub(crate) enum Shortage {
    /// It can't listen for its clients, or can't wait for them any more.
    Listen,
    /// Memory or a thread was refused.
    Memory,
}

impl From<ServiceFault> for Fault {
    ghost from_gives = { λ lower fault. fault ≡ as_fault lower };

    fn from(fault: ServiceFault) -> Fault {
        match fault {
            ServiceFault::Json => Fault::Json,
            ServiceFault::Topology(fault) => Fault::Topology(fault),
            ServiceFault::Site => Fault::Site,
            ServiceFault::JournalDisk => Fault::JournalDisk,
            ServiceFault::Listen => Fault::Listen,
            ServiceFault::Output => Fault::Output,
            ServiceFault::Memory => Fault::Memory,
        }
    }
}

impl From<SettingFault> for ServiceFault {
    ghost from_gives = { λ lower fault. fault ≡ of_setting lower };

    fn from(fault: SettingFault) -> ServiceFault {
        match fault {
            SettingFault::Json => ServiceFault::Json,
            SettingFault::Topology(fault) => ServiceFault::Topology(fault),
            SettingFault::Memory => ServiceFault::Memory,
        }
    }
}

impl From<SiteFault> for ServiceFault {
    ghost from_gives = { λ lower fault. fault ≡ of_site lower };

    fn from(fault: SiteFault) -> ServiceFault {
        match fault {
            SiteFault::Json => ServiceFault::Json,
            SiteFault::Topology(fault) => ServiceFault::Topology(fault),
            SiteFault::Site => ServiceFault::Site,
            SiteFault::JournalDisk => ServiceFault::JournalDisk,
            SiteFault::Listen => ServiceFault::Listen,
            // A service reads no lines of an input, so this never comes.
            SiteFault::Input => ServiceFault::Listen,
            SiteFault::Output => ServiceFault::Output,
            SiteFault::Memory => ServiceFault::Memory,
        }
    }
}

impl From<Shortage> for ServiceFault {
    ghost from_gives = { λ lower fault. fault ≡ of_shortage lower };

    fn from(shortage: Shortage) -> ServiceFault {
        match shortage {
            Shortage::Listen => ServiceFault::Listen,
            Shortage::Memory => ServiceFault::Memory,
        }
    }
}

impl From<AllocError> for ServiceFault {
    ghost from_gives = { λ _ fault. fault ≡ Memory };

    fn from(_: AllocError) -> ServiceFault {
        ServiceFault::Memory
    }
}

impl From<AllocError> for Shortage {
    ghost from_gives = { λ _ shortage. shortage ≡ shortages.Memory };

    fn from(_: AllocError) -> Shortage {
        Shortage::Memory
    }
}

impl<T: Drop> From<AllocFailed<T>> for Shortage {
    ghost from_gives = { λ _ shortage. shortage ≡ shortages.Memory };

    fn from(_: AllocFailed<T>) -> Shortage {
        Shortage::Memory
    }
}
