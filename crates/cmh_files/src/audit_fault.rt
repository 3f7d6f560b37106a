//! Why an audit ends without a verdict.

ghost use Rattle.std.specs.Prelude.{◌≡◌};
ghost use Rattle.cmh_files.specs.AuditFaults as spec;
ghost use Rattle.cmh_files.specs.declared.audit_fault.AuditFault.TheVariants.{Set, Output, Memory};

use cmh_console::{Fault, TopologyFileFault, WriteFault};
use cmh_frames::TopologyFault;
use cmh_journal::{JournalFault, SetFault};
use std::alloc::{AllocError, AllocFailed};

/// Why an audit ends without a verdict, and why the journals are not drawn.
#[derive(Clone, Copy)]
pub enum AuditFault {
    /// What the topology file holds is not the JSON of a topology.
    Json,
    /// The sites of the topology file make no topology.
    Topology(TopologyFault),
    /// What the file at this place in the command, from 1, holds is no journal.
    Journal(usize, JournalFault),
    /// The journals are not those of one world.
    Set(SetFault),
    /// The answer can't be written.
    Output,
    /// Memory was refused.
    Memory,
}

impl AuditFault {
    /// The fault of the journal at this place in the command.
    pub fn of_journal(place: usize, fault: JournalFault) -> AuditFault
        ensures { result ≡ spec.of_journal place fault }
    {
        match fault {
            JournalFault::Memory => AuditFault::Memory,
            _ => AuditFault::Journal(place, fault),
        }
    }
}

impl From<AuditFault> for Fault {
    ghost from_gives = { λ lower fault. fault ≡ spec.as_fault lower };

    fn from(fault: AuditFault) -> Fault {
        match fault {
            AuditFault::Json => Fault::Json,
            AuditFault::Topology(fault) => Fault::Topology(fault),
            AuditFault::Journal(place, fault) => Fault::Journal(place, fault),
            AuditFault::Set(fault) => Fault::Set(fault),
            AuditFault::Output => Fault::Output,
            AuditFault::Memory => Fault::Memory,
        }
    }
}

impl From<TopologyFileFault> for AuditFault {
    ghost from_gives = { λ lower fault. fault ≡ spec.of_file lower };

    fn from(fault: TopologyFileFault) -> AuditFault {
        match fault {
            TopologyFileFault::Json => AuditFault::Json,
            TopologyFileFault::Memory => AuditFault::Memory,
        }
    }
}

impl From<TopologyFault> for AuditFault {
    ghost from_gives = { λ lower fault. fault ≡ spec.of_topology lower };

    fn from(fault: TopologyFault) -> AuditFault {
        match fault {
            TopologyFault::Memory => AuditFault::Memory,
            _ => AuditFault::Topology(fault),
        }
    }
}

impl From<SetFault> for AuditFault {
    ghost from_gives = { λ lower fault. fault ≡ Set lower };

    fn from(fault: SetFault) -> AuditFault {
        AuditFault::Set(fault)
    }
}

impl From<WriteFault> for AuditFault {
    ghost from_gives = { λ _ fault. fault ≡ Output };

    fn from(_: WriteFault) -> AuditFault {
        AuditFault::Output
    }
}

impl From<AllocError> for AuditFault {
    ghost from_gives = { λ _ fault. fault ≡ Memory };

    fn from(_: AllocError) -> AuditFault {
        AuditFault::Memory
    }
}

impl<T: Drop> From<AllocFailed<T>> for AuditFault {
    ghost from_gives = { λ _ fault. fault ≡ Memory };

    fn from(_: AllocFailed<T>) -> AuditFault {
        AuditFault::Memory
    }
}
