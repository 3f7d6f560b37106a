//! Why an audit of edition 3 ends without a verdict.

ghost use Rattle.std.specs.Prelude.{◌≡◌};
ghost use Rattle.cmh_files3.specs.AuditFaults as spec;
ghost use Rattle.cmh_files3.specs.declared.audit_fault.AuditFault.TheVariants.{Memory, Output, Set};

use cmh_audit3::{AuditMemory, FileFault, SegmentFault, SetFault};
use cmh_console::{Fault, TopologyFileFault, WriteFault};
use cmh_journal::{JournalFault, SetFault as OlderSetFault};
use cmh_topology3::TopologyFault;
use std::alloc::{AllocError, AllocFailed};

/// Why an audit ends without a verdict.
#[derive(Clone, Copy)]
pub enum AuditFault {
    /// What the topology file holds is not the JSON of a topology of edition 3.
    Json,
    /// The sites of the topology file make no topology.
    Topology(TopologyFault),
    /// The file at this place in the command, from 1, does not begin with a segment.
    NoSegment(usize),
    /// The file at this place in the command, from 1, is damaged at this byte.
    Damaged(usize, u64),
    /// A file is a journal of edition 1 or 2.
    OtherEdition,
    /// The journals are not those of one world.
    Set(SetFault),
    /// The answer can't be written.
    Output,
    /// Memory was refused.
    Memory,
}

impl AuditFault {
    /// The fault of the file at this place in the command.
    pub fn of_file(place: usize, fault: FileFault) -> AuditFault
        ensures { result ≡ spec.of_file place fault }
    {
        match fault {
            FileFault::OtherEdition => AuditFault::OtherEdition,
            FileFault::Segment(SegmentFault::BadHead) => AuditFault::NoSegment(place),
            FileFault::Segment(SegmentFault::Damaged(byte)) => AuditFault::Damaged(place, byte),
            FileFault::Segment(SegmentFault::Memory) => AuditFault::Memory,
        }
    }
}

impl From<AuditFault> for Fault {
    ghost from_gives = { λ lower fault. fault ≡ spec.as_fault lower };

    fn from(fault: AuditFault) -> Fault {
        match fault {
            AuditFault::Json => Fault::Json,
            AuditFault::Topology(fault) => Fault::Topology(fault),
            AuditFault::NoSegment(place) => Fault::Journal(place, JournalFault::BadHeader),
            AuditFault::Damaged(place, byte) => Fault::Journal(place, JournalFault::BadEntry(byte)),
            AuditFault::OtherEdition => Fault::Set(OlderSetFault::OtherEdition),
            AuditFault::Set(SetFault::UnknownSite) => Fault::Set(OlderSetFault::UnknownSite),
            AuditFault::Set(SetFault::RepeatedSite) => Fault::Set(OlderSetFault::RepeatedSite),
            AuditFault::Set(SetFault::MissingSite) => Fault::Set(OlderSetFault::MissingSite),
            AuditFault::Set(SetFault::OtherWorld) => Fault::OtherWorld,
            AuditFault::Set(SetFault::LaterEpoch) => Fault::LaterEpoch,
            AuditFault::Output => Fault::Output,
            AuditFault::Memory => Fault::Memory,
        }
    }
}

impl From<TopologyFileFault> for AuditFault {
    ghost from_gives = { λ lower fault. fault ≡ spec.of_topology_file lower };

    fn from(fault: TopologyFileFault) -> AuditFault {
        match fault {
            TopologyFileFault::Json => AuditFault::Json,
            TopologyFileFault::Memory => AuditFault::Memory,
        }
    }
}

impl From<TopologyFault> for AuditFault {
    ghost from_gives = { λ lower fault. fault ≡ spec.of_topology lower };

    fn from(fault: TopologyFault) -> AuditFault {
        match fault {
            TopologyFault::Memory => AuditFault::Memory,
            _ => AuditFault::Topology(fault),
        }
    }
}

impl From<SetFault> for AuditFault {
    ghost from_gives = { λ lower fault. fault ≡ Set lower };

    fn from(fault: SetFault) -> AuditFault {
        AuditFault::Set(fault)
    }
}

impl From<WriteFault> for AuditFault {
    ghost from_gives = { λ _ fault. fault ≡ Output };

    fn from(_: WriteFault) -> AuditFault {
        AuditFault::Output
    }
}

impl From<AuditMemory> for AuditFault {
    ghost from_gives = { λ _ fault. fault ≡ Memory };

    fn from(_: AuditMemory) -> AuditFault {
        AuditFault::Memory
    }
}

impl From<AllocError> for AuditFault {
    ghost from_gives = { λ _ fault. fault ≡ Memory };

    fn from(_: AllocError) -> AuditFault {
        AuditFault::Memory
    }
}

impl<T: Drop> From<AllocFailed<T>> for AuditFault {
    ghost from_gives = { λ _ fault. fault ≡ Memory };

    fn from(_: AllocFailed<T>) -> AuditFault {
        AuditFault::Memory
    }
}
