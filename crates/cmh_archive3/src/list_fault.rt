//! Why the segments of a world are not listed.

ghost use Rattle.std.specs.Prelude.{◌≡◌};
ghost use Rattle.cmh_archive3.specs.ListFaults as spec;
ghost use Rattle.cmh_archive3.specs.declared.list_fault.ListFault.TheVariants.{Audit, File};
ghost use Rattle.cmh_files3.specs.AuditFaults.{of_topology, of_topology_file};
ghost use Rattle.cmh_files3.specs.declared.audit_fault.AuditFault.TheVariants.{Memory, Output, Set};

use cmh_audit3::SetFault;
use cmh_console::{Fault, TopologyFileFault, WriteFault};
use cmh_files3::AuditFault;
use cmh_inputs::FileFault;
use cmh_topology3::TopologyFault;
use std::alloc::{AllocError, AllocFailed};

/// Why the segments of a world are not listed: the faults of an audit.
#[derive(Clone, Copy)]
pub enum ListFault {
    /// A file can't be read.
    File(FileFault),
    /// What the files hold, the output or memory is at fault.
    Audit(AuditFault),
}

impl From<ListFault> for Fault {
    ghost from_gives = { λ lower fault. fault ≡ spec.as_fault lower };

    fn from(fault: ListFault) -> Fault {
        match fault {
            ListFault::File(fault) => Fault::from(fault),
            ListFault::Audit(fault) => Fault::from(fault),
        }
    }
}

impl From<FileFault> for ListFault {
    ghost from_gives = { λ lower fault. fault ≡ File lower };

    fn from(fault: FileFault) -> ListFault {
        ListFault::File(fault)
    }
}

impl From<SetFault> for ListFault {
    ghost from_gives = { λ lower fault. fault ≡ Audit (Set lower) };

    fn from(fault: SetFault) -> ListFault {
        ListFault::Audit(AuditFault::Set(fault))
    }
}

impl From<TopologyFileFault> for ListFault {
    ghost from_gives = { λ lower fault. fault ≡ Audit (of_topology_file lower) };

    fn from(fault: TopologyFileFault) -> ListFault {
        ListFault::Audit(AuditFault::from(fault))
    }
}

impl From<TopologyFault> for ListFault {
    ghost from_gives = { λ lower fault. fault ≡ Audit (of_topology lower) };

    fn from(fault: TopologyFault) -> ListFault {
        ListFault::Audit(AuditFault::from(fault))
    }
}

impl From<WriteFault> for ListFault {
    ghost from_gives = { λ _ fault. fault ≡ Audit Output };

    fn from(_: WriteFault) -> ListFault {
        ListFault::Audit(AuditFault::Output)
    }
}

impl From<AllocError> for ListFault {
    ghost from_gives = { λ _ fault. fault ≡ Audit Memory };

    fn from(_: AllocError) -> ListFault {
        ListFault::Audit(AuditFault::Memory)
    }
}

impl<T: Drop> From<AllocFailed<T>> for ListFault {
    ghost from_gives = { λ _ fault. fault ≡ Audit Memory };

    fn from(_: AllocFailed<T>) -> ListFault {
        ListFault::Audit(AuditFault::Memory)
    }
}
