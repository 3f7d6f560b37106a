//! Why no page of edition 3 is made.

ghost use Rattle.std.specs.Prelude.{◌≡◌};
ghost use Rattle.cmh_files3.specs.declared.audit_fault.AuditFault as faults;
ghost use Rattle.cmh_page3.specs.declared.page_fault.PageFault.TheVariants.{Audit};

use cmh_audit3::AuditMemory;
use cmh_console::WriteFault;
use cmh_files3::AuditFault;
use std::alloc::{AllocError, AllocFailed};

/// Why no page is made.
#[derive(Clone, Copy)]
pub enum PageFault {
    /// The journals can't be audited, or the page can't be written.
    Audit(AuditFault),
    /// A page of so many events would not open in good time.
    TooManyEvents,
}

impl From<AuditFault> for PageFault {
    ghost from_gives = { λ lower fault. fault ≡ Audit lower };

    fn from(fault: AuditFault) -> PageFault {
        PageFault::Audit(fault)
    }
}

impl From<AuditMemory> for PageFault {
    ghost from_gives = { λ _ fault. fault ≡ Audit faults.AuditFault.Memory };

    fn from(_: AuditMemory) -> PageFault {
        PageFault::Audit(AuditFault::Memory)
    }
}

impl From<WriteFault> for PageFault {
    ghost from_gives = { λ _ fault. fault ≡ Audit faults.AuditFault.Output };

    fn from(_: WriteFault) -> PageFault {
        PageFault::Audit(AuditFault::Output)
    }
}

impl From<AllocError> for PageFault {
    ghost from_gives = { λ _ fault. fault ≡ Audit faults.AuditFault.Memory };

    fn from(_: AllocError) -> PageFault {
        PageFault::Audit(AuditFault::Memory)
    }
}

impl<T: Drop> From<AllocFailed<T>> for PageFault {
    ghost from_gives = { λ _ fault. fault ≡ Audit faults.AuditFault.Memory };

    fn from(_: AllocFailed<T>) -> PageFault {
        PageFault::Audit(AuditFault::Memory)
    }
}
