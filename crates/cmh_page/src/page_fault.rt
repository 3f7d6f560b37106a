//! Why no page is made.

ghost use Rattle.std.specs.Prelude.{◌≡◌, ◌≢◌, [], ◌∷◌, ◌++◌};
ghost use Rattle.cmh_console.specs.Device.{Tells};
ghost use Rattle.cmh_console.specs.Status.{IsStatus};
ghost use Rattle.cmh_files.specs.declared.audit_fault.AuditFault as faults;
ghost use Rattle.cmh_page.specs.PageFaults as spec;
ghost use Rattle.cmh_page.specs.declared.page_fault.PageFault.TheVariants.{Audit};

use cmh_audit::AuditMemory;
use cmh_console::{Fault, Output, WriteFault};
use cmh_files::AuditFault;
use std::alloc::{AllocError, AllocFailed};
use std::io::Write;

/// Why no page is made.
#[derive(Clone, Copy)]
pub enum PageFault {
    /// The journals can't be audited, or the page can't be written.
    Audit(AuditFault),
    /// A page of so many events would not open in good time.
    TooManyEvents,
}

impl PageFault {
    /// Names the fault on `err`, a write to which may fail, and answers the status with which the program ends.
    pub fn name_on<E: Write>(self, err: &mut Output<E>) -> u8
        ensures status { result ≡ spec.page_status self }
        ensures ends { IsStatus result }
        ensures fails { result ≢ 0 }
        ensures named { Tells err.old.written err.new.written err.new.has_failed
            (spec.page_fault_text self ++ 10 ∷ []) }
    {
        match self {
            PageFault::Audit(fault) => Fault::from(fault).name_on(err),
            PageFault::TooManyEvents => {
                let _ = err.write_line("fault page");
                3
            }
        }
    }
}

impl From<AuditFault> for PageFault {
    ghost from_gives = { λ lower fault. fault ≡ Audit lower };

    fn from(fault: AuditFault) -> PageFault {
        PageFault::Audit(fault)
    }
}

impl From<WriteFault> for PageFault {
    ghost from_gives = { λ _ fault. fault ≡ Audit faults.AuditFault.Output };

    fn from(_: WriteFault) -> PageFault {
        PageFault::Audit(AuditFault::Output)
    }
}

impl From<AllocError> for PageFault {
    ghost from_gives = { λ _ fault. fault ≡ Audit faults.AuditFault.Memory };

    fn from(_: AllocError) -> PageFault {
        PageFault::Audit(AuditFault::Memory)
    }
}

impl<T: Drop> From<AllocFailed<T>> for PageFault {
    ghost from_gives = { λ _ fault. fault ≡ Audit faults.AuditFault.Memory };

    fn from(_: AllocFailed<T>) -> PageFault {
        PageFault::Audit(AuditFault::Memory)
    }
}
