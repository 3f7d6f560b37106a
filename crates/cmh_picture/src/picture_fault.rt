//! Why no picture is made.

ghost use Rattle.std.specs.Prelude.{◌≡◌, ◌≢◌, [], ◌∷◌, ◌++◌};
ghost use Rattle.cmh_console.specs.Device.{Tells};
ghost use Rattle.cmh_console.specs.Status.{IsStatus};
ghost use Rattle.cmh_files.specs.declared.audit_fault.AuditFault as faults;
ghost use Rattle.cmh_picture.specs.PictureFaults as spec;
ghost use Rattle.cmh_picture.specs.declared.picture_fault.PictureFault.TheVariants.{Audit};

use cmh_console::{Fault, Output, WriteFault};
use cmh_files::AuditFault;
use std::alloc::{AllocError, AllocFailed};
use std::io::Write;

/// Why no picture is made.
#[derive(Clone, Copy)]
pub enum PictureFault {
    /// The journals can't be audited, or the picture can't be written.
    Audit(AuditFault),
    /// A picture of so many entries and frames would not open in good time.
    TooManyMarks,
}

impl PictureFault {
    /// Names the fault on `err`, a write to which may fail, and answers the status with which the program ends.
    pub fn name_on<E: Write>(self, err: &mut Output<E>) -> u8
        ensures status { result ≡ spec.picture_status self }
        ensures ends { IsStatus result }
        ensures fails { result ≢ 0 }
        ensures named { Tells err.old.written err.new.written err.new.has_failed
            (spec.picture_fault_text self ++ 10 ∷ []) }
    {
        match self {
            PictureFault::Audit(fault) => Fault::from(fault).name_on(err),
            PictureFault::TooManyMarks => {
                let _ = err.write_line("fault picture");
                3
            }
        }
    }
}

impl From<AuditFault> for PictureFault {
    ghost from_gives = { λ lower fault. fault ≡ Audit lower };

    fn from(fault: AuditFault) -> PictureFault {
        PictureFault::Audit(fault)
    }
}

impl From<WriteFault> for PictureFault {
    ghost from_gives = { λ _ fault. fault ≡ Audit faults.AuditFault.Output };

    fn from(_: WriteFault) -> PictureFault {
        PictureFault::Audit(AuditFault::Output)
    }
}

impl From<AllocError> for PictureFault {
    ghost from_gives = { λ _ fault. fault ≡ Audit faults.AuditFault.Memory };

    fn from(_: AllocError) -> PictureFault {
        PictureFault::Audit(AuditFault::Memory)
    }
}

impl<T: Drop> From<AllocFailed<T>> for PictureFault {
    ghost from_gives = { λ _ fault. fault ≡ Audit faults.AuditFault.Memory };

    fn from(_: AllocFailed<T>) -> PictureFault {
        PictureFault::Audit(AuditFault::Memory)
    }
}
