//! Lines of an input that are answered one after the other.

ghost use Rattle.std.specs.Prelude.{◌≡◌};
ghost use Rattle.cmh_console.specs.Dialogue as spec;
ghost use Rattle.cmh_console.specs.declared.dialogue.DialogueFault.TheVariants.{Output, Memory};

use crate::device::WriteFault;
use crate::lines::LineFault;
use std::alloc::{AllocError, AllocFailed};

/// Whether the next line is awaited.
#[derive(Clone, Copy)]
pub enum Flow {
    Awaits,
    Ends,
}

/// Why not all lines of an input were answered.
#[derive(Clone, Copy)]
pub enum DialogueFault {
    /// The input can't be read.
    Input,
    /// The answers can't be written.
    Output,
    /// Memory was refused, and no answer can say so.
    Memory,
}

impl From<LineFault> for DialogueFault {
    ghost from_gives = { λ lower fault. fault ≡ spec.of_line lower };

    fn from(fault: LineFault) -> DialogueFault {
        match fault {
            LineFault::Input => DialogueFault::Input,
            LineFault::Memory => DialogueFault::Memory,
        }
    }
}

impl From<WriteFault> for DialogueFault {
    ghost from_gives = { λ _ fault. fault ≡ Output };

    fn from(_: WriteFault) -> DialogueFault {
        DialogueFault::Output
    }
}

impl From<AllocError> for DialogueFault {
    ghost from_gives = { λ _ fault. fault ≡ Memory };

    fn from(_: AllocError) -> DialogueFault {
        DialogueFault::Memory
    }
}

impl<T: Drop> From<AllocFailed<T>> for DialogueFault {
    ghost from_gives = { λ _ fault. fault ≡ Memory };

    fn from(_: AllocFailed<T>) -> DialogueFault {
        DialogueFault::Memory
    }
}
