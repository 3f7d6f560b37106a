//! Why a script is not played to its end.

ghost use Rattle.std.specs.Prelude.{◌≡◌};
ghost use Rattle.cmh_console.specs.Dialogue.{of_line};
ghost use Rattle.cmh_play.specs.PlayFaults.{as_fault, of_dialogue, of_keeper};
ghost use Rattle.cmh_play.specs.declared.play_fault.PlayFault.TheVariants.{Output, Memory};

use cmh_console::{Fault, LineFault, NoFile, WriteFault};
use std::alloc::AllocError;

/// Why a script is not played to its end, or its journals are not kept.
#[derive(Clone, Copy)]
pub enum PlayFault {
    /// The script can't be read.
    Input,
    /// The answers can't be written.
    Output,
    /// The journals can't be kept.
    OutFile,
    /// Memory was refused, and no answer can say so.
    Memory,
}

impl From<PlayFault> for Fault {
    ghost from_gives = { λ lower fault. fault ≡ as_fault lower };

    fn from(fault: PlayFault) -> Fault {
        match fault {
            PlayFault::Input => Fault::Input,
            PlayFault::Output => Fault::Output,
            PlayFault::OutFile => Fault::OutFile,
            PlayFault::Memory => Fault::Memory,
        }
    }
}

impl From<LineFault> for PlayFault {
    ghost from_gives = { λ lower fault. fault ≡ of_dialogue (of_line lower) };

    fn from(fault: LineFault) -> PlayFault {
        match fault {
            LineFault::Input => PlayFault::Input,
            LineFault::Memory => PlayFault::Memory,
        }
    }
}

impl From<WriteFault> for PlayFault {
    ghost from_gives = { λ _ fault. fault ≡ Output };

    fn from(_: WriteFault) -> PlayFault {
        PlayFault::Output
    }
}

impl From<NoFile> for PlayFault {
    ghost from_gives = { λ lower fault. fault ≡ of_keeper lower };

    fn from(fault: NoFile) -> PlayFault {
        match fault {
            NoFile::Disk => PlayFault::OutFile,
            NoFile::Memory => PlayFault::Memory,
        }
    }
}

impl From<AllocError> for PlayFault {
    ghost from_gives = { λ _ fault. fault ≡ Memory };

    fn from(_: AllocError) -> PlayFault {
        PlayFault::Memory
    }
}
