//! Why journals are not shown.

ghost use Rattle.std.specs.Prelude.{◌≡◌};
ghost use Rattle.cmh_files.specs.ShowFaults as spec;
ghost use Rattle.cmh_files.specs.declared.show_fault.ShowFault.TheVariants.{Output, Memory};

use cmh_console::{Fault, WriteFault};
use cmh_journal::JournalFault;
use std::alloc::AllocFailed;

/// Why journals are not shown.
#[derive(Clone, Copy)]
pub enum ShowFault {
    /// What the file at this place in the command, from 1, holds is no journal.
    Journal(usize, JournalFault),
    /// The lines can't be written.
    Output,
    /// Memory was refused.
    Memory,
}

impl ShowFault {
    /// The fault of the journal at this place in the command.
    pub fn of_journal(place: usize, fault: JournalFault) -> ShowFault
        ensures { result ≡ spec.of_journal place fault }
    {
        match fault {
            JournalFault::Memory => ShowFault::Memory,
            _ => ShowFault::Journal(place, fault),
        }
    }
}

impl From<ShowFault> for Fault {
    ghost from_gives = { λ lower fault. fault ≡ spec.as_fault lower };

    fn from(fault: ShowFault) -> Fault {
        match fault {
            ShowFault::Journal(place, fault) => Fault::Journal(place, fault),
            ShowFault::Output => Fault::Output,
            ShowFault::Memory => Fault::Memory,
        }
    }
}

impl From<WriteFault> for ShowFault {
    ghost from_gives = { λ _ fault. fault ≡ Output };

    fn from(_: WriteFault) -> ShowFault {
        ShowFault::Output
    }
}

impl<T: Drop> From<AllocFailed<T>> for ShowFault {
    ghost from_gives = { λ _ fault. fault ≡ Memory };

    fn from(_: AllocFailed<T>) -> ShowFault {
        ShowFault::Memory
    }
}
