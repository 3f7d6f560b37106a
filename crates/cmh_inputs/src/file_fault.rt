//! Why a file that the command line names is not read.

ghost use Rattle.std.specs.Prelude.{◌≡◌};
ghost use Rattle.cmh_inputs.specs.FileFaults.{as_fault};
ghost use Rattle.cmh_inputs.specs.declared.file_fault.FileFault.TheVariants.{Memory};

use cmh_console::Fault;
use std::alloc::{AllocError, AllocFailed};

/// Why a file that the command line names is not read.
#[derive(Clone, Copy)]
pub enum FileFault {
    /// The topology can't be read.
    Topology,
    /// The script can't be read.
    Script,
    /// The journal at this place in the command, from 1, can't be read.
    Journal(usize),
    /// Memory was refused.
    Memory,
}

impl From<FileFault> for Fault {
    ghost from_gives = { λ lower fault. fault ≡ as_fault lower };

    fn from(fault: FileFault) -> Fault {
        match fault {
            FileFault::Topology => Fault::TopologyFile,
            FileFault::Script => Fault::ScriptFile,
            FileFault::Journal(place) => Fault::JournalFile(place),
            FileFault::Memory => Fault::Memory,
        }
    }
}

impl From<AllocError> for FileFault {
    ghost from_gives = { λ _ fault. fault ≡ Memory };

    fn from(_: AllocError) -> FileFault {
        FileFault::Memory
    }
}

impl<T: Drop> From<AllocFailed<T>> for FileFault {
    ghost from_gives = { λ _ fault. fault ≡ Memory };

    fn from(_: AllocFailed<T>) -> FileFault {
        FileFault::Memory
    }
}
