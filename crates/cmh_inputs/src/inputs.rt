//! Files that a command can read.

ghost use Rattle.std.specs.Prelude.{◌≡◌, ℕ, List, Option, Some, None, IfErr, IfOk, OnOk, length, option_map};
ghost use Rattle.cmh_inputs.specs.Stored.{IsOpenedAt, Stored, TakesUpTo};

use std::alloc::AllocError;

/// Why a file was not read.
#[derive(Clone, Copy)]
pub enum NotRead {
    /// There is none that can be read, or it is too long.
    Refused,
    /// Memory was refused.
    Memory,
}

impl From<AllocError> for NotRead {
    ghost use Rattle.cmh_inputs.specs.declared.inputs.NotRead.TheVariants.{Memory};

    ghost from_gives = { λ _ fault. fault ≡ Memory };

    fn from(_: AllocError) -> NotRead {
        NotRead::Memory
    }
}

/// A file that is read from its beginning.
pub trait InputFile: Drop {
    /// Where they are told, the bytes that are still to be read.
    ghost left: { Self → Option (List ℕ) };

    /// Reads the next bytes, behind those that are there: so many, or all that are left if they are fewer.
    fn read_up_to(&mut self, most: u64, bytes: &mut Vec<u8>) -> Result<(), NotRead>
        ensures read { OnOk result ((rest : List ℕ) → left self.old ≡ Some rest
            → TakesUpTo most rest (left self.new) bytes.old.items bytes.new.items) }
        ensures refused { IfErr result (λ fault. fault ≡ NotRead.Refused → left self.old ≡ None) };
}

/// Files at their paths, which stay as they are while a command reads them.
pub trait Inputs {
    type File: InputFile;

    /// The files, where they are told.
    ghost holds: { Self → Option Stored };

    /// Opens the file at a path.
    fn open(&self, path: &str) -> Result<Self::File, NotRead>
        ensures opened { IfOk result (λ file. (stored : Stored) → holds self.now ≡ Some stored
            → IsOpenedAt stored.files path.now (Self.File.left file)) }
        ensures refused { IfErr result (λ fault. fault ≡ NotRead.Refused
            → (stored : Stored) → holds self.now ≡ Some stored → stored.files path.now ≡ None) };

    /// Opens the file of a journal; of a folder, its newest segment.
    fn open_journal(&self, path: &str) -> Result<Self::File, NotRead>
        ensures opened { IfOk result (λ file. (stored : Stored) → holds self.now ≡ Some stored
            → IsOpenedAt stored.journals path.now (Self.File.left file)) }
        ensures refused { IfErr result (λ fault. fault ≡ NotRead.Refused
            → (stored : Stored) → holds self.now ≡ Some stored → stored.journals path.now ≡ None) };

    /// How long the file of a journal is by now; of a folder, its newest segment. `None` where it can't be looked at, or is
    /// no file.
    fn len_of(&self, path: &str) -> Result<Option<u64>, AllocError>
        ensures { IfOk result (λ found. (len : ℕ) → found ≡ Some len
            → (stored : Stored) → holds self.now ≡ Some stored
            → option_map (λ bytes. length bytes) (stored.journals path.now) ≡ Some len) };
}
