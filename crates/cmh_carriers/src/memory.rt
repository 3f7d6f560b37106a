//! Connections in memory, which tell their bytes.

ghost use Rattle.std.specs.Prelude.{◌≡◌, ◌≤◌, ◌<◌, [], false, Some, take, vec_len, leb};
ghost use Rattle.cmh_journal.specs.Fuse.{is_due, left_after};

use crate::carrier::{Incoming, IoFault, Outgoing};
use std::alloc::Global;

/// How many calls pass before all fail; with `None` each call passes.
#[derive(Clone, Copy)]
struct Fuse(Option<u64>);

impl Fuse {
    /// Counts a call, and tells whether it fails.
    fn fails(&mut self) -> bool
        ensures due { result ≡ is_due self.old.0 }
        ensures left { self.new.0 ≡ left_after false self.old.0 }
    {
        match self.0 {
            None => false,
            Some(0) => true,
            Some(left) => {
                self.0 = Some(left - 1);
                false
            }
        }
    }
}

/// The receiving end of a connection whose bytes are known from the start.
#[derive(Drop)]
pub struct MemIncoming {
    bytes: Vec<u8>,
    at: usize,
    piece: usize,
    fuse: Fuse,
    faults: u64,
    ghost within: { at ≤ vec_len bytes },
    ghost moves: { 0 < piece },
}

impl MemIncoming {
    /// Gives at most `piece` bytes a call. It passes `fail_after` calls, if there is such a number, and fails each
    /// later one.
    pub fn new(bytes: Vec<u8>, piece: usize, fail_after: Option<u64>) -> MemIncoming
        requires { 0 < piece }
        ensures bytes { result.bytes.items ≡ bytes.items }
        ensures given { result.at ≡ 0 }
        ensures piece { result.piece ≡ piece }
        ensures fuse { result.fuse.0 ≡ fail_after }
        ensures faults { result.faults ≡ 0 }
    {
        MemIncoming {
            bytes,
            at: 0,
            piece,
            fuse: Fuse(fail_after),
            faults: 0,
        }
    }
}

impl Incoming for MemIncoming {
    ghost use Rattle.cmh_carriers.specs.Memory.{AnswersRead};

    ghost failures = { λ s. s.faults };

    ghost given = { λ s. Some (take s.at s.bytes.items) };

    ghost is_over = { λ s. leb (vec_len s.bytes) s.at };

    ghost read_gives = { AnswersRead };

    fn read(&mut self, buffer: &mut [u8]) -> Result<usize, IoFault> {
        if self.fuse.fails() {
            self.faults += 1;
            return Err(IoFault);
        }
        let left = self.bytes.len() - self.at;
        let count = self.piece.min(left).min(buffer.len());
        let at = self.at;
        buffer[..count].copy_from_slice(&self.bytes[at..at + count]);
        self.at = at + count;
        Ok(count)
    }

    fn faults(&self) -> u64 {
        self.faults
    }

    fn shut(&self) {}
}

/// The sending end of a connection that keeps what it takes.
#[derive(Drop)]
pub struct MemOutgoing {
    bytes: Vec<u8>,
    piece: usize,
    fuse: Fuse,
    faults: u64,
    ghost moves: { 0 < piece },
}

impl MemOutgoing {
    /// Takes at most `piece` bytes a call. It passes `fail_after` calls, if there is such a number, and fails each
    /// later one.
    /// A call for which memory is refused fails.
    pub fn new(alloc: Global, piece: usize, fail_after: Option<u64>) -> MemOutgoing
        requires { 0 < piece }
        ensures bytes { result.bytes.items ≡ [] }
        ensures piece { result.piece ≡ piece }
        ensures fuse { result.fuse.0 ≡ fail_after }
        ensures faults { result.faults ≡ 0 }
    {
        MemOutgoing {
            bytes: Vec::new(alloc),
            piece,
            fuse: Fuse(fail_after),
            faults: 0,
        }
    }

    /// What it took.
    pub fn as_slice(&self) -> &[u8]
        ensures { result.now ≡ self.now.bytes.items }
    {
        &self.bytes
    }
}

impl Outgoing for MemOutgoing {
    ghost use Rattle.cmh_carriers.specs.Memory.{AnswersWrite};

    ghost failures = { λ s. s.faults };

    ghost taken = { λ s. Some s.bytes.items };

    ghost write_gives = { AnswersWrite };

    fn write(&mut self, piece: &[u8]) -> Result<usize, IoFault> {
        if self.fuse.fails() {
            self.faults += 1;
            return Err(IoFault);
        }
        let count = self.piece.min(piece.len());
        if self.bytes.reserve(count).is_err() {
            self.faults += 1;
            return Err(IoFault);
        }
        let Ok(()) = self.bytes.extend_from_slice(&piece[..count]) else {
            unreachable!();
        };
        Ok(count)
    }

    fn faults(&self) -> u64 {
        self.faults
    }
}
