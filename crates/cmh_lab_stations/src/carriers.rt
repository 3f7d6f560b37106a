//! Connections in memory.

use crate::answer::{Answer, Unanswered};
use crate::making::word;
use crate::object::{Object, Objects};
use crate::reading::{bytes_of, number, size};
use cmh_carriers::{Incoming, MemIncoming, MemOutgoing, Outgoing};
use cmh_console::Words;
use std::alloc::Global;
use std::sync::Wait;

/// The most bytes that a line reads.
const MOST_READ: usize = 512;

/// How much a connection gives or takes a call, and after how many calls it fails.
#[derive(Drop)]
struct Pace {
    piece: usize,
    fail_after: Option<u64>,
}

/// `piece BYTES [fail CALLS]`.
fn read_pace(words: &mut Words<'_>) -> Result<Pace, Unanswered> {
    let Some(b"piece") = words.next_word() else {
        return Err(Unanswered::BadLine);
    };
    let piece = size(words)?;
    let fail_after = match words.next_word() {
        None => None,
        Some(b"fail") => Some(number(words)?),
        Some(_) => return Err(Unanswered::BadLine),
    };
    Ok(Pace { piece, fail_after })
}

/// `incoming NAME BYTES piece BYTES [fail CALLS]`.
pub fn make_incoming<R: Wait + Copy + Drop>(
    alloc: Global,
    objects: &mut Objects<R>,
    words: &mut Words<'_>,
    answer: &mut Answer,
) -> Result<(), Unanswered> {
    let name = word(words)?;
    let bytes = bytes_of(alloc, words)?;
    let Pace { piece, fail_after } = read_pace(words)?;
    if piece == 0 {
        return Err(Unanswered::BadLine);
    }
    let incoming = MemIncoming::new(bytes, piece, fail_after);
    objects.put(name, Object::Incoming(incoming))?;
    answer.word("ok")
}

/// A connection that takes bytes, and how many calls it passes yet before each fails; `None`: it never fails by itself.
#[derive(Drop)]
pub struct Taking {
    pub outgoing: MemOutgoing,
    passes: Option<u64>,
}

/// `outgoing NAME piece BYTES [fail CALLS]`.
pub fn make_outgoing<R: Wait + Copy + Drop>(
    alloc: Global,
    objects: &mut Objects<R>,
    words: &mut Words<'_>,
    answer: &mut Answer,
) -> Result<(), Unanswered> {
    let name = word(words)?;
    let Pace { piece, fail_after } = read_pace(words)?;
    if piece == 0 {
        return Err(Unanswered::BadLine);
    }
    let taking = Taking {
        outgoing: MemOutgoing::new(alloc, piece, fail_after),
        passes: fail_after,
    };
    objects.put(name, Object::Outgoing(taking))?;
    answer.word("ok")
}

/// `read BYTES`: the bytes that come into a buffer of this length, `none`, or `failed`; `faults`.
pub fn call_incoming(
    incoming: &mut MemIncoming,
    words: &mut Words<'_>,
    answer: &mut Answer,
) -> Result<(), Unanswered> {
    match words.next_word() {
        Some(b"read") => {
            let most = size(words)?;
            let mut buffer = [0u8; MOST_READ];
            if most > MOST_READ || incoming.faults() == u64::MAX {
                return Err(Unanswered::BadLine);
            }
            match incoming.read(&mut buffer[..most]) {
                Ok(count) => answer.bytes(&buffer[..count]),
                Err(_) => answer.word("failed"),
            }
        }
        Some(b"faults") => answer.word(incoming.faults()),
        _ => Err(Unanswered::BadLine),
    }
}

/// Counts a call; answers whether it is one that fails.
fn is_due(passes: &mut Option<u64>) -> bool {
    let Some(left) = *passes else {
        return false;
    };
    *passes = Some(left.saturating_sub(1));
    left == 0
}

impl Taking {
    /// What follows the answer of a loop of writes that failed.
    pub fn after_failure(&self) -> Result<(), Unanswered> {
        if self.passes.is_none() {
            Err(Unanswered::OutOfMemory)
        } else {
            Ok(())
        }
    }

    /// How many bytes of a piece are taken, or `failed`.
    fn write(&mut self, piece: &[u8], answer: &mut Answer) -> Result<(), Unanswered> {
        if self.outgoing.faults() == u64::MAX {
            return Err(Unanswered::BadLine);
        }
        let fails = is_due(&mut self.passes);
        match self.outgoing.write(piece) {
            Ok(count) => answer.word(count),
            Err(_) => {
                answer.word("failed")?;
                if fails {
                    Ok(())
                } else {
                    Err(Unanswered::OutOfMemory)
                }
            }
        }
    }

    /// `write BYTES`: how many are taken, or `failed`; `bytes`, `length` and `faults`.
    pub fn call(
        &mut self,
        alloc: Global,
        words: &mut Words<'_>,
        answer: &mut Answer,
    ) -> Result<(), Unanswered> {
        match words.next_word() {
            Some(b"write") => {
                let piece = bytes_of(alloc, words)?;
                self.write(&piece, answer)
            }
            Some(b"bytes") => answer.bytes(self.outgoing.as_slice()),
            Some(b"length") => answer.word(self.outgoing.as_slice().len()),
            Some(b"faults") => answer.word(self.outgoing.faults()),
            _ => Err(Unanswered::BadLine),
        }
    }
}
