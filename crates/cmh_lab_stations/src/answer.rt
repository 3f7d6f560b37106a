//! The answer to a line.

use std::alloc::{AllocError, AllocFailed, Global};
use std::fmt;

/// How many bytes an answer may have before it takes memory.
const ROOM: usize = 1 << 16;

/// Why a line has no answer of its own.
#[derive(Clone, Copy)]
pub enum Unanswered {
    /// It fits no call, or gives a call what it may not be given.
    BadLine,
    /// Memory was refused. What the call said of it stands in the answer.
    OutOfMemory,
}

impl From<AllocError> for Unanswered {
    fn from(_error: AllocError) -> Unanswered {
        Unanswered::OutOfMemory
    }
}

impl<T: Drop> From<AllocFailed<T>> for Unanswered {
    fn from(_error: AllocFailed<T>) -> Unanswered {
        Unanswered::OutOfMemory
    }
}

/// The text of an answer, in memory that is there before the call.
#[derive(Drop)]
pub struct Answer {
    text: String,
}

impl Answer {
    pub fn new(alloc: Global) -> Result<Answer, AllocError> {
        let text = match String::with_capacity(alloc, ROOM) {
            Ok(text) => text,
            Err(_) => String::with_capacity(alloc, ROOM)?,
        };
        Ok(Answer { text })
    }

    pub fn as_str(&self) -> &str {
        self.text.as_str()
    }

    pub fn clear(&mut self) {
        self.text.clear();
    }

    /// Adds a text.
    pub fn put<T: fmt::Display + Drop>(&mut self, text: T) -> Result<(), Unanswered> {
        write!(self.text, "{text}")?;
        Ok(())
    }

    /// Adds a word, after a space where it is not the first.
    pub fn word<T: fmt::Display + Drop>(&mut self, word: T) -> Result<(), Unanswered> {
        if !self.text.is_empty() {
            write!(self.text, " ")?;
        }
        self.put(word)
    }

    /// Adds bytes as a word of hexadecimal digits; no bytes are `none`.
    pub fn bytes(&mut self, bytes: &[u8]) -> Result<(), Unanswered> {
        if bytes.is_empty() {
            return self.word("none");
        }
        self.word("")?;
        for byte in bytes {
            let byte = *byte;
            write!(self.text, "{byte:02X}")?;
        }
        Ok(())
    }
}
