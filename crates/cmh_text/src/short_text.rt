//! Texts that are put together from their last byte on, in a place of their own.

ghost use Rattle.std.specs.Prelude.{◌≡◌, ◌+◌, ◌≤◌, [], ◌++◌, length};
ghost use Rattle.std.specs.Fmt.{decimal};

use cmh_runs::ProcId;
use itoa::write_digits;
use std::marker::Model;

/// The greatest length of such a text, in bytes.
const ROOM: usize = 128;

/// A text that grows at its front: a number is spelled from its last digit on, so that no byte is moved.
#[derive(Drop)]
pub struct ShortText {
    bytes: [u8; ROOM],
    start: usize,
}

impl Model for ShortText {
    ghost use Rattle.std.specs.Prelude.{ℕ, ◌≤◌, List, drop};

    ghost Value = { List ℕ };

    ghost view = { λ t. drop t.start t.bytes };

    ghost invariant = { λ t. t.start ≤ 128 };
}

impl ShortText {
    #[inline(always)]
    pub fn new() -> Self
        ensures { result ≡ [] }
    {
        ShortText {
            bytes: [0; ROOM],
            start: ROOM,
        }
    }

    pub fn as_slice(&self) -> &[u8]
        ensures { result.now ≡ self.now }
    {
        &self.bytes[self.start..]
    }

    /// Puts a word in front.
    #[inline(always)]
    pub fn put(&mut self, word: &[u8])
        requires { length word.now + length self.old ≤ 128 }
        ensures text { self.new ≡ word.now ++ self.old }
        ensures len { length self.new ≡ length word.now + length self.old }
    {
        let end = self.start;
        let start = end - word.len();
        self.bytes[start..end].copy_from_slice(word);
        self.start = start;
    }

    /// Puts a number in front.
    #[inline(always)]
    pub fn put_number(&mut self, number: u64)
        requires { 20 + length self.old ≤ 128 }
        ensures text { self.new ≡ decimal number ++ self.old }
        ensures len { length self.new ≤ 20 + length self.old }
    {
        self.start = write_digits(number, &mut self.bytes, self.start);
    }

    /// Puts the number of a process in front.
    #[inline(always)]
    pub fn put_process(&mut self, process: ProcId)
        requires { 20 + length self.old ≤ 128 }
        ensures text { self.new ≡ decimal process ++ self.old }
        ensures len { length self.new ≤ 4 + length self.old }
    {
        self.put_number(u64::from(process.get()));
    }
}
