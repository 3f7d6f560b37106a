//! Words of a line, and the numbers among them.

ghost use Rattle.std.specs.Prelude.{◌≡◌, ◌≢◌, ◌≤◌, ◌<◌, ◌↔◌, ℕ, true, false, ◌∷◌, [], length, slice_index, IfSome, IfNone, IsTrue, SomeIff};
ghost use Rattle.cmh_console.specs.Front.{IsFirstNumeral, Takes, TakesDigits};
ghost use Rattle.cmh_console.specs.Words.{words_of, IsNumeral, decimal};

use cmh_frames::{ProcId, SiteId};
use std::marker::Model;

/// The greatest number of digits of a number.
const MAX_DIGITS: usize = 4;

/// The words of a line that are left: what stands between its spaces.
///
/// Where a call finds no number, it has taken the word, if one was left.
#[derive(Drop)]
pub struct Words<'a> {
    /// No space is first in it, so that it is empty where no word is left.
    rest: &'a [u8],
}

impl<'a> Model for Words<'a> {
    ghost use Rattle.std.specs.Prelude.{◌≢◌, ℕ, List, slice_index};
    ghost use Rattle.cmh_console.specs.Words.{words_of};

    ghost Value = { List (List ℕ) };

    ghost view = { λ w. words_of w.rest.now };

    ghost invariant = { λ w. slice_index w.rest.now 0 ≢ 32 };
}

impl<'a> Words<'a> {
    pub fn new(line: &'a [u8]) -> Self
        ensures { result ≡ words_of line.now }
    {
        Words {
            rest: without_spaces(line),
        }
    }

    /// Whether no word is left.
    pub fn is_empty(&self) -> bool
        ensures { IsTrue result ↔ self.now ≡ [] }
    {
        self.rest.is_empty()
    }

    /// Some where no word is left.
    pub fn end(&self) -> Option<()>
        ensures some { IfSome result (λ _. self.now ≡ []) }
        ensures none { IfNone result (self.now ≢ []) }
    {
        if self.is_empty() { Some(()) } else { None }
    }

    /// Takes the next word.
    pub fn next_word(&mut self) -> Option<&'a [u8]>
        ensures word { IfSome result (λ word. self.old ≡ word.now ∷ self.new) }
        ensures none { IfNone result (self.old ≡ []) }
    {
        let (word, rest) = self.rest.split_at(word_len(self.rest));
        self.rest = without_spaces(rest);
        if word.is_empty() { None } else { Some(word) }
    }

    /// The number that the next word spells.
    pub fn number(&mut self) -> Option<u16>
        ensures { Takes self.old self.new result }
    {
        let number = self.digits()?;
        if number == 0 { None } else { Some(number) }
    }

    /// The process that the next word names.
    pub fn process(&mut self) -> Option<ProcId>
        ensures { Takes self.old self.new result }
    {
        ProcId::new(self.digits()?)
    }

    /// The site that the next word names.
    pub fn site(&mut self) -> Option<SiteId>
        ensures { Takes self.old self.new result }
    {
        SiteId::new(self.digits()?)
    }

    /// The number that the next word spells, of at most four digits. It may be zero, which `ProcId` and `SiteId` refuse
    /// by themselves.
    #[inline(always)]
    fn digits(&mut self) -> Option<u16>
        ensures { TakesDigits self.old self.new result }
    {
        let numeral = first_numeral(self.rest);
        if numeral.len == 0 || goes_on(self.rest, numeral.len) {
            self.next_word();
            return None;
        }
        let (_, behind) = self.rest.split_at(numeral.len);
        self.rest = without_spaces(behind);
        Some(numeral.number)
    }
}

/// The line from its first byte on that is no space.
fn without_spaces(line: &[u8]) -> &[u8]
    ensures words { words_of result.now ≡ words_of line.now }
    ensures first { slice_index result.now 0 ≢ 32 }
{
    let mut rest = line;
    while let [b' ', tail @ ..] = rest {
        rest = tail;
    }
    rest
}

/// How many bytes stand before the first space.
fn word_len(line: &[u8]) -> usize
    ensures within { result ≤ length line.now }
    ensures before { (k : ℕ) → k < result → slice_index line.now k ≢ 32 }
    ensures space { result < length line.now → slice_index line.now result ≡ 32 }
{
    for (i, byte) in line.iter().enumerate() {
        if *byte == b' ' {
            return i;
        }
    }
    line.len()
}

/// Whether a word goes on at this place of a line: neither its end nor a space is there.
fn goes_on(line: &[u8], at: usize) -> bool
    ensures yes { result ≡ true → (at < length line.now) × (slice_index line.now at ≢ 32) }
    ensures no { result ≡ false → at < length line.now → slice_index line.now at ≡ 32 }
{
    at < line.len() && line[at] != b' '
}

/// What the digits at the front of a line spell.
#[derive(Clone, Copy)]
struct Numeral {
    number: u16,
    /// How many digits they are.
    len: usize,
}

/// Reads at most four digits.
fn first_numeral(line: &[u8]) -> Numeral
    ensures { IsFirstNumeral line.now result.number result.len }
{
    let most = line.len().min(MAX_DIGITS);
    let mut number = 0;
    for len in 0..most {
        let Some(digit) = char::from(line[len]).to_digit(10) else {
            return Numeral {
                number: number as u16,
                len,
            };
        };
        number = number * 10 + digit;
    }
    Numeral {
        number: number as u16,
        len: most,
    }
}

/// The number that a word spells, 1 to 9999: one to four decimal digits.
pub fn number(word: &[u8]) -> Option<u16>
    ensures { SomeIff result (IsNumeral word.now) (decimal word.now) }
{
    let numeral = first_numeral(word);
    if numeral.len == word.len() && numeral.number > 0 {
        Some(numeral.number)
    } else {
        None
    }
}
