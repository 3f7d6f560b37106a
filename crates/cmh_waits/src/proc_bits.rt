//! Processes as the bits of words.

ghost use Rattle.std.specs.Prelude.{◌≡◌, ℕ, [], ◌+◌, ◌-◌, ◌/◌, ◌<◌, ◌≤◌, ◌++◌, ◌==◌, true, not, ◌||◌, if◌then◌else◌, IfOk, OnOk, OnErr, length, filter};
ghost use Rattle.std.specs.List.{range_with_len};
ghost use Rattle.std.specs.List.Sorted.{IsStrictlyIncreasing};
ghost use Rattle.cmh_frames.specs.Number.{IsNumber};
ghost use Rattle.cmh_bits.specs.Bits.{has_number};
ghost use Rattle.cmh_waits.specs.Numbers.{AreNumbers};
ghost use Rattle.cmh_bits.specs.Bits.{is_set};
ghost use Rattle.cmh_waits.specs.Rows.{is_in};

use cmh_bits::{flipped, has_bit, lowest, with_bit, without_bit};
use cmh_frames::ProcId;
use std::alloc::{AllocError, Global};
use std::marker::Model;

/// A set of processes, found by their numbers.
///
/// It grows up to the greatest number since it was cleared. A call fails only when memory runs out, and then nothing has
/// changed.
#[derive(Drop)]
pub struct ProcBits {
    /// The bit k % 64 of the word k / 64 stands for the process number k.
    words: Vec<u64>,
}

impl Model for ProcBits {
    ghost use Rattle.std.specs.Prelude.{ℕ, List};
    ghost use Rattle.cmh_waits.specs.Numbers.{AreNumbers, numbers_in};

    ghost Value = { List ℕ };

    ghost view = { λ s. numbers_in s.words.items };

    ghost invariant = { λ s. AreNumbers s.words.items };
}

impl ProcBits {
    /// No process. Takes no memory.
    pub fn empty(alloc: Global) -> Self
        ensures { result ≡ [] }
    {
        ProcBits {
            words: Vec::new(alloc),
        }
    }

    /// Whether the process is in the set.
    pub fn contains(&self, process: ProcId) -> bool
        ensures { result ≡ is_in self.now process }
    {
        let number = process.get() as usize;
        match self.words.get(number / 64) {
            Some(word) => has_bit(*word, number % 64),
            None => false,
        }
    }

    /// Adds a process.
    #[inline(always)]
    pub fn insert(&mut self, process: ProcId) -> Result<(), AllocError>
        ensures ok { OnOk result ((q : ℕ) → is_in self.new q ≡ ((q == process) || is_in self.old q)) }
        ensures err { OnErr result (self.new ≡ self.old) }
    {
        let number = process.get() as usize;
        lengthen(&mut self.words, number)?;
        self.words[number / 64] = with_bit(self.words[number / 64], number % 64);
        Ok(())
    }

    /// Adds a process, or takes it out where it is there.
    #[inline(always)]
    pub fn turn(&mut self, process: ProcId) -> Result<(), AllocError>
        ensures ok { OnOk result ((q : ℕ) → is_in self.new q
            ≡ if q == process then not (is_in self.old q) else is_in self.old q) }
        ensures err { OnErr result (self.new ≡ self.old) }
    {
        let number = process.get() as usize;
        lengthen(&mut self.words, number)?;
        self.words[number / 64] = flipped(self.words[number / 64], number % 64);
        Ok(())
    }

    /// Takes a process out.
    pub fn remove(&mut self, process: ProcId)
        ensures { self.new ≡ filter (λ q. not (q == process)) self.old }
    {
        let number = process.get() as usize;
        if number / 64 < self.words.len() {
            self.words[number / 64] = without_bit(self.words[number / 64], number % 64);
        }
    }

    /// Takes all processes out.
    pub fn clear(&mut self)
        ensures { self.new ≡ [] }
    {
        self.words.clear();
    }

    /// The processes, ascending.
    pub fn to_vec(&self, alloc: Global) -> Result<Vec<ProcId>, AllocError>
        ensures value { IfOk result (λ list. list.items ≡ self.now) }
        ensures ascending { IfOk result (λ list. IsStrictlyIncreasing list.items) }
    {
        let mut list = Vec::new(alloc);
        for at in 0..self.words.len() {
            push_word(&mut list, at * 64, self.words[at])?;
        }
        Ok(list)
    }

    /// Another set of the same processes.
    pub fn copy(&self, alloc: Global) -> Result<ProcBits, AllocError>
        ensures { IfOk result (λ other. other ≡ self.now) }
    {
        let words = self.words.to_vec(alloc)?;
        Ok(ProcBits { words })
    }

    /// Other sets of the same processes.
    pub fn copy_all(alloc: Global, sets: &[ProcBits]) -> Result<Vec<ProcBits>, AllocError>
        ensures { IfOk result (λ others. others.items ≡ sets.now) }
    {
        let mut others = Vec::with_capacity(alloc, sets.len())?;
        for set in sets {
            others.push(set.copy(alloc)?)?;
        }
        Ok(others)
    }
}

/// Adds zeros, up to the word of a process's number.
#[inline(always)]
fn lengthen(words: &mut Vec<u64>, number: usize) -> Result<(), AllocError>
    requires number { IsNumber number }
    requires are { AreNumbers words.old.items }
    ensures are { AreNumbers words.new.items }
    ensures room { OnOk result (number / 64 < length words.new.items) }
    ensures same { (k : ℕ) → has_number words.new.items k ≡ has_number words.old.items k }
    ensures err { OnErr result (words.new.items ≡ words.old.items) }
{
    if words.len() <= number / 64 {
        grow(words, number)?;
    }
    Ok(())
}

/// The same where zeros are lacking. That is seldom, so it stands apart from the bit that is turned.
#[inline(never)]
fn grow(words: &mut Vec<u64>, number: usize) -> Result<(), AllocError>
    requires number { IsNumber number }
    requires are { AreNumbers words.old.items }
    requires lacking { length words.old.items ≤ number / 64 }
    ensures are { AreNumbers words.new.items }
    ensures room { OnOk result (number / 64 < length words.new.items) }
    ensures same { (k : ℕ) → has_number words.new.items k ≡ has_number words.old.items k }
    ensures err { OnErr result (words.new.items ≡ words.old.items) }
{
    words.resize(number / 64 + 1, 0)?;
    Ok(())
}

/// Adds the processes of the bits of the word, the first of which stands for the number `start`.
fn push_word(list: &mut Vec<ProcId>, start: usize, word: u64) -> Result<(), AllocError>
    requires { (p : ℕ) → p < 64 → is_set word p ≡ true → IsNumber (start + p) }
    ensures { OnOk result (list.new.items
        ≡ list.old.items ++ filter (λ k. is_set word (k - start)) (range_with_len start 64)) }
{
    let mut left = word;
    while left != 0 {
        let place = lowest(left);
        left = without_bit(left, place);
        let Some(process) = ProcId::new((start + place) as u16) else {
            unreachable!();
        };
        list.push(process)?;
    }
    Ok(())
}
