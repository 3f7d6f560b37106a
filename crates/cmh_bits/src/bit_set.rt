//! A set that has its words, so that a search looks at 64 numbers at once.

ghost use Rattle.std.specs.Prelude.{◌≡◌, ◌↔◌, ℕ, ◌/◌, ◌<◌, ◌≤◌, ◌^◌, ◌==◌, ◌||◌, ◌&&◌, not, true, false, length, IfOk, IfSome, IfNone};
ghost use Rattle.cmh_bits.specs.Bits.{has_number as has};

use crate::word::lowest;
use crate::words::{add_words, has_number, insert_number, remove_words};
use std::alloc::{AllocError, Global};
use std::marker::Model;

/// Some of the numbers 0, 1, .. below 64 times the number of its words, which stays as it was made.
#[derive(Drop)]
pub struct BitSet {
    words: Vec<u64>,
}

impl Model for BitSet {
    ghost use Rattle.std.specs.Prelude.{ℕ, List};

    ghost Value = { List ℕ };

    ghost view = { λ s. s.words.items };
}

impl BitSet {
    /// The set of so many words with no number.
    pub fn new(alloc: Global, words: usize) -> Result<BitSet, AllocError>
        ensures words { IfOk result (λ set. length set ≡ words) }
        ensures none { IfOk result (λ set. (k : ℕ) → has set k ≡ false) }
    {
        Ok(BitSet {
            words: vec![in alloc; 0; words]?,
        })
    }

    /// Its words.
    #[inline(always)]
    pub fn words(&self) -> &[u64]
        ensures { result.now ≡ self.now }
    {
        &self.words
    }

    /// Whether it has the number.
    #[inline(always)]
    pub fn contains(&self, number: usize) -> bool
        ensures { result ≡ has self.now number }
    {
        has_number(&self.words, number)
    }

    /// Adds a number.
    #[inline(always)]
    pub fn insert(&mut self, number: usize)
        requires { number / 64 < length self.old }
        ensures words { length self.new ≡ length self.old }
        ensures numbers { (k : ℕ) → has self.new k ≡ ((k == number) || has self.old k) }
    {
        insert_number(&mut self.words, number);
    }

    /// Adds the numbers of another set.
    #[inline(always)]
    pub fn add_all(&mut self, other: &BitSet)
        requires { length other.now ≡ length self.old }
        ensures words { length self.new ≡ length self.old }
        ensures numbers { (k : ℕ) → has self.new k ≡ (has self.old k || has other.now k) }
    {
        add_words(&mut self.words, &other.words);
    }

    /// Takes the numbers of another set away.
    #[inline(always)]
    pub fn remove_all(&mut self, other: &BitSet)
        requires { length other.now ≡ length self.old }
        ensures words { length self.new ≡ length self.old }
        ensures numbers { (k : ℕ) → has self.new k ≡ (has self.old k && not (has other.now k)) }
    {
        remove_words(&mut self.words, &other.words);
    }

    /// Whether the other set has the same words.
    pub fn is(&self, other: &BitSet) -> bool
        ensures { result ≡ true ↔ self.now ≡ other.now }
    {
        self.words == other.words
    }

    /// Whether it has no number.
    pub fn is_empty(&self) -> bool
        requires { length self.now ≤ 2 ^ 57 }
        ensures none { result ≡ true → (k : ℕ) → has self.now k ≡ false }
        ensures some { result ≡ false → (k : ℕ) × (has self.now k ≡ true) }
    {
        self.first().is_none()
    }

    /// Its least number.
    pub fn first(&self) -> Option<usize>
        requires { length self.now ≤ 2 ^ 57 }
        ensures some { IfSome result (λ number. has self.now number ≡ true) }
        ensures least { IfSome result (λ number. (k : ℕ) → has self.now k ≡ true → number ≤ k) }
        ensures none { IfNone result ((k : ℕ) → has self.now k ≡ false) }
    {
        self.first_common(self)
    }

    /// The least number that both sets have.
    pub fn first_common(&self, other: &BitSet) -> Option<usize>
        requires words { length other.now ≡ length self.now }
        requires small { length self.now ≤ 2 ^ 57 }
        ensures some { IfSome result (λ number. (has self.now number ≡ true) × (has other.now number ≡ true)) }
        ensures least { IfSome result (λ number. (k : ℕ) → has self.now k ≡ true → has other.now k ≡ true
            → number ≤ k) }
        ensures none { IfNone result ((k : ℕ) → has self.now k ≡ true → has other.now k ≡ true → ⊥) }
    {
        for at in 0..self.words.len() {
            let both = self.words[at] & other.words[at];
            if both != 0 {
                return Some(at * 64 + lowest(both));
            }
        }
        None
    }
}
