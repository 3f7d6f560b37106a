//! Numbers as the bits of a slice of words.

ghost use Rattle.std.specs.Prelude.{◌≡◌, ℕ, ◌/◌, ◌<◌, ◌==◌, not, ◌||◌, ◌&&◌, length};
ghost use Rattle.cmh_bits.specs.Bits.{has_number as has};

use crate::word::{beyond, has_bit, with_bit};

/// Whether the words have the number.
#[inline(always)]
pub fn has_number(words: &[u64], number: usize) -> bool
    ensures { result ≡ has words.now number }
{
    match words.get(number / 64) {
        Some(word) => has_bit(*word, number % 64),
        None => false,
    }
}

/// Adds a number.
#[inline(always)]
pub fn insert_number(words: &mut [u64], number: usize)
    requires { number / 64 < length words.old }
    ensures long { length words.new ≡ length words.old }
    ensures numbers { (k : ℕ) → has words.new k ≡ ((k == number) || has words.old k) }
{
    let at = number / 64;
    words[at] = with_bit(words[at], number % 64);
}

/// Adds the numbers of other words.
#[inline(always)]
pub fn add_words(words: &mut [u64], others: &[u64])
    requires { length others.now ≡ length words.old }
    ensures long { length words.new ≡ length words.old }
    ensures numbers { (k : ℕ) → has words.new k ≡ (has words.old k || has others.now k) }
{
    for at in 0..words.len() {
        words[at] |= others[at];
    }
}

/// Takes the numbers of other words away.
#[inline(always)]
pub fn remove_words(words: &mut [u64], others: &[u64])
    requires { length others.now ≡ length words.old }
    ensures long { length words.new ≡ length words.old }
    ensures numbers { (k : ℕ) → has words.new k ≡ (has words.old k && not (has others.now k)) }
{
    for at in 0..words.len() {
        words[at] = beyond(words[at], others[at]);
    }
}
