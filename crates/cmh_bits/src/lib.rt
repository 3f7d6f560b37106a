//! Sets of small numbers as the bits of words: one word, a slice of words, or a set that has its words.
#![tactic(auto)]

mod bit_set;
mod word;
mod words;

pub use crate::bit_set::BitSet;
pub use crate::word::{beyond, either, flipped, has_bit, lowest, with_bit, without_bit};
pub use crate::words::{add_words, has_number, insert_number, remove_words};
