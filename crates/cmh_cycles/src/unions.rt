//! The rows of a table that stand at the places of a row, together.

ghost use Rattle.std.specs.Prelude.{◌≡◌, ◌↔◌, ◌⊎◌, ℕ, ◌+◌, ◌<◌, ◌≤◌, ◌/◌, ◌^◌, ◌&&◌, true, length, slice_index, IfOk};
ghost use Rattle.cmh_bits.specs.Bits.{has_number, is_set};
ghost use Rattle.cmh_cycles.specs.Inner.Leading.{leads};
ghost use Rattle.cmh_cycles.specs.Rows.{AreTwins, row_at};

use cmh_bits::{BitSet, lowest, without_bit};
use std::alloc::{AllocError, Global};

/// All places of those rows of a table that stand at the places of this row. Of rows that are the same one is looked
/// at, as far as the twins tell: at each place of the table a lower one with the same row, or the place itself.
pub fn union_of(
    alloc: Global,
    row: &BitSet,
    table: &[BitSet],
    twins: &[usize],
) -> Result<BitSet, AllocError>
    requires twins { AreTwins table.now twins.now }
    requires inside { (k : ℕ) → has_number row.now k ≡ true → (k < length table.now)
        × (length (row_at table.now k) ≡ length row.now) }
    requires small { length row.now ≤ 2 ^ 57 }
    ensures words { IfOk result (λ union. length union ≡ length row.now) }
    ensures places { IfOk result (λ union. (v : ℕ) → has_number union v ≡ true
        ↔ ((k : ℕ) × (has_number row.now k ≡ true) × (has_number (row_at table.now k) v ≡ true))) }
{
    let words = row.words();
    let mut union = BitSet::new(alloc, words.len())?;
    for at in 0..words.len() {
        let leading = leading(row, twins, words[at], at * 64);
        add_some(&mut union, table, leading, at * 64);
    }
    Ok(union)
}

/// Those bits of the word whose places have no other twin in the row. The first bit stands for the place `start`.
fn leading(row: &BitSet, twins: &[usize], word: u64, start: usize) -> u64
    requires inside { (p : ℕ) → p < 64 → is_set word p ≡ true → start + p < length twins.now }
    requires small { start ≤ 2 ^ 63 }
    ensures { (p : ℕ) → p < 64 → is_set result p ≡ (is_set word p && leads row.now twins.now (start + p)) }
{
    let mut leading = word;
    let mut left = word;
    while left != 0 {
        let place = lowest(left);
        left = without_bit(left, place);
        let twin = twins[start + place];
        if twin != start + place && row.contains(twin) {
            leading = without_bit(leading, place);
        }
    }
    leading
}

/// Adds the rows of the table that stand at the bits of the word, the first of which stands for the row `start`.
fn add_some(union: &mut BitSet, table: &[BitSet], word: u64, start: usize)
    requires inside { (p : ℕ) → p < 64 → is_set word p ≡ true → (start + p < length table.now)
        × (length (row_at table.now (start + p)) ≡ length union.old) }
    requires small { start ≤ 2 ^ 63 }
    ensures words { length union.new ≡ length union.old }
    ensures places { (v : ℕ) → has_number union.new v ≡ true
        ↔ ((has_number union.old v ≡ true)
        ⊎ ((p : ℕ) × (p < 64) × (is_set word p ≡ true)
        × (has_number (row_at table.now (start + p)) v ≡ true))) }
{
    let mut left = word;
    while left != 0 {
        let place = lowest(left);
        left = without_bit(left, place);
        union.add_all(&table[start + place]);
    }
}
