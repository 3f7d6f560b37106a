//! What two readings of the same files come to.

ghost use Rattle.std.specs.Prelude.{◌≡◌, ℕ, List, map, IfOk, MatchOption};
ghost use Rattle.cmh_journal.specs.Journal as journal;
ghost use Rattle.cmh_files.specs.Readings.{AreReadTwice, IsReadTwice};

use cmh_journal::{StoredJournal, read_stored};
use std::alloc::{AllocError, Global};

/// The journals of files that were read twice.
#[derive(Drop)]
pub struct Readings<'a> {
    /// How many entries each had when it was read first.
    pub before: Vec<usize>,
    /// The journals, as they were read second.
    pub journals: Vec<StoredJournal<'a>>,
}

/// The journal of a file that was read twice.
#[derive(Drop)]
struct Reading<'a> {
    before: usize,
    journal: StoredJournal<'a>,
}

/// The journals of these files; `None` where one is no journal's, or did not grow from the first reading to the second.
pub fn read_twice<'a>(
    alloc: Global,
    first: &[Vec<u8>],
    second: &'a [Vec<u8>],
) -> Result<Option<Readings<'a>>, AllocError>
    ensures { IfOk result (λ found. MatchOption found
        ((before : List ℕ) (journals : List journal.Journal)
        → AreReadTwice (map (λ file. file.items) first.now) (map (λ file. file.items) second.now) before journals → ⊥)
        (λ read. AreReadTwice (map (λ file. file.items) first.now) (map (λ file. file.items) second.now)
        read.before.items read.journals.items)) }
{
    if first.len() != second.len() {
        return Ok(None);
    }
    let mut before = Vec::new(alloc);
    let mut journals = Vec::new(alloc);
    for (i, file) in second.iter().enumerate() {
        let Some(reading) = reading_of(&first[i], file) else {
            return Ok(None);
        };
        before.push(reading.before)?;
        journals.push(reading.journal)?;
    }
    Ok(Some(Readings { before, journals }))
}

/// The journal of a file, of which this was read first and this second.
fn reading_of<'a>(first: &[u8], second: &'a [u8]) -> Option<Reading<'a>>
    ensures { MatchOption result
        ((before : ℕ) (journal : journal.Journal) → IsReadTwice first.now second.now before journal → ⊥)
        (λ reading. IsReadTwice first.now second.now reading.before reading.journal) }
{
    if !second.starts_with(first) {
        return None;
    }
    let Ok((earlier, _)) = read_stored(first) else {
        return None;
    };
    let Ok((journal, _)) = read_stored(second) else {
        return None;
    };
    if earlier.len() > journal.len() {
        return None;
    }
    Some(Reading {
        before: earlier.len(),
        journal,
    })
}
