//! Where the files of running sites are cut.

ghost use Rattle.std.specs.Prelude.{◌≡◌, ◌<◌, ◌≤◌, ℕ, length, map, take, IfOk, MatchOption};
ghost use Rattle.cmh_files.specs.Readings.{AreReadTwice, HaveNoStop, IsStopOf, Keeps, file_at};
ghost use Rattle.cmh_files.specs.Stops.{IsWithin, journal_at, length_at};

use crate::length::length_of;
use crate::lowest::lowest_stop;
use crate::reading::{Readings, read_twice};
use std::alloc::{AllocError, Global};

/// The stop of sites that run, whose files were all read first and then all read a second time: how many bytes to keep
/// of each second file.
///
/// It is the lowest stop at which the receipts of each link are at most its sendings, and it keeps at least what was read
/// first. If each site syncs an entry before it sends the frames of it, there is one. `None` where there is none, a file
/// is no journal's, or a first file is no beginning of its second. The only error is out of memory.
pub fn stop_of(
    alloc: Global,
    first: &[Vec<u8>],
    second: &[Vec<u8>],
) -> Result<Option<Vec<usize>>, AllocError>
    ensures { IfOk result (λ found. MatchOption found
        (HaveNoStop (map (λ file. file.items) first.now) (map (λ file. file.items) second.now))
        (λ lengths. IsStopOf (map (λ file. file.items) first.now) (map (λ file. file.items) second.now)
        lengths.items)) }
{
    let Some(read) = read_twice(alloc, first, second)? else {
        return Ok(None);
    };
    let Some(stop) = lowest_stop(alloc, &read.before, &read.journals)? else {
        return Ok(None);
    };
    Ok(Some(lengths_of(alloc, first, second, &read, &stop)?))
}

/// How many bytes of each second file the stop keeps.
fn lengths_of(
    alloc: Global,
    first: &[Vec<u8>],
    second: &[Vec<u8>],
    read: &Readings<'_>,
    stop: &[usize],
) -> Result<Vec<usize>, AllocError>
    requires read { AreReadTwice (map (λ file. file.items) first.now) (map (λ file. file.items) second.now)
        read.now.before.items read.now.journals.items }
    requires within { IsWithin read.now.before.items read.now.journals.items stop.now }
    ensures each { IfOk result (λ lengths. length lengths.items ≡ length second.now) }
    ensures keeps { IfOk result (λ lengths. (i : ℕ) → i < length second.now
        → Keeps (file_at (map (λ file. file.items) first.now) i) (length_at read.now.before.items i)
        (length_at stop.now i) (journal_at read.now.journals.items i)
        (take (length_at lengths.items i) (file_at (map (λ file. file.items) second.now) i))) }
{
    let mut lengths = Vec::new(alloc);
    for (i, file) in second.iter().enumerate() {
        let length = if stop[i] == read.before[i] {
            first[i].len()
        } else {
            length_of(file, &read.journals[i], stop[i])
        };
        lengths.push(length)?;
    }
    Ok(lengths)
}
