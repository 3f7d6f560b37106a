//! Questions to a station, which change nothing.

use crate::answer::{Answer, Unanswered};
use crate::disk::Disk;
use crate::making::word;
use crate::reading::event;
use crate::telling::{put_processes, put_refusal};
use cmh_console::Words;
use cmh_frames::ProcId;
use cmh_station::{Listing, Station, StationRefusal};
use std::alloc::Global;

/// The processes, or the refusal.
fn put_found(
    found: Result<Vec<ProcId>, StationRefusal>,
    answer: &mut Answer,
) -> Result<(), Unanswered> {
    match found {
        Ok(processes) => put_processes(&processes, answer),
        Err(refusal) => put_refusal(refusal, answer),
    }
}

fn process(words: &mut Words<'_>) -> Result<ProcId, Unanswered> {
    words.process().ok_or(Unanswered::BadLine)
}

/// `check EVENT`: `ok` or the refusal.
fn check<B: Listing>(
    alloc: Global,
    station: &Station<Disk, B>,
    words: &mut Words<'_>,
    answer: &mut Answer,
) -> Result<(), Unanswered> {
    let event = event(alloc, word(words)?, words)?;
    match station.check(&event) {
        Ok(()) => answer.word("ok"),
        Err(refusal) => put_refusal(refusal, answer),
    }
}

/// `check EVENT`, `waits PROCESS` and `owed PROCESS`; answers whether it was one of these.
pub fn question<B: Listing>(
    alloc: Global,
    station: &Station<Disk, B>,
    first: &[u8],
    words: &mut Words<'_>,
    answer: &mut Answer,
) -> Result<bool, Unanswered> {
    match str::from_utf8(first) {
        Ok("check") => check(alloc, station, words, answer)?,
        Ok("waits") => put_found(station.waits_of(process(words)?), answer)?,
        Ok("owed") => put_found(station.owed_by(process(words)?), answer)?,
        _ => return Ok(false),
    }
    Ok(true)
}
