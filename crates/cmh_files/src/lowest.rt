//! The lowest consistent stop of journals.

ghost use Rattle.std.specs.Prelude.{◌≡◌, ◌≤◌, ◌<◌, ℕ, length, IfOk, MatchBool, MatchOption};
ghost use Rattle.cmh_files.specs.Inner.Steps.{LacksNone, LacksSome, StandAt};
ghost use Rattle.cmh_files.specs.Stops.{IsLowest, NoneIsConsistent, journal_at, length_at};

use crate::walk::Walk;
use cmh_journal::StoredJournal;
use std::alloc::{AllocError, Global};

/// The lowest stop of the journals that is consistent: how many entries it keeps of each. It keeps at least the first
/// lengths. `None` where no such stop is consistent: some site got a frame that no entry of its sender sent.
///
/// A sender is raised by its entries, one after the other, as long as somebody got more from it than it sent. The only
/// error is out of memory.
pub fn lowest_stop(
    alloc: Global,
    first: &[usize],
    journals: &[StoredJournal<'_>],
) -> Result<Option<Vec<usize>>, AllocError>
    requires each { length first.now ≡ length journals.now }
    requires within { (i : ℕ) → i < length journals.now
        → length_at first.now i ≤ length (journal_at journals.now i).entries }
    ensures { IfOk result (λ found. MatchOption found (NoneIsConsistent first.now journals.now)
        (λ stop. IsLowest first.now journals.now stop.items)) }
{
    let mut walks = walks_to(alloc, first, journals)?;
    let mut stop = first.to_vec(alloc)?;
    let mut last = 0;
    while let Some(sender) = lacking(&walks, last) {
        if !walks[sender].step()? {
            return Ok(None);
        }
        stop[sender] += 1;
        last = sender;
    }
    Ok(Some(stop))
}

/// Walks through the journals, each after as many entries as its length says.
fn walks_to<'a>(
    alloc: Global,
    lengths: &[usize],
    journals: &[StoredJournal<'a>],
) -> Result<Vec<Walk<'a>>, AllocError>
    requires each { length lengths.now ≡ length journals.now }
    requires within { (i : ℕ) → i < length journals.now
        → length_at lengths.now i ≤ length (journal_at journals.now i).entries }
    ensures { IfOk result (λ walks. StandAt journals.now lengths.now walks.items) }
{
    let mut walks = Vec::new(alloc);
    for (i, journal) in journals.iter().enumerate() {
        walks.push(Walk::to(alloc, journal, lengths[i])?)?;
    }
    Ok(walks)
}

/// The place of a site from which another got more than it sent. The last one is looked at first: it mostly needs
/// several entries.
fn lacking(walks: &[Walk<'_>], last: usize) -> Option<usize>
    ensures { MatchOption result ((a : ℕ) → a < length walks.now → LacksNone walks.now a)
        (λ a. (a < length walks.now) × LacksSome walks.now a) }
{
    if last < walks.len() && lacks(walks, last) {
        return Some(last);
    }
    for sender in 0..walks.len() {
        if lacks(walks, sender) {
            return Some(sender);
        }
    }
    None
}

/// Whether some site got more from that at this place than it sent.
fn lacks(walks: &[Walk<'_>], sender: usize) -> bool
    requires { sender < length walks.now }
    ensures { MatchBool result (LacksSome walks.now sender) (LacksNone walks.now sender) }
{
    let from = &walks[sender];
    for to in walks {
        if from.sent.of(to.site) < to.got.of(from.site) {
            return true;
        }
    }
    false
}
