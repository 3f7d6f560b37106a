//! The epochs of a world: those that all sites have ended, and the open one.

ghost use Rattle.std.specs.Prelude.{◌≡◌, ◌↔◌, flat_map, map, true, IfOk, IsTrue, MatchOption, OnOk};
ghost use Rattle.std.specs.List.{All, list_any};
ghost use Rattle.cmh_history3.specs.Epochs as spec;
ghost use Rattle.cmh_history3.specs.Epochs.{AreEpochs, IsClosed, IsNotBefore, begins, open_in, standing};
ghost use Rattle.cmh_history3.specs.Inner.Taking.{NoneClosed};

use crate::journal::Journal;
use cmh_segment3::{Rows, Segment};
use cmh_wire3::Epoch;
use std::alloc::{AllocError, Global};

/// The epochs of these journals, in order. The last one is open: some site has not ended it, and what follows it in the
/// journals of the others stands behind their entries in it. All others are closed. The only error is out of memory.
///
/// An epoch that no site began is none of them.
pub fn epochs_of(alloc: Global, journals: Vec<Journal>) -> Result<Vec<Rows<Segment>>, AllocError>
    ensures { IfOk result (λ epochs. AreEpochs journals.items epochs.items) }
{
    let mut epochs = Vec::new(alloc);
    let mut left = journals;
    while let Some(epoch) = next_closed(&left) {
        epochs.push(take_epoch(alloc, &mut left, epoch)?)?;
    }
    let last = least_epoch(&left);
    epochs.push(take_rest(alloc, &mut left, last)?)?;
    Ok(epochs)
}

/// Of each journal one segment: its first with the entries of all others, each behind the turn to it. So an audit of epoch 0
/// takes them as what happened in one.
pub fn whole_journals(alloc: Global, journals: Vec<Journal>) -> Result<Vec<Segment>, AllocError>
    ensures { IfOk result (λ wholes. wholes.items ≡ flat_map (open_in 0) journals.items) }
{
    let mut left = journals;
    let rest = take_rest(alloc, &mut left, Epoch::new(0))?;
    Ok(rest.into_rows())
}

/// An epoch that all sites have ended, with which one of them goes on.
fn next_closed(journals: &[Journal]) -> Option<Epoch>
    ensures { MatchOption result (NoneClosed journals.now)
        (λ epoch. (list_any (begins epoch) journals.now ≡ true) × All (IsClosed epoch) journals.now) }
{
    for journal in journals {
        if let Some(epoch) = journal.next_epoch() {
            if have_closed(journals, epoch) {
                return Some(epoch);
            }
        }
    }
    None
}

/// Whether all sites have begun a later epoch than this one.
fn have_closed(journals: &[Journal], epoch: Epoch) -> bool
    ensures { IsTrue result ↔ All (IsClosed epoch) journals.now }
{
    for journal in journals {
        if !journal.has_closed(epoch) {
            return false;
        }
    }
    true
}

/// The least of the epochs with which the journals go on.
fn least_epoch(journals: &[Journal]) -> Epoch
    ensures { All (IsNotBefore result) journals.now }
{
    let mut least = u32::MAX;
    for journal in journals {
        if let Some(epoch) = journal.next_epoch() {
            least = least.min(epoch.get());
        }
    }
    Epoch::new(least)
}

/// How each site stands in an epoch. Its segments of that epoch are taken out.
fn take_epoch(
    alloc: Global,
    journals: &mut Vec<Journal>,
    epoch: Epoch,
) -> Result<Rows<Segment>, AllocError>
    ensures taken { IfOk result (λ segments. segments ≡ flat_map (standing epoch) journals.old.items) }
    ensures rest { OnOk result (journals.new.items ≡ map (spec.behind epoch) journals.old.items) }
{
    let mut segments = Vec::new(alloc);
    for i in 0..journals.len() {
        if let Some(segment) = journals[i].take(alloc, epoch)? {
            segments.push(segment)?;
        }
    }
    Ok(Rows::new(segments))
}

/// How each site stands in an epoch that is open, with all that follows.
fn take_rest(
    alloc: Global,
    journals: &mut Vec<Journal>,
    epoch: Epoch,
) -> Result<Rows<Segment>, AllocError>
    ensures { IfOk result (λ segments. segments ≡ flat_map (open_in epoch) journals.old.items) }
{
    let mut segments = Vec::new(alloc);
    for i in 0..journals.len() {
        if let Some(segment) = journals[i].take_all(alloc, epoch)? {
            segments.push(segment)?;
        }
    }
    Ok(Rows::new(segments))
}
