//! What an event does to waits.

ghost use Rattle.std.specs.Prelude.{◌≡◌, ◌==◌, ◌&&◌, ◌||◌, not, ℕ, OnOk};
ghost use Rattle.cmh_model3.specs.Lists.{in_list};
ghost use Rattle.cmh_model3.specs.Waits.{begins, ends, leaves};
ghost use Rattle.cmh_report3.specs.Inner.Pairs.{has_pair};

use crate::pairs::PairSet;
use cmh_model3::{Event, ProcId};
use std::alloc::AllocError;

/// Begins and ends the waits that an event begins and ends.
pub fn take_event(waits: &mut PairSet, event: &Event) -> Result<(), AllocError>
    ensures { OnOk result ((j k : ℕ) → has_pair waits.new j k
        ≡ (begins j k event.now || (not (ends j k event.now) && has_pair waits.old j k))) }
{
    match event {
        Event::Ask { asker, targets } => add_all(waits, *asker, targets.as_slice()),
        Event::Reply { holder, asker } => {
            waits.remove(*asker, *holder);
            Ok(())
        }
        Event::Withdraw { asker, targets } => {
            remove_all(waits, *asker, targets.as_slice());
            Ok(())
        }
        _ => Ok(()),
    }
}

/// Adds the waits that an event ends.
pub fn add_ended(ended: &mut PairSet, event: &Event) -> Result<(), AllocError>
    ensures { OnOk result ((j k : ℕ) → has_pair ended.new j k ≡ (ends j k event.now || has_pair ended.old j k)) }
{
    match event {
        Event::Reply { holder, asker } => ended.insert(*asker, *holder),
        Event::Withdraw { asker, targets } => add_all(ended, *asker, targets.as_slice()),
        _ => Ok(()),
    }
}

/// Adds the waits that their askers give up by an event.
pub fn add_left(left: &mut PairSet, event: &Event) -> Result<(), AllocError>
    ensures { OnOk result ((j k : ℕ) → has_pair left.new j k ≡ (leaves j k event.now || has_pair left.old j k)) }
{
    match event {
        Event::Withdraw { asker, targets } => add_all(left, *asker, targets.as_slice()),
        _ => Ok(()),
    }
}

/// Adds the pairs of a process with each of these.
pub fn add_all(pairs: &mut PairSet, first: ProcId, seconds: &[ProcId]) -> Result<(), AllocError>
    ensures { OnOk result ((j k : ℕ) → has_pair pairs.new j k
        ≡ (((first == j) && in_list seconds.now k) || has_pair pairs.old j k)) }
{
    for second in seconds {
        pairs.insert(first, *second)?;
    }
    Ok(())
}

/// Takes the pairs of a process with each of these out.
pub fn remove_all(pairs: &mut PairSet, first: ProcId, seconds: &[ProcId])
    ensures { (j k : ℕ) → has_pair pairs.new j k
        ≡ (not ((first == j) && in_list seconds.now k) && has_pair pairs.old j k) }
{
    for second in seconds {
        pairs.remove(first, *second);
    }
}
