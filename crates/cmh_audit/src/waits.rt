//! Who waits for whom at the end of a run, from its journals in whatever order.
//!
//! Asks and replies of two processes take turns, so one waits for the other where their number is odd.

ghost use Rattle.std.specs.Prelude.{OnOk, if◌then◌else◌, ◌==◌};
ghost use Rattle.cmh_frames.specs.Laws.{count_of};
ghost use Rattle.cmh_audit.specs.Turns.{turns_of, Turns};

use crate::open_waits::OpenWaits;
use cmh_frames::{Event, ProcId};
use std::alloc::AllocError;

/// Turns the wait of the asker for each target.
#[inline(always)]
fn turn_all(waits: &mut OpenWaits, asker: ProcId, targets: &[ProcId]) -> Result<(), AllocError>
    ensures { OnOk result (Turns waits.old waits.new
        (λ j k. if asker == j then count_of (λ q. q == k) targets.now else 0)) }
{
    for target in targets {
        waits.turn(asker, *target)?;
    }
    Ok(())
}

/// Turns the waits that an event begins or ends.
#[inline(always)]
pub fn turn_event(waits: &mut OpenWaits, event: &Event) -> Result<(), AllocError>
    ensures { OnOk result (Turns waits.old waits.new (λ j k. turns_of j k event.now)) }
{
    match event {
        Event::Ask { asker, targets } => turn_all(waits, *asker, targets.as_slice()),
        Event::Reply { holder, asker } => waits.turn(*asker, *holder),
        _ => Ok(()),
    }
}
