//! A stop of a run: the waits that stood there, and which of them have ended since.

ghost use Rattle.std.specs.Prelude.{◌≡◌, ℕ, false, IfOk};
ghost use Rattle.cmh_model3.specs.Stops as stops;
ghost use Rattle.cmh_model3.specs.Waits.{wait_after};
ghost use Rattle.cmh_report3.specs.Declarations as declarations;
ghost use Rattle.cmh_report3.specs.Endings.{ended_past};
ghost use Rattle.cmh_report3.specs.Inner.ClockTables.{FitClocks};
ghost use Rattle.cmh_report3.specs.Inner.Pairs.{has_pair};

use crate::clocks::{Clocks, declared_at, is_within};
use crate::pairs::PairSet;
use crate::waits::{add_ended, add_left, take_event};
use cmh_model3::{Event, Message, ProcId, Stamp, WorldEvent};
use std::alloc::{AllocError, Global};

/// A stop of a run.
#[derive(Drop)]
pub struct Stop {
    /// The waits that stood at the stop.
    pub waits: PairSet,
    /// Those that ended past the stop, whether they stood there or not.
    pub ended: PairSet,
    /// Of these, those that their askers gave up.
    pub left: PairSet,
}

/// The stop of this number, of the events of a run.
pub fn stop_of(
    alloc: Global,
    number: Stamp,
    events: &[WorldEvent<Event, Message>],
) -> Result<Stop, AllocError>
    requires { FitClocks (λ s. 0) events.now }
    ensures waits { IfOk result (λ stop. (j k : ℕ) →
        has_pair stop.waits j k ≡ wait_after false j k (stops.stop number events.now)) }
    ensures ended { IfOk result (λ stop. (j k : ℕ) →
        has_pair stop.ended j k ≡ ended_past number j k (λ s. 0) events.now) }
    ensures left { IfOk result (λ stop. (j k : ℕ) →
        has_pair stop.left j k ≡ stops.withdrawn_past number j k (λ s. 0) events.now) }
{
    let mut clocks = Clocks::new(alloc);
    let mut waits = PairSet::new(alloc);
    let mut ended = PairSet::new(alloc);
    let mut left = PairSet::new(alloc);
    for event in events {
        let stamp = clocks.take(event)?;
        if is_within(number, stamp, &event.entry.event) {
            take_event(&mut waits, &event.entry.event)?;
        } else {
            add_ended(&mut ended, &event.entry.event)?;
            add_left(&mut left, &event.entry.event)?;
        }
    }
    Ok(Stop { waits, ended, left })
}

/// The waits at the end of a list of events.
pub fn waits_of(alloc: Global, events: &[WorldEvent<Event, Message>]) -> Result<PairSet, AllocError>
    ensures { IfOk result (λ waits. (j k : ℕ) → has_pair waits j k ≡ wait_after false j k events.now) }
{
    let mut waits = PairSet::new(alloc);
    for event in events {
        take_event(&mut waits, &event.entry.event)?;
    }
    Ok(waits)
}

/// The stop of the newest declaration of a process; 0 where there is none.
pub fn newest_stop(
    alloc: Global,
    process: ProcId,
    events: &[WorldEvent<Event, Message>],
) -> Result<Stamp, AllocError>
    requires { FitClocks (λ s. 0) events.now }
    ensures { IfOk result (λ stop. stop ≡ declarations.newest_stop process 0 (λ s. 0) events.now) }
{
    let mut clocks = Clocks::new(alloc);
    let mut stop = Stamp::new(0);
    for event in events {
        if event.entry.declared == Some(process) {
            stop = declared_at(clocks.at(event.site), &event.entry.event);
        }
        let _ = clocks.take(event)?;
    }
    Ok(stop)
}
