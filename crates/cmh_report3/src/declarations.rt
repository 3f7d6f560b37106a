//! What is told of each declaration of a run.

ghost use Rattle.std.specs.Prelude.{◌≡◌, ◌++◌, ℕ, IfOk, OnOk, map};
ghost use Rattle.std.specs.List.{AllByRecursion};
ghost use Rattle.cmh_model3.specs.Stops as stops;
ghost use Rattle.cmh_report3.specs.declared.cycle.Deadlock as cycle;
ghost use Rattle.cmh_report3.specs.Declarations.{at_stop};
ghost use Rattle.cmh_report3.specs.Inner.ClockTables.{FitClocks, HasRoom};
ghost use Rattle.cmh_report3.specs.Reports.{AreSomeRun, AreTold, TellsCycle};

use crate::clocks::{Clocks, declared_at};
use crate::cycle::{Deadlock, deadlock_at};
use cmh_model3::{Event, Message, Stamp, WorldEvent};
use std::alloc::{AllocError, Global};

/// Each declaration of a run, in the order of its entries: its stop, and what became of the cycle on which the process lay.
/// A process that is declared more than once is told each time. The only error is out of memory.
///
/// It goes through the run once for each declaration.
pub fn declarations_of(
    alloc: Global,
    events: &[WorldEvent<Event, Message>],
) -> Result<Vec<Deadlock>, AllocError>
    requires { AreSomeRun events.now }
    ensures { IfOk result (λ told. AreTold events.now told.items) }
{
    let mut clocks = Clocks::new(alloc);
    let mut told = Vec::new(alloc);
    for event in events {
        push_declaration(alloc, &mut told, clocks.at(event.site), event, events)?;
        let _ = clocks.take(event)?;
    }
    Ok(told)
}

/// Adds what is told of the declaration of an entry, if it has one. The clock is that of its site before it.
fn push_declaration(
    alloc: Global,
    told: &mut Vec<Deadlock>,
    clock: Stamp,
    event: &WorldEvent<Event, Message>,
    events: &[WorldEvent<Event, Message>],
) -> Result<(), AllocError>
    requires room { HasRoom clock event.now.entry.event }
    requires fit { FitClocks (λ s. 0) events.now }
    ensures each { OnOk result (map (λ (d : cycle.Deadlock). (d.process, d.stop)) told.new.items
        ≡ map (λ (d : cycle.Deadlock). (d.process, d.stop)) told.old.items
        ++ at_stop event.now.entry.declared (stops.declared_at clock event.now.entry.event)) }
    ensures cycles { OnOk result (AllByRecursion (TellsCycle events.now) told.old.items
        → AllByRecursion (TellsCycle events.now) told.new.items) }
{
    if let Some(process) = event.entry.declared {
        let stop = declared_at(clock, &event.entry.event);
        told.push(deadlock_at(alloc, process, stop, events)?)?;
    }
    Ok(())
}
