//! What became of the cycle on which a declared process lay.

ghost use Rattle.std.specs.Prelude.{◌≡◌, ℕ, IfOk, MatchOption, filter, min, not};
ghost use Rattle.cmh_report3.specs.Inner.ClockTables.{FitClocks};
ghost use Rattle.cmh_report3.specs.Inner.Leavers.{IsLeastIn};
ghost use Rattle.cmh_report3.specs.Inner.Pairs.{has_pair};
ghost use Rattle.cmh_report3.specs.Reports.{IsTold, TellsCycle};
ghost use Rattle.cmh_report3.specs.Inner.Stopped.{IsCycleOfStop};

use crate::pairs::PairSet;
use crate::stop::{Stop, newest_stop, stop_of};
use cmh_cycles::{Graph, shortest_cycle};
use cmh_model3::{Event, Message, ProcId, Stamp, WorldEvent};
use std::alloc::{AllocError, Global};

/// What became of a cycle of a stop.
#[derive(Drop)]
pub enum CycleNow {
    /// Its waits stand since: the shortest and of those the least of such cycles, from the process to itself.
    Stands(Vec<ProcId>),
    /// None is left whose waits stand since. `members` is the shortest and least cycle of the stop, and `by` the least of
    /// its members that has given up its wait for the next one. By `report_law` there is one.
    Left {
        members: Vec<ProcId>,
        by: Option<ProcId>,
    },
    /// There was none at the stop. In no run is that so, by `report_law`.
    None,
}

/// A process that is declared deadlocked, or was.
#[derive(Drop)]
pub struct Deadlock {
    pub process: ProcId,
    /// The stop at which it lay on a cycle.
    pub stop: Stamp,
    pub cycle: CycleNow,
}

/// What is told of a process that is declared.
pub fn deadlock_of(
    alloc: Global,
    process: ProcId,
    events: &[WorldEvent<Event, Message>],
) -> Result<Deadlock, AllocError>
    requires { FitClocks (λ s. 0) events.now }
    ensures { IfOk result (λ deadlock. (deadlock.process ≡ process) × IsTold events.now deadlock) }
{
    let number = newest_stop(alloc, process, events)?;
    deadlock_at(alloc, process, number, events)
}

/// What is told of a process that was declared at this stop.
pub fn deadlock_at(
    alloc: Global,
    process: ProcId,
    number: Stamp,
    events: &[WorldEvent<Event, Message>],
) -> Result<Deadlock, AllocError>
    requires { FitClocks (λ s. 0) events.now }
    ensures process { IfOk result (λ deadlock. deadlock.process ≡ process) }
    ensures stop { IfOk result (λ deadlock. deadlock.stop ≡ number) }
    ensures cycle { IfOk result (TellsCycle events.now) }
{
    let stop = stop_of(alloc, number, events)?;
    Ok(Deadlock {
        process,
        stop: number,
        cycle: cycle_now(alloc, &stop, process)?,
    })
}

/// What became of the cycles of a stop through a process.
fn cycle_now(alloc: Global, stop: &Stop, process: ProcId) -> Result<CycleNow, AllocError>
    ensures { IfOk result (IsCycleOfStop (has_pair stop.now.waits) (has_pair stop.now.ended) (has_pair stop.now.left) process) }
{
    let waits = stop.waits.pairs(alloc)?;
    let standing = Graph::new(alloc, pairs_beyond(alloc, &waits, &stop.ended)?)?;
    if let Some(members) = shortest_cycle(alloc, &standing, process)? {
        return Ok(CycleNow::Stands(members));
    }
    let graph = Graph::new(alloc, waits)?;
    match shortest_cycle(alloc, &graph, process)? {
        Some(members) => {
            let by = least_leaver(&members, &stop.left);
            Ok(CycleNow::Left { members, by })
        }
        None => Ok(CycleNow::None),
    }
}

/// The pairs that are not in the set.
fn pairs_beyond(
    alloc: Global,
    pairs: &[(ProcId, ProcId)],
    set: &PairSet,
) -> Result<Vec<(ProcId, ProcId)>, AllocError>
    ensures { IfOk result (λ beyond.
        beyond.items ≡ filter (λ (pair : ℕ × ℕ). not (has_pair set.now pair.0 pair.1)) pairs.now) }
{
    let mut beyond = Vec::new(alloc);
    for (first, second) in pairs {
        if !set.has(*first, *second) {
            beyond.push((*first, *second))?;
        }
    }
    Ok(beyond)
}

/// The least of the members that has given up its wait for the next one.
fn least_leaver(members: &[ProcId], left: &PairSet) -> Option<ProcId>
    ensures { IsLeastIn (has_pair left.now) members.now result }
{
    let mut least: Option<ProcId> = None;
    for place in 1..members.len() {
        if left.has(members[place - 1], members[place]) {
            least = Some(lesser(least, members[place - 1]));
        }
    }
    least
}

/// The lesser of two processes, where there are two.
fn lesser(one: Option<ProcId>, other: ProcId) -> ProcId
    ensures { MatchOption one (result ≡ other) (λ one. result ≡ min one other) }
{
    match one {
        Some(one) => one.min(other),
        None => other,
    }
}
