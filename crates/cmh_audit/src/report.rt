//! What accepted journals come to.

ghost use Rattle.std.specs.Prelude.{◌≡◌, ℕ, ◌<◌, ◌^◌, List, length, IfOk, IfSome, IfNone, Some, None, Contains};
ghost use Rattle.std.specs.List.Sorted.{IsStrictlyIncreasing, IsStrictlySortedBy};
ghost use Rattle.cmh_cycles.specs.Graphs.{IsGraph};
ghost use Rattle.cmh_audit.specs.Reports.{cycle_of};
ghost use Rattle.cmh_audit.specs.Inner.FoundCycles.{AreFoundCycles, IsFoundCycle};
ghost use Rattle.cmh_audit.specs.Inner.Reporting.{IsReportWith, beside};

use crate::declared::processes_of;
use crate::open_waits::OpenWaits;
use cmh_cycles::{Graph, place_of, shortest_cycle};
use cmh_frames::ProcId;
use std::alloc::{AllocError, Global};
use std::collections::BTreeSet;
use std::marker::Model;

/// A cycle of waits: it begins and ends with the same process, and each member waits for the next.
#[derive(Drop)]
struct Cycle {
    members: Vec<ProcId>,
}

impl Model for Cycle {
    ghost use Rattle.std.specs.Prelude.{ℕ, List};

    ghost Value = { List ℕ };

    ghost view = { λ c. c.members.items };
}

impl Cycle {
    fn new(members: Vec<ProcId>) -> Self
        ensures { result ≡ members.items }
    {
        Cycle { members }
    }

    fn as_slice(&self) -> &[ProcId]
        ensures { result.now ≡ self.now }
    {
        &self.members
    }
}

/// What accepted journals come to: who waits for whom at the end, and who was declared deadlocked.
#[derive(Drop)]
pub struct Report {
    events: u64,
    waits: Vec<(ProcId, ProcId)>,
    declared: Vec<ProcId>,

    /// Of each declared process.
    cycles: Vec<Cycle>,
    in_transit: u64,
    tries: u64,
}

impl Model for Report {
    ghost use Rattle.std.specs.Prelude.{◌≡◌, length};
    ghost use Rattle.std.specs.List.Sorted.{IsStrictlyIncreasing};
    ghost use Rattle.cmh_audit.specs.Reports as spec;

    ghost Value = { spec.Report };

    ghost view = { λ r. record {
      events = r.events;
      waits = r.waits.items;
      declared = r.declared.items;
      cycles = r.cycles.items;
      in_transit = r.in_transit;
      tries = r.tries;
    } };

    ghost invariant = { λ r. (length r.cycles.items ≡ length r.declared.items)
        × IsStrictlyIncreasing r.declared.items };
}

impl Report {
    /// How many entries the journals have together.
    pub fn events(&self) -> u64
        ensures { result ≡ self.now.events }
    {
        self.events
    }

    /// Each process that waits with each that it waits for, ascending.
    pub fn waits(&self) -> &[(ProcId, ProcId)]
        ensures { result.now ≡ self.now.waits }
    {
        &self.waits
    }

    /// The processes that were declared deadlocked, ascending.
    pub fn declared(&self) -> &[ProcId]
        ensures { result.now ≡ self.now.declared }
    {
        &self.declared
    }

    /// A shortest cycle of waits through a declared process, and of those the least by comparing them number by number.
    /// It begins and ends with the process. There is none for a process that was not declared.
    pub fn cycle(&self, process: ProcId) -> Option<&[ProcId]>
        ensures some { IfSome result (λ members. cycle_of self.now process ≡ Some members.now) }
        ensures none { IfNone result (cycle_of self.now process ≡ None) }
    {
        cycle_beside(&self.declared, &self.cycles, process)
    }

    /// How many frames were sent and not got.
    pub fn in_transit(&self) -> u64
        ensures { result ≡ self.now.in_transit }
    {
        self.in_transit
    }

    /// How often it was looked whether a site's next entry can be taken.
    pub fn tries(&self) -> u64
        ensures { result ≡ self.now.tries }
    {
        self.tries
    }
}

/// What a report counts: entries, frames that were sent and not got, and looks at a site's next entry.
#[derive(Clone, Copy)]
pub struct Counts {
    pub events: u64,
    pub in_transit: u64,
    pub tries: u64,
}

/// The report of these open waits and these declared processes, with these counts.
pub fn report_with(
    alloc: Global,
    waits: &OpenWaits,
    declared: &BTreeSet<ProcId>,
    counts: Counts,
) -> Result<Report, AllocError>
    ensures { IfOk result (IsReportWith waits.now declared.now.keys counts.events counts.in_transit counts.tries) }
{
    let graph = Graph::new(alloc, waits.pairs(alloc)?)?;
    let declared = processes_of(alloc, declared)?;
    let cycles = cycles_of(alloc, &graph, &declared)?;
    Ok(Report {
        events: counts.events,
        waits: graph.waits,
        declared,
        cycles,
        in_transit: counts.in_transit,
        tries: counts.tries,
    })
}

fn cycle_beside<'a>(
    declared: &[ProcId],
    cycles: &'a [Cycle],
    process: ProcId,
) -> Option<&'a [ProcId]>
    requires long { length cycles.now ≡ length declared.now }
    requires ascending { IsStrictlyIncreasing declared.now }
    ensures some { IfSome result (λ members. beside declared.now cycles.now process ≡ Some members.now) }
    ensures none { IfNone result (beside declared.now cycles.now process ≡ None) }
{
    match place_of(declared, process) {
        Some(place) => Some(cycles[place].as_slice()),
        None => None,
    }
}

/// The first of the shortest cycles through each of these processes.
fn cycles_of(alloc: Global, graph: &Graph, processes: &[ProcId]) -> Result<Vec<Cycle>, AllocError>
    requires { IsGraph graph.now graph.now.waits.items }
    ensures { IfOk result (λ cycles. AreFoundCycles graph.now.waits.items processes.now cycles.items) }
{
    let mut cycles = Vec::new(alloc);
    for process in processes {
        cycles.push(cycle_or_empty(alloc, graph, *process)?)?;
    }
    Ok(cycles)
}

/// The first of the shortest cycles through a process; where there is none, an empty one.
fn cycle_or_empty(alloc: Global, graph: &Graph, process: ProcId) -> Result<Cycle, AllocError>
    requires { IsGraph graph.now graph.now.waits.items }
    ensures { IfOk result (λ members. IsFoundCycle graph.now.waits.items process members) }
{
    match shortest_cycle(alloc, graph, process)? {
        Some(members) => Ok(Cycle::new(members)),
        None => Ok(Cycle::new(Vec::new(alloc))),
    }
}
