//! The report on a world.

ghost use Rattle.std.specs.Prelude.{◌≡◌, ℕ, List, IfOk, map};
ghost use Rattle.std.specs.List.{AllByRecursion, list_any};
ghost use Rattle.std.specs.List.Sorted.{IsStrictlyIncreasing};
ghost use Rattle.cmh_controller3.specs.Controller as control;
ghost use Rattle.cmh_model3.specs.Entries as model;
ghost use Rattle.cmh_model3.specs.Lists.{in_list};
ghost use Rattle.cmh_report3.specs.declared.cycle.Deadlock as cycle;
ghost use Rattle.cmh_report3.specs.Inner.ClockTables.{FitClocks};
ghost use Rattle.cmh_model3.specs.Runs.{IsRun};
ghost use Rattle.cmh_report3.specs.Kept.{IsKeptOf, IsKeptOfSome};
ghost use Rattle.cmh_report3.specs.Reports.{IsTold, Reports, StandEach};
ghost use Rattle.cmh_topology3.specs.Topology as topology;
ghost use Rattle.cmh_topology3.specs.Topology.{site_of};

use crate::cycle::{Deadlock, deadlock_of};
use crate::declared::{declared_by, leaving_by};
use crate::stop::waits_of;
use crate::totals::{got_in, sent_in};
use cmh_controller3::Controller;
use cmh_model3::{Event, Message, ProcId, WorldEvent};
use cmh_topology3::Topology;
use std::alloc::{AllocError, Global};

/// What the entries of a world come to. Printed, it is the lines of a report, the first of which is `accepted`.
#[derive(Drop)]
pub struct Report {
    /// How many entries there are.
    pub events: usize,
    /// How many messages were sent and not got.
    pub in_transit: u64,
    /// Each process that waits with each that it waits for, ascending. By the entries: a wait ends by the one that
    /// replies or withdraws.
    pub waits: Vec<(ProcId, ProcId)>,
    /// Each process with each that it has given up and can't ask again yet, ascending.
    pub leaving: Vec<(ProcId, ProcId)>,
    /// Those that are declared deadlocked at the end, ascending.
    pub declared: Vec<Deadlock>,
}

impl Report {
    /// The report on the entries of a run of this world. The controllers are those of all its sites, in any order, and stand
    /// where the entries lead.
    pub fn new(
        alloc: Global,
        topology: &Topology,
        controllers: &[Controller],
        events: &[WorldEvent<Event, Message>],
    ) -> Result<Report, AllocError>
        requires run { IsRun (site_of topology.now) events.now }
        requires stand { StandEach topology.now events.now controllers.now }
        ensures { IfOk result (Reports (site_of topology.now) events.now) }
    {
        Report::of_kept(alloc, controllers, events, sent_in(events))
    }

    /// The same, where nobody keeps what the entries sent, but how many messages that was, counted up to 2^64 - 1. What the
    /// events say that they sent is not looked at.
    pub fn of_kept(
        alloc: Global,
        controllers: &[Controller],
        events: &[WorldEvent<Event, Message>],
        sent: u64,
    ) -> Result<Report, AllocError>
        requires { IsKeptOfSome controllers.now events.now sent }
        ensures { IfOk result (λ report. (t : topology.Topology) (run : List model.WorldEvent)
            → IsKeptOf t run controllers.now events.now sent → Reports (site_of t) run report) }
    {
        Ok(Report {
            events: events.len(),
            in_transit: sent.saturating_sub(got_in(events)),
            waits: waits_of(alloc, events)?.pairs(alloc)?,
            leaving: leaving_by(alloc, controllers)?.pairs(alloc)?,
            declared: declared_of(alloc, controllers, events)?,
        })
    }
}

/// What is told of each process that is declared, ascending.
fn declared_of(
    alloc: Global,
    controllers: &[Controller],
    events: &[WorldEvent<Event, Message>],
) -> Result<Vec<Deadlock>, AllocError>
    requires { FitClocks (λ s. 0) events.now }
    ensures ascending { IfOk result (λ all. IsStrictlyIncreasing (map (λ (d : cycle.Deadlock). d.process) all.items)) }
    ensures all { IfOk result (λ all. (i : ℕ) → in_list (map (λ (d : cycle.Deadlock). d.process) all.items) i
        ≡ list_any (λ (c : control.Controller). (control.state_of c).declared i) controllers.now) }
    ensures told { IfOk result (λ all. AllByRecursion (IsTold events.now) all.items) }
{
    let processes = declared_by(alloc, controllers)?;
    let mut all = Vec::new(alloc);
    for process in processes.as_slice() {
        all.push(deadlock_of(alloc, *process, events)?)?;
    }
    Ok(all)
}
