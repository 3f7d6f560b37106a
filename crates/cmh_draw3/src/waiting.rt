//! Who waits for whom at the end.

ghost use Rattle.std.specs.Prelude.{◌≡◌, ◌≤◌, ◌++◌, IfOk, OnOk, length, map};
ghost use Rattle.std.specs.List.{AllByRecursion, list_any};
ghost use Rattle.cmh_draw.specs.Inner.Steps as steps;
ghost use Rattle.cmh_draw3.specs.Inner.Marks as inner;
ghost use Rattle.cmh_draw3.specs.Inner.Standing.{is_of_process, is_stuck_in, takes_step};
ghost use Rattle.cmh_draw3.specs.Marks as spec;
ghost use Rattle.cmh_draw3.specs.Marks.{IsWaitsPicture};
ghost use Rattle.cmh_topology3.specs.Topology.{members_of, sites_of};

use crate::running::{add_stops, is_standing};
use cmh_draw::{Kind, Mark, Picture, Process, Site, Spot, Wait, has_step, place_of, row_of};
use cmh_files3::Finding;
use cmh_model3::{ProcId, SiteId};
use cmh_report3::{CycleNow, Deadlock};
use cmh_topology3::Topology;
use std::alloc::{AllocError, Global};

/// The picture of who waits for whom at the end of the run from which the segments of this finding come: each site with
/// its processes, each wait, and each wait that was given up and not answered. Where they come from none, nobody is known
/// to wait, and each site that stops says where.
///
/// The only error is out of memory.
pub fn waits_picture(
    alloc: Global,
    topology: &Topology,
    finding: &Finding,
) -> Result<Picture, AllocError>
    ensures { IfOk result (IsWaitsPicture topology.now finding.now) }
{
    let marks = marks_of(alloc, topology, finding)?;
    Ok(Picture {
        kind: Kind::Waits,
        may_withdraw: true,
        columns: topology.sites().len() as u32,
        rows: height_of(topology),
        marks,
    })
}

fn marks_of(alloc: Global, topology: &Topology, finding: &Finding) -> Result<Vec<Mark>, AllocError>
    ensures { IfOk result (λ marks. marks.items
        ≡ spec.site_marks topology.now (λ site. length (members_of topology.now site))
        ++ spec.waits_marks topology.now finding.now) }
{
    let mut marks = Vec::new(alloc);
    add_homes(topology, &mut marks)?;
    match finding {
        Finding::Accepted(report) => {
            add_waits(topology, &report.declared, &report.waits, &mut marks)?;
            add_leaving(topology, &report.declared, &report.leaving, &mut marks)?;
            add_all_processes(topology, &report.declared, &mut marks)?;
        }
        Finding::Refused(stops) => {
            add_stops(topology, &[], stops.as_slice(), &mut marks)?;
            add_all_processes(topology, &[], &mut marks)?;
        }
    }
    Ok(marks)
}

fn add_homes(topology: &Topology, marks: &mut Vec<Mark>) -> Result<(), AllocError>
    ensures { OnOk result (marks.new.items ≡ marks.old.items
        ++ spec.site_marks topology.now (λ site. length (members_of topology.now site))) }
{
    for (column, site) in topology.sites().iter().enumerate() {
        let length = topology.members(*site).len() as u32;
        marks.push(Mark::Site(Site {
            site: *site,
            place: column as u32,
            length,
        }))?;
    }
    Ok(())
}

fn add_waits(
    topology: &Topology,
    declared: &[Deadlock],
    waits: &[(ProcId, ProcId)],
    marks: &mut Vec<Mark>,
) -> Result<(), AllocError>
    ensures { OnOk result (marks.new.items ≡ marks.old.items
        ++ map (inner.wait_mark topology.now declared.now) waits.now) }
{
    for (asker, holder) in waits {
        marks.push(Mark::Wait(wait_of(topology, declared, *asker, *holder)))?;
    }
    Ok(())
}

fn add_leaving(
    topology: &Topology,
    declared: &[Deadlock],
    leaving: &[(ProcId, ProcId)],
    marks: &mut Vec<Mark>,
) -> Result<(), AllocError>
    ensures { OnOk result (marks.new.items ≡ marks.old.items
        ++ map (inner.leaving_mark topology.now declared.now) leaving.now) }
{
    for (asker, holder) in leaving {
        marks.push(Mark::Leaving(wait_of(topology, declared, *asker, *holder)))?;
    }
    Ok(())
}

/// Where a wait is drawn.
fn wait_of(topology: &Topology, declared: &[Deadlock], asker: ProcId, holder: ProcId) -> Wait
    ensures { result ≡ spec.drawn_wait topology.now declared.now (asker, holder) }
{
    let from = spot_of(topology, asker);
    let to = spot_of(topology, holder);
    let is_on_cycle = is_on_cycle(declared, asker, holder);
    Wait {
        asker,
        holder,
        from,
        to,
        is_on_cycle,
    }
}

fn add_all_processes(
    topology: &Topology,
    declared: &[Deadlock],
    marks: &mut Vec<Mark>,
) -> Result<(), AllocError>
    ensures { OnOk result (marks.new.items ≡ marks.old.items ++ spec.process_marks topology.now declared.now) }
{
    for (column, site) in topology.sites().iter().enumerate() {
        let members = topology.members(*site);
        add_processes(declared, column as u32, *site, members, marks)?;
    }
    Ok(())
}

fn add_processes(
    declared: &[Deadlock],
    column: u32,
    site: SiteId,
    members: &[ProcId],
    marks: &mut Vec<Mark>,
) -> Result<(), AllocError>
    requires { length members.now ≤ 256 }
    ensures { OnOk result (marks.new.items ≡ marks.old.items
        ++ inner.member_marks declared.now column site members.now) }
{
    for (row, process) in members.iter().enumerate() {
        let spot = Spot {
            column,
            row: row as u32,
        };
        marks.push(member(declared, site, spot, *process))?;
    }
    Ok(())
}

/// The mark of a process: one that is declared and whose cycle was left has its own.
fn member(declared: &[Deadlock], site: SiteId, spot: Spot, process: ProcId) -> Mark
    ensures { result ≡ inner.process_mark declared.now spot.column site spot.row process }
{
    let is_declared = is_declared(declared, process);
    let drawn = Process {
        process,
        site,
        spot,
        is_declared,
    };
    if is_declared && !is_stuck(declared, process) {
        Mark::Released(drawn)
    } else {
        Mark::Process(drawn)
    }
}

fn is_declared(declared: &[Deadlock], process: ProcId) -> bool
    ensures { result ≡ list_any (is_of_process process) declared.now }
{
    for deadlock in declared {
        if deadlock.process == process {
            return true;
        }
    }
    false
}

/// Whether it is declared with a cycle that stands.
fn is_stuck(declared: &[Deadlock], process: ProcId) -> bool
    ensures { result ≡ list_any (is_stuck_in process) declared.now }
{
    for deadlock in declared {
        if deadlock.process == process && is_standing(&deadlock.cycle) {
            return true;
        }
    }
    false
}

/// Where a process is drawn.
fn spot_of(topology: &Topology, process: ProcId) -> Spot
    ensures { result ≡ spec.process_spot topology.now process }
{
    match topology.home(process) {
        Some(site) => Spot {
            column: row_of(topology.sites(), site),
            row: place_of(topology.members(site), process),
        },
        None => Spot { column: 0, row: 0 },
    }
}

/// Whether the wait is one of a cycle that stands of a declared process.
fn is_on_cycle(declared: &[Deadlock], asker: ProcId, holder: ProcId) -> bool
    ensures { result ≡ list_any (takes_step asker holder) declared.now }
{
    for deadlock in declared {
        if is_on(&deadlock.cycle, asker, holder) {
            return true;
        }
    }
    false
}

fn is_on(cycle: &CycleNow, asker: ProcId, holder: ProcId) -> bool
    ensures { result ≡ steps.has_step asker holder (spec.standing cycle.now) }
{
    match cycle {
        CycleNow::Stands(members) => has_step(members, asker, holder),
        CycleNow::Left { .. } | CycleNow::None => false,
    }
}

/// How many processes the largest site has, and 1 at least.
fn height_of(topology: &Topology) -> u32
    ensures { AllByRecursion (λ site. length (members_of topology.now site) ≤ result) (sites_of topology.now) }
{
    let mut height = 1;
    for site in topology.sites() {
        height = larger(height, topology.members(*site).len() as u32);
    }
    height
}

const fn larger(a: u32, b: u32) -> u32
    ensures first { a ≤ result }
    ensures second { b ≤ result }
{
    if a < b { b } else { a }
}
