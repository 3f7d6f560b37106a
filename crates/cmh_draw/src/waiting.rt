//! Who waits for whom at the end.

ghost use Rattle.std.specs.Prelude.{◌≡◌, ◌≤◌, ◌++◌, ◌&&◌, ◌==◌, [], IfOk, OnOk, drop, length, map, unwrap_or, zip};
ghost use Rattle.std.specs.List.{list_any};
ghost use Rattle.cmh_audit.specs.Reports.{cycle_of};
ghost use Rattle.cmh_frames.specs.Topology.{members_of};
ghost use Rattle.cmh_draw.specs.Each.{number_from};
ghost use Rattle.cmh_draw.specs.Inner.Marks.{member_marks, wait_mark};
ghost use Rattle.cmh_draw.specs.Inner.Steps as inner;
ghost use Rattle.cmh_draw.specs.Marks as spec;
ghost use Rattle.cmh_draw.specs.Marks.{IsWaitsPicture};

use crate::mark::{Mark, Process, Site, Spot, Wait};
use crate::picture::{Kind, Picture};
use crate::running::{add_stops, row_of};
use crate::size::height_of;
use cmh_audit::{Report, Verdict};
use cmh_frames::{ProcId, SiteId, Topology};
use std::alloc::{AllocError, Global};

/// The picture of who waits for whom at the end of the run from which the journals of this verdict come: each site with
/// its processes, and each wait. Where they come from none, nobody is known to wait, and each site that stops says
/// where.
///
/// The only error is out of memory.
pub fn waits_picture(
    alloc: Global,
    topology: &Topology,
    verdict: &Verdict,
) -> Result<Picture, AllocError>
    ensures { IfOk result (IsWaitsPicture topology.now verdict.now) }
{
    let mut marks = Vec::new(alloc);
    add_homes(topology, &mut marks)?;
    match verdict {
        Verdict::Accepted(report) => {
            add_waits(topology, report, &mut marks)?;
            add_all_processes(topology, report.declared(), &mut marks)?;
        }
        Verdict::Refused(stops) => {
            add_stops(topology, &[], stops.rows(), &mut marks)?;
            add_all_processes(topology, &[], &mut marks)?;
        }
    }
    Ok(Picture {
        kind: Kind::Waits,
        may_withdraw: false,
        columns: topology.sites().len() as u32,
        rows: height_of(topology),
        marks,
    })
}

fn add_homes(topology: &Topology, marks: &mut Vec<Mark>) -> Result<(), AllocError>
    ensures { OnOk result (marks.new.items ≡ marks.old.items ++ spec.site_marks topology.now (λ site. length (members_of topology.now site))) }
{
    for (column, site) in topology.sites().iter().enumerate() {
        let length = topology.members(*site).len() as u32;
        marks.push(Mark::Site(Site {
            site: *site,
            place: column as u32,
            length,
        }))?;
    }
    Ok(())
}

fn add_waits(topology: &Topology, report: &Report, marks: &mut Vec<Mark>) -> Result<(), AllocError>
    ensures { OnOk result (marks.new.items ≡ marks.old.items ++ map (wait_mark topology.now report.now) report.now.waits) }
{
    for (asker, holder) in report.waits() {
        let from = spot_of(topology, *asker);
        let to = spot_of(topology, *holder);
        let is_on_cycle = is_on_cycle(report, *asker, *holder);
        marks.push(Mark::Wait(Wait {
            asker: *asker,
            holder: *holder,
            from,
            to,
            is_on_cycle,
        }))?;
    }
    Ok(())
}

fn add_all_processes(
    topology: &Topology,
    declared: &[ProcId],
    marks: &mut Vec<Mark>,
) -> Result<(), AllocError>
    ensures { OnOk result (marks.new.items ≡ marks.old.items ++ spec.process_marks topology.now declared.now) }
{
    for (column, site) in topology.sites().iter().enumerate() {
        let members = topology.members(*site);
        add_processes(declared, column as u32, *site, members, marks)?;
    }
    Ok(())
}

fn add_processes(
    declared: &[ProcId],
    column: u32,
    site: SiteId,
    members: &[ProcId],
    marks: &mut Vec<Mark>,
) -> Result<(), AllocError>
    requires { length members.now ≤ 64 }
    ensures { OnOk result (marks.new.items ≡ marks.old.items
        ++ member_marks declared.now column site members.now) }
{
    for (row, process) in members.iter().enumerate() {
        let spot = Spot {
            column,
            row: row as u32,
        };
        let is_declared = is_among(declared, *process);
        marks.push(Mark::Process(Process {
            process: *process,
            site,
            spot,
            is_declared,
        }))?;
    }
    Ok(())
}

fn is_among(processes: &[ProcId], process: ProcId) -> bool
    ensures { result ≡ list_any (λ q. q == process) processes.now }
{
    processes.contains(&process)
}

/// Where a process is drawn.
fn spot_of(topology: &Topology, process: ProcId) -> Spot
    ensures { result ≡ spec.process_spot topology.now process }
{
    match topology.home(process) {
        Some(site) => Spot {
            column: row_of(topology.sites(), site),
            row: place_of(topology.members(site), process),
        },
        None => Spot { column: 0, row: 0 },
    }
}

/// The place of a process among these, from 0; 0 where it is none of them.
pub fn place_of(members: &[ProcId], process: ProcId) -> u32
    requires { length members.now ≤ 256 }
    ensures { result ≡ number_from 0 members.now process }
{
    for (row, other) in members.iter().enumerate() {
        if *other == process {
            return row as u32;
        }
    }
    0
}

/// Whether the wait is one of the cycle of a declared process.
fn is_on_cycle(report: &Report, asker: ProcId, holder: ProcId) -> bool
    ensures { result ≡ spec.is_on_cycle report.now asker holder }
{
    for process in report.declared() {
        if is_on_cycle_of(report, *process, asker, holder) {
            return true;
        }
    }
    false
}

fn is_on_cycle_of(report: &Report, process: ProcId, asker: ProcId, holder: ProcId) -> bool
    ensures { result ≡ inner.has_step asker holder (unwrap_or (cycle_of report.now process) []) }
{
    match report.cycle(process) {
        Some(members) => has_step(members, asker, holder),
        None => false,
    }
}

/// Whether the asker stands right before the holder.
pub fn has_step(members: &[ProcId], asker: ProcId, holder: ProcId) -> bool
    ensures { result ≡ list_any (λ step. (step.0 == asker) && (step.1 == holder))
        (zip members.now (drop 1 members.now)) }
{
    steps(members, asker, holder)
}

fn steps(members: &[ProcId], asker: ProcId, holder: ProcId) -> bool
    ensures { result ≡ inner.steps asker holder members.now }
{
    for (i, member) in members.iter().enumerate() {
        if *member == asker && begins_with(&members[i + 1..], holder) {
            return true;
        }
    }
    false
}

fn begins_with(members: &[ProcId], process: ProcId) -> bool
    ensures { result ≡ inner.begins_with process members.now }
{
    match members.split_first() {
        Some((first, _)) => *first == process,
        None => false,
    }
}
