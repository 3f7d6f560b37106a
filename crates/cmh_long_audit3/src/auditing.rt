//! The command over the files.

ghost use Rattle.std.specs.Prelude.{◌≡◌, false, true, IfOk, map};
ghost use Rattle.cmh_audit3.specs.Set.{IsSet};
ghost use Rattle.cmh_audit3.specs.Stops.{AreStops};
ghost use Rattle.cmh_console.specs.Status.{IsStatus};
ghost use Rattle.cmh_long_audit3.specs.Audits.{HasReport, IsAccepted};

use crate::bases::{base_lines, link_lines};
use crate::journals::{journals_of, journals_until, segments_of};
use crate::keeping::{Flaw, first_flawed, flaw_lines};
use crate::lines::{placed_reasons, run_lines, stop_lines};
use crate::noted::Noted;
use crate::places::{events_in, place_of};
use crate::progress::{ALL_JUDGED, ALL_READ, Progress};
use cmh_audit3::{Segment, Stop, Verdict, audit, check_set};
use cmh_console::{Fault, Output, read_topology_file3};
use cmh_files::Cuts;
use cmh_files3::{AuditFault, Finding, More, finding_on, lines_of_reasons};
use cmh_history3::{HistoryFault, HistoryVerdict, audit_history, whole_journals};
use cmh_model3::SiteId;
use cmh_report3::Report;
use cmh_topology3::Topology;
use cmh_wire3::Epoch;
use std::alloc::{AllocError, Global};
use std::io::{Eprint, Write};
use std::thread::Threads;
use std::time::Clock;

/// What an audit comes to.
#[derive(Drop)]
pub(crate) struct Told {
    pub is_accepted: bool,
    /// Its lines.
    pub text: String,
}

/// Audits the journals of all sites of a topology of edition 3, of each of which the files of its segments are given in order,
/// and writes what it finds: the report on all epochs, or the epoch that is refused with the stops in it, or with the bases
/// that are wrong.
///
/// The answer is the status of the program: 0 where all epochs are accepted, 1 where one is not or memory ran out, 3 at any
/// other fault, which is named on `err`. Where standard error is a terminal, an audit of more than a second says there how far
/// it has come.
pub fn run_long_audit3<R, W: Write, E: Write>(
    rt: &R,
    topology: &[u8],
    files: &[Vec<Vec<u8>>],
    more: More,
    out: &mut Output<W>,
    err: &mut Output<E>,
) -> u8
where
    R: Threads + AllocGlobal + Clock + Eprint + Sync,
    ensures status { IsStatus result }

    // It ends with 0 only where the epochs are one run, of which there is a report.
    ensures accepted { result ≡ 0 → IsAccepted topology.now
        (map (λ segments. map (λ file. file.items) segments.items) files.now) }
{
    match tell(rt, topology, files, more, out) {
        Ok(status) => status,
        Err(fault) => Fault::from(fault).name_on(err),
    }
}

/// Writes what the audit comes to; answers the status.
fn tell<R: Threads + AllocGlobal + Clock + Eprint + Sync, W: Write>(
    rt: &R,
    topology: &[u8],
    files: &[Vec<Vec<u8>>],
    more: More,
    out: &mut Output<W>,
) -> Result<u8, AuditFault>
    ensures status { IfOk result IsStatus }
    ensures accepted { IfOk result (λ status. status ≡ 0 → IsAccepted topology.now
        (map (λ segments. map (λ file. file.items) segments.items) files.now)) }
{
    let told = audited(rt, topology, files, more)?;
    out.write_text(told.text.as_str())?;
    out.flush()?;
    if told.is_accepted { Ok(0) } else { Ok(1) }
}

/// The audit of these files. The first fault is answered: of the topology file, of the topology, of the journals in their
/// order, and of their set.
fn audited<R: Threads + AllocGlobal + Clock + Eprint + Sync>(
    rt: &R,
    topology: &[u8],
    files: &[Vec<Vec<u8>>],
    more: More,
) -> Result<Told, AuditFault>
    ensures { IfOk result (λ told. told.is_accepted ≡ true → IsAccepted topology.now
        (map (λ segments. map (λ file. file.items) segments.items) files.now)) }
{
    let alloc = rt.alloc();
    let file = read_topology_file3(alloc, topology)?;
    let world = Topology::new(alloc, file.world, &file.rows)?;
    let progress = Progress::begin(rt);
    let mut noted = Noted::new(alloc);
    let journals = journals_of(rt, alloc, files, None, &mut noted)?;
    let cuts = noted.cuts(alloc)?;
    progress.tell(rt, ALL_READ);
    let verdict = match audit_history(rt, alloc, &world, journals) {
        Ok(verdict) => verdict,
        Err(fault) => return Err(of_history(fault)),
    };
    progress.tell(rt, ALL_JUDGED);
    let told = match verdict {
        HistoryVerdict::Accepted => unless_flawed(rt, &world, files, more, &noted.flaws)?,
        HistoryVerdict::Refused(epoch) => stopped(alloc, &world, files, epoch, more)?,
        HistoryVerdict::Apart(epoch) => apart(alloc, &world, files, epoch)?,
    };
    let mut text = cuts_text(alloc, &cuts)?;
    text.push_str(told.text.as_str())?;
    Ok(Told {
        is_accepted: told.is_accepted,
        text,
    })
}

/// The lines of journals that were cut off.
pub(crate) fn cuts_text(alloc: Global, cuts: &[(SiteId, usize)]) -> Result<String, AllocError> {
    let cuts = Cuts { cuts };
    let mut text = String::new(alloc);
    write!(text, "{cuts}")?;
    Ok(text)
}

/// The fault of an audit where journals are not those of one world.
pub(crate) fn of_history(fault: HistoryFault) -> AuditFault {
    match fault {
        HistoryFault::Set(fault) => AuditFault::Set(fault),
        HistoryFault::Memory => AuditFault::Memory,
    }
}

/// The report on all epochs of journals that are accepted, unless their bases have flaws.
fn unless_flawed<R: Threads + AllocGlobal + Sync>(
    rt: &R,
    world: &Topology,
    files: &[Vec<Vec<u8>>],
    more: More,
    flaws: &[Flaw],
) -> Result<Told, AuditFault>
    ensures { IfOk result (λ told. told.is_accepted ≡ true → HasReport world.now
        (map (λ segments. map (λ file. file.items) segments.items) files.now)) }
{
    match first_flawed(flaws) {
        Some(epoch) => Ok(flawed(rt.alloc(), flaws, epoch)?),
        None => accepted(rt, world, files, more),
    }
}

/// The report on all epochs of journals that are accepted, with more lines of it. The number of events is that of entries: a
/// turn is none.
fn accepted<R: Threads + AllocGlobal + Sync>(
    rt: &R,
    world: &Topology,
    files: &[Vec<Vec<u8>>],
    more: More,
) -> Result<Told, AuditFault>
    ensures { IfOk result (λ told. told.is_accepted ≡ true → HasReport world.now
        (map (λ segments. map (λ file. file.items) segments.items) files.now)) }
{
    let alloc = rt.alloc();
    let mut noted = Noted::new(alloc);
    let wholes = whole_journals(alloc, journals_of(rt, alloc, files, None, &mut noted)?)?;
    check_set(world, &wholes)?;
    let events = events_in(&wholes);
    let listed = run_listed(alloc, world, &wholes, more)?;
    let told = finding_on(alloc, world, wholes, without_run(more))?;
    let (finding, lines) = (told.finding, told.lines);
    match finding {
        Finding::Accepted(report) => {
            let mut text = report_text(alloc, report, events)?;
            text.push_str(listed.as_str())?;
            text.push_str(lines.as_str())?;
            Ok(Told {
                is_accepted: true,
                text,
            })
        }
        Finding::Refused(_) => stopped(alloc, world, files, Epoch::new(u32::MAX), more),
    }
}

/// The lines of a report with so many events.
fn report_text(alloc: Global, report: Report, events: usize) -> Result<String, AllocError> {
    let Report {
        in_transit,
        waits,
        leaving,
        declared,
        ..
    } = report;
    let report = Report {
        events,
        in_transit,
        waits,
        leaving,
        declared,
    };
    let mut text = String::new(alloc);
    write!(text, "{report}")?;
    Ok(text)
}

/// The entries of a run, where they are asked for.
fn run_listed(
    alloc: Global,
    world: &Topology,
    wholes: &[Segment],
    more: More,
) -> Result<String, AuditFault>
    requires { IsSet world.now wholes.now }
{
    if more != More::Run {
        return Ok(String::new(alloc));
    }
    match audit(alloc, world, wholes)? {
        Verdict::Accepted { order, .. } => Ok(run_lines(alloc, wholes, order.as_slice())?),
        Verdict::Refused(_) => Ok(String::new(alloc)),
    }
}

/// What is left to tell beside a run.
fn without_run(more: More) -> More {
    match more {
        More::Run => More::Nothing,
        _ => more,
    }
}

/// The epoch that is refused, with the stops of the sites in it; or, where none stops, with the link on which its bases do not
/// agree.
fn stopped(
    alloc: Global,
    world: &Topology,
    files: &[Vec<Vec<u8>>],
    epoch: Epoch,
    more: More,
) -> Result<Told, AuditFault>
    ensures { IfOk result (λ told. told.is_accepted ≡ false) }
{
    let until = last_until(alloc, files, epoch)?;
    let wholes = whole_journals(alloc, journals_until(alloc, files, until, true)?)?;
    check_set(world, &wholes)?;
    let text = match audit(alloc, world, &wholes)? {
        Verdict::Refused(stops) => stopped_text(alloc, world, &wholes, stops.as_slice(), more)?,
        Verdict::Accepted { .. } => {
            let lines = link_lines(alloc, world, files, epoch)?;
            refused_text(alloc, epoch, lines.as_str())?
        }
    };
    Ok(Told {
        is_accepted: false,
        text,
    })
}

/// This epoch, if all sites have ended it; else the last that there can be.
fn last_until(alloc: Global, files: &[Vec<Vec<u8>>], epoch: Epoch) -> Result<Epoch, AuditFault> {
    for (i, files) in files.iter().enumerate() {
        let segments = segments_of(alloc, files, i + 1)?;
        match segments.last() {
            Some(newest) if newest.header.epoch > epoch => {}
            _ => return Ok(Epoch::new(u32::MAX)),
        }
    }
    Ok(epoch)
}

/// The lines of stops, behind the epoch of the first one.
fn stopped_text(
    alloc: Global,
    world: &Topology,
    wholes: &[Segment],
    stops: &[Stop],
    more: More,
) -> Result<String, AllocError>
    requires { AreStops world.now wholes.now stops.now }
{
    let epoch = least_epoch(wholes, stops);
    let lines = stop_lines(alloc, wholes, stops, epoch)?;
    let mut text = refused_text(alloc, epoch, lines.as_str())?;
    if more == More::Reasons {
        let reasons = lines_of_reasons(alloc, world, wholes, stops)?;
        let placed = placed_reasons(alloc, wholes, stops, epoch, reasons.as_str())?;
        text.push_str(placed.as_str())?;
    }
    Ok(text)
}

/// The least epoch in which a site stops.
pub(crate) fn least_epoch(wholes: &[Segment], stops: &[Stop]) -> Epoch {
    let mut least = Epoch::new(u32::MAX);
    for stop in stops {
        let place = place_of(wholes, stop.site, stop.entry);
        if place.epoch < least {
            least = place.epoch;
        }
    }
    least
}

/// The epoch whose bases do not say the end of the one before it, with those that do not.
fn apart(
    alloc: Global,
    world: &Topology,
    files: &[Vec<Vec<u8>>],
    epoch: Epoch,
) -> Result<Told, AuditFault>
    ensures { IfOk result (λ told. told.is_accepted ≡ false) }
{
    let lines = base_lines(alloc, world, files, epoch)?;
    Ok(Told {
        is_accepted: false,
        text: refused_text(alloc, epoch, lines.as_str())?,
    })
}

/// The epoch that begins with flaws.
pub(crate) fn flawed(alloc: Global, flaws: &[Flaw], epoch: Epoch) -> Result<Told, AllocError>
    ensures { IfOk result (λ told. told.is_accepted ≡ false) }
{
    let lines = flaw_lines(alloc, flaws, epoch)?;
    Ok(Told {
        is_accepted: false,
        text: refused_text(alloc, epoch, lines.as_str())?,
    })
}

/// The line of the epoch that is refused, and more lines.
pub(crate) fn refused_text(alloc: Global, epoch: Epoch, lines: &str) -> Result<String, AllocError> {
    let number = epoch.get();
    let mut text = String::new(alloc);
    write!(text, "epoch {number}\nrefused\n{lines}")?;
    Ok(text)
}
