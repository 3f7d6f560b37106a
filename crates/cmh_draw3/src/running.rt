//! The run as a space-time diagram: a line a site, a mark an entry, an arrow a message.

ghost use Rattle.std.specs.Prelude.{◌≡◌, ◌++◌, IfOk, OnOk, map, option_map};
ghost use Rattle.std.specs.List.{list_any};
ghost use Rattle.cmh_audit3.specs.Journals.{journal_of};
ghost use Rattle.cmh_draw.specs.declared.mark.Mark.TheVariants.{Arrow as Arrow_mark};
ghost use Rattle.cmh_draw3.specs.Inner.Marks as inner;
ghost use Rattle.cmh_draw3.specs.Inner.Stands.{stands};
ghost use Rattle.cmh_draw3.specs.Marks as spec;
ghost use Rattle.cmh_draw3.specs.Marks.{AreForward, IsRunPicture};

use crate::arrows::arrows_of;
use crate::columns::columns_of;
use crate::newer_run::{NewerRun, entries_at};
use cmh_audit3::{Segment, Stop};
use cmh_draw::{
    Arrow, Columns, Declared, DrawnEvent, EntryMark, Kind, Line, Mark, Picture, Site, add_arrows,
    forward, row_of, spot_of, width_of,
};
use cmh_files3::Finding;
use cmh_report3::{CycleNow, Deadlock};
use cmh_segment3::Declaration;
use cmh_topology3::Topology;
use std::alloc::{AllocError, Global};

/// The picture of the run from which the segments come: each site, each message that was sent, and each entry. Where they
/// come from none, it has what they record, and a mark at each entry that can't be taken.
///
/// The k-th message that was sent on a link is drawn to the entry that got the k-th, which stands on the right of the one
/// that sent it where the segments come from a run. The only error is out of memory.
pub fn run_picture(
    alloc: Global,
    topology: &Topology,
    segments: &[Segment],
    finding: &Finding,
) -> Result<Picture, AllocError>
    ensures { IfOk result (IsRunPicture topology.now segments.now finding.now) }
{
    let columns = columns_of(alloc, topology, segments)?;
    let width = width_of(&columns);
    let run = NewerRun {
        topology,
        segments,
        columns: &columns,
    };
    let sent = arrows_of(alloc, &run)?;
    let arrows = in_time(finding, sent)?;
    let marks = marks_of(alloc, &run, &arrows, finding, width)?;
    Ok(Picture {
        kind: Kind::Run,
        may_withdraw: true,
        columns: width,
        rows: topology.sites().len() as u32,
        marks,
    })
}

/// These arrows of a run, which go forward in time if the segments come from one.
fn in_time(finding: &Finding, arrows: Vec<Arrow>) -> Result<Vec<Arrow>, AllocError>
    ensures same { IfOk result (λ all. all.items ≡ arrows.items) }
    ensures forward { IfOk result (λ all. AreForward finding.now all.items) }
{
    match finding {
        Finding::Accepted(_) => forward(arrows),
        Finding::Refused(_) => Ok(arrows),
    }
}

fn marks_of(
    alloc: Global,
    run: &NewerRun<'_>,
    arrows: &[Arrow],
    finding: &Finding,
    width: u32,
) -> Result<Vec<Mark>, AllocError>
    ensures { IfOk result (λ marks. marks.items
        ≡ spec.site_marks run.now.topology.now (λ site. width)
        ++ map Arrow_mark arrows.now
        ++ spec.entry_marks run.now.topology.now run.now.segments.now run.now.columns.now finding.now
        ++ spec.stop_marks run.now.topology.now run.now.columns.now finding.now) }
{
    let mut marks = Vec::new(alloc);
    add_sites(run.topology, width, &mut marks)?;
    add_arrows(arrows, &mut marks)?;
    add_all_entries(alloc, run, finding, &mut marks)?;
    match finding {
        Finding::Accepted(_) => {}
        Finding::Refused(stops) => {
            add_stops(run.topology, run.columns, stops.as_slice(), &mut marks)?
        }
    }
    Ok(marks)
}

fn add_sites(topology: &Topology, width: u32, marks: &mut Vec<Mark>) -> Result<(), AllocError>
    ensures { OnOk result (marks.new.items ≡ marks.old.items ++ spec.site_marks topology.now (λ site. width)) }
{
    for (row, site) in topology.sites().iter().enumerate() {
        marks.push(Mark::Site(Site {
            site: *site,
            place: row as u32,
            length: width,
        }))?;
    }
    Ok(())
}

fn add_all_entries(
    alloc: Global,
    run: &NewerRun<'_>,
    finding: &Finding,
    marks: &mut Vec<Mark>,
) -> Result<(), AllocError>
    ensures { OnOk result (marks.new.items ≡ marks.old.items
        ++ spec.entry_marks run.now.topology.now run.now.segments.now run.now.columns.now finding.now) }
{
    for (row, site) in run.topology.sites().iter().enumerate() {
        let line = Line {
            row: row as u32,
            site: *site,
        };
        add_entries(alloc, run, finding, &line, marks)?;
    }
    Ok(())
}

/// Adds the entries of a site.
fn add_entries(
    alloc: Global,
    run: &NewerRun<'_>,
    finding: &Finding,
    line: &Line,
    marks: &mut Vec<Mark>,
) -> Result<(), AllocError>
    ensures { OnOk result (marks.new.items ≡ marks.old.items
        ++ inner.entries_marks run.now.columns.now finding.now line.now.row line.now.site
        (journal_of run.now.segments.now line.now.site)) }
{
    let entries = entries_at(run.segments, line.site);
    for (i, entry) in entries.iter().enumerate() {
        let number = i + 1;
        let at = spot_of(run.columns, line.row, line.site, number);
        let event = entry.event.copy(alloc)?;
        marks.push(Mark::Entry(EntryMark {
            at,
            event: DrawnEvent::Newer(event),
            declared: drawn(finding, entry.declared),
        }))?;
    }
    Ok(())
}

/// A declaration as it is drawn, if there is one.
fn drawn(finding: &Finding, declared: Option<Declaration>) -> Option<Declared>
    ensures { result ≡ option_map (spec.drawn_declaration finding.now) declared }
{
    match declared {
        Some(declaration) => {
            let is_over = is_over(finding, &declaration);
            Some(Declared {
                process: declaration.process,
                stop: Some(declaration.stamp),
                is_over,
            })
        }
        None => None,
    }
}

/// Whether the report does not say that the declaration stands.
fn is_over(finding: &Finding, declaration: &Declaration) -> bool
    ensures { result ≡ spec.is_over finding.now declaration.now }
{
    match finding {
        Finding::Accepted(report) => !stands(&report.declared, declaration),
        Finding::Refused(_) => false,
    }
}

fn stands(declared: &[Deadlock], declaration: &Declaration) -> bool
    ensures { result ≡ list_any (stands declaration.now) declared.now }
{
    for deadlock in declared {
        if is_of(deadlock, declaration) {
            return true;
        }
    }
    false
}

fn is_of(deadlock: &Deadlock, declaration: &Declaration) -> bool
    ensures { result ≡ stands declaration.now deadlock.now }
{
    deadlock.process == declaration.process
        && deadlock.stop == declaration.stamp
        && is_standing(&deadlock.cycle)
}

/// Whether a cycle stands.
pub fn is_standing(cycle: &CycleNow) -> bool
    ensures { result ≡ spec.is_standing cycle.now }
{
    match cycle {
        CycleNow::Stands(_) => true,
        CycleNow::Left { .. } | CycleNow::None => false,
    }
}

/// A mark at each entry at which a site stops: in its column, in the row of the site's place.
pub fn add_stops(
    topology: &Topology,
    columns: &[Columns],
    stops: &[Stop],
    marks: &mut Vec<Mark>,
) -> Result<(), AllocError>
    ensures { OnOk result (marks.new.items ≡ marks.old.items
        ++ map (inner.stop_mark topology.now columns.now) stops.now) }
{
    for stop in stops {
        let row = row_of(topology.sites(), stop.site);
        let at = spot_of(columns, row, stop.site, stop.entry);
        marks.push(Mark::Stop(at))?;
    }
    Ok(())
}
