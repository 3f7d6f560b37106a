//! The run as a space-time diagram: a line a site, a mark an entry, an arrow a frame.

ghost use Rattle.std.specs.Prelude.{◌≡◌, ◌≤◌, ◌++◌, IfOk, OnOk, length, map, option_map};
ghost use Rattle.cmh_audit.specs.Journals.{journal_of};
ghost use Rattle.cmh_draw.specs.Each.{number_from};
ghost use Rattle.cmh_draw.specs.Inner.Marks.{entry_marks, stop_mark};
ghost use Rattle.cmh_draw.specs.Marks as spec;
ghost use Rattle.cmh_draw.specs.Marks.{AreForward, IsRunPicture, older_declared};
ghost use Rattle.cmh_draw.specs.declared.mark.Mark.TheVariants.{Arrow as Arrow_mark};

use crate::arrows::{arrows_of, forward, spot_of};
use crate::columns::{Columns, columns_of};
use crate::drawn_run::{DrawnRun, Line};
use crate::mark::{Arrow, Declared, DrawnEvent, EntryMark, Mark, Site};
use crate::picture::{Kind, Picture};
use crate::size::width_of;
use cmh_audit::{Verdict, entries_at};
use cmh_frames::{ProcId, SiteId, Topology};
use cmh_journal::Journal;
use std::alloc::{AllocError, Global};

/// The picture of the run from which the journals come: each site, each frame that was sent, and each entry. Where they
/// come from none, it has what they record, and a mark at each entry that can't be taken.
///
/// The k-th frame that was sent on a link is drawn to the entry that got the k-th, which stands on the right of the one
/// that sent it where the journals come from a run. The only error is out of memory.
pub fn run_picture(
    alloc: Global,
    topology: &Topology,
    journals: &[Journal],
    verdict: &Verdict,
) -> Result<Picture, AllocError>
    ensures { IfOk result (IsRunPicture topology.now journals.now verdict.now) }
{
    let columns = columns_of(alloc, topology, journals)?;
    let width = width_of(&columns);
    let run = DrawnRun {
        topology,
        journals,
        columns: &columns,
    };
    let sent = arrows_of(alloc, &run)?;
    let arrows = in_time(verdict, sent)?;
    let marks = marks_of(alloc, &run, &arrows, verdict, width)?;
    Ok(Picture {
        kind: Kind::Run,
        may_withdraw: false,
        columns: width,
        rows: topology.sites().len() as u32,
        marks,
    })
}

/// These arrows of a run, which go forward in time if the journals come from one.
fn in_time(verdict: &Verdict, arrows: Vec<Arrow>) -> Result<Vec<Arrow>, AllocError>
    ensures same { IfOk result (λ all. all.items ≡ arrows.items) }
    ensures forward { IfOk result (λ all. AreForward verdict.now all.items) }
{
    match verdict {
        Verdict::Accepted(_) => forward(arrows),
        Verdict::Refused(_) => Ok(arrows),
    }
}

fn marks_of(
    alloc: Global,
    run: &DrawnRun<'_>,
    arrows: &[Arrow],
    verdict: &Verdict,
    width: u32,
) -> Result<Vec<Mark>, AllocError>
    ensures { IfOk result (λ marks. marks.items
        ≡ spec.site_marks run.now.topology.now (λ site. width)
        ++ map Arrow_mark arrows.now
        ++ spec.entry_marks run.now.topology.now run.now.journals.now run.now.columns.now
        ++ spec.stop_marks run.now.topology.now run.now.columns.now verdict.now) }
{
    let mut marks = Vec::new(alloc);
    add_sites(run.topology, width, &mut marks)?;
    add_arrows(arrows, &mut marks)?;
    add_all_entries(alloc, run, &mut marks)?;
    match verdict {
        Verdict::Accepted(_) => {}
        Verdict::Refused(stops) => add_stops(run.topology, run.columns, stops.rows(), &mut marks)?,
    }
    Ok(marks)
}

fn add_sites(topology: &Topology, width: u32, marks: &mut Vec<Mark>) -> Result<(), AllocError>
    ensures { OnOk result (marks.new.items ≡ marks.old.items ++ spec.site_marks topology.now (λ site. width)) }
{
    for (row, site) in topology.sites().iter().enumerate() {
        marks.push(Mark::Site(Site {
            site: *site,
            place: row as u32,
            length: width,
        }))?;
    }
    Ok(())
}

/// An arrow for each.
pub fn add_arrows(arrows: &[Arrow], marks: &mut Vec<Mark>) -> Result<(), AllocError>
    ensures { OnOk result (marks.new.items ≡ marks.old.items ++ map Arrow_mark arrows.now) }
{
    for arrow in arrows {
        marks.push(Mark::Arrow(*arrow))?;
    }
    Ok(())
}

fn add_all_entries(
    alloc: Global,
    run: &DrawnRun<'_>,
    marks: &mut Vec<Mark>,
) -> Result<(), AllocError>
    ensures { OnOk result (marks.new.items ≡ marks.old.items
        ++ spec.entry_marks run.now.topology.now run.now.journals.now run.now.columns.now) }
{
    for (row, site) in run.topology.sites().iter().enumerate() {
        let line = Line {
            row: row as u32,
            site: *site,
        };
        add_entries(alloc, run, &line, marks)?;
    }
    Ok(())
}

/// Adds the entries of a site.
fn add_entries(
    alloc: Global,
    run: &DrawnRun<'_>,
    line: &Line,
    marks: &mut Vec<Mark>,
) -> Result<(), AllocError>
    ensures { OnOk result (marks.new.items ≡ marks.old.items
        ++ entry_marks run.now.columns.now line.now.row line.now.site (journal_of run.now.journals.now line.now.site)) }
{
    let entries = entries_at(run.journals, line.site);
    for (i, entry) in entries.iter().enumerate() {
        let number = i + 1;
        let at = spot_of(run.columns, line.row, line.site, number);
        let event = entry.event.copy(alloc)?;
        marks.push(Mark::Entry(EntryMark {
            at,
            event: DrawnEvent::Older(event),
            declared: older(entry.declared),
        }))?;
    }
    Ok(())
}

/// A process of editions 1 and 2 that was declared, if one was.
const fn older(declared: Option<ProcId>) -> Option<Declared>
    ensures { result ≡ option_map older_declared declared }
{
    match declared {
        Some(process) => Some(Declared {
            process,
            stop: None,
            is_over: false,
        }),
        None => None,
    }
}

/// A mark at each entry at which a site stops: in its column, in the row of the site's place.
pub fn add_stops(
    topology: &Topology,
    columns: &[Columns],
    stops: &[(SiteId, usize)],
    marks: &mut Vec<Mark>,
) -> Result<(), AllocError>
    ensures { OnOk result (marks.new.items ≡ marks.old.items ++ map (stop_mark topology.now columns.now) stops.now) }
{
    for (site, number) in stops {
        let row = row_of(topology.sites(), *site);
        let at = spot_of(columns, row, *site, *number);
        marks.push(Mark::Stop(at))?;
    }
    Ok(())
}

/// The place of a site among these, from 0; 0 where it is none of them.
pub fn row_of(sites: &[SiteId], site: SiteId) -> u32
    requires { length sites.now ≤ 64 }
    ensures { result ≡ number_from 0 sites.now site }
{
    for (row, other) in sites.iter().enumerate() {
        if *other == site {
            return row as u32;
        }
    }
    0
}
