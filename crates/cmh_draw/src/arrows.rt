//! The frames of a run as arrows: from the entry that sent a frame to the entry that got it.

ghost use Rattle.std.specs.Prelude.{◌≡◌, ◌++◌, None, IfOk, OnOk, map, option_map, slice_get};
ghost use Rattle.std.specs.List.{AllByRecursion, list_all};
ghost use Rattle.cmh_frames.specs.Journals.{frame_from};
ghost use Rattle.cmh_audit.specs.Journals.{journal_of};
ghost use Rattle.cmh_draw.specs.Arrows as spec;
ghost use Rattle.cmh_draw.specs.Inner.Ways as inner;
ghost use Rattle.cmh_draw.specs.declared.mark.DrawnFrame.TheVariants.{Older};

use crate::columns::{Columns, column_of};
use crate::drawn_run::{DrawnRun, Line};
use crate::mark::{Arrow, DrawnFrame, EntrySpot, Spot};
use cmh_audit::entries_at;
use cmh_frames::{Entry, Event, Frame, SiteId, Topology};
use std::alloc::{AllocError, Global};

/// Where the frames of a site go.
#[derive(Clone, Copy)]
pub enum Way {
    /// To this site.
    To(SiteId),
    /// To sites that are not in the topology.
    Astray,
}

/// The arrows of all frames that the journals record as sent, link by link.
pub fn arrows_of(alloc: Global, run: &DrawnRun<'_>) -> Result<Vec<Arrow>, AllocError>
    ensures { IfOk result (λ all. all.items
        ≡ spec.arrows_of run.now.topology.now run.now.journals.now run.now.columns.now) }
{
    let mut all = Vec::new(alloc);
    for (row, site) in run.topology.sites().iter().enumerate() {
        let from = Line {
            row: row as u32,
            site: *site,
        };
        add_from_site(alloc, run, &from, &mut all)?;
    }
    Ok(all)
}

/// Adds the arrows of the frames of a site.
fn add_from_site(
    alloc: Global,
    run: &DrawnRun<'_>,
    from: &Line,
    all: &mut Vec<Arrow>,
) -> Result<(), AllocError>
    ensures { OnOk result (all.new.items ≡ all.old.items
        ++ inner.from_site run.now.topology.now run.now.journals.now run.now.columns.now from.now.row from.now.site) }
{
    for (row, site) in run.topology.sites().iter().enumerate() {
        let to = Line {
            row: row as u32,
            site: *site,
        };
        add_to_site(alloc, run, from, &to, all)?;
    }
    add_sent(run, &Way::Astray, from, all)
}

/// Adds the arrows of the frames of the link from a site to another.
fn add_to_site(
    alloc: Global,
    run: &DrawnRun<'_>,
    from: &Line,
    to: &Line,
    all: &mut Vec<Arrow>,
) -> Result<(), AllocError>
    ensures { OnOk result (all.new.items ≡ all.old.items
        ++ inner.to_site run.now.journals.now (spec.spot_of run.now.columns.now from.now.row from.now.site)
        (spec.spot_of run.now.columns.now to.now.row to.now.site) from.now.site to.now.site) }
{
    let mut sent = Vec::new(alloc);
    add_sent(run, &Way::To(to.site), from, &mut sent)?;
    let got = got_from(alloc, from.site, entries_at(run.journals, to.site))?;
    pair_up(run.columns, to, &sent, &got, all)
}

/// Adds the arrows of a link with their ends: the frame at each place of those sent is got at this place of those got.
pub fn pair_up(
    columns: &[Columns],
    to: &Line,
    sent: &[Arrow],
    got: &[usize],
    all: &mut Vec<Arrow>,
) -> Result<(), AllocError>
    ensures { OnOk result (all.new.items
        ≡ all.old.items ++ spec.link_arrows (spec.spot_of columns.now to.now.row to.now.site) sent.now got.now) }
{
    for (place, arrow) in sent.iter().enumerate() {
        let got = spot_at(columns, to, got, place);
        all.push(Arrow {
            from: arrow.from,
            place: arrow.place,
            to: arrow.to,
            frame: arrow.frame,
            got,
        })?;
    }
    Ok(())
}

/// The entry of a site whose number stands at this place, if one does.
fn spot_at(columns: &[Columns], line: &Line, numbers: &[usize], place: usize) -> Option<EntrySpot>
    ensures { result ≡ option_map (spec.spot_of columns.now line.now.row line.now.site) (slice_get numbers.now place) }
{
    match numbers.get(place) {
        Some(number) => Some(spot_of(columns, line.row, line.site, *number)),
        None => None,
    }
}

/// Where an entry is drawn.
pub fn spot_of(columns: &[Columns], row: u32, site: SiteId, number: usize) -> EntrySpot
    ensures { result ≡ spec.spot_of columns.now row site number }
{
    let column = column_of(columns, row, number);
    EntrySpot {
        site,
        number,
        spot: Spot { column, row },
    }
}

/// Adds the frames that the entries of a site sent on a way, in their order, with open ends.
fn add_sent(
    run: &DrawnRun<'_>,
    way: &Way,
    from: &Line,
    all: &mut Vec<Arrow>,
) -> Result<(), AllocError>
    ensures { OnOk result (all.new.items ≡ all.old.items
        ++ spec.sent_where (inner.is_on run.now.topology.now way.now)
        (spec.spot_of run.now.columns.now from.now.row from.now.site) (journal_of run.now.journals.now from.now.site)) }
{
    let entries = entries_at(run.journals, from.site);
    for (i, entry) in entries.iter().enumerate() {
        let at = spot_of(run.columns, from.row, from.site, i + 1);
        add_sent_by(run.topology, way, &at, entry.sent.as_slice(), all)?;
    }
    Ok(())
}

/// Adds the frames that an entry sent on a way.
fn add_sent_by(
    topology: &Topology,
    way: &Way,
    at: &EntrySpot,
    sent: &[(SiteId, Frame)],
    all: &mut Vec<Arrow>,
) -> Result<(), AllocError>
    ensures { OnOk result (all.new.items ≡ all.old.items ++ inner.sent_by topology.now way.now at.now sent.now) }
{
    for (place, sent) in sent.iter().enumerate() {
        add_if(is_on(topology, way, sent.0), at, place, sent, all)?;
    }
    Ok(())
}

fn add_if(
    is_on: bool,
    at: &EntrySpot,
    place: usize,
    sent: &(SiteId, Frame),
    all: &mut Vec<Arrow>,
) -> Result<(), AllocError>
    ensures { OnOk result (all.new.items ≡ all.old.items ++ inner.if_on is_on
        (record { from = at.now; place = place; to = sent.now.0; frame = Older sent.now.1; got = None })) }
{
    if is_on {
        let (to, frame) = *sent;
        all.push(Arrow {
            from: *at,
            place,
            to,
            frame: DrawnFrame::Older(frame),
            got: None,
        })?;
    }
    Ok(())
}

fn is_on(topology: &Topology, way: &Way, to: SiteId) -> bool
    ensures { result ≡ inner.is_on topology.now way.now to }
{
    match way {
        Way::To(site) => to == *site,
        Way::Astray => !topology.has_site(to),
    }
}

/// The numbers of the entries that got a frame from a site.
fn got_from(alloc: Global, site: SiteId, entries: &[Entry]) -> Result<Vec<usize>, AllocError>
    ensures { IfOk result (λ all. all.items ≡ spec.got_from site entries.now) }
{
    let mut all = Vec::new(alloc);
    for (i, entry) in entries.iter().enumerate() {
        add_got(site, i + 1, &entry.event, &mut all)?;
    }
    Ok(all)
}

fn add_got(
    site: SiteId,
    number: usize,
    event: &Event,
    all: &mut Vec<usize>,
) -> Result<(), AllocError>
    ensures { OnOk result (all.new.items ≡ all.old.items ++ map (λ frame. number) (frame_from site event.now)) }
{
    match event {
        Event::Got { from, .. } if *from == site => all.push(number)?,
        _ => {}
    }
    Ok(())
}

/// These arrows, each of which goes forward in time.
///
/// Those of a run do, by the columns that are found for it. If one did not, that would count as out of memory.
pub fn forward(arrows: Vec<Arrow>) -> Result<Vec<Arrow>, AllocError>
    ensures same { IfOk result (λ all. all.items ≡ arrows.items) }
    ensures forward { IfOk result (λ all. AllByRecursion spec.IsForward all.items) }
{
    if go_forward(&arrows) {
        Ok(arrows)
    } else {
        Err(AllocError)
    }
}

fn go_forward(arrows: &[Arrow]) -> bool
    ensures { result ≡ list_all inner.is_forward arrows.now }
{
    for arrow in arrows {
        if !is_forward(arrow) {
            return false;
        }
    }
    true
}

fn is_forward(arrow: &Arrow) -> bool
    ensures { result ≡ inner.is_forward arrow.now }
{
    match arrow.got {
        Some(got) => arrow.from.spot.column < got.spot.column,
        None => true,
    }
}
