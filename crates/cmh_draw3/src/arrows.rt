//! The messages of a run as arrows: from the entry that sent a message to the entry that got it.

ghost use Rattle.std.specs.Prelude.{◌≡◌, ◌++◌, None, IfOk, OnOk};
ghost use Rattle.cmh_audit3.specs.Journals.{journal_of};
ghost use Rattle.cmh_draw.specs.Arrows.{spot_of};
ghost use Rattle.cmh_draw.specs.Inner.Ways.{if_on};
ghost use Rattle.cmh_draw.specs.declared.mark.DrawnFrame.TheVariants.{Newer};
ghost use Rattle.cmh_draw3.specs.Arrows as spec;
ghost use Rattle.cmh_draw3.specs.Inner.Ways as inner;

use crate::newer_run::{NewerRun, entries_at};
use cmh_draw::{Arrow, DrawnFrame, EntrySpot, Line, pair_up, spot_of};
use cmh_model3::{Event, Message, SiteId};
use cmh_segment3::Entry;
use cmh_topology3::Topology;
use std::alloc::{AllocError, Global};

/// Where the messages of a site go.
#[derive(Clone, Copy)]
pub enum Way {
    /// To this site.
    To(SiteId),
    /// To sites that are not in the topology.
    Astray,
}

/// The arrows of all messages that the segments record as sent, link by link.
pub fn arrows_of(alloc: Global, run: &NewerRun<'_>) -> Result<Vec<Arrow>, AllocError>
    ensures { IfOk result (λ all. all.items
        ≡ spec.arrows_of run.now.topology.now run.now.segments.now run.now.columns.now) }
{
    let mut all = Vec::new(alloc);
    for (row, site) in run.topology.sites().iter().enumerate() {
        let from = Line {
            row: row as u32,
            site: *site,
        };
        add_from_site(alloc, run, &from, &mut all)?;
    }
    Ok(all)
}

/// Adds the arrows of the messages of a site.
fn add_from_site(
    alloc: Global,
    run: &NewerRun<'_>,
    from: &Line,
    all: &mut Vec<Arrow>,
) -> Result<(), AllocError>
    ensures { OnOk result (all.new.items ≡ all.old.items
        ++ inner.from_site run.now.topology.now run.now.segments.now run.now.columns.now from.now.row from.now.site) }
{
    for (row, site) in run.topology.sites().iter().enumerate() {
        let to = Line {
            row: row as u32,
            site: *site,
        };
        add_to_site(alloc, run, from, &to, all)?;
    }
    add_sent(run, &Way::Astray, from, all)
}

/// Adds the arrows of the messages of the link from a site to another.
fn add_to_site(
    alloc: Global,
    run: &NewerRun<'_>,
    from: &Line,
    to: &Line,
    all: &mut Vec<Arrow>,
) -> Result<(), AllocError>
    ensures { OnOk result (all.new.items ≡ all.old.items
        ++ inner.to_site run.now.segments.now (spot_of run.now.columns.now from.now.row from.now.site)
        (spot_of run.now.columns.now to.now.row to.now.site) from.now.site to.now.site) }
{
    let mut sent = Vec::new(alloc);
    add_sent(run, &Way::To(to.site), from, &mut sent)?;
    let got = got_from(alloc, from.site, entries_at(run.segments, to.site))?;
    pair_up(run.columns, to, &sent, &got, all)
}

/// Adds the messages that the entries of a site sent on a way, in their order, with open ends.
fn add_sent(
    run: &NewerRun<'_>,
    way: &Way,
    from: &Line,
    all: &mut Vec<Arrow>,
) -> Result<(), AllocError>
    ensures { OnOk result (all.new.items ≡ all.old.items
        ++ spec.sent_where (inner.is_on run.now.topology.now way.now)
        (spot_of run.now.columns.now from.now.row from.now.site) (journal_of run.now.segments.now from.now.site)) }
{
    let entries = entries_at(run.segments, from.site);
    for (i, entry) in entries.iter().enumerate() {
        let at = spot_of(run.columns, from.row, from.site, i + 1);
        add_sent_by(run.topology, way, &at, entry.sent.as_slice(), all)?;
    }
    Ok(())
}

/// Adds the messages that an entry sent on a way.
fn add_sent_by(
    topology: &Topology,
    way: &Way,
    at: &EntrySpot,
    sent: &[(SiteId, Message)],
    all: &mut Vec<Arrow>,
) -> Result<(), AllocError>
    ensures { OnOk result (all.new.items ≡ all.old.items ++ inner.sent_by topology.now way.now at.now sent.now) }
{
    for (place, sent) in sent.iter().enumerate() {
        add_if(is_on(topology, way, sent.0), at, place, sent, all)?;
    }
    Ok(())
}

fn add_if(
    is_on: bool,
    at: &EntrySpot,
    place: usize,
    sent: &(SiteId, Message),
    all: &mut Vec<Arrow>,
) -> Result<(), AllocError>
    ensures { OnOk result (all.new.items ≡ all.old.items ++ if_on is_on
        (record { from = at.now; place = place; to = sent.now.0; frame = Newer sent.now.1.frame; got = None })) }
{
    if is_on {
        let (to, message) = *sent;
        all.push(Arrow {
            from: *at,
            place,
            to,
            frame: DrawnFrame::Newer(message.frame),
            got: None,
        })?;
    }
    Ok(())
}

fn is_on(topology: &Topology, way: &Way, to: SiteId) -> bool
    ensures { result ≡ inner.is_on topology.now way.now to }
{
    match way {
        Way::To(site) => to == *site,
        Way::Astray => !topology.has_site(to),
    }
}

/// The numbers of the entries that got a message from a site.
fn got_from(alloc: Global, site: SiteId, entries: &[Entry]) -> Result<Vec<usize>, AllocError>
    ensures { IfOk result (λ all. all.items ≡ spec.got_from site entries.now) }
{
    let mut all = Vec::new(alloc);
    for (i, entry) in entries.iter().enumerate() {
        add_got(site, i + 1, &entry.event, &mut all)?;
    }
    Ok(all)
}

fn add_got(
    site: SiteId,
    number: usize,
    event: &Event,
    all: &mut Vec<usize>,
) -> Result<(), AllocError>
    ensures { OnOk result (all.new.items ≡ all.old.items ++ spec.number_if site number event.now) }
{
    match event {
        Event::Got { from, .. } if *from == site => all.push(number)?,
        _ => {}
    }
    Ok(())
}
