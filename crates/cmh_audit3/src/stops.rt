//! Where a merge stopped.

ghost use Rattle.std.specs.Prelude.{◌≡◌, ◌<◌, false, IfOk, MatchOption, length, map, take};
ghost use Rattle.std.specs.List.{HoldsAt};
ghost use Rattle.cmh_merge.specs.Walks as walking;
ghost use Rattle.cmh_segment3.specs.declared.segment.Segment as segment;
ghost use Rattle.cmh_segment3.specs.Entries.{step_of};
ghost use Rattle.cmh_audit3.specs.Inner.Survey as spec;
ghost use Rattle.cmh_audit3.specs.Set.{has_site, sites_in};

use crate::walk::SegmentWalk;
use cmh_merge::SiteWalk;
use cmh_model3::SiteId;
use cmh_segment3::Segment;
use std::alloc::{AllocError, Global};
use std::marker::Model;

/// Why a site stops at an entry.
#[derive(Clone, Copy)]
pub enum Reason {
    /// By the site's entries before it, its controller does not make it.
    Unlawful,
    /// It got a message that was not sent before the stops.
    NotSent,
}

/// Where a site stops.
#[derive(Clone, Copy)]
pub struct Stop {
    pub site: SiteId,
    /// The number of the entry in its segment, counted from 1.
    pub entry: usize,
    pub reason: Reason,
}

/// Where the segments stop: the entries before the stops come from a run, and there is no run with more of them.
#[derive(Drop)]
pub struct Stops {
    rows: Vec<Stop>,
}

impl Model for Stops {
    ghost use Rattle.std.specs.Prelude.{List};
    ghost use Rattle.cmh_audit3.specs.declared.stops.Stop as stop;

    ghost Value = { List stop.Stop };

    ghost view = { λ s. s.rows.items };
}

impl Stops {
    pub(crate) fn new(rows: Vec<Stop>) -> Self
        ensures { result ≡ rows.items }
    {
        Stops { rows }
    }

    /// One for each site that does not come to its end, ascending.
    pub fn as_slice(&self) -> &[Stop]
        ensures { result.now ≡ self.now }
    {
        &self.rows
    }
}

/// The stop of each of these sites that has one, in their order, where so many entries of each segment are lawful, and of
/// these the walks are left.
pub fn stops_of(
    alloc: Global,
    sites: &[SiteId],
    segments: &[Segment],
    limits: &[usize],
    walks: &[SiteWalk<SegmentWalk<'_>>],
) -> Result<Vec<Stop>, AllocError>
    requires limits { length limits.now ≡ length segments.now }
    requires walks { length walks.now ≡ length segments.now }
    ensures { IfOk result (λ stops. stops.items ≡ spec.stops_at (spec.stop_at segments.now limits.now
        (walking.lefts_of (λ w. map step_of w) walks.now)) sites.now) }
{
    let mut stops = Vec::new(alloc);
    for site in sites {
        if let Some(stop) = stop_at(segments, limits, walks, *site) {
            stops.push(stop)?;
        }
    }
    Ok(stops)
}

/// The stop of a site, if it has one.
fn stop_at(
    segments: &[Segment],
    limits: &[usize],
    walks: &[SiteWalk<SegmentWalk<'_>>],
    site: SiteId,
) -> Option<Stop>
    requires limits { length limits.now ≡ length segments.now }
    requires walks { length walks.now ≡ length segments.now }
    ensures { result ≡ spec.stop_at segments.now limits.now
        (walking.lefts_of (λ w. map step_of w) walks.now) site }
{
    match place_of(segments, site) {
        Some(place) => {
            let lawful = limits[place];
            let left = walks[place].walk.len();
            let entries = segments[place].entries.as_slice();
            stop_of(site, lawful, left, entries.len())
        }
        None => None,
    }
}

/// The first place of a site among the segments.
fn place_of(segments: &[Segment], site: SiteId) -> Option<usize>
    ensures { MatchOption result (has_site (sites_in segments.now) site ≡ false)
        (λ i. (i < length segments.now) × HoldsAt (λ (g : segment.Segment). g.header.site ≡ site) segments.now i
        × (has_site (sites_in (take i segments.now)) site ≡ false)) }
{
    for (i, segment) in segments.iter().enumerate() {
        if segment.header.site == site {
            return Some(i);
        }
    }
    None
}

/// The stop of a site of whose entries so many are lawful, of which so many are left, and so many there in all.
fn stop_of(site: SiteId, lawful: usize, left: usize, all: usize) -> Option<Stop>
    ensures { result ≡ spec.stop_of site lawful left all }
{
    let taken = lawful.saturating_sub(left);
    if taken >= all {
        return None;
    }
    let reason = if left == 0 {
        Reason::Unlawful
    } else {
        Reason::NotSent
    };
    Some(Stop {
        site,
        entry: taken + 1,
        reason,
    })
}
