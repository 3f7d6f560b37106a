//! What a site finds along the waits that count for an ask.

ghost use Rattle.std.specs.Prelude.{◌≡◌, ◌↔◌, ℕ, ◌<◌, ◌≤◌, ◌++◌, true, false, IsTrue, List, length, slice_index, IfOk, OnOk};
ghost use Rattle.cmh_model3.specs.State.{State, passes};
ghost use Rattle.cmh_model3.specs.Paths.{DependsOnItself, ReachesLocally};
ghost use Rattle.cmh_waits3.specs.Held.{AreWaitsOf, is_member};
ghost use Rattle.cmh_waits3.specs.Findings.{Finds};
ghost use Rattle.cmh_waits3.specs.Inner.Steps.{AreAwaited, AreEdgesAt, AreMarkedEdges, AreReached, DoAllCount, has_place, leads};

use crate::SiteWaits;
use crate::place_set::PlaceSet;
use cmh_model3::{ProcId, Stamp};
use std::alloc::{AllocError, Global};

/// What a site finds when it looks along the waits that count for an ask.
#[derive(Drop)]
pub enum Finding {
    /// The process that asked is on a cycle.
    Deadlock,
    /// It is on none that the site can see. These are the waits along which its probes go on: askers of the site with
    /// holders of other sites, ascending.
    Edges(Vec<(ProcId, ProcId)>),
}

/// What the site of a process finds when the process has asked: a deadlock where a path of one or more waits that count,
/// all within the site, leads from the process to itself.
///
/// The waits of the ask have begun. It fails only when memory runs out.
pub fn finding_of_ask(
    alloc: Global,
    waits: &SiteWaits,
    stamp: Stamp,
    origin: ProcId,
) -> Result<Finding, AllocError>
    requires { is_member waits.now origin ≡ true }
    ensures { IfOk result (λ found. (home : ℕ → ℕ) (s : ℕ) (v : State) → AreWaitsOf home s v waits.now
        → Finds home s v stamp origin origin (DependsOnItself home s v stamp origin) found) }
{
    let Some(start) = waits.place_of(origin) else {
        unreachable!();
    };
    let reach = reach_from(waits, stamp, origin, start);
    if reach.awaited.has(start) {
        return Ok(Finding::Deadlock);
    }
    Ok(Finding::Edges(edges_of(alloc, waits, stamp, origin, reach.reached)?))
}

/// What the site of a process finds when a probe of the ask acts at the process: a deadlock where a path of none or more
/// waits that count, all within the site, leads to the process that asked, and that one passes the probe on.
///
/// It fails only when memory runs out.
pub fn finding_of_probe(
    alloc: Global,
    waits: &SiteWaits,
    stamp: Stamp,
    origin: ProcId,
    at: ProcId,
) -> Result<Finding, AllocError>
    requires { is_member waits.now at ≡ true }
    ensures { IfOk result (λ found. (home : ℕ → ℕ) (s : ℕ) (v : State) → AreWaitsOf home s v waits.now
        → Finds home s v stamp origin at
        (ReachesLocally home s v stamp origin at origin × (passes v stamp origin origin ≡ true)) found) }
{
    let Some(start) = waits.place_of(at) else {
        unreachable!();
    };
    let reach = reach_from(waits, stamp, origin, start);
    if is_reached(waits, reach.reached, origin) && waits.passes(stamp, origin, origin) {
        return Ok(Finding::Deadlock);
    }
    Ok(Finding::Edges(edges_of(alloc, waits, stamp, origin, reach.reached)?))
}

/// Places of a site's processes.
#[derive(Clone, Copy)]
struct Reach {
    /// Those that are reached.
    reached: PlaceSet,
    /// Those for which any of them has a wait that counts.
    awaited: PlaceSet,
}

/// What the process at the place reaches by waits that count, within the site. A site of 64 processes does with one word of
/// each set, and where all waits of a site count, as for an ask that has just begun, none is looked at.
fn reach_from(waits: &SiteWaits, stamp: Stamp, origin: ProcId, start: usize) -> Reach
    requires { start < length waits.now.members }
    ensures reached { AreReached waits.now stamp origin (slice_index waits.now.members start) result.reached.words }
    ensures awaited { AreAwaited waits.now stamp origin result.reached.words result.awaited.words }
{
    let all = waits.all_count(stamp, origin);
    if waits.members().len() <= 64 {
        if all {
            reach_within(waits, stamp, origin, start, true, true)
        } else {
            reach_within(waits, stamp, origin, start, true, false)
        }
    } else if all {
        reach_within(waits, stamp, origin, start, false, true)
    } else {
        reach_within(waits, stamp, origin, start, false, false)
    }
}

#[inline(always)]
fn reach_within(
    waits: &SiteWaits,
    stamp: Stamp,
    origin: ProcId,
    start: usize,
    small: bool,
    all: bool,
) -> Reach
    requires start { start < length waits.now.members }
    requires small { small ≡ true → length waits.now.members ≤ 64 }
    requires all { all ≡ true → DoAllCount waits.now stamp origin }
    ensures reached { AreReached waits.now stamp origin (slice_index waits.now.members start) result.reached.words }
    ensures awaited { AreAwaited waits.now stamp origin result.reached.words result.awaited.words }
{
    let _ = waits.members();
    let mut reached = in_words(PlaceSet::only(start), small);
    let mut awaited = PlaceSet::empty();
    let mut work = reached;
    while let Some(place) = work.first() {
        let led = in_words(led_to(waits, stamp, origin, place, all), small);
        let fresh = led.beyond(reached);
        awaited = awaited.either(led);
        work = work.without(place).either(fresh);
        reached = reached.either(fresh);
    }
    Reach { reached, awaited }
}

/// The set, in one word where the site is small.
#[inline(always)]
fn in_words(places: PlaceSet, small: bool) -> PlaceSet
    requires { small ≡ true → (k : ℕ) → has_place places.words k ≡ true → k < 64 }
    ensures { (k : ℕ) → has_place result.words k ≡ has_place places.words k }
{
    if small { places.low() } else { places }
}

/// The places to which waits that count lead from the process at the place. Where all of its waits count, or none, that is
/// known; so it is where all of the site count.
#[inline(always)]
fn led_to(waits: &SiteWaits, stamp: Stamp, origin: ProcId, place: usize, all: bool) -> PlaceSet
    requires place { place < length waits.now.members }
    requires all { all ≡ true → DoAllCount waits.now stamp origin }
    ensures { (k : ℕ) → has_place result.words k ≡ leads waits.now stamp origin place k }
{
    if all {
        return waits.summary(place).here;
    }
    let asker = waits.members()[place];
    let summary = waits.summary(place);
    if summary.all_count(stamp, origin, asker) {
        return summary.here;
    }
    if summary.none_counts(stamp, origin, asker) {
        return PlaceSet::empty();
    }
    led_by_each(waits, stamp, origin, place)
}

/// The same, by each wait.
#[inline(never)]
fn led_by_each(waits: &SiteWaits, stamp: Stamp, origin: ProcId, place: usize) -> PlaceSet
    requires { place < length waits.now.members }
    ensures { (k : ℕ) → has_place result.words k ≡ leads waits.now stamp origin place k }
{
    let asker = waits.members()[place];
    let row = waits.row(place);
    let mut led = PlaceSet::empty();
    for wait in row {
        if wait.counts(stamp, origin, asker) {
            if let Some(other) = waits.place_of(wait.target) {
                led.insert(other);
            }
        }
    }
    led
}

/// Whether the process is at one of the places.
fn is_reached(waits: &SiteWaits, reached: PlaceSet, process: ProcId) -> bool
    ensures { IsTrue result ↔ ((k : ℕ) × (k < length waits.now.members)
        × (slice_index waits.now.members k ≡ process) × (has_place reached.words k ≡ true)) }
{
    let _ = waits.members();
    match waits.place_of(process) {
        Some(place) => reached.has(place),
        None => false,
    }
}

/// The waits that count and leave the site, of the processes at these places.
fn edges_of(
    alloc: Global,
    waits: &SiteWaits,
    stamp: Stamp,
    origin: ProcId,
    reached: PlaceSet,
) -> Result<Vec<(ProcId, ProcId)>, AllocError>
    requires { (k : ℕ) → has_place reached.words k ≡ true → k < length waits.now.members }
    ensures { IfOk result (λ edges. AreMarkedEdges waits.now stamp origin reached.words edges.items) }
{
    edges_at(alloc, waits, stamp, origin, reached.both(waits.leaving()))
}

/// The same, of the processes at each of the places.
fn edges_at(
    alloc: Global,
    waits: &SiteWaits,
    stamp: Stamp,
    origin: ProcId,
    reached: PlaceSet,
) -> Result<Vec<(ProcId, ProcId)>, AllocError>
    requires { (k : ℕ) → has_place reached.words k ≡ true → k < length waits.now.members }
    ensures { IfOk result (λ edges. AreMarkedEdges waits.now stamp origin reached.words edges.items) }
{
    if waits.members().len() <= 64 {
        edges_within(alloc, waits, stamp, origin, reached, true)
    } else {
        edges_within(alloc, waits, stamp, origin, reached, false)
    }
}

#[inline(always)]
fn edges_within(
    alloc: Global,
    waits: &SiteWaits,
    stamp: Stamp,
    origin: ProcId,
    reached: PlaceSet,
    small: bool,
) -> Result<Vec<(ProcId, ProcId)>, AllocError>
    requires inside { (k : ℕ) → has_place reached.words k ≡ true → k < length waits.now.members }
    requires small { small ≡ true → length waits.now.members ≤ 64 }
    ensures { IfOk result (λ edges. AreMarkedEdges waits.now stamp origin reached.words edges.items) }
{
    let _ = waits.members();
    let mut left = in_words(reached, small);
    let mut edges = Vec::with_capacity(alloc, left.count())?;
    while let Some(place) = left.first() {
        left = left.without(place);
        push_edges(&mut edges, waits, stamp, origin, place)?;
    }
    Ok(edges)
}

/// Adds those of the process at the place.
fn push_edges(
    edges: &mut Vec<(ProcId, ProcId)>,
    waits: &SiteWaits,
    stamp: Stamp,
    origin: ProcId,
    place: usize,
) -> Result<(), AllocError>
    requires { place < length waits.now.members }
    ensures { OnOk result ((more : List (ℕ × ℕ)) × (edges.new.items ≡ edges.old.items ++ more)
        × AreEdgesAt waits.now stamp origin (slice_index waits.now.members place) more) }
{
    let asker = waits.members()[place];
    let away = waits.away(place);
    for wait in away {
        if wait.counts(stamp, origin, asker) {
            edges.push((asker, wait.target))?;
        }
    }
    Ok(())
}
