//! What a search needs of the waits of one process.

ghost use Rattle.std.specs.Prelude.{◌≡◌, ℕ, [], ◌∷◌, ◌++◌, ◌≤◌, ◌&&◌, ◌||◌, not, true, false, List, length, nat_lt, slice_index};
ghost use Rattle.cmh_model3.specs.Lists.{in_list, is_before};
ghost use Rattle.cmh_waits3.specs.declared.wait.Wait.{Wait};
ghost use Rattle.cmh_waits3.specs.Inner.Inserting.{AreInserted};
ghost use Rattle.cmh_waits3.specs.Inner.Steps.{has_place};
ghost use Rattle.cmh_waits3.specs.Inner.Summaries.{IsSummary};
ghost use Rattle.cmh_waits3.specs.Rows.{others_than};

use crate::member_table::MemberTable;
use crate::place_set::PlaceSet;
use crate::wait::{Wait, is_no_younger};
use cmh_model3::{ProcId, Stamp};

/// What a search needs of the waits of one process, so that it mostly need not look at each.
#[derive(Clone, Copy)]
pub struct Summary {
    /// The places of the processes of the site that it waits for.
    pub here: PlaceSet,
    /// No wait of it has a lesser stamp.
    pub earliest: Stamp,
    /// No wait of it has a greater stamp.
    pub latest: Stamp,
}

impl Summary {
    /// That of a process that does not wait.
    pub fn of_none() -> Summary
        ensures { (ms : List ℕ) → IsSummary ms [] result }
    {
        Summary {
            here: PlaceSet::empty(),
            earliest: Stamp::new(u64::MAX),
            latest: Stamp::new(0),
        }
    }

    /// That of these waits, found by a look at each.
    pub fn of_waits(members: &MemberTable, waits: &[Wait]) -> Summary
        ensures { IsSummary members.now waits.now result }
    {
        let mut summary = Summary::of_none();
        for wait in waits {
            summary.add(members, wait);
        }
        summary
    }

    /// A wait comes behind the others.
    fn add(&mut self, members: &MemberTable, wait: &Wait)
        ensures { (row : List Wait) → IsSummary members.now row self.old
            → IsSummary members.now (row ++ wait.now ∷ []) self.new }
    {
        *self = Summary {
            here: with_process(self.here, members, wait.target),
            earliest: earlier(self.earliest, wait.since),
            latest: later(self.latest, wait.since),
        };
    }

    /// Whether each wait of the asker counts for the ask of the origin with this stamp.
    #[inline(always)]
    pub fn all_count(&self, stamp: Stamp, origin: ProcId, asker: ProcId) -> bool
        ensures { result ≡ not (is_before stamp origin self.now.latest asker) }
    {
        is_no_younger(self.latest, asker, stamp, origin)
    }

    /// Whether no wait of the asker can count for it.
    #[inline(always)]
    pub fn none_counts(&self, stamp: Stamp, origin: ProcId, asker: ProcId) -> bool
        ensures { result ≡ is_before stamp origin self.now.earliest asker }
    {
        !is_no_younger(self.earliest, asker, stamp, origin)
    }

    /// Waits for these, with this stamp, have begun. It answers whether one of them leaves the site.
    pub fn begin(&mut self, members: &MemberTable, targets: &[ProcId], since: Stamp) -> bool
        ensures summary { (old new : List Wait) → IsSummary members.now old self.old
            → AreInserted targets.now since old new → IsSummary members.now new self.new }
        ensures stay { result ≡ false → (k : ℕ) → in_list targets.now k ≡ true → in_list members.now k ≡ true }
    {
        *self = Summary {
            here: with_processes(self.here, members, targets),
            earliest: earlier(self.earliest, since),
            latest: later(self.latest, since),
        };
        is_any_away(members, targets)
    }

    /// The wait for this process has ended, and these are left.
    pub fn end(&mut self, members: &MemberTable, target: ProcId, left: &[Wait])
        ensures { (row : List Wait) → IsSummary members.now row self.old → left.now ≡ others_than (target ∷ []) row
            → IsSummary members.now left.now self.new }
    {
        if left.is_empty() {
            *self = Summary::of_none();
        } else {
            self.here = without_process(self.here, members, target);
        }
    }

    /// The waits for these have ended, and these are left.
    pub fn end_all(&mut self, members: &MemberTable, targets: &[ProcId], left: &[Wait])
        ensures { (row : List Wait) → IsSummary members.now row self.old → left.now ≡ others_than targets.now row
            → IsSummary members.now left.now self.new }
    {
        if left.is_empty() {
            *self = Summary::of_none();
        } else {
            self.here = without_processes(self.here, members, targets);
        }
    }
}

/// The places with that of the process, if it is one of the site.
#[inline(always)]
fn with_process(places: PlaceSet, members: &MemberTable, process: ProcId) -> PlaceSet
    ensures { (k : ℕ) → has_place result.words k ≡ (has_place places.words k
        || (nat_lt k (length members.now) && in_list (process ∷ []) (slice_index members.now k))) }
{
    let _ = members.as_slice();
    match members.place_of(process) {
        Some(place) => places.with_if(place, true),
        None => places,
    }
}

/// The places with those of the processes that are of the site.
fn with_processes(places: PlaceSet, members: &MemberTable, processes: &[ProcId]) -> PlaceSet
    ensures { (k : ℕ) → has_place result.words k ≡ (has_place places.words k
        || (nat_lt k (length members.now) && in_list processes.now (slice_index members.now k))) }
{
    let mut joined = places;
    for process in processes {
        joined = with_process(joined, members, *process);
    }
    joined
}

/// Whether one of the processes is of another site.
fn is_any_away(members: &MemberTable, processes: &[ProcId]) -> bool
    ensures { result ≡ false → (k : ℕ) → in_list processes.now k ≡ true → in_list members.now k ≡ true }
{
    for process in processes {
        let Some(_) = members.place_of(*process) else {
            return true;
        };
    }
    false
}

/// The places without that of the process, if it is one of the site.
#[inline(always)]
fn without_process(places: PlaceSet, members: &MemberTable, process: ProcId) -> PlaceSet
    ensures { (k : ℕ) → has_place result.words k ≡ (has_place places.words k
        && not (nat_lt k (length members.now) && in_list (process ∷ []) (slice_index members.now k))) }
{
    let _ = members.as_slice();
    match members.place_of(process) {
        Some(place) => places.without(place),
        None => places,
    }
}

/// The places without those of the processes that are of the site.
fn without_processes(places: PlaceSet, members: &MemberTable, processes: &[ProcId]) -> PlaceSet
    ensures { (k : ℕ) → has_place result.words k ≡ (has_place places.words k
        && not (nat_lt k (length members.now) && in_list processes.now (slice_index members.now k))) }
{
    let mut left = places;
    for process in processes {
        left = without_process(left, members, *process);
    }
    left
}

fn earlier(left: Stamp, right: Stamp) -> Stamp
    ensures { (result ≤ left) × (result ≤ right) }
{
    if left < right { left } else { right }
}

fn later(left: Stamp, right: Stamp) -> Stamp
    ensures { (left ≤ result) × (right ≤ result) }
{
    if left < right { right } else { left }
}
