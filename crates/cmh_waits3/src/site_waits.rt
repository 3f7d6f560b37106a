//! The waits of a site's processes.

ghost use Rattle.std.specs.Prelude.{◌≡◌, ℕ, [], ◌∷◌, ◌<◌, ◌≤◌, ◌==◌, ◌&&◌, true, false, if◌then◌else◌, IfOk, OnOk, OnErr, MatchOption, length, slice_index, slice_index_or};
ghost use Rattle.std.specs.List.Sorted.{IsStrictlyIncreasing};
ghost use Rattle.cmh_model3.specs.Lists.{IsAscending, in_list, is_nonempty, set_at, with_each, without, without_all};
ghost use Rattle.cmh_model3.specs.State.{counts, passes};
ghost use Rattle.cmh_waits3.specs.Held.{ended, is_member, nothing_held, row_in, since_of, state_of, waits_of};
ghost use Rattle.cmh_waits3.specs.Rows.{since_in, targets_of};
ghost use Rattle.cmh_waits3.specs.Inner.Away.{IsAway};
ghost use Rattle.cmh_waits3.specs.Inner.Steps.{DoAllCount, has_place};
ghost use Rattle.cmh_waits3.specs.Inner.Summaries.{IsSummary};

use crate::Wait;
use crate::member_table::MemberTable;
use crate::place_set::PlaceSet;
use crate::summary::Summary;
use crate::wait_list::WaitList;
use crate::wait_row::WaitRow;
use crate::youngest::Youngest;
use cmh_model3::{ProcId, Stamp};
use std::alloc::{AllocError, Global};
use std::marker::Model;

/// For whom each process of a site waits, and the stamp of the ask that began each wait.
///
/// A process is blocked where it waits for some process, and else active. A site has 256 processes at most; its waits have no
/// limit here. A call fails only when memory runs out, and then nothing has changed.
#[derive(Drop)]
pub struct SiteWaits {
    members: MemberTable,
    /// At the place of each process its waits.
    rows: Vec<WaitList>,
    /// Those of them that are for processes of other sites.
    away: Vec<WaitList>,
    /// And what a search needs of them.
    summaries: Vec<Summary>,
    /// The places of the processes that may wait for some of other sites. The others do not.
    leaving: PlaceSet,
    /// No wait is younger.
    youngest: Youngest,
}

impl Model for SiteWaits {
    ghost use Rattle.std.specs.Prelude.{◌≡◌, length};
    ghost use Rattle.std.specs.List.Sorted.{IsStrictlyIncreasing};
    ghost use Rattle.cmh_waits3.specs.Held.{Held};
    ghost use Rattle.cmh_waits3.specs.Inner.Away.{AreAway};
    ghost use Rattle.cmh_waits3.specs.Inner.Summaries.{AreNoYounger, AreSummaries};

    ghost Value = { Held };

    ghost view = { λ w. record { members = w.members; rows = w.rows.items } };

    ghost invariant = { λ w. IsStrictlyIncreasing w.members × (length w.rows.items ≡ length w.members)
        × AreSummaries w.members w.rows.items w.summaries.items w.leaving.words
        × AreAway w.members w.rows.items w.away.items
        × AreNoYounger w.members w.rows.items w.youngest.stamp w.youngest.asker };
}

impl SiteWaits {
    /// The state in which a site with these processes begins: nobody waits.
    pub fn new(alloc: Global, members: &[ProcId]) -> Result<Self, AllocError>
        requires ascending { IsStrictlyIncreasing members.now }
        requires few { length members.now ≤ 256 }
        ensures { IfOk result (λ held. held ≡ nothing_held members.now) }
    {
        Ok(SiteWaits {
            members: MemberTable::new(alloc, members)?,
            rows: WaitList::empty_lists(alloc, members.len())?,
            away: WaitList::empty_lists(alloc, members.len())?,
            summaries: vec![in alloc; Summary::of_none(); members.len()]?,
            leaving: PlaceSet::empty(),
            youngest: Youngest::of_none(),
        })
    }

    /// The processes of the site.
    pub fn members(&self) -> &[ProcId]
        ensures value { result.now ≡ self.now.members }
        ensures ascending { IsStrictlyIncreasing result.now }
        ensures few { length result.now ≤ 256 }
    {
        self.members.as_slice()
    }

    /// Whether the process is at the site.
    #[inline(always)]
    pub fn is_member(&self, process: ProcId) -> bool
        ensures { result ≡ is_member self.now process }
    {
        self.members.place_of(process).is_some()
    }

    /// Whether the process waits for some process; false where it is at another site.
    #[inline(always)]
    pub fn is_blocked(&self, process: ProcId) -> bool
        ensures { result ≡ is_nonempty (waits_of self.now process) }
    {
        !self.waits_of(process).is_empty()
    }

    /// Whether the process waits for this holder; false where it is at another site.
    pub fn waits_for(&self, asker: ProcId, holder: ProcId) -> bool
        ensures { result ≡ in_list (waits_of self.now asker) holder }
    {
        match self.members.place_of(asker) {
            Some(place) => self.rows[place].contains(holder),
            None => false,
        }
    }

    /// The waits of the process, ascending by the processes that it waits for; none where it is at another site.
    #[inline(always)]
    pub fn waits_of(&self, process: ProcId) -> &[Wait]
        ensures row { result.now ≡ row_in self.now.members self.now.rows process }
        ensures targets { targets_of result.now ≡ waits_of self.now process }
        ensures since { (k : ℕ) → since_in result.now k ≡ since_of self.now process k }
        ensures ascending { IsAscending (waits_of self.now process) }
    {
        match self.members.place_of(process) {
            Some(place) => self.rows[place].as_slice(),
            None => &[],
        }
    }

    /// Whether the process waits for this holder, and the wait counts for the ask of the origin with this stamp: it is not
    /// younger.
    pub fn counts(&self, stamp: Stamp, origin: ProcId, asker: ProcId, holder: ProcId) -> bool
        ensures { result ≡ counts (state_of self.now) stamp origin asker holder }
    {
        self.waits_of(asker).iter().any(|wait| wait.target == holder
            && wait.counts(stamp, origin, asker))
    }

    /// Whether the process passes the probes of the ask of the origin with this stamp on: some wait of it counts.
    pub fn passes(&self, stamp: Stamp, origin: ProcId, process: ProcId) -> bool
        ensures { result ≡ passes (state_of self.now) stamp origin process }
    {
        self.waits_of(process)
            .iter()
            .any(|wait| wait.counts(stamp, origin, process))
    }

    /// By an ask with this stamp the process begins to wait for each of these.
    ///
    /// `end_all` of the same takes it back, and takes no memory.
    pub fn begin(
        &mut self,
        asker: ProcId,
        targets: &[ProcId],
        since: Stamp,
    ) -> Result<(), AllocError>
        requires member { is_member self.old asker ≡ true }
        requires ascending { IsAscending targets.now }
        requires new { (k : ℕ) → in_list targets.now k ≡ true → in_list (waits_of self.old asker) k ≡ false }
        ensures members { self.new.members ≡ self.old.members }
        ensures waits { OnOk result (waits_of self.new
            ≡ set_at (waits_of self.old) asker (with_each (waits_of self.old asker) targets.now)) }
        ensures since { OnOk result (since_of self.new ≡ (λ j k.
            if (j == asker) && in_list targets.now k then since else since_of self.old j k)) }
        ensures undone { OnOk result (ended self.new asker targets.now ≡ self.old) }
        ensures err { OnErr result (self.new ≡ self.old) }
    {
        let _ = self.members.as_slice();
        let Some(place) = self.members.place_of(asker) else {
            return Ok(());
        };
        self.rows[place].insert_all(targets, since)?;
        if let Err(error) = self.away[place].insert_away(&self.members, targets, since) {
            self.rows[place].remove_all(targets);
            return Err(error);
        }
        let leaves = self.summaries[place].begin(&self.members, targets, since);
        self.leaving = self.leaving.with_if(place, leaves);
        self.youngest = self.youngest.with(since, asker);
        Ok(())
    }

    /// The process waits for this holder no longer.
    pub fn end(&mut self, asker: ProcId, holder: ProcId)
        ensures value { self.new ≡ ended self.old asker (holder ∷ []) }
        ensures waits { waits_of self.new
            ≡ set_at (waits_of self.old) asker (without (waits_of self.old asker) holder) }
        ensures since { since_of self.new ≡ set_at (since_of self.old) asker (λ k.
            if in_list (without (waits_of self.old asker) holder) k then since_of self.old asker k else 0) }
    {
        let _ = self.members.as_slice();
        if let Some(place) = self.members.place_of(asker) {
            self.rows[place].remove(holder);
            self.away[place].remove(holder);
            let left = self.rows[place].as_slice();
            self.summaries[place].end(&self.members, holder, left);
            self.leaving = self.leaving.without_if(place, left.is_empty());
        }
    }

    /// The process waits for none of these any longer.
    pub fn end_all(&mut self, asker: ProcId, targets: &[ProcId])
        ensures value { self.new ≡ ended self.old asker targets.now }
        ensures waits { waits_of self.new
            ≡ set_at (waits_of self.old) asker (without_all (waits_of self.old asker) targets.now) }
        ensures since { since_of self.new ≡ set_at (since_of self.old) asker (λ k.
            if in_list (without_all (waits_of self.old asker) targets.now) k then since_of self.old asker k else 0) }
    {
        let _ = self.members.as_slice();
        if let Some(place) = self.members.place_of(asker) {
            self.rows[place].remove_all(targets);
            self.away[place].remove_all(targets);
            let left = self.rows[place].as_slice();
            self.summaries[place].end_all(&self.members, targets, left);
            self.leaving = self.leaving.without_if(place, left.is_empty());
        }
    }

    /// Whether the process still waits for some process once its waits for these have ended.
    pub fn stays_blocked(&self, asker: ProcId, targets: &[ProcId]) -> bool
        ensures { result ≡ is_nonempty (without_all (waits_of self.now asker) targets.now) }
    {
        self.waits_of(asker)
            .iter()
            .any(|wait| !targets.contains(&wait.target))
    }

    /// A copy of the waits of a process.
    pub fn row_copy(&self, alloc: Global, asker: ProcId) -> Result<WaitRow, AllocError>
        requires { is_member self.now asker ≡ true }
        ensures { IfOk result (λ row. row ≡ row_in self.now.members self.now.rows asker) }
    {
        let Some(place) = self.members.place_of(asker) else {
            unreachable!();
        };
        WaitRow::of(alloc, &self.rows[place])
    }

    /// From now on the process waits as the copy says. It takes no memory.
    pub fn put_row(&mut self, asker: ProcId, row: WaitRow)
        requires { is_member self.old asker ≡ true }
        ensures members { self.new.members ≡ self.old.members }
        ensures waits { waits_of self.new ≡ set_at (waits_of self.old) asker (targets_of row) }
        ensures since { since_of self.new ≡ set_at (since_of self.old) asker (since_in row) }
    {
        let members = self.members.as_slice();
        let Some(place) = self.members.place_of(asker) else {
            unreachable!();
        };
        let WaitRow { waits, spare } = row;
        let mut away = spare;
        away.remove_all(members);
        let summary = Summary::of_waits(&self.members, waits.as_slice());
        self.leaving = self.leaving.with_if(place, !away.as_slice().is_empty());
        self.youngest = self.youngest.with(summary.latest, asker);
        self.summaries[place] = summary;
        self.rows[place] = waits;
        self.away[place] = away;
    }

    /// The place of a process of the site: how many of its processes stand before it.
    #[inline(always)]
    pub(crate) fn place_of(&self, process: ProcId) -> Option<usize>
        ensures { MatchOption result (is_member self.now process ≡ false)
            (λ place. (place < length self.now.members) × (slice_index self.now.members place ≡ process)) }
    {
        self.members.place_of(process)
    }

    /// The waits of the process at this place.
    #[inline(always)]
    pub(crate) fn row(&self, place: usize) -> &[Wait]
        requires { place < length self.now.members }
        ensures row { result.now ≡ row_in self.now.members self.now.rows (slice_index self.now.members place) }
        ensures ascending { IsAscending (targets_of result.now) }
    {
        self.rows[place].as_slice()
    }

    /// Those of them that are for processes of other sites.
    #[inline(always)]
    pub(crate) fn away(&self, place: usize) -> &[Wait]
        requires { place < length self.now.members }
        ensures away { IsAway self.now.members (row_in self.now.members self.now.rows (slice_index self.now.members place)) result.now }
        ensures ascending { IsAscending (targets_of result.now) }
    {
        self.away[place].as_slice()
    }

    /// What a search needs of the waits of the process at this place.
    #[inline(always)]
    pub(crate) fn summary(&self, place: usize) -> &Summary
        requires { place < length self.now.members }
        ensures { IsSummary self.now.members (row_in self.now.members self.now.rows (slice_index self.now.members place)) result.now }
    {
        &self.summaries[place]
    }

    /// The places of the processes that may wait for some of other sites. The others do not.
    #[inline(always)]
    pub(crate) fn leaving(&self) -> PlaceSet
        ensures { (place k : ℕ) → place < length self.now.members → has_place result.words place ≡ false
            → in_list (waits_of self.now (slice_index self.now.members place)) k ≡ true → is_member self.now k ≡ true }
    {
        self.leaving
    }

    /// Whether all waits of the site count for the ask of the origin with this stamp. Where it is not known, it says no.
    #[inline(always)]
    pub(crate) fn all_count(&self, stamp: Stamp, origin: ProcId) -> bool
        ensures { result ≡ true → DoAllCount self.now stamp origin }
    {
        self.youngest.counts(stamp, origin)
    }
}
