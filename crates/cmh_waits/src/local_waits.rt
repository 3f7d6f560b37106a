//! The waits and the unanswered requests of a site's members.

ghost use Rattle.std.specs.Prelude.{◌≡◌, ℕ, ◌<◌, ◌≤◌, ◌↔◌, ◌==◌, true, false, not, ◌&&◌, ◌||◌, IfOk, OnOk, OnErr};
ghost use Rattle.std.specs.Prelude.{IfSome, MatchOption, [], Contains, length, filter, replicate, slice_get, slice_index};
ghost use Rattle.std.specs.List.{list_any};
ghost use Rattle.std.specs.List.Sorted.{IsStrictlyIncreasing};
ghost use Rattle.cmh_frames.specs.Relation.{has, has_some};
ghost use Rattle.cmh_frames.specs.Rules.{IsAscending};
ghost use Rattle.cmh_waits.specs.Held.{IsMember, is_member, nothing_held, wakes};
ghost use Rattle.cmh_waits.specs.Held.{asked, before_ask, before_request, got_reply, got_request, replied};
ghost use Rattle.cmh_bits.specs.Bits.{is_set};
ghost use Rattle.cmh_waits.specs.Rows.{AreRows, bit_of, is_at_in, is_in, joins, place_in, relation_of};

use crate::member_table::MemberTable;
use crate::proc_bits::ProcBits;
use crate::proc_list::ProcList;
use cmh_bits::{has_bit, with_bit, without_bit};
use cmh_frames::ProcId;
use std::alloc::{AllocError, Global};
use std::marker::Model;
use std::mem::replace;

/// For whom each member of a site waits, and to whom each owes a reply.
///
/// A process is blocked where it waits for some process, and else active (Chandy, Misra and Haas 1983). The members of
/// a site are those that the topology puts there, ascending; all others are at other sites. Waits between members are
/// rows of bits, those for other sites are lists, and what is owed to other sites are sets of bits. A call fails only
/// when memory runs out, and then nothing has changed.
#[derive(Drop)]
pub struct LocalWaits {
    alloc: Global,
    /// A member's place here is its number in the rows.
    members: MemberTable,
    /// The members that each member waits for.
    waits: Vec<u64>,
    /// The members to which each member owes a reply.
    owed: Vec<u64>,
    /// The processes of other sites that each member waits for.
    remote_waits: Vec<ProcList>,
    /// The processes of other sites to which each member owes a reply.
    remote_owed: Vec<ProcBits>,
    /// A list that is done with, whose memory the next ask takes.
    room: Vec<ProcId>,
}

impl Model for LocalWaits {
    ghost use Rattle.cmh_waits.specs.Held.{Held, held_code};
    ghost use Rattle.cmh_waits.specs.Rows.{AreKept, held_of};

    ghost Value = { Held };

    ghost coded = { held_code };

    ghost view = { λ w. held_of w.members w.waits.items w.remote_waits.items w.owed.items w.remote_owed.items };

    ghost invariant = { λ w. AreKept w.members w.waits.items w.remote_waits.items
        w.owed.items w.remote_owed.items };
}

impl LocalWaits {
    /// The state in which a site begins: nobody waits, and no reply is owed.
    pub fn new(alloc: Global, members: &[ProcId]) -> Result<Self, AllocError>
        requires ascending { IsStrictlyIncreasing members.now }
        requires few { length members.now ≤ 64 }
        ensures { IfOk result (λ held. held ≡ nothing_held members.now) }
    {
        let count = members.len();
        Ok(LocalWaits {
            alloc,
            members: MemberTable::new(alloc, members)?,
            waits: vec![in alloc; 0; count]?,
            owed: vec![in alloc; 0; count]?,
            remote_waits: empty_lists(alloc, count)?,
            remote_owed: empty_sets(alloc, count)?,
            room: Vec::new(alloc),
        })
    }

    /// The processes of the site.
    pub fn members(&self) -> &[ProcId]
        ensures value { result.now ≡ self.now.members }
        ensures ascending { IsStrictlyIncreasing result.now }
        ensures few { length result.now ≤ 64 }
    {
        self.members.as_slice()
    }

    /// Whether the process is at the site.
    pub fn is_member(&self, process: ProcId) -> bool
        ensures { result ≡ is_member self.now process }
    {
        is_among(&self.members, process)
    }

    /// The number of a member: how many members stand before it.
    pub fn place(&self, process: ProcId) -> Option<usize>
        ensures place { MatchOption result (is_member self.now process ≡ false)
            (λ place. (place < length self.now.members) × (slice_index self.now.members place ≡ process)) }
        ensures small { IfSome result (λ place. place < 64) }
    {
        self.members.place_of(process)
    }

    /// The member with this number.
    pub fn member(&self, place: usize) -> Option<ProcId>
        ensures { result ≡ slice_get self.now.members place }
    {
        self.members.as_slice().get(place).copied()
    }

    /// The numbers of the members for which the member with this number waits, as bits; 0 where no member has it.
    pub fn row(&self, place: usize) -> u64
        ensures { (k : ℕ) → is_set result k ≡ joins self.now.members self.now.waits place k }
    {
        match self.waits.get(place) {
            Some(row) => *row,
            None => 0,
        }
    }

    /// Whether the process waits for some process.
    #[inline(always)]
    pub fn is_blocked(&self, process: ProcId) -> bool
        ensures { result ≡ has_some self.now.waits process }
    {
        has_first(&self.members, &self.waits, &self.remote_waits, process)
    }

    /// Whether the process waits for this holder.
    #[inline(always)]
    pub fn waits(&self, asker: ProcId, holder: ProcId) -> bool
        ensures { result ≡ has self.now.waits asker holder }
    {
        contains(
            &self.members,
            &self.waits,
            &self.remote_waits,
            asker,
            holder,
        )
    }

    /// Whether the holder has not yet answered a request of the asker.
    #[inline(always)]
    pub fn owes(&self, holder: ProcId, asker: ProcId) -> bool
        ensures { result ≡ has self.now.owed holder asker }
    {
        owes(&self.members, &self.owed, &self.remote_owed, holder, asker)
    }

    /// A member asks for what the targets hold, and waits for each of them; those at the site owe it a reply at once.
    pub fn ask(&mut self, asker: ProcId, targets: &[ProcId]) -> Result<(), AllocError>
        requires member { IsMember self.old asker }
        requires active { has_some self.old.waits asker ≡ false }
        requires ascending { IsAscending targets.now }
        requires others { list_any (λ k. k == asker) targets.now ≡ false }
        ensures ok { OnOk result (self.new ≡ asked self.old asker targets.now) }
        ensures undone { OnOk result (before_ask self.new asker targets.now ≡ self.old) }
        ensures err { OnErr result (self.new ≡ self.old) }
    {
        let room = replace(&mut self.room, Vec::new(self.alloc));
        let others = others_among(room, &self.members, targets)?;
        if let Some(place) = self.members.place_of(asker) {
            self.waits[place] = row_of(&self.members, targets);
            let list = ProcList::new(others);
            self.room = replace(&mut self.remote_waits[place], list).into_processes();
            owe_each(&mut self.owed, &self.members, place, targets);
        }
        Ok(())
    }

    /// Takes back an ask to which no reply has come, as where what should follow it finds no memory.
    ///
    /// It takes no memory itself.
    pub fn take_back(&mut self, asker: ProcId, targets: &[ProcId])
        requires member { IsMember self.old asker }
        requires asked { (k : ℕ) → has self.old.waits asker k ≡ true → list_any (λ q. q == k) targets.now ≡ true }
        ensures { self.new ≡ before_ask self.old asker targets.now }
    {
        if let Some(place) = self.members.place_of(asker) {
            self.waits[place] = 0;
            self.remote_waits[place].clear();
            owe_no_more(&mut self.owed, &self.members, place, targets);
        }
    }

    /// A member grants what it holds to a process that it owes a reply, which may be at another site.
    ///
    /// True where the asker is a member that waited for this holder last, and so is active now.
    #[inline(always)]
    pub fn reply(&mut self, holder: ProcId, asker: ProcId) -> bool
        requires member { IsMember self.old holder }
        requires active { has_some self.old.waits holder ≡ false }
        requires owed { has self.old.owed holder asker ≡ true }
        ensures value { self.new ≡ replied self.old holder asker }
        ensures woke { result ≡ wakes self.old self.new asker }
    {
        if let Some(second) = self.members.place_of(holder) {
            if let Some(first) = self.members.place_of(asker) {
                self.owed[second] = without_bit(self.owed[second], first);
                self.waits[first] = without_bit(self.waits[first], second);
                return !has_first(&self.members, &self.waits, &self.remote_waits, asker);
            }
            self.remote_owed[second].remove(asker);
        }
        false
    }

    /// The request of a process of another site came to a member.
    #[inline(always)]
    pub fn got_request(&mut self, holder: ProcId, asker: ProcId) -> Result<(), AllocError>
        requires member { IsMember self.old holder }
        requires elsewhere { is_member self.old asker ≡ false }
        requires new { has self.old.owed holder asker ≡ false }
        ensures ok { OnOk result (self.new ≡ got_request self.old holder asker) }
        ensures err { OnErr result (self.new ≡ self.old) }
    {
        match self.members.place_of(holder) {
            Some(place) => self.remote_owed[place].insert(asker),
            None => Ok(()),
        }
    }

    /// Takes back the request of a process of another site.
    ///
    /// It takes no memory itself.
    pub fn take_back_request(&mut self, holder: ProcId, asker: ProcId)
        requires member { IsMember self.old holder }
        requires elsewhere { is_member self.old asker ≡ false }
        ensures { self.new ≡ before_request self.old holder asker }
    {
        if let Some(place) = self.members.place_of(holder) {
            self.remote_owed[place].remove(asker);
        }
    }

    /// The reply of a process of another site came to a member that waits for it.
    ///
    /// True where it was the last that the member waited for, so that it is active now.
    #[inline(always)]
    pub fn got_reply(&mut self, asker: ProcId, holder: ProcId) -> bool
        requires member { IsMember self.old asker }
        requires elsewhere { is_member self.old holder ≡ false }
        requires waits { has self.old.waits asker holder ≡ true }
        ensures value { self.new ≡ got_reply self.old asker holder }
        ensures woke { result ≡ wakes self.old self.new asker }
    {
        if let Some(place) = self.members.place_of(asker) {
            self.remote_waits[place].remove(holder);
            return !has_first(&self.members, &self.waits, &self.remote_waits, asker);
        }
        false
    }

    /// The members that the process waits for, ascending.
    pub fn local_waits(&self, alloc: Global, asker: ProcId) -> Result<Vec<ProcId>, AllocError>
        ensures ascending { IfOk result (λ holders. IsStrictlyIncreasing holders.items) }
        ensures all { IfOk result (λ holders. (k : ℕ) →
            Contains holders.items k ↔ ((has self.now.waits asker k ≡ true) × IsMember self.now k)) }
    {
        match self.members.place_of(asker) {
            Some(place) => members_of(alloc, self.members.as_slice(), self.waits[place]),
            None => Ok(Vec::new(alloc)),
        }
    }

    /// The processes of other sites that the process waits for, ascending.
    pub fn remote_waits(&self, alloc: Global, asker: ProcId) -> Result<Vec<ProcId>, AllocError>
        ensures ascending { IfOk result (λ holders. IsStrictlyIncreasing holders.items) }
        ensures all { IfOk result (λ holders. (k : ℕ) →
            Contains holders.items k ↔ ((has self.now.waits asker k ≡ true) × (is_member self.now k ≡ false))) }
    {
        match self.members.place_of(asker) {
            Some(place) => self.remote_waits[place].as_slice().to_vec(alloc),
            None => Ok(Vec::new(alloc)),
        }
    }

    /// The processes of other sites that the member with this number waits for, ascending; none where no member has it.
    pub fn remote_at(&self, place: usize) -> &[ProcId]
        ensures ascending { IsStrictlyIncreasing result.now }
        ensures all { place < length self.now.members → (k : ℕ) → Contains result.now k
            ↔ ((has self.now.waits (slice_index self.now.members place) k ≡ true) × (is_member self.now k ≡ false)) }
    {
        match self.remote_waits.get(place) {
            Some(list) => list.as_slice(),
            None => &[],
        }
    }

    /// The members whose requests the process has not answered, ascending.
    pub fn local_owed(&self, alloc: Global, holder: ProcId) -> Result<Vec<ProcId>, AllocError>
        ensures ascending { IfOk result (λ askers. IsStrictlyIncreasing askers.items) }
        ensures all { IfOk result (λ askers. (j : ℕ) →
            Contains askers.items j ↔ ((has self.now.owed holder j ≡ true) × IsMember self.now j)) }
    {
        match self.members.place_of(holder) {
            Some(place) => members_of(alloc, self.members.as_slice(), self.owed[place]),
            None => Ok(Vec::new(alloc)),
        }
    }

    /// The processes of other sites whose requests the process has not answered, ascending.
    pub fn remote_owed(&self, alloc: Global, holder: ProcId) -> Result<Vec<ProcId>, AllocError>
        ensures ascending { IfOk result (λ askers. IsStrictlyIncreasing askers.items) }
        ensures all { IfOk result (λ askers. (j : ℕ) →
            Contains askers.items j ↔ ((has self.now.owed holder j ≡ true) × (is_member self.now j ≡ false))) }
    {
        match self.members.place_of(holder) {
            Some(place) => self.remote_owed[place].to_vec(alloc),
            None => Ok(Vec::new(alloc)),
        }
    }

    /// Another record of the same waits and requests.
    pub fn copy(&self, alloc: Global) -> Result<Self, AllocError>
        ensures { IfOk result (λ other. other ≡ self.now) }
    {
        Ok(LocalWaits {
            alloc,
            members: self.members.copy(alloc)?,
            waits: self.waits.to_vec(alloc)?,
            owed: self.owed.to_vec(alloc)?,
            remote_waits: ProcList::copy_all(alloc, &self.remote_waits)?,
            remote_owed: ProcBits::copy_all(alloc, &self.remote_owed)?,
            room: Vec::new(alloc),
        })
    }
}

/// Whether the pair is in the relation of the rows and the lists.
fn contains(
    members: &MemberTable,
    rows: &[u64],
    lists: &[ProcList],
    first: ProcId,
    second: ProcId,
) -> bool
    requires ascending { IsStrictlyIncreasing members.now }
    requires few { length members.now ≤ 64 }
    requires rows { AreRows members.now rows.now lists.now }
    ensures { result ≡ has (relation_of members.now rows.now lists.now) first second }
{
    match members.place_of(first) {
        Some(place) => match members.place_of(second) {
            Some(other) => has_bit(rows[place], other),
            None => lists[place].contains(second),
        },
        None => false,
    }
}

/// Whether the pair of a holder and an asker is in the relation of the rows and the sets.
fn owes(
    members: &MemberTable,
    rows: &[u64],
    sets: &[ProcBits],
    holder: ProcId,
    asker: ProcId,
) -> bool
    requires ascending { IsStrictlyIncreasing members.now }
    requires few { length members.now ≤ 64 }
    requires rows { AreRows members.now rows.now sets.now }
    ensures { result ≡ has (relation_of members.now rows.now sets.now) holder asker }
{
    match members.place_of(holder) {
        Some(second) => match members.place_of(asker) {
            Some(first) => has_bit(rows[second], first),
            None => sets[second].contains(asker),
        },
        None => false,
    }
}

/// Whether the process is the first of a pair of the rows and the lists.
fn has_first(members: &MemberTable, rows: &[u64], lists: &[ProcList], first: ProcId) -> bool
    requires ascending { IsStrictlyIncreasing members.now }
    requires rows { AreRows members.now rows.now lists.now }
    ensures { result ≡ has_some (relation_of members.now rows.now lists.now) first }
{
    match members.place_of(first) {
        Some(place) => rows[place] != 0 || !lists[place].as_slice().is_empty(),
        None => false,
    }
}

/// The processes of other sites among the targets, in place of what stands in `room`.
fn others_among(
    room: Vec<ProcId>,
    members: &MemberTable,
    targets: &[ProcId],
) -> Result<Vec<ProcId>, AllocError>
    requires { IsStrictlyIncreasing members.now }
    ensures { IfOk result (λ others. others.items ≡ filter (λ k. not (is_in members.now k)) targets.now) }
{
    let mut others = room;
    others.clear();
    for target in targets {
        if !is_among(members, *target) {
            others.push(*target)?;
        }
    }
    Ok(others)
}

/// Whether the process is one of the members.
fn is_among(members: &MemberTable, process: ProcId) -> bool
    requires { IsStrictlyIncreasing members.now }
    ensures { result ≡ is_in members.now process }
{
    members.place_of(process).is_some()
}

/// The places of the members among the targets, as bits.
fn row_of(members: &MemberTable, targets: &[ProcId]) -> u64
    requires ascending { IsStrictlyIncreasing members.now }
    requires few { length members.now ≤ 64 }
    ensures { (k : ℕ) → is_set result k ≡ is_at_in members.now targets.now k }
{
    let mut row = 0;
    for target in targets {
        if let Some(place) = members.place_of(*target) {
            row = with_bit(row, place);
        }
    }
    row
}

/// Each member among the targets owes a reply to the member at the place.
fn owe_each(owed: &mut Vec<u64>, members: &MemberTable, place: usize, targets: &[ProcId])
    requires ascending { IsStrictlyIncreasing members.now }
    requires few { length members.now ≤ 64 }
    requires len { length owed.old.items ≡ length members.now }
    requires within { place < length members.now }
    ensures len { length owed.new.items ≡ length owed.old.items }
    ensures bits { (a b : ℕ) → bit_of owed.new.items a b
        ≡ (((b == place) && is_at_in members.now targets.now a) || bit_of owed.old.items a b) }
{
    for target in targets {
        if let Some(holder) = members.place_of(*target) {
            owed[holder] = with_bit(owed[holder], place);
        }
    }
}

/// No member among the targets owes a reply to the member at the place any longer.
fn owe_no_more(owed: &mut Vec<u64>, members: &MemberTable, place: usize, targets: &[ProcId])
    requires ascending { IsStrictlyIncreasing members.now }
    requires few { length members.now ≤ 64 }
    requires len { length owed.old.items ≡ length members.now }
    requires within { place < length members.now }
    ensures len { length owed.new.items ≡ length owed.old.items }
    ensures bits { (a b : ℕ) → bit_of owed.new.items a b
        ≡ (not ((b == place) && is_at_in members.now targets.now a) && bit_of owed.old.items a b) }
{
    for target in targets {
        if let Some(holder) = members.place_of(*target) {
            owed[holder] = without_bit(owed[holder], place);
        }
    }
}

/// The members at the places of the bits.
fn members_of(alloc: Global, members: &[ProcId], row: u64) -> Result<Vec<ProcId>, AllocError>
    requires ascending { IsStrictlyIncreasing members.now }
    requires few { length members.now ≤ 64 }
    ensures { IfOk result (λ all. all.items ≡ filter (λ q. is_set row (place_in members.now q)) members.now) }
{
    let mut all = Vec::new(alloc);
    for place in 0..members.len() {
        if has_bit(row, place) {
            all.push(members[place])?;
        }
    }
    Ok(all)
}

/// So many lists without a process.
fn empty_lists(alloc: Global, count: usize) -> Result<Vec<ProcList>, AllocError>
    ensures { IfOk result (λ lists. lists.items ≡ replicate count []) }
{
    let mut lists = Vec::with_capacity(alloc, count)?;
    for _ in 0..count {
        lists.push(ProcList::empty(alloc))?;
    }
    Ok(lists)
}

/// So many sets without a process.
fn empty_sets(alloc: Global, count: usize) -> Result<Vec<ProcBits>, AllocError>
    ensures { IfOk result (λ sets. sets.items ≡ replicate count []) }
{
    let mut sets = Vec::with_capacity(alloc, count)?;
    for _ in 0..count {
        sets.push(ProcBits::empty(alloc))?;
    }
    Ok(sets)
}
