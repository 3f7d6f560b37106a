//! The waits of one process.

ghost use Rattle.std.specs.Prelude.{◌≡◌, ℕ, [], ◌∷◌, ◌+◌, ◌<◌, ◌≤◌, true, false, IfOk, IfErr, OnOk, OnErr, length, slice_index, replicate};
ghost use Rattle.cmh_model3.specs.Lists.{IsAscending, in_list};
ghost use Rattle.std.specs.Vec.{vec_capacity, vec_len};
ghost use Rattle.cmh_waits3.specs.Inner.Away.{AreInsertedAway};
ghost use Rattle.cmh_waits3.specs.Inner.Inserting.{AreInserted, IsPlaceFor};
ghost use Rattle.cmh_waits3.specs.Rows.{others_than, targets_of};

use crate::Wait;
use crate::member_table::MemberTable;
use cmh_model3::{ProcId, Stamp};
use std::alloc::{AllocError, Global};
use std::marker::Model;

/// The waits of one process, ascending by the processes that are waited for.
///
/// A call fails only when memory runs out, and then nothing has changed.
#[derive(Drop)]
pub struct WaitList {
    waits: Vec<Wait>,
}

impl Model for WaitList {
    ghost use Rattle.std.specs.Prelude.{List};
    ghost use Rattle.cmh_model3.specs.Lists.{IsAscending};
    ghost use Rattle.cmh_waits3.specs.Rows.{targets_of};
    ghost use Rattle.cmh_waits3.specs.declared.wait.Wait.{Wait};

    ghost Value = { List Wait };

    ghost view = { λ l. l.waits.items };

    ghost invariant = { λ l. IsAscending (targets_of l.waits.items) };
}

impl WaitList {
    /// No wait. Takes no memory.
    pub fn empty(alloc: Global) -> WaitList
        ensures { result ≡ [] }
    {
        WaitList {
            waits: Vec::new(alloc),
        }
    }

    /// So many lists without a wait.
    pub fn empty_lists(alloc: Global, count: usize) -> Result<Vec<WaitList>, AllocError>
        ensures { IfOk result (λ lists. lists.items ≡ replicate count []) }
    {
        let mut lists = Vec::with_capacity(alloc, count)?;
        for _ in 0..count {
            lists.push(WaitList::empty(alloc))?;
        }
        Ok(lists)
    }

    #[inline(always)]
    pub fn as_slice(&self) -> &[Wait]
        ensures value { result.now ≡ self.now }
        ensures ascending { IsAscending (targets_of result.now) }
    {
        &self.waits
    }

    /// Whether there is a wait for the target.
    pub fn contains(&self, target: ProcId) -> bool
        ensures { result ≡ in_list (targets_of self.now) target }
    {
        place_for(&self.waits, target).is_ok()
    }

    /// Adds waits for these, which have the same stamp.
    pub fn insert_all(&mut self, targets: &[ProcId], since: Stamp) -> Result<(), AllocError>
        requires ascending { IsAscending targets.now }
        requires new { (k : ℕ) → in_list targets.now k ≡ true → in_list (targets_of self.old) k ≡ false }
        ensures ok { OnOk result (AreInserted targets.now since self.old self.new) }
        ensures err { OnErr result (self.new ≡ self.old) }
    {
        self.waits.reserve(targets.len())?;
        insert_each(&mut self.waits, targets, since);
        Ok(())
    }

    /// Adds waits for those of these that are not among the members. They have the same stamp.
    pub fn insert_away(
        &mut self,
        members: &MemberTable,
        targets: &[ProcId],
        since: Stamp,
    ) -> Result<(), AllocError>
        requires ascending { IsAscending targets.now }
        requires new { (k : ℕ) → in_list targets.now k ≡ true → in_list (targets_of self.old) k ≡ false }
        ensures ok { OnOk result (AreInsertedAway members.now targets.now since self.old self.new) }
        ensures err { OnErr result (self.new ≡ self.old) }
    {
        self.waits.reserve(targets.len())?;
        insert_each_away(&mut self.waits, members, targets, since);
        Ok(())
    }

    /// Takes the waits for these out, as far as there are any.
    pub fn remove_all(&mut self, targets: &[ProcId])
        ensures { self.new ≡ others_than targets.now self.old }
    {
        remove_each(&mut self.waits, targets);
    }

    /// Takes the wait for the target out, if there is one.
    pub fn remove(&mut self, target: ProcId)
        ensures { self.new ≡ others_than (target ∷ []) self.old }
    {
        remove(&mut self.waits, target);
    }

    /// Another list of the same waits.
    pub fn copy(&self, alloc: Global) -> Result<WaitList, AllocError>
        ensures { IfOk result (λ other. other ≡ self.now) }
    {
        let waits = self.waits.to_vec(alloc)?;
        Ok(WaitList { waits })
    }
}

/// Where the wait for the target stands, or where it would.
#[inline(always)]
fn place_for(waits: &[Wait], target: ProcId) -> Result<usize, usize>
    requires { IsAscending (targets_of waits.now) }
    ensures at { IfOk result (λ place. (place < length waits.now) × (slice_index (targets_of waits.now) place ≡ target)) }
    ensures before { IfErr result (λ place. (place ≤ length waits.now) × IsPlaceFor target place waits.now) }
{
    waits.binary_search_by_key(&target, |wait| wait.target)
}

/// Adds waits to a list that has room for them.
fn insert_each(waits: &mut Vec<Wait>, targets: &[ProcId], since: Stamp)
    requires ascending { IsAscending (targets_of waits.old.items) }
    requires targets { IsAscending targets.now }
    requires new { (k : ℕ) → in_list targets.now k ≡ true → in_list (targets_of waits.old.items) k ≡ false }
    requires room { vec_len waits.old + length targets.now ≤ vec_capacity waits.old }
    ensures are { AreInserted targets.now since waits.old.items waits.new.items }
{
    for target in targets {
        insert(waits, *target, since);
    }
}

/// Adds waits for those that are not among the members to a list that has room for them.
fn insert_each_away(waits: &mut Vec<Wait>, members: &MemberTable, targets: &[ProcId], since: Stamp)
    requires ascending { IsAscending (targets_of waits.old.items) }
    requires targets { IsAscending targets.now }
    requires new { (k : ℕ) → in_list targets.now k ≡ true → in_list (targets_of waits.old.items) k ≡ false }
    requires room { vec_len waits.old + length targets.now ≤ vec_capacity waits.old }
    ensures are { AreInsertedAway members.now targets.now since waits.old.items waits.new.items }
{
    for target in targets {
        match members.place_of(*target) {
            Some(_) => {}
            None => insert(waits, *target, since),
        }
    }
}

/// Adds a wait to a list that has room for it.
fn insert(waits: &mut Vec<Wait>, target: ProcId, since: Stamp)
    requires ascending { IsAscending (targets_of waits.old.items) }
    requires new { in_list (targets_of waits.old.items) target ≡ false }
    requires room { vec_len waits.old < vec_capacity waits.old }
    ensures are { AreInserted (target ∷ []) since waits.old.items waits.new.items }
    ensures len { vec_len waits.new ≡ vec_len waits.old + 1 }
    ensures capacity { vec_capacity waits.old ≤ vec_capacity waits.new }
{
    if let Err(place) = place_for(waits, target) {
        // There is room, so that no memory is wanted.
        waits.insert(place, Wait { target, since }).unwrap();
    }
}

/// Takes the waits for these out, as far as there are any.
fn remove_each(waits: &mut Vec<Wait>, targets: &[ProcId])
    requires { IsAscending (targets_of waits.old.items) }
    ensures { waits.new.items ≡ others_than targets.now waits.old.items }
{
    for target in targets {
        remove(waits, *target);
    }
}

/// Takes the wait for a target out, if there is one.
fn remove(waits: &mut Vec<Wait>, target: ProcId)
    requires { IsAscending (targets_of waits.old.items) }
    ensures { waits.new.items ≡ others_than (target ∷ []) waits.old.items }
{
    if let Ok(place) = place_for(waits, target) {
        waits.remove(place);
    }
}
