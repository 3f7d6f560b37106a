//! Pairs of processes, the first of them at the site.

ghost use Rattle.std.specs.Prelude.{◌≡◌, ◌<◌, ℕ, true, false, [], length, IfOk, OnOk, OnErr, slice_index_or};
ghost use Rattle.std.specs.List.Sorted.{IsStrictlyIncreasing};
ghost use Rattle.cmh_model3.specs.Lists.{in_list, set_at, set_pair};
ghost use Rattle.cmh_controller3.specs.Tables.{pairs_of};

use cmh_model3::ProcId;
use cmh_waits::ProcList;
use std::alloc::{AllocError, Global};
use std::marker::Model;
use std::mem;

/// Pairs of processes: at the number of each process of the site those with which it is a pair, ascending.
///
/// A call fails only when memory runs out, and then nothing has changed.
#[derive(Drop)]
pub struct PairTable {
    rows: Vec<ProcList>,
}

impl Model for PairTable {
    ghost use Rattle.std.specs.Prelude.{ℕ, List};

    ghost Value = { List (List ℕ) };

    ghost view = { λ t. t.rows.items };
}

impl PairTable {
    /// No pair, with room for processes with a smaller number than this.
    pub fn new(alloc: Global, room: usize) -> Result<Self, AllocError>
        ensures room { IfOk result (λ table. length table ≡ room) }
        ensures none { IfOk result (λ table. pairs_of table ≡ (λ a b. false)) }
    {
        let mut rows = Vec::with_capacity(alloc, room)?;
        for _ in 0..room {
            rows.push(ProcList::empty(alloc))?;
        }
        Ok(PairTable { rows })
    }

    pub fn has(&self, first: ProcId, second: ProcId) -> bool
        ensures { result ≡ pairs_of self.now first second }
    {
        match self.rows.get(first.get() as usize) {
            Some(row) => row.contains(second),
            None => false,
        }
    }

    /// With which processes this one is a pair, ascending.
    pub fn row(&self, first: ProcId) -> &[ProcId]
        ensures ascending { IsStrictlyIncreasing result.now }
        ensures pairs { (second : ℕ) → in_list result.now second ≡ pairs_of self.now first second }
    {
        match self.rows.get(first.get() as usize) {
            Some(row) => row.as_slice(),
            None => &[],
        }
    }

    pub fn add(&mut self, first: ProcId, second: ProcId) -> Result<(), AllocError>
        requires { first < length self.old }
        ensures ok { OnOk result (pairs_of self.new ≡ set_pair (pairs_of self.old) first second true) }
        ensures room { length self.new ≡ length self.old }
        ensures err { OnErr result (self.new ≡ self.old) }
    {
        self.rows[first.get() as usize].insert(second)
    }

    pub fn remove(&mut self, first: ProcId, second: ProcId)
        requires { first < length self.old }
        ensures pairs { pairs_of self.new ≡ set_pair (pairs_of self.old) first second false }
        ensures room { length self.new ≡ length self.old }
    {
        self.rows[first.get() as usize].remove(second);
    }

    /// Another list of those with which a process is a pair.
    pub fn row_copy(&self, alloc: Global, first: ProcId) -> Result<ProcList, AllocError>
        requires { first < length self.now }
        ensures { IfOk result (λ row. (second : ℕ) → in_list row second ≡ pairs_of self.now first second) }
    {
        self.rows[first.get() as usize].copy(alloc)
    }

    /// From now on a process is a pair with just these. It gives those before.
    pub fn put_row(&mut self, first: ProcId, row: ProcList) -> ProcList
        requires { first < length self.old }
        ensures before { (second : ℕ) → in_list result second ≡ pairs_of self.old first second }
        ensures pairs { pairs_of self.new ≡ set_at (pairs_of self.old) first (in_list row) }
        ensures room { length self.new ≡ length self.old }
    {
        mem::replace(&mut self.rows[first.get() as usize], row)
    }
}
