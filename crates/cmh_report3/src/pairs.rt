//! Sets of pairs of processes.

ghost use Rattle.std.specs.Prelude.{◌≡◌, ◌↔◌, ◌++◌, ◌<◌, ◌==◌, ◌&&◌, ◌||◌, not, ℕ, false, true, map, length, Contains, OnOk, OnErr, IfOk};
ghost use Rattle.std.specs.List.Sorted.{IsStrictlySortedBy};
ghost use Rattle.cmh_frames.specs.Relation.{pair_cmp};
ghost use Rattle.cmh_report3.specs.Inner.Pairs.{has_pair};
ghost use Rattle.cmh_report3.specs.Inner.PairRows.{SamePairs};

use cmh_model3::ProcId;
use cmh_waits::ProcList;
use std::alloc::{AllocError, Global};
use std::marker::Model;

/// A set of pairs of processes.
///
/// It grows up to the greatest number of a first process, and does not shrink.
#[derive(Drop)]
pub struct PairSet {
    alloc: Global,

    /// At the number of each process those with which it is a pair.
    rows: Vec<ProcList>,
}

impl Model for PairSet {
    ghost use Rattle.std.specs.Prelude.{ℕ, List};
    ghost use Rattle.cmh_report3.specs.Inner.PairRows.{AreByNumber};

    ghost Value = { List (List ℕ) };

    ghost view = { λ p. p.rows.items };

    ghost invariant = { λ p. AreByNumber p.rows.items };
}

impl PairSet {
    /// No pair. Takes no memory.
    pub fn new(alloc: Global) -> PairSet
        ensures { (j k : ℕ) → has_pair result j k ≡ false }
    {
        PairSet {
            alloc,
            rows: Vec::new(alloc),
        }
    }

    pub fn has(&self, first: ProcId, second: ProcId) -> bool
        ensures { result ≡ has_pair self.now first second }
    {
        match self.rows.get(first.get() as usize) {
            Some(row) => row.contains(second),
            None => false,
        }
    }

    pub fn insert(&mut self, first: ProcId, second: ProcId) -> Result<(), AllocError>
        ensures ok { OnOk result ((j k : ℕ) → has_pair self.new j k
            ≡ (((first == j) && (second == k)) || has_pair self.old j k)) }
        ensures err { OnErr result (SamePairs self.old self.new) }
    {
        self.lengthen(first)?;
        self.rows[first.get() as usize].insert(second)
    }

    pub fn remove(&mut self, first: ProcId, second: ProcId)
        ensures { (j k : ℕ) → has_pair self.new j k
            ≡ (not ((first == j) && (second == k)) && has_pair self.old j k) }
    {
        let at = first.get() as usize;
        if at < self.rows.len() {
            self.rows[at].remove(second);
        }
    }

    /// The pairs, ascending.
    pub fn pairs(&self, alloc: Global) -> Result<Vec<(ProcId, ProcId)>, AllocError>
        ensures pairs { IfOk result (λ list. (j k : ℕ) → Contains list.items (j, k)
            ↔ (has_pair self.now j k ≡ true)) }
        ensures ascending { IfOk result (λ list. IsStrictlySortedBy pair_cmp list.items) }
    {
        let mut pairs = Vec::new(alloc);
        for index in 0..self.rows.len() {
            if let Some(first) = ProcId::new(index as u16) {
                push_row(&mut pairs, first, self.rows[index].as_slice())?;
            }
        }
        Ok(pairs)
    }

    /// Adds empty rows, up to that of this process.
    fn lengthen(&mut self, first: ProcId) -> Result<(), AllocError>
        ensures room { OnOk result (first < length self.new) }
        ensures same { SamePairs self.old self.new }
    {
        for _ in self.rows.len()..first.get() as usize + 1 {
            self.rows.push(ProcList::empty(self.alloc))?;
        }
        Ok(())
    }
}

/// Adds the pairs of one process.
fn push_row(
    pairs: &mut Vec<(ProcId, ProcId)>,
    first: ProcId,
    row: &[ProcId],
) -> Result<(), AllocError>
    ensures { OnOk result (pairs.new.items ≡ pairs.old.items ++ map (λ k. (first, k)) row.now) }
{
    for second in row {
        pairs.push((first, *second))?;
    }
    Ok(())
}
