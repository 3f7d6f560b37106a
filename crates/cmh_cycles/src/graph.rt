//! Waits as tables of rows: at the place of each process that waits, the places of its holders and of its askers.

ghost use Rattle.std.specs.Prelude.{◌≡◌, ◌⊎◌, ℕ, ◌+◌, ◌<◌, ◌≤◌, ◌/◌, ◌^◌, ◌==◌, ◌||◌, ◌&&◌, length, slice_index, Contains, IfOk, MatchOption};
ghost use Rattle.std.specs.List.Sorted.{IsStrictlyIncreasing, IsStrictlySortedBy};
ghost use Rattle.cmh_frames.specs.Relation.{pair_cmp};
ghost use Rattle.cmh_cycles.specs.Graphs.{AreAskers, IsGraph};
ghost use Rattle.cmh_bits.specs.Bits.{has_number};
ghost use Rattle.cmh_cycles.specs.Rows.{AreTwins, IsTable, row_at};

use cmh_bits::BitSet;
use cmh_frames::ProcId;
use std::alloc::{AllocError, Global};

/// Who waits for whom. A process that waits for none is on no cycle, so it has no place.
#[derive(Drop)]
pub struct Graph {
    /// Askers with their holders, ascending.
    pub waits: Vec<(ProcId, ProcId)>,
    /// The processes that wait, ascending.
    pub processes: Vec<ProcId>,
    /// At the place of each of them, the places of its holders.
    pub holders: Vec<BitSet>,
    /// At the place of each of them, the places of its askers.
    pub askers: Vec<BitSet>,
    /// At the place of each of them, a place with the same askers: a lower one, or its own.
    pub twins: Vec<usize>,
}

impl Graph {
    pub fn new(alloc: Global, waits: Vec<(ProcId, ProcId)>) -> Result<Graph, AllocError>
        requires { IsStrictlySortedBy pair_cmp waits.items }
        ensures { IfOk result (λ graph. IsGraph graph waits.items) }
    {
        let processes = askers_of(alloc, &waits)?;
        let mut holders = empty_table(alloc, processes.len())?;
        let mut askers = empty_table(alloc, processes.len())?;
        for (asker, holder) in &waits {
            if let Some(a) = place_of(&processes, *asker) {
                if let Some(b) = place_of(&processes, *holder) {
                    relate(&mut holders, a, b);
                    relate(&mut askers, b, a);
                }
            }
        }
        let twins = twins_of(alloc, &holders, &askers)?;
        Ok(Graph {
            waits,
            processes,
            holders,
            askers,
            twins,
        })
    }
}

/// The place of a process.
pub fn place_of(processes: &[ProcId], process: ProcId) -> Option<usize>
    requires { IsStrictlyIncreasing processes.now }
    ensures { MatchOption result (Contains processes.now process → ⊥)
        (λ place. (place < length processes.now) × (slice_index processes.now place ≡ process)) }
{
    match processes.binary_search(&process) {
        Ok(place) => Some(place),
        Err(_) => None,
    }
}

/// The processes that wait, ascending.
fn askers_of(alloc: Global, waits: &[(ProcId, ProcId)]) -> Result<Vec<ProcId>, AllocError>
    requires { IsStrictlySortedBy pair_cmp waits.now }
    ensures { IfOk result (λ processes. AreAskers waits.now processes.items) }
{
    let mut processes = Vec::new(alloc);
    let mut last: Option<ProcId> = None;
    for (asker, _) in waits {
        if last != Some(*asker) {
            processes.push(*asker)?;
            last = Some(*asker);
        }
    }
    Ok(processes)
}

/// For n places, rows without any.
fn empty_table(alloc: Global, n: usize) -> Result<Vec<BitSet>, AllocError>
    ensures { IfOk result (λ table. IsTable table.items n (n / 64 + 1) (λ a b. ⊥)) }
{
    let mut table = Vec::new(alloc);
    for place in 0..n {
        table.push(BitSet::new(alloc, n / 64 + 1)?)?;
    }
    Ok(table)
}

/// Adds the place b to the row of the place a.
fn relate(table: &mut Vec<BitSet>, a: usize, b: usize)
    requires within { a < length table.old.items }
    requires words { b / 64 < length (row_at table.old.items a) }
    ensures long { length table.new.items ≡ length table.old.items }
    ensures wide { (k : ℕ) → length (row_at table.new.items k) ≡ length (row_at table.old.items k) }
    ensures places { (k v : ℕ) → has_number (row_at table.new.items k) v
        ≡ (((k == a) && (v == b)) || has_number (row_at table.old.items k) v) }
{
    table[a].insert(b);
}

/// A twin for each place.
fn twins_of(alloc: Global, holders: &[BitSet], askers: &[BitSet]) -> Result<Vec<usize>, AllocError>
    requires holders { (k : ℕ) → length (row_at holders.now k) ≤ 2 ^ 57 }
    requires askers { (k : ℕ) → length (row_at askers.now k) ≤ 2 ^ 57 }
    ensures { IfOk result (λ twins. AreTwins askers.now twins.items) }
{
    let mut twins = Vec::new(alloc);
    for place in 0..askers.len() {
        twins.push(twin_of(holders, askers, place))?;
    }
    Ok(twins)
}

/// A place with the same askers: who asks, asks for several at once, so the least holder of an asker often has the
/// same askers as its others.
fn twin_of(holders: &[BitSet], askers: &[BitSet], place: usize) -> usize
    requires place { place < length askers.now }
    requires holders { (k : ℕ) → length (row_at holders.now k) ≤ 2 ^ 57 }
    requires askers { (k : ℕ) → length (row_at askers.now k) ≤ 2 ^ 57 }
    ensures back { result ≤ place }
    ensures same { row_at askers.now result ≡ row_at askers.now place }
{
    let Some(asker) = askers[place].first() else {
        return place;
    };
    let Some(held) = holders.get(asker) else {
        return place;
    };
    match held.first() {
        Some(twin) if twin < place && askers[twin].is(&askers[place]) => twin,
        _ => place,
    }
}
