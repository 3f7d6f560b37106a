//! The shortest cycle of waits through a process, and of those the least.
//!
//! First come the levels of the places that lead to the process's, by how many waits it takes, up to the first level
//! with one of its holders; then the cycle goes, from the process on, each time to the least holder in the level that
//! is left.

ghost use Rattle.std.specs.Prelude.{◌≡◌, ◌↔◌, ℕ, ◌+◌, ◌<◌, ◌≤◌, ◌/◌, ◌^◌, true, false, List, length, map, slice_index, IfOk, IfSome, IfNone};
ghost use Rattle.cmh_bits.specs.Bits.{has_number};
ghost use Rattle.cmh_cycles.specs.FoundCycles.{IsCycleIn};
ghost use Rattle.cmh_cycles.specs.Cycles.{ComesFirst, IsFirstCycleOf};
ghost use Rattle.cmh_cycles.specs.Graphs.{IsGraph, WaitsAt};
ghost use Rattle.cmh_cycles.specs.Inner.Levels.{LeadBack};
ghost use Rattle.cmh_cycles.specs.Rows.{AreTwins, row_at};
ghost use Rattle.cmh_frames.specs.Paths.{IsCycleOf};

use crate::graph::{Graph, place_of};
use crate::unions::union_of;
use cmh_bits::BitSet;
use cmh_frames::ProcId;
use std::alloc::{AllocError, Global};

/// The shortest cycle of waits through a process, and of those the least by comparing them number by number, if there
/// is one.
pub fn shortest_cycle(
    alloc: Global,
    graph: &Graph,
    of: ProcId,
) -> Result<Option<Vec<ProcId>>, AllocError>
    requires { IsGraph graph.now graph.now.waits.items }
    ensures cycle { IfOk result (λ found. IfSome found (λ members. IsCycleIn graph.now.waits.items of members.items)) }
    ensures first { IfOk result (λ found. IfSome found (λ members.
        (other : List ℕ) → IsCycleIn graph.now.waits.items of other → ComesFirst members.items other)) }
    ensures none { IfOk result (λ found. IfNone found
        ((other : List ℕ) → IsCycleIn graph.now.waits.items of other → ⊥)) }
{
    let Some(place) = place_of(&graph.processes, of) else {
        return Ok(None);
    };
    let Some(levels) = levels_to(alloc, graph, place)? else {
        return Ok(None);
    };
    let members = walk(alloc, graph, place, &levels)?;
    Ok(Some(members))
}

/// The levels of the places that lead to this one, up to the first with a holder of it. Where no level has one, there
/// are none.
fn levels_to(alloc: Global, graph: &Graph, to: usize) -> Result<Option<Vec<BitSet>>, AllocError>
    requires graph { IsGraph graph.now graph.now.waits.items }
    requires place { to < length graph.now.processes.items }
    ensures some { IfOk result (λ found. IfSome found (λ levels.
        LeadBack (λ a b. WaitsAt graph.now.processes.items graph.now.waits.items a b) to levels.items)) }
    ensures words { IfOk result (λ found. IfSome found (λ levels. (d : ℕ) → d < length levels.items
        → length (row_at levels.items d) ≡ length graph.now.processes.items / 64 + 1)) }
    ensures none { IfOk result (λ found. IfNone found ((other : List ℕ)
        → IsCycleOf (λ a b. WaitsAt graph.now.processes.items graph.now.waits.items a b) to other → ⊥)) }
{
    let words = graph.processes.len() / 64 + 1;
    let mut first = BitSet::new(alloc, words)?;
    first.insert(to);
    let mut seen = BitSet::new(alloc, words)?;
    seen.insert(to);
    let mut levels = Vec::new(alloc);
    levels.push(first)?;
    let mut met = levels[0].first_common(&graph.holders[to]).is_some();
    while !met {
        let next = next_level(
            alloc,
            &graph.askers,
            &graph.twins,
            &levels[levels.len() - 1],
            &seen,
        )?;
        if next.is_empty() {
            return Ok(None);
        }
        seen.add_all(&next);
        met = next.first_common(&graph.holders[to]).is_some();
        levels.push(next)?;
    }
    Ok(Some(levels))
}

/// The askers of the level that were not seen yet.
fn next_level(
    alloc: Global,
    askers: &[BitSet],
    twins: &[usize],
    level: &BitSet,
    seen: &BitSet,
) -> Result<BitSet, AllocError>
    requires twins { AreTwins askers.now twins.now }
    requires inside { (k : ℕ) → has_number level.now k ≡ true → (k < length askers.now)
        × (length (row_at askers.now k) ≡ length level.now) }
    requires words { length seen.now ≡ length level.now }
    requires small { length level.now ≤ 2 ^ 57 }
    ensures words { IfOk result (λ row. length row ≡ length level.now) }
    ensures places { IfOk result (λ row. (v : ℕ) → has_number row v ≡ true
        ↔ (((k : ℕ) × (has_number level.now k ≡ true) × (has_number (row_at askers.now k) v ≡ true))
        × (has_number seen.now v ≡ false))) }
{
    let mut next = union_of(alloc, level, askers, twins)?;
    next.remove_all(seen);
    Ok(next)
}

/// From the place on, each time the least holder in the level that is left; the processes at these places.
fn walk(
    alloc: Global,
    graph: &Graph,
    from: usize,
    levels: &[BitSet],
) -> Result<Vec<ProcId>, AllocError>
    requires graph { IsGraph graph.now graph.now.waits.items }
    requires place { from < length graph.now.processes.items }
    requires back { LeadBack (λ a b. WaitsAt graph.now.processes.items graph.now.waits.items a b) from levels.now }
    requires words { (d : ℕ) → d < length levels.now → length (row_at levels.now d)
        ≡ length graph.now.processes.items / 64 + 1 }
    ensures { IfOk result (λ members. (places : List ℕ)
        × (members.items ≡ map (λ a. slice_index graph.now.processes.items a) places)
        × IsFirstCycleOf (λ a b. WaitsAt graph.now.processes.items graph.now.waits.items a b) from places) }
{
    let mut members = Vec::new(alloc);
    members.push(graph.processes[from])?;
    let mut at = from;
    let mut left = levels.len();
    while left > 0 {
        left -= 1;
        match levels[left].first_common(&graph.holders[at]) {
            Some(next) => {
                members.push(graph.processes[next])?;
                at = next;
            }
            None => unreachable!(),
        }
    }
    Ok(members)
}
