//! Two lists of processes as one in order.

ghost use Rattle.std.specs.Prelude.{◌≡◌, ℕ, ◌==◌, ◌||◌, IfOk};
ghost use Rattle.std.specs.List.{list_any};
ghost use Rattle.std.specs.List.Sorted.{IsStrictlyIncreasing};

use cmh_frames::ProcId;
use std::alloc::AllocError;

/// The processes of both lists, ascending.
pub fn joined(first: Vec<ProcId>, second: &[ProcId]) -> Result<Vec<ProcId>, AllocError>
    ensures ascending { IfOk result (λ both. IsStrictlyIncreasing both.items) }
    ensures all { IfOk result (λ both. (p : ℕ) → list_any (λ q. q == p) both.items
        ≡ (list_any (λ q. q == p) first.items || list_any (λ q. q == p) second.now)) }
{
    let mut both = first;
    both.extend_from_slice(second)?;
    both.sort_unstable();
    both.dedup();
    Ok(both)
}
