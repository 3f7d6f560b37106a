//! The processes that were declared deadlocked.

ghost use Rattle.std.specs.Prelude.{◌≡◌, ◌==◌, OnOk, IfOk};
ghost use Rattle.std.specs.BTreeSet.{keys, IsOrdered};
ghost use Rattle.std.specs.Ordering.{nat_cmp};
ghost use Rattle.cmh_frames.specs.Topology.{is_some_of};
ghost use Rattle.cmh_frames.specs.Laws.{bit};
ghost use Rattle.cmh_audit.specs.Declarations.{HasMore};

use cmh_frames::ProcId;
use std::alloc::{AllocError, Global};
use std::collections::BTreeSet;

/// Adds the process, if there is one.
#[inline(always)]
pub fn declare(declared: &mut BTreeSet<ProcId>, process: Option<ProcId>) -> Result<(), AllocError>
    ensures { OnOk result (HasMore declared.old.keys declared.new.keys (λ i. bit (is_some_of process i))) }
{
    if let Some(process) = process {
        add(declared, process)?;
    }
    Ok(())
}

/// Adds the process. Few entries declare one, so it stands apart.
#[inline(never)]
fn add(declared: &mut BTreeSet<ProcId>, process: ProcId) -> Result<(), AllocError>
    ensures { OnOk result (HasMore declared.old.keys declared.new.keys (λ i. bit (process == i))) }
{
    declared.insert(process)?;
    Ok(())
}

/// The processes, ascending.
pub fn processes_of(alloc: Global, declared: &BTreeSet<ProcId>) -> Result<Vec<ProcId>, AllocError>
    ensures processes { IfOk result (λ list. list.items ≡ keys declared.now) }
    ensures ordered { IsOrdered nat_cmp declared.now }
{
    declared.iter().copied().collect(alloc)
}
