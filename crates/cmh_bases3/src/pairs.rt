//! The rows of a base that are pairs.

ghost use Rattle.std.specs.Prelude.{◌≡◌, ◌++◌, ℕ, true, IfOk, OnOk, map};
ghost use Rattle.std.specs.List.{AllByRecursion};
ghost use Rattle.cmh_runs.specs.Number.{IsNumber};
ghost use Rattle.cmh_controller3.specs.Controller.{state_of};
ghost use Rattle.cmh_segment3.specs.States.{all_numbers, pairs_where};
ghost use Rattle.cmh_bases3.specs.Inner.Rows.{pair_of};

use cmh_controller3::Controller;
use cmh_model3::ProcId;
use cmh_segment3::{Pair, Rows};
use std::alloc::{AllocError, Global};

/// Who has given up its wait for whom, and has not heard of it yet.
pub(crate) fn leaving_rows(alloc: Global, controller: &Controller) -> Result<Rows<Pair>, AllocError>
    ensures rows { IfOk result (λ rows. rows ≡ pairs_where (state_of controller.now).leaving all_numbers all_numbers) }
    ensures numbers { OnOk result ((j k : ℕ) → (state_of controller.now).leaving j k ≡ true → IsNumber k) }
{
    let mut rows = Vec::new(alloc);
    for asker in controller.members() {
        let holders = controller.leaving_of(alloc, *asker)?;
        push_pairs(&mut rows, *asker, &holders)?;
    }
    Ok(Rows::new(rows))
}

/// Who has been asked by whom, and has not answered yet.
pub(crate) fn owed_rows(alloc: Global, controller: &Controller) -> Result<Rows<Pair>, AllocError>
    ensures { IfOk result (λ rows. rows ≡ pairs_where (state_of controller.now).owed all_numbers all_numbers) }
{
    let mut rows = Vec::new(alloc);
    for holder in controller.members() {
        let askers = controller.owed_by(alloc, *holder)?;
        push_pairs(&mut rows, *holder, &askers)?;
    }
    Ok(Rows::new(rows))
}

/// Adds the pairs of a process with each of these.
fn push_pairs(rows: &mut Vec<Pair>, first: ProcId, seconds: &[ProcId]) -> Result<(), AllocError>
    ensures rows { OnOk result (rows.new.items ≡ rows.old.items ++ map (pair_of first) seconds.now) }
    ensures numbers { OnOk result (AllByRecursion IsNumber seconds.now) }
{
    for second in seconds {
        let _number = second.get();
        rows.push(Pair {
            first,
            second: *second,
        })?;
    }
    Ok(())
}
