//! The base of a running controller.

ghost use Rattle.std.specs.Prelude.{◌≡◌, ℕ, IfOk, OnOk};
ghost use Rattle.cmh_controller3.specs.Controller.{state_of};
ghost use Rattle.cmh_segment3.specs.Base.{IsBase};
ghost use Rattle.cmh_segment3.specs.States as spec;
ghost use Rattle.cmh_segment3.specs.States.{BeginsEpoch, stamp_of, state_in, turned_to};
ghost use Rattle.cmh_bases3.specs.FittingLinks.{FitLinks};

use crate::kinds::kinds_law;
use crate::pairs::{leaving_rows, owed_rows};
use crate::stamped::{declared_rows, mark_rows, stamp_rows, wait_rows};
use cmh_controller3::Controller;
use cmh_segment3::{Base, LinkState, Rows, Stamped, state_law};
use std::alloc::{AllocError, Global};

/// The base of the state of a controller, where the rows of `stops` say at which stop each declared process was declared,
/// and with these links. A controller does not know either. It fails only when memory runs out.
///
/// The epoch that begins with it begins in the state that a turn of the controller leads to. And it can be written, where
/// its links can: of those of the processes there are never too many rows.
pub fn base_of(
    alloc: Global,
    controller: &Controller,
    stops: &[Stamped],
    links: Rows<LinkState>,
) -> Result<Base, AllocError>
    ensures value { IfOk result (λ base. base ≡ spec.base_of (state_of controller.now) (stamp_of stops.now) links) }
    ensures begins { OnOk result ((epoch : ℕ) → BeginsEpoch epoch (turned_to epoch (state_of controller.now))) }
    ensures state { IfOk result (λ base.
        (epoch : ℕ) → state_in epoch base ≡ turned_to epoch (state_of controller.now)) }
    ensures whole { IfOk result (λ base. FitLinks links → IsBase base) }
{
    let _ = controller.members();
    state_law(controller.topology());
    let base = Base {
        waits: wait_rows(alloc, controller)?,
        leaving: leaving_rows(alloc, controller)?,
        owed: owed_rows(alloc, controller)?,
        dependents: mark_rows(alloc, controller)?,
        declared: declared_rows(alloc, controller, stops)?,
        stamps: stamp_rows(alloc, controller)?,
        links,
    };
    kinds_law(&base);
    Ok(base)
}
