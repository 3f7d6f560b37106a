//! The controller of a base.

ghost use Rattle.std.specs.Prelude.{◌≡◌, ◌*◌, ◌^◌, IfErr, IfOk};
ghost use Rattle.cmh_controller3.specs.Controller.{state_of};
ghost use Rattle.cmh_model3.specs.State.{empty_state};
ghost use Rattle.cmh_segment3.specs.Base.{IsBase};
ghost use Rattle.cmh_wire3.specs.Wire.{IsLong};
ghost use Rattle.cmh_bases3.specs.Bases.{IsBaseOf, IsRestored, RefusesUnless};

use crate::replies::owe_who_waits;
use crate::rows::{put_declared, put_leaving, put_marks, put_owed, put_stamps, put_waits};
use cmh_controller3::{Controller, Refusal};
use cmh_model3::{SiteId, Stamp};
use cmh_segment3::Base;
use cmh_topology3::Topology;
use cmh_wire3::Epoch;
use std::alloc::Global;

/// The controller of a site that begins an epoch in the state that the base says. The refusals are `Unlawful`, where the
/// site cannot begin with this base, and `Memory`.
///
/// The rows of the base are in order, as a segment has them. At which stops the declared processes stood, and what was sent
/// and got, is not the controller's.
pub fn controller_of(
    alloc: Global,
    topology: &Topology,
    site: SiteId,
    epoch: Epoch,
    base: &Base,
) -> Result<Controller, Refusal>
    requires { IsBase base.now }
    ensures ok { IfOk result (IsRestored topology.now site epoch base.now) }
    ensures refused { IfErr result (RefusesUnless (IsBaseOf topology.now site epoch base.now)) }
{
    let Ok(mut controller) = Controller::empty(alloc, topology, site) else {
        return Err(Refusal::Memory);
    };
    put_base(&mut controller, epoch, base)?;
    Ok(controller)
}

/// Puts what the base says into a controller that has taken no step.
fn put_base(controller: &mut Controller, epoch: Epoch, base: &Base) -> Result<(), Refusal>
    requires new { state_of controller.old ≡ empty_state }
    requires base { IsBase base.now }
    ensures ok { IfOk result (λ _.
        IsRestored controller.old.topology controller.old.site epoch base.now controller.new) }
    ensures refused { IfErr result (RefusesUnless
        (IsBaseOf controller.old.topology controller.old.site epoch base.now)) }
{
    let waits = base.waits.as_slice();
    let owed = base.owed.as_slice();
    if !owe_who_waits(controller.topology(), controller.site(), owed, waits) {
        return Err(Refusal::Unlawful);
    }
    controller.put_clock(first_stamp(epoch))?;
    put_stamps(controller, base.stamps.as_slice())?;
    put_waits(controller, waits)?;
    put_leaving(controller, base.leaving.as_slice())?;
    put_owed(controller, owed)?;
    put_marks(controller, base.dependents.as_slice())?;
    put_declared(controller, base.declared.as_slice())?;
    Ok(())
}

/// The clock with which an epoch begins.
fn first_stamp(epoch: Epoch) -> Stamp
    ensures clock { result ≡ epoch * 2 ^ 32 }
    ensures long { IsLong result }
{
    Stamp::new(u64::from(epoch.get()) * 0x1_0000_0000)
}
