//! Whether bases say the states of controllers.

ghost use Rattle.std.specs.Prelude.{◌↔◌, ◌≡◌, ◌*◌, ◌^◌, ◌<◌, IfOk, IsTrue, OnOk};
ghost use Rattle.std.specs.List.{All};
ghost use Rattle.cmh_controller3.specs.Controller.{state_of};
ghost use Rattle.cmh_model3.specs.Rules.{clock_limit};
ghost use Rattle.cmh_history3.specs.Inner.Rows.{AreSameRows, CanTurn};
ghost use Rattle.cmh_history3.specs.Says.{IsBaseFor, IsSaid, SaysState};

use cmh_bases3::base_of;
use cmh_controller3::Controller;
use cmh_segment3::{Base, Pair, Rows, Segment, Stamped, StampedPair};
use cmh_wire3::Epoch;
use std::alloc::{AllocError, Global};

/// Whether the site of each controller can turn to this epoch, and its next base says the state in which it stands.
pub fn are_said(
    alloc: Global,
    controllers: &[Controller],
    epoch: Epoch,
    next: &[Segment],
) -> Result<bool, AllocError>
    ensures said { IfOk result (λ yes. IsTrue yes ↔ All (IsSaid epoch next.now) controllers.now) }
    ensures turn { IfOk result (λ yes. IsTrue yes → All CanTurn controllers.now) }
    ensures fits { OnOk result (epoch * 2 ^ 32 < clock_limit) }
{
    let first = first_stamp(epoch);
    for controller in controllers {
        if controller.clock().get() >= first || !is_said(alloc, controller, next)? {
            return Ok(false);
        }
    }
    Ok(true)
}

/// The clock with which an epoch begins.
fn first_stamp(epoch: Epoch) -> u64
    ensures { result ≡ epoch * 2 ^ 32 }
{
    u64::from(epoch.get()) * 0x1_0000_0000
}

/// Whether the next base of a controller's site says the state in which it stands.
fn is_said(alloc: Global, controller: &Controller, next: &[Segment]) -> Result<bool, AllocError>
    ensures said { IfOk result (λ yes. IsTrue yes
        ↔ SaysState next.now controller.now.site (state_of controller.now)) }
    ensures turn { IfOk result (λ yes. IsTrue yes → CanTurn controller.now) }
{
    for segment in next {
        if segment.header.site == controller.site() {
            return is_base_for(alloc, controller, &segment.base);
        }
    }
    Ok(false)
}

/// Whether a base says the state in which a controller stands. It is held against the controller's own, which names the
/// stops that the base names.
fn is_base_for(alloc: Global, controller: &Controller, base: &Base) -> Result<bool, AllocError>
    ensures is { IfOk result (λ yes. IsTrue yes ↔ IsBaseFor (state_of controller.now) base.now) }
    ensures turn { IfOk result (λ yes. IsTrue yes → CanTurn controller.now) }
{
    let no_links = Rows::new(Vec::new(alloc));
    let own = base_of(alloc, controller, base.declared.as_slice(), no_links)?;
    Ok(are_same_rows(&own, base))
}

/// Whether two bases say the same of processes.
fn are_same_rows(one: &Base, other: &Base) -> bool
    ensures { IsTrue result ↔ AreSameRows one.now other.now }
{
    are_same_stamped_pairs(one.waits.as_slice(), other.waits.as_slice())
        && are_same_pairs(one.leaving.as_slice(), other.leaving.as_slice())
        && are_same_pairs(one.owed.as_slice(), other.owed.as_slice())
        && are_same_stamped_pairs(one.dependents.as_slice(), other.dependents.as_slice())
        && are_same_stamped(one.declared.as_slice(), other.declared.as_slice())
        && are_same_stamped(one.stamps.as_slice(), other.stamps.as_slice())
}

fn are_same_pairs(one: &[Pair], other: &[Pair]) -> bool
    ensures { IsTrue result ↔ (one.now ≡ other.now) }
{
    one == other
}

fn are_same_stamped_pairs(one: &[StampedPair], other: &[StampedPair]) -> bool
    ensures { IsTrue result ↔ (one.now ≡ other.now) }
{
    one == other
}

fn are_same_stamped(one: &[Stamped], other: &[Stamped]) -> bool
    ensures { IsTrue result ↔ (one.now ≡ other.now) }
{
    one == other
}
