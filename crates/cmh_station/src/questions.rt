//! Questions about the state of a controller.

ghost use Rattle.std.specs.Prelude.{◌≡◌, ◌↔◌, ℕ, Contains, true, IfOk, IfErr, OnOk};
ghost use Rattle.std.specs.List.Sorted.{IsStrictlyIncreasing};
ghost use Rattle.cmh_frames.specs.Relation.{has};
ghost use Rattle.cmh_frames.specs.Topology.{At};
ghost use Rattle.cmh_station.specs.Questions.{RefusesQuestion};

use crate::refusal::StationRefusal;
use cmh_controller::{Controller, Refusal};
use cmh_frames::ProcId;
use std::alloc::{AllocError, Global};

/// The processes that a process of the controller's site waits for, ascending.
pub(crate) fn waits_in(
    alloc: Global,
    controller: &Controller,
    process: ProcId,
) -> Result<Vec<ProcId>, StationRefusal>
    ensures ascending { IfOk result (λ holders. IsStrictlyIncreasing holders.items) }
    ensures all { IfOk result (λ holders. (k : ℕ) →
        Contains holders.items k ↔ (has controller.now.state.waits process k ≡ true)) }
    ensures here { OnOk result (At controller.now.topology process controller.now.site) }
    ensures refused { IfErr result (RefusesQuestion controller.now.topology controller.now.site process) }
{
    check_here(controller, process)?;
    match controller.waits_of(alloc, process) {
        Ok(holders) => Ok(holders),
        Err(AllocError) => Err(StationRefusal::Rule(Refusal::Memory)),
    }
}

/// The processes whose requests a process of the controller's site has not answered, ascending.
pub(crate) fn owed_in(
    alloc: Global,
    controller: &Controller,
    process: ProcId,
) -> Result<Vec<ProcId>, StationRefusal>
    ensures ascending { IfOk result (λ askers. IsStrictlyIncreasing askers.items) }
    ensures all { IfOk result (λ askers. (j : ℕ) →
        Contains askers.items j ↔ (has controller.now.state.owed process j ≡ true)) }
    ensures here { OnOk result (At controller.now.topology process controller.now.site) }
    ensures refused { IfErr result (RefusesQuestion controller.now.topology controller.now.site process) }
{
    check_here(controller, process)?;
    match controller.owed_by(alloc, process) {
        Ok(askers) => Ok(askers),
        Err(AllocError) => Err(StationRefusal::Rule(Refusal::Memory)),
    }
}

/// Whether a process is at home at the controller's site; the refusals are `UnknownProcess` and `NotHere`.
fn check_here(controller: &Controller, process: ProcId) -> Result<(), StationRefusal>
    ensures here { OnOk result (At controller.now.topology process controller.now.site) }
    ensures refused { IfErr result (RefusesQuestion controller.now.topology controller.now.site process) }
{
    match controller.topology().home(process) {
        None => Err(StationRefusal::Rule(Refusal::UnknownProcess)),
        Some(home) if home == controller.site() => Ok(()),
        Some(_) => Err(StationRefusal::Rule(Refusal::NotHere)),
    }
}
