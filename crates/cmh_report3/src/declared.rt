//! What controllers tell: who is declared, and who is leaving whom.

ghost use Rattle.std.specs.Prelude.{◌≡◌, ◌||◌, ℕ, OnOk, IfOk};
ghost use Rattle.std.specs.List.{AllByRecursion, list_any};
ghost use Rattle.cmh_controller3.specs.Controller as spec;
ghost use Rattle.cmh_controller3.specs.Controller.{state_of};
ghost use Rattle.cmh_model3.specs.Lists.{in_list};
ghost use Rattle.cmh_report3.specs.Inner.Own.{LeavesOwn};
ghost use Rattle.cmh_report3.specs.Inner.Pairs.{has_pair};

use crate::pairs::PairSet;
use crate::waits::add_all;
use cmh_controller3::Controller;
use cmh_model3::ProcId;
use cmh_waits::ProcList;
use std::alloc::{AllocError, Global};

/// The processes that some of these controllers have declared, ascending.
pub fn declared_by(alloc: Global, controllers: &[Controller]) -> Result<ProcList, AllocError>
    ensures { IfOk result (λ declared. (p : ℕ) → in_list declared p
        ≡ list_any (λ (c : spec.Controller). (state_of c).declared p) controllers.now) }
{
    let mut declared = ProcList::empty(alloc);
    for controller in controllers {
        insert_all(&mut declared, &controller.declared(alloc)?)?;
    }
    Ok(declared)
}

fn insert_all(list: &mut ProcList, processes: &[ProcId]) -> Result<(), AllocError>
    ensures { OnOk result ((p : ℕ) → in_list list.new p ≡ (in_list processes.now p || in_list list.old p)) }
{
    for process in processes {
        list.insert(*process)?;
    }
    Ok(())
}

/// Who is leaving whom by some of these controllers.
pub fn leaving_by(alloc: Global, controllers: &[Controller]) -> Result<PairSet, AllocError>
    requires { AllByRecursion LeavesOwn controllers.now }
    ensures { IfOk result (λ leaving. (j k : ℕ) → has_pair leaving j k
        ≡ list_any (λ (c : spec.Controller). (state_of c).leaving j k) controllers.now) }
{
    let mut leaving = PairSet::new(alloc);
    for controller in controllers {
        add_leaving(alloc, &mut leaving, controller)?;
    }
    Ok(leaving)
}

/// Adds whom the processes of a site are leaving.
fn add_leaving(
    alloc: Global,
    leaving: &mut PairSet,
    controller: &Controller,
) -> Result<(), AllocError>
    requires { LeavesOwn controller.now }
    ensures { OnOk result ((j k : ℕ) → has_pair leaving.new j k
        ≡ ((state_of controller.now).leaving j k || has_pair leaving.old j k)) }
{
    for member in controller.topology().members(controller.site()) {
        let holders = controller.leaving_of(alloc, *member)?;
        add_all(leaving, *member, &holders)?;
    }
    Ok(())
}
