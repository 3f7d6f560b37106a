//! Starts of probe computations at a controller, and its declarations.

ghost use Rattle.std.specs.Prelude.{◌≡◌, false, IfOk, OnOk, OnErr, None, Some, if◌then◌else◌};
ghost use Rattle.std.specs.FinSet as set;
ghost use Rattle.cmh_frames.specs.Relation.{has, with_pair};
ghost use Rattle.cmh_frames.specs.Rules.{declared_after};
ghost use Rattle.cmh_waits.specs.Held.{IsMember};
ghost use Rattle.cmh_controller.specs.Controller.{IsOfSite};
ghost use Rattle.cmh_controller.specs.Beginnings.{Begins};
ghost use Rattle.cmh_controller.specs.Steps.{undeclared};

use crate::proc_set::ProcSet;
use crate::sending::send_each;
use cmh_dependents::DependentSets;
use cmh_frames::{Frame, ProcId, SiteId, Topology};
use cmh_rules::{StartVerdict, start};
use cmh_waits::LocalWaits;
use std::alloc::{AllocError, Global};

/// The waits that a site holds, in the topology of its world.
#[derive(Clone, Copy)]
pub struct SiteWaits<'a> {
    pub topology: &'a Topology,
    pub site: SiteId,
    pub waits: &'a LocalWaits,
}

/// Starts a probe computation: adds its probes to those that go out, or declares the process. It answers the process
/// where that was not declared before. On an error nothing is declared.
#[inline(always)]
pub fn begin(
    alloc: Global,
    here: &SiteWaits<'_>,
    declared: &mut ProcSet,
    process: ProcId,
    sent: &mut Vec<(SiteId, Frame)>,
) -> Result<Option<ProcId>, AllocError>
    requires of_site { IsOfSite here.now.topology.now here.now.site here.now.waits.now }
    requires member { IsMember here.now.waits.now process }
    ensures begins { IfOk result (λ found.
        Begins here.now.topology.now here.now.site here.now.waits.now.waits declared.old process
        sent.old.items sent.new.items found) }
    ensures declared { IfOk result (λ found. declared.new ≡ declared_after declared.old found) }
    ensures back { IfOk result (λ found. undeclared (declared_after declared.old found) found ≡ declared.old) }
    ensures err { OnErr result (declared.new ≡ declared.old) }
{
    match start(alloc, here.waits, process)? {
        StartVerdict::Declared => declare(declared, process),
        StartVerdict::Send(frames) => {
            send_each(here.topology, &frames, sent)?;
            Ok(None)
        }
    }
}

/// Declares a process. It answers the process where that was not declared before.
pub fn declare(declared: &mut ProcSet, process: ProcId) -> Result<Option<ProcId>, AllocError>
    ensures new { IfOk result (λ found. found ≡ if set.contains declared.old process then None else Some process) }
    ensures declared { IfOk result (λ found. declared.new ≡ declared_after declared.old found) }
    ensures back { IfOk result (λ found. undeclared (declared_after declared.old found) found ≡ declared.old) }
    ensures err { OnErr result (declared.new ≡ declared.old) }
{
    if declared.contains(process) {
        return Ok(None);
    }
    declared.insert(process)?;
    Ok(Some(process))
}

/// Takes the receipt of a probe by which its origin is deadlocked: declares the origin, which is known from now on to
/// depend on the receiver. It answers the origin where that was not declared before. On an error nothing changes.
pub fn declare_origin(
    dependents: &mut DependentSets,
    declared: &mut ProcSet,
    receiver: ProcId,
    origin: ProcId,
) -> Result<Option<ProcId>, AllocError>
    requires { has dependents.old receiver origin ≡ false }
    ensures new { IfOk result (λ found. found ≡ if set.contains declared.old origin then None else Some origin) }
    ensures declared { IfOk result (λ found. declared.new ≡ declared_after declared.old found) }
    ensures back { IfOk result (λ found. undeclared (declared_after declared.old found) found ≡ declared.old) }
    ensures dependents { OnOk result (dependents.new ≡ with_pair dependents.old receiver origin) }
    ensures none_declared { OnErr result (declared.new ≡ declared.old) }
    ensures none_added { OnErr result (dependents.new ≡ dependents.old) }
{
    dependents.add(receiver, origin)?;
    match declare(declared, origin) {
        Ok(found) => Ok(found),
        Err(error) => {
            dependents.take_back(receiver, origin);
            Err(error)
        }
    }
}
