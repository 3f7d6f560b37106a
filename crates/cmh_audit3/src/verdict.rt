//! The auditor's verdict.

ghost use Rattle.std.specs.Prelude.{◌↔◌, IfErr, IfOk};
ghost use Rattle.cmh_model3.specs.State.{empty_state};
ghost use Rattle.cmh_audit3.specs.Journals.{ComeFromRun, journal_of};
ghost use Rattle.cmh_audit3.specs.Set.{IsSet};
ghost use Rattle.cmh_audit3.specs.Standing.{StandIn};
ghost use Rattle.cmh_audit3.specs.Stops.{AreStops};
ghost use Rattle.cmh_audit3.specs.Verdicts.{ControllersStand, IsAccepted, IsOrderOf, as_result};

use crate::judgement::{Judged, judge};
use crate::order::Order;
use crate::stops::Stops;
use cmh_controller3::Controller;
use cmh_merge::Queues;
use cmh_segment3::Segment;
use cmh_topology3::Topology;
use std::alloc::{AllocError, Global};
use thiserror::Error;

/// Memory was refused, so there is no verdict.
#[derive(Clone, Copy, Debug, PartialEq, Eq, Error)]
#[error("there is not enough memory for the audit")]
pub struct AuditMemory;

impl From<AllocError> for AuditMemory {
    fn from(_: AllocError) -> Self {
        AuditMemory
    }
}

/// Whether the segments of all sites come from one run.
#[derive(Drop)]
pub enum Verdict {
    /// They do.
    Accepted {
        /// The order of such a run.
        order: Order,
        /// The controller of each segment's site, in the order of the segments, after all its entries.
        controllers: Vec<Controller>,
    },
    /// They don't.
    Refused(Stops),
}

/// Merges the segments of all sites, in whatever order they are given, into one run, or says where they stop.
///
/// The segments are those of one world, as `check_set` tests. The only error is out of memory, after which nothing is said
/// of the segments. They may come from further runs; which order is answered is determined by the order in which they are
/// given.
pub fn audit(
    alloc: Global,
    topology: &Topology,
    segments: &[Segment],
) -> Result<Verdict, AuditMemory>
    requires { IsSet topology.now segments.now }

    // Accepted exactly where the segments come from a run.
    ensures accepted { IfOk result (λ v. IsAccepted v ↔ ComeFromRun topology.now (journal_of segments.now)) }

    // The order is that of such a run.
    ensures order { IfOk result (λ v. IfOk (as_result v) (IsOrderOf topology.now segments.now)) }

    // The controllers stand where the entries of the segments lead.
    ensures controllers { IfOk result (ControllersStand topology.now segments.now) }

    // The stops are the furthest that any run of these segments' beginnings gets.
    ensures stops { IfOk result (λ v. IfErr (as_result v) (AreStops topology.now segments.now)) }
{
    let controllers = new_controllers(alloc, topology, segments)?;
    let Judged {
        order,
        controllers,
        stops,
        ..
    } = judge(alloc, topology, segments, controllers, Queues::new(alloc))?;
    if stops.as_slice().is_empty() {
        Ok(Verdict::Accepted { order, controllers })
    } else {
        Ok(Verdict::Refused(stops))
    }
}

/// The controllers of the segments' sites before their first step.
fn new_controllers(
    alloc: Global,
    topology: &Topology,
    segments: &[Segment],
) -> Result<Vec<Controller>, AllocError>
    ensures { IfOk result (λ controllers. StandIn topology.now (λ s. empty_state) segments.now controllers.items) }
{
    let mut controllers = Vec::new(alloc);
    for segment in segments {
        controllers.push(Controller::empty(alloc, topology, segment.header.site)?)?;
    }
    Ok(controllers)
}
