//! The verdict on one epoch from its bases as they were read.

ghost use Rattle.std.specs.Prelude.{IfNone, IfOk, IfSome};
ghost use Rattle.cmh_history3.specs.Chains.{IsReadEpoch};
ghost use Rattle.cmh_history3.specs.Findings.{CanBegin};
ghost use Rattle.cmh_history3.specs.Verdicts.{Ends, Refuses};

use crate::chain::controllers_of;
use crate::epoch_verdict::{EpochVerdict, audit_epoch};
use cmh_audit3::AuditMemory;
use cmh_segment3::Segment;
use cmh_topology3::Topology;
use std::alloc::Global;

/// The verdict on the epoch of these segments; none where one of their bases is of no state of the rules. The only error is
/// out of memory.
pub fn verdict_on(
    alloc: Global,
    topology: &Topology,
    segments: &[Segment],
) -> Result<Option<EpochVerdict>, AuditMemory>
    requires { IsReadEpoch topology.now segments.now }
    ensures ends { IfOk result (λ found. IfSome found (Ends topology.now segments.now)) }
    ensures refused { IfOk result (λ found. IfSome found (Refuses topology.now segments.now)) }
    ensures none { IfOk result (λ found. IfNone found (¬ CanBegin topology.now segments.now)) }
{
    match controllers_of(alloc, topology, segments)? {
        Some(controllers) => Ok(Some(audit_epoch(alloc, topology, segments, controllers)?)),
        None => Ok(None),
    }
}
