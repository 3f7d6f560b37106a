//! Whether the bases of the next segments say the end of an epoch.

ghost use Rattle.std.specs.Prelude.{◌↔◌, IfOk, IsTrue};
ghost use Rattle.cmh_audit3.specs.Set.{AreOfWorld};
ghost use Rattle.cmh_merge.specs.Queues.{waiting};
ghost use Rattle.cmh_history3.specs.EpochSet.{AreOfEpoch};
ghost use Rattle.cmh_topology3.specs.Topology.{sites_of};
ghost use Rattle.cmh_history3.specs.Follows.{FollowAll};
ghost use Rattle.cmh_history3.specs.Says.{SayEnd};

use crate::queues::are_under_way;
use crate::states::are_said;
use cmh_audit3::AuditMemory;
use cmh_controller3::Controller;
use cmh_merge::Queues;
use cmh_model3::Message;
use cmh_segment3::Segment;
use cmh_topology3::Topology;
use cmh_wire3::Epoch;
use std::alloc::Global;

/// Whether the bases of the next segments, which are all of this epoch, say where the controllers stand and what is under way
/// there, as `audit_epoch` answered it of the epoch before. The only error is out of memory.
///
/// A base says a state by just the rows that `base_of` makes of it. So no base is refused that a site made of its controller.
pub fn follows(
    alloc: Global,
    topology: &Topology,
    controllers: &[Controller],
    under_way: Queues<Message>,
    epoch: Epoch,
    next: &[Segment],
) -> Result<bool, AuditMemory>
    requires set { AreOfWorld topology.now next.now }
    requires epoch { AreOfEpoch epoch next.now }
    ensures says { IfOk result (λ yes. IsTrue yes
        ↔ SayEnd (sites_of topology.now) controllers.now (waiting under_way) epoch next.now) }

    // Then turns lead from the end of the epoch before to the world of the next bases.
    ensures follow { IfOk result (λ yes. IsTrue yes
        → FollowAll topology.now controllers.now under_way epoch next.now) }
{
    let mut queues = under_way;
    if !are_said(alloc, controllers, epoch, next)? {
        return Ok(false);
    }
    Ok(are_under_way(&mut queues, topology.sites(), next))
}
