//! The auditor's verdict on one epoch.

ghost use Rattle.std.specs.Prelude.{◌↔◌, IfOk};
ghost use Rattle.cmh_history3.specs.Between.{AreAgreed};
ghost use Rattle.cmh_history3.specs.EpochSet.{IsEpochSet};
ghost use Rattle.cmh_history3.specs.Verdicts.{Ends, IsAccepted, Refuses};
ghost use Rattle.cmh_history3.specs.Worlds.{ComeFromRun, StandAtBases};
ghost use Rattle.cmh_topology3.specs.Topology.{sites_of};

use crate::between::{Link, disagreement};
use crate::under_way::queues_of;
use cmh_audit3::{AuditMemory, Judged, Order, Stops, judge};
use cmh_controller3::Controller;
use cmh_merge::Queues;
use cmh_model3::Message;
use cmh_segment3::Segment;
use cmh_topology3::Topology;
use std::alloc::Global;

/// Whether the segments of an epoch come from a run from their bases.
#[derive(Drop)]
pub enum EpochVerdict {
    /// They do.
    Accepted {
        /// The order of such a run.
        order: Order,
        /// The controller of each segment's site, in the order of the segments, after all its entries.
        controllers: Vec<Controller>,
        /// The messages that are under way after all entries.
        under_way: Queues<Message>,
    },
    /// They don't: the bases do not agree on a link.
    Disagreed(Link),
    /// They don't: the bases agree, and sites stop.
    Refused(Stops),
}

/// Merges the segments of all sites in one epoch, in whatever order they are given, into one run from their bases, or says
/// where they stop. The controllers stand where the bases say, in the order of the segments.
///
/// The only error is out of memory, after which nothing is said of the segments. Which order is answered is determined by the
/// order in which the segments are given.
pub fn audit_epoch(
    alloc: Global,
    topology: &Topology,
    segments: &[Segment],
    controllers: Vec<Controller>,
) -> Result<EpochVerdict, AuditMemory>
    requires set { IsEpochSet topology.now segments.now }
    requires stand { StandAtBases topology.now segments.now controllers.items }

    // Accepted exactly where the bases agree on all links, and the entries come from a run from them.
    ensures accepted { IfOk result (λ v. IsAccepted v
        ↔ (AreAgreed (sites_of topology.now) segments.now × ComeFromRun topology.now segments.now)) }

    // The order is that of such a run, and the controllers and what is under way are those of the world to which it leads.
    ensures ends { IfOk result (Ends topology.now segments.now) }

    // A link on which the bases do not agree, or the furthest that any run of these segments' beginnings gets.
    ensures refused { IfOk result (Refuses topology.now segments.now) }
{
    let sites = topology.sites();
    if let Some(link) = disagreement(sites, segments) {
        return Ok(EpochVerdict::Disagreed(link));
    }
    let queues = queues_of(alloc, sites, segments)?;
    let Judged {
        order,
        controllers,
        queues,
        stops,
    } = judge(alloc, topology, segments, controllers, queues)?;
    if stops.as_slice().is_empty() {
        Ok(EpochVerdict::Accepted {
            order,
            controllers,
            under_way: queues,
        })
    } else {
        Ok(EpochVerdict::Refused(stops))
    }
}
