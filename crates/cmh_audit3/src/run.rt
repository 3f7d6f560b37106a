//! A run from which segments come.

ghost use Rattle.std.specs.Prelude.{IfOk};
ghost use Rattle.cmh_model3.specs.Runs.{IsRun};
ghost use Rattle.cmh_topology3.specs.Topology as topology;
ghost use Rattle.cmh_topology3.specs.Topology.{site_of};
ghost use Rattle.cmh_audit3.specs.Journals.{AreJournalsOf, journal_of};
ghost use Rattle.cmh_audit3.specs.Verdicts.{IsOrderOf};

use crate::order::Order;
use crate::queues::Queues;
use cmh_model3::{Event, Message, WorldEvent};
use cmh_segment3::Segment;
use std::alloc::{AllocError, Global};

/// The entries of the segments in the order that their audit answered, as a run of the world: over it a report can be made.
/// The only error is out of memory.
///
/// In another order than that it has what each site has next, as long as it has any.
pub fn run_of(
    alloc: Global,
    order: &Order,
    segments: Vec<Segment>,
) -> Result<Vec<WorldEvent<Event, Message>>, AllocError>
    ensures run { IfOk result (λ run. (t : topology.Topology) → IsOrderOf t segments.items order.now
        → IsRun (site_of t) run.items) }
    ensures journals { IfOk result (λ run. (t : topology.Topology) → IsOrderOf t segments.items order.now
        → AreJournalsOf run.items (journal_of segments.items)) }
{
    let mut queues = Queues::of(alloc, segments)?;
    let mut run = Vec::new(alloc);
    let sites = order.as_slice();
    for site in sites {
        if let Some(entry) = queues.take(*site) {
            run.push(WorldEvent {
                site: *site,
                entry: entry.into_step(),
            })?;
        }
    }
    Ok(run)
}
