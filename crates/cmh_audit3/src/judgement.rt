//! The judgement of entries, from whatever states their sites begin in.

ghost use Rattle.std.specs.Prelude.{◌≡◌, ℕ, false, not, length, IfOk};
ghost use Rattle.std.specs.List.{list_any};
ghost use Rattle.cmh_frames.specs.Rows.{repeats};
ghost use Rattle.cmh_merge.specs.Queues.{waiting};
ghost use Rattle.cmh_model3.specs.State.{State};
ghost use Rattle.cmh_audit3.specs.Judged.{IsJudgement};
ghost use Rattle.cmh_audit3.specs.Set.{is_known, sites_in};
ghost use Rattle.cmh_audit3.specs.Standing.{StandIn};

use crate::order::Order;
use crate::stops::{Stops, stops_of};
use crate::survey::{Survey, survey_of};
use cmh_controller3::Controller;
use cmh_merge::{Queues, merge_from};
use cmh_model3::Message;
use cmh_segment3::Segment;
use cmh_topology3::Topology;
use std::alloc::{AllocError, Global};

/// What the entries of segments come to.
#[derive(Drop)]
pub struct Judged {
    /// The order of a run of the entries before the stops.
    pub order: Order,
    /// The controller of each segment's site, in the order of the segments. It stands after all entries where none stops.
    pub controllers: Vec<Controller>,
    /// What is under way after the run.
    pub queues: Queues<Message>,
    /// Where the sites stop; none where all entries are in the run.
    pub stops: Stops,
}

/// Merges the entries of segments into one run, as far as they come from any, where the controllers stand in the states
/// in which the sites begin, and these messages are under way at first. The only error is out of memory.
pub fn judge(
    alloc: Global,
    topology: &Topology,
    segments: &[Segment],
    controllers: Vec<Controller>,
    queues: Queues<Message>,
) -> Result<Judged, AllocError>
    requires known { list_any (λ g. not (is_known topology.now g)) segments.now ≡ false }
    requires once { repeats (sites_in segments.now) ≡ false }
    requires controllers { length controllers.items ≡ length segments.now }
    ensures { IfOk result (λ judged. (states : ℕ → State) → StandIn topology.now states segments.now controllers.items
        → IsJudgement topology.now states (waiting queues) segments.now judged) }
{
    let Survey {
        limits,
        walks,
        controllers,
    } = survey_of(alloc, segments, controllers)?;
    let merged = merge_from(alloc, queues, walks)?;
    let stops = stops_of(alloc, topology.sites(), segments, &limits, &merged.walks)?;
    Ok(Judged {
        order: Order::new(merged.order),
        controllers,
        queues: merged.queues,
        stops: Stops::new(stops),
    })
}
