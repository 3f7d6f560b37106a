//! What segments come to each by itself.

ghost use Rattle.std.specs.Prelude.{◌≡◌, ℕ, length, IfOk, map};
ghost use Rattle.cmh_merge.specs.Walks as walks;
ghost use Rattle.cmh_model3.specs.State.{State};
ghost use Rattle.cmh_topology3.specs.Topology as topologies;
ghost use Rattle.cmh_segment3.specs.Entries.{step_of};
ghost use Rattle.cmh_audit3.specs.Inner.Survey.{IsSurvey, steps_within};
ghost use Rattle.cmh_audit3.specs.Set.{sites_in};
ghost use Rattle.cmh_audit3.specs.Standing.{StandIn};

use crate::lawful::lawful_length;
use crate::walk::SegmentWalk;
use cmh_controller3::Controller;
use cmh_merge::SiteWalk;
use cmh_segment3::Segment;
use std::alloc::{AllocError, Global};

/// What segments come to each by itself.
#[derive(Drop)]
pub struct Survey<'a> {
    /// How many entries of each are lawful.
    pub limits: Vec<usize>,
    /// A walk through these, of each.
    pub walks: Vec<SiteWalk<SegmentWalk<'a>>>,
    /// The controller of each. It stands after all entries where they are lawful.
    pub controllers: Vec<Controller>,
}

/// Steps the controller of each segment's site through its entries.
pub fn survey_of<'a>(
    alloc: Global,
    segments: &'a [Segment],
    controllers: Vec<Controller>,
) -> Result<Survey<'a>, AllocError>
    requires { length controllers.items ≡ length segments.now }
    ensures as_many { IfOk result (λ survey. length survey.limits.items ≡ length segments.now) }
    ensures sites { IfOk result (λ survey. walks.sites_of survey.walks.items ≡ sites_in segments.now) }
    ensures walks { IfOk result (λ survey. walks.lefts_of (λ w. map step_of w) survey.walks.items
        ≡ steps_within segments.now survey.limits.items) }
    ensures lawful { IfOk result (λ survey. (t : topologies.Topology) (states : ℕ → State)
        → StandIn t states segments.now controllers.items
        → IsSurvey t states segments.now survey.limits.items survey.controllers.items) }
{
    let mut controllers = controllers;
    let mut limits = Vec::new(alloc);
    let mut walks = Vec::new(alloc);
    for (place, segment) in segments.iter().enumerate() {
        let entries = segment.entries.as_slice();
        let length = lawful_length(&mut controllers[place], entries)?;
        let (front, _) = entries.split_at(length);
        limits.push(length)?;
        walks.push(SiteWalk {
            site: segment.header.site,
            walk: SegmentWalk::new(front),
        })?;
    }
    Ok(Survey {
        limits,
        walks,
        controllers,
    })
}
