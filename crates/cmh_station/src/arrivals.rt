//! Frames of a link, as events.

ghost use Rattle.std.specs.Prelude.{◌≡◌, length, map, IfOk};
ghost use Rattle.cmh_station.specs.Arrivals.{got_from, refusal_of_last};

use crate::refusal::StationRefusal;
use cmh_frames::{Event, Frame, Outcome, SiteId};
use std::alloc::{AllocError, Global};

/// The arrivals of frames from a site.
pub(crate) fn arrivals(
    alloc: Global,
    from: SiteId,
    frames: &[Frame],
) -> Result<Vec<Event>, AllocError>
    ensures are { IfOk result (λ events. events.items ≡ map (got_from from) frames.now) }
    ensures count { IfOk result (λ events. length events.items ≡ length frames.now) }
{
    let mut events = Vec::with_capacity(alloc, frames.len())?;
    for frame in frames {
        events.push(Event::Got {
            from,
            frame: *frame,
        })?;
    }
    Ok(events)
}

/// The refusal with which answers end, if they do.
pub(crate) fn refusal_at_end(answers: &[Result<Outcome, StationRefusal>]) -> Option<StationRefusal>
    ensures { result ≡ refusal_of_last answers.now }
{
    match answers.last() {
        Some(Err(refusal)) => Some(*refusal),
        Some(Ok(_)) | None => None,
    }
}
