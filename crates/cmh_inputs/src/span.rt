//! The furthest run between two readings.

ghost use Rattle.std.specs.Prelude.{◌≡◌, List, length, IfOk, MatchOption};
ghost use Rattle.cmh_audit3.specs.Set.{IsSet};
ghost use Rattle.cmh_model3.specs.Entries.{WorldEvent};
ghost use Rattle.cmh_inputs.specs.BetweenReads.{LiesBetween};
ghost use Rattle.cmh_inputs.specs.Inner.Taken.{AreTaken, LacksSome, TakesFurthest, before_stops};

use crate::between_reads::Readings;
use cmh_audit3::{Stop, Verdict, audit};
use cmh_segment3::Segment;
use cmh_topology3::Topology;
use std::alloc::{AllocError, Global};

/// How many entries of each segment are in the furthest run of beginnings of the segments; `None` where it has fewer of
/// one than were read first. The only error is out of memory.
pub fn taken_between(
    alloc: Global,
    topology: &Topology,
    read: &Readings,
) -> Result<Option<Vec<usize>>, AllocError>
    requires set { IsSet topology.now read.now.segments.items }
    requires counts { length read.now.before.items ≡ length read.now.segments.items }
    ensures { IfOk result (λ found. MatchOption found
        ((events : List WorldEvent)
        → LiesBetween topology.now read.now.before.items read.now.segments.items events → ⊥)
        (λ taken. TakesFurthest topology.now read.now.before.items read.now.segments.items taken.items)) }
{
    let Ok(verdict) = audit(alloc, topology, &read.segments) else {
        return Err(AllocError);
    };
    match &verdict {
        Verdict::Accepted { .. } => taken_before(alloc, read, &[]),
        Verdict::Refused(stops) => taken_before(alloc, read, stops.as_slice()),
    }
}

/// How many entries of each segment stand before its stop; `None` where these are fewer of one than were read first.
fn taken_before(
    alloc: Global,
    read: &Readings,
    stops: &[Stop],
) -> Result<Option<Vec<usize>>, AllocError>
    requires { length read.now.before.items ≡ length read.now.segments.items }
    ensures { IfOk result (λ found. MatchOption found
        (LacksSome stops.now read.now.before.items read.now.segments.items)
        (λ taken. AreTaken stops.now read.now.before.items read.now.segments.items taken.items)) }
{
    let mut taken = Vec::new(alloc);
    for (i, segment) in read.segments.iter().enumerate() {
        let count = entries_before(stops, segment);
        if count < read.before[i] {
            return Ok(None);
        }
        taken.push(count)?;
    }
    Ok(Some(taken))
}

/// How many entries of a segment stand before the stop of its site; all where it has none.
fn entries_before(stops: &[Stop], segment: &Segment) -> usize
    ensures { result ≡ before_stops stops.now segment.now }
{
    let all = segment.entries.as_slice().len();
    for stop in stops {
        if stop.site == segment.header.site {
            return usize::min(stop.entry.saturating_sub(1), all);
        }
    }
    all
}
