//! What an audit of some epochs writes where it refuses one.

ghost use Rattle.std.specs.List.{All};
ghost use Rattle.cmh_history3.specs.Chains.{IsReadEpoch};
ghost use Rattle.cmh_segment3.specs.Base.{IsBase};

use crate::auditing::{least_epoch, refused_text};
use crate::bases::write_sites;
use crate::lines::stop_lines;
use cmh_audit3::Stop;
use cmh_bases3::controller_of;
use cmh_controller3::Refusal;
use cmh_files3::AuditFault;
use cmh_history3::{EpochVerdict, Link, messages_between, verdict_on};
use cmh_merge::Queues;
use cmh_model3::{Message, SiteId};
use cmh_segment3::{Rows, Segment};
use cmh_topology3::Topology;
use cmh_wire3::Epoch;
use std::alloc::{AllocError, Global};
use std::fmt::Write;

/// The lines of the epoch at this place, which is no epoch from its bases: the stops of sites in it, or the link on which its
/// bases do not agree, or the bases that are of no state of the rules.
pub fn refused_part(
    alloc: Global,
    world: &Topology,
    epochs: &[Rows<Segment>],
    place: usize,
) -> Result<String, AuditFault>
    requires { All (IsReadEpoch world.now) epochs.now }
{
    let Some(segments) = epochs.get(place) else {
        return Ok(String::new(alloc));
    };
    let segments = segments.as_slice();
    let epoch = epoch_of(segments);
    match verdict_on(alloc, world, segments)? {
        Some(EpochVerdict::Refused(stops)) => { stopped_lines(alloc, segments, stops.as_slice()) }
        Some(EpochVerdict::Disagreed(Link { from, to })) => {
            let mut text = String::new(alloc);
            write!(text, "link {from} {to}\n")?;
            Ok(refused_text(alloc, epoch, text.as_str())?)
        }
        Some(EpochVerdict::Accepted { .. }) => Ok(refused_text(alloc, epoch, "")?),
        None => {
            let lines = lines_of_bases(alloc, world, segments)?;
            Ok(refused_text(alloc, epoch, lines.as_str())?)
        }
    }
}

/// The lines of stops, behind the epoch of the first one.
fn stopped_lines(
    alloc: Global,
    segments: &[Segment],
    stops: &[Stop],
) -> Result<String, AuditFault> {
    let epoch = least_epoch(segments, stops);
    let lines = stop_lines(alloc, segments, stops, epoch)?;
    Ok(refused_text(alloc, epoch, lines.as_str())?)
}

/// A line for each site whose base is of no state of the rules.
fn lines_of_bases(
    alloc: Global,
    world: &Topology,
    segments: &[Segment],
) -> Result<String, AuditFault>
    requires { All (λ g. IsBase g.base) segments.now }
{
    let mut text = String::new(alloc);
    for segment in segments {
        let header = &segment.header;
        let site = header.site;
        match controller_of(alloc, world, site, header.epoch, &segment.base) {
            Ok(_) => {}
            Err(Refusal::Memory) => return Err(AuditFault::Memory),
            Err(_) => write!(text, "base {site}\n")?,
        }
    }
    Ok(text)
}

/// The lines of the epoch at this place, whose bases do not say the end of the one before it: a line for each site whose base
/// does not, and for each link.
pub fn apart_lines(
    alloc: Global,
    world: &Topology,
    epochs: &[Rows<Segment>],
    place: usize,
) -> Result<String, AuditFault>
    requires { All (IsReadEpoch world.now) epochs.now }
{
    let Some((before, next)) = epochs.split_at_checked(place) else {
        return Ok(String::new(alloc));
    };
    let (Some(before), Some(next)) = (before.last(), next.first()) else {
        return Ok(String::new(alloc));
    };
    let next = next.as_slice();
    let mut text = String::new(alloc);
    if let Some(
        EpochVerdict::Accepted {
            controllers,
            under_way,
            ..
        },
    ) = verdict_on(alloc, world, before.as_slice())?
    {
        write_sites(alloc, &mut text, &controllers, next)?;
        write_queues(&mut text, world.sites(), under_way, next)?;
    }
    Ok(refused_text(alloc, epoch_of(next), text.as_str())?)
}

/// A line for each link of which the bases do not say what is under way there.
fn write_queues(
    text: &mut String,
    sites: &[SiteId],
    under_way: Queues<Message>,
    next: &[Segment],
) -> Result<(), AllocError> {
    let mut queues = under_way;
    for from in sites {
        for to in sites {
            if !has_just(&mut queues, *from, *to, messages_between(next, *from, *to)) {
                write!(text, "link {from} {to}\n")?;
            }
        }
    }
    Ok(())
}

/// Whether just these messages are under way on a link. Takes them out.
fn has_just(queues: &mut Queues<Message>, from: SiteId, to: SiteId, messages: &[Message]) -> bool {
    if queues.len(from, to) != messages.len() {
        return false;
    }
    for message in messages {
        if queues.receive(from, to) != Some(*message) {
            return false;
        }
    }
    true
}

/// The epoch of segments; 0 where there are none.
pub fn epoch_of(segments: &[Segment]) -> Epoch {
    match segments.first() {
        Some(segment) => segment.header.epoch,
        None => Epoch::new(0),
    }
}
