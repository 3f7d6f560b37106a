//! The reason for which a site stops, where segments come from no run.

ghost use Rattle.std.specs.Prelude.{◌≡◌, Contains, IfOk, length, map, slice_get};
ghost use Rattle.cmh_model3.specs.Journals.{receipts_of, sendings_of};
ghost use Rattle.cmh_segment3.specs.Entries.{step_of};
ghost use Rattle.cmh_audit3.specs.Stops.{AreStops};
ghost use Rattle.cmh_files3.specs.Inner.Parts.{awaits};
ghost use Rattle.cmh_files3.specs.Reasons.{IsReasonOf};

use crate::entries::{before_stop, count_received, entries_at, messages_sent};
use crate::own::fault_at;
use crate::reason::Reason;
use cmh_audit3::{Segment, Stop};
use cmh_model3::{Event, Message, SiteId, growing_law};
use cmh_segment3::Entry;
use cmh_topology3::Topology;
use std::alloc::{AllocError, Global};

/// The reason for one of the stops of an audit that refused the segments. The only error is out of memory.
pub fn reason_of(
    alloc: Global,
    topology: &Topology,
    segments: &[Segment],
    stops: &[Stop],
    stop: Stop,
) -> Result<Reason, AllocError>
    requires stops { AreStops topology.now segments.now stops.now }
    requires one { Contains stops.now stop }
    ensures { IfOk result (IsReasonOf topology.now segments.now stops.now stop) }
{
    growing_law();
    let site = stop.site;
    let entry = &entries_at(segments, site)[stop.entry - 1];
    let before = before_stop(segments, stops, site);
    if let Some(fault) = fault_at(alloc, topology, site, before, entry)? {
        return Ok(fault);
    }
    let Event::Got { from, .. } = &entry.event else {
        unreachable!()
    };
    let sender = before_stop(segments, stops, *from);
    let next = next_message(alloc, sender, before, *from, site)?;
    Ok(awaited(*from, next))
}

/// The next message of the link from a site to another, given the entries of both.
fn next_message(
    alloc: Global,
    sender: &[Entry],
    receiver: &[Entry],
    from: SiteId,
    to: SiteId,
) -> Result<Option<Message>, AllocError>
    ensures { IfOk result (λ next. next
        ≡ slice_get (sendings_of to (map step_of sender.now)) (length (receipts_of from (map step_of receiver.now)))) }
{
    let sent = messages_sent(alloc, sender, to)?;
    Ok(sent.get(count_received(receiver, from)).copied())
}

/// A site waits for the next message of a link.
const fn awaited(from: SiteId, next: Option<Message>) -> Reason
    ensures { result ≡ awaits from next }
{
    match next {
        Some(next) => Reason::NotNext { from, next },
        None => Reason::NothingUnderWay { from },
    }
}
