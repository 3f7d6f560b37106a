//! The reason for which a site stops, where journals come from no run.

ghost use Rattle.std.specs.Prelude.{◌≡◌, Contains, IfOk, length, slice_get};
ghost use Rattle.cmh_frames.specs.Journals.{receipts_of, sendings_of};
ghost use Rattle.cmh_audit.specs.Stops.{AreStops};
ghost use Rattle.cmh_files.specs.Inner.Parts.{awaits};
ghost use Rattle.cmh_files.specs.Reasons.{IsReasonOf};

use crate::before::{before_stop, count_received, frames_sent};
use crate::own::fault_at;
use crate::reason::Reason;
use cmh_audit::entries_at;
use cmh_frames::{Entry, Event, Frame, SiteId, Topology};
use cmh_journal::Journal;
use cmh_world::growing_law;
use std::alloc::{AllocError, Global};

/// The reason for one of the stops of an audit that refused the journals. The only error is out of memory.
pub fn reason_of(
    alloc: Global,
    topology: &Topology,
    journals: &[Journal],
    stops: &[(SiteId, usize)],
    stop: (SiteId, usize),
) -> Result<Reason, AllocError>
    requires stops { AreStops topology.now journals.now stops.now }
    requires one { Contains stops.now stop }
    ensures { IfOk result (IsReasonOf topology.now journals.now stops.now stop) }
{
    growing_law(topology);
    let (site, number) = stop;
    let entry = &entries_at(journals, site)[number - 1];
    let before = before_stop(journals, stops, site);
    if let Some(fault) = fault_at(alloc, topology, site, before, entry)? {
        return Ok(fault);
    }
    let Event::Got { from, .. } = &entry.event else {
        unreachable!()
    };
    let sender = before_stop(journals, stops, *from);
    let next = next_frame(alloc, sender, before, *from, site)?;
    Ok(awaited(*from, next))
}

/// The next frame of the link from a site to another, given the entries of both.
fn next_frame(
    alloc: Global,
    sender: &[Entry],
    receiver: &[Entry],
    from: SiteId,
    to: SiteId,
) -> Result<Option<Frame>, AllocError>
    ensures { IfOk result (λ next. next
        ≡ slice_get (sendings_of to sender.now) (length (receipts_of from receiver.now))) }
{
    let sent = frames_sent(alloc, sender, to)?;
    Ok(sent.get(count_received(receiver, from)).copied())
}

/// A site waits for the next frame of a link.
const fn awaited(from: SiteId, next: Option<Frame>) -> Reason
    ensures { result ≡ awaits from next }
{
    match next {
        Some(next) => Reason::NotNext { from, next },
        None => Reason::NothingUnderWay { from },
    }
}
