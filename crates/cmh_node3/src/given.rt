//! What the entries of a journal send is given to the sender's ends.

ghost use Rattle.std.specs.Prelude.{◌≡◌, length, OnErr, OnOk};
ghost use Rattle.cmh_runs.specs.Journals.{frames_to, sendings_of};
ghost use Rattle.cmh_node3.specs.Peers.{AtEach, IsGiven, IsGivenPart, with_all, WasGiven, WasGivenPart};

use crate::peer::Peer;
use cmh_model3::{Entry, Event, Message, SiteId};
use cmh_resume3::{SenderEnd, Unqueued};

/// Gives each peer's sender's end what the entries sent to it: they are synced.
///
/// After an error each end was given a beginning of that, and no more is to be given.
pub fn queue_all(peers: &mut Vec<Peer>, entries: &[Entry<Event, Message>]) -> Result<(), Unqueued>
    ensures ok { OnOk result (AtEach (IsGiven entries.now) peers.old.items peers.new.items) }
    ensures part { OnErr result (AtEach (IsGivenPart entries.now) peers.old.items peers.new.items) }
{
    queue_each(peers, entries)
}

fn queue_each(peers: &mut [Peer], entries: &[Entry<Event, Message>]) -> Result<(), Unqueued>
    ensures ok { OnOk result (AtEach (IsGiven entries.now) peers.old peers.new) }
    ensures part { OnErr result (AtEach (IsGivenPart entries.now) peers.old peers.new) }
{
    for peer in peers.iter_mut() {
        queue_entries(&mut peer.out, peer.site, entries)?;
    }
    Ok(())
}

fn queue_entries(
    out: &mut SenderEnd,
    to: SiteId,
    entries: &[Entry<Event, Message>],
) -> Result<(), Unqueued>
    ensures ok { OnOk result (WasGiven (sendings_of to entries.now) out.old out.new) }
    ensures part { OnErr result (WasGivenPart (sendings_of to entries.now) out.old out.new) }
{
    for entry in entries {
        queue_sent(out, to, entry.sent.as_slice())?;
    }
    Ok(())
}

fn queue_sent(out: &mut SenderEnd, to: SiteId, sent: &[(SiteId, Message)]) -> Result<(), Unqueued>
    ensures ok { OnOk result (WasGiven (frames_to to sent.now) out.old out.new) }
    ensures part { OnErr result (WasGivenPart (frames_to to sent.now) out.old out.new) }
{
    for (site, message) in sent {
        if *site == to {
            out.queue(*message)?;
        }
    }
    Ok(())
}
