//! What happens at one end of the links with the peer at a place.

ghost use Rattle.std.specs.Prelude.{◌≡◌, ◌<◌, ◌+◌, ◌^◌, length, IfErr, IfOk, OnErr, slice_index_or};
ghost use Rattle.cmh_node3.specs.PeerChanges.{Acknowledges, ChangesInto, ChangesOut, DoesSafely, EndsAt, GivesSafely, IsClaimedAt, IsClosedAt, IsReceived, IsSyncedAt};
ghost use Rattle.cmh_node3.specs.declared.peer.Peer.{Peer as PeerType};
ghost use Rattle.cmh_resume3.specs.Receiver.{Claims};

use crate::happening::{Action, Happening, happen};
use crate::peer::Peer;
use crate::taken::receive_all;
use cmh_model3::Message;
use cmh_resume3::{Acknowledgement, Answer, Hello, Refusal};
use cmh_wire3::Epoch;

/// Tells the sender's end what happened, as `happen` does.
pub fn happen_at(
    peers: &mut Vec<Peer>,
    place: usize,
    what: &Happening,
    epoch: Epoch,
    now: u64,
) -> Action
    requires { place < length peers.old.items }
    ensures { ChangesOut place (DoesSafely what.now epoch now result) peers.old.items peers.new.items }
{
    happen(&mut peers[place].out, what, epoch, now)
}

/// The next message that is to be written to the peer.
pub fn next_at(peers: &mut Vec<Peer>, place: usize, now: u64) -> Option<Message>
    requires { place < length peers.old.items }
    ensures { ChangesOut place (GivesSafely now result) peers.old.items peers.new.items }
{
    peers[place].out.next_message(now)
}

/// A hello of the peer came on a connection, which has the claim from now on.
pub fn claim_at(
    peers: &mut Vec<Peer>,
    place: usize,
    line: u64,
    now: u64,
    speaker: Hello,
) -> Result<Answer, Refusal>
    requires place { place < length peers.old.items }
    requires synced { IsSyncedAt place peers.old.items }
    ensures claims { IfOk result (λ answer.
        ChangesInto place (λ a b. Claims a line now answer b) peers.old.items peers.new.items) }
    ensures speaks { IfOk result (λ answer. answer.hello ≡ speaker) }
    ensures closed { IfErr result (λ refusal. (refusal ≡ Refusal.Closed) × IsClosedAt place peers.old.items) }
    ensures same { OnErr result (peers.new.items ≡ peers.old.items) }
{
    peers[place].into.claim(line, now, speaker)
}

/// Messages of the peer came on the claimed connection, as `receive_all` has it.
pub fn receive_at(
    peers: &mut Vec<Peer>,
    place: usize,
    line: u64,
    messages: &[Message],
    now: u64,
    closes: bool,
)
    requires place { place < length peers.old.items }
    requires claimed { IsClaimedAt place line peers.old.items }
    requires countable { (d : PeerType) → 0 < length messages.now
        → (slice_index_or peers.old.items place d).into.got + length messages.now < 2 ^ 64 }
    ensures { ChangesInto place (IsReceived messages.now now closes) peers.old.items peers.new.items }
{
    receive_all(&mut peers[place].into, line, messages, now, closes);
}

/// What is to be acknowledged on a connection after a read, which filled its buffer or not: only what is synced. `None`
/// where nothing is, or the connection has not the claim.
pub fn acknowledge_at(
    peers: &mut Vec<Peer>,
    place: usize,
    line: u64,
    filled: bool,
    epoch: Epoch,
) -> Option<Acknowledgement>
    requires { place < length peers.old.items }
    ensures { Acknowledges place line filled epoch result peers.old.items peers.new.items }
{
    if !peers[place].into.is_claimed(line) || !peers[place].into.is_due(filled) {
        return None;
    }
    Some(peers[place].into.acknowledge(epoch))
}

/// A connection from the peer ended.
pub fn end_at(peers: &mut Vec<Peer>, place: usize, line: u64)
    requires { place < length peers.old.items }
    ensures { ChangesInto place (EndsAt line) peers.old.items peers.new.items }
{
    peers[place].into.ended(line);
}
