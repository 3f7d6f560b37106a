//! A later epoch than the site's, of which it hears on a link.

ghost use Rattle.std.specs.Prelude.{ℕ, ◌≡◌, ◌<◌, ◌*◌, ◌^◌, ◌/◌, length, true, false, IfSome, None, Some};
ghost use Rattle.cmh_links3.specs.Ahead.{IsAheadOf, IsHeard, IsHeardBack, IsOfEpoch, epoch_in};
ghost use Rattle.cmh_links3.specs.Speaking.{IsOfPeer};
ghost use Rattle.cmh_node3.specs.Nodes.{AtPlace};

use cmh_model3::Message;
use cmh_node3::{Node, place_of};
use cmh_resume3::{
    AcknowledgementFront, Hello, HelloFront, Item, ItemFront, ReplyFront, decode_acknowledgement,
    decode_hello, decode_item, decode_reply,
};
use cmh_station3::SegmentFile;
use cmh_wire3::Epoch;

/// How many epochs ahead of a site another one is at most. So no site comes to the last epoch at once.
const MOST_AHEAD: u32 = 65_536;

/// How many ticks of a clock an epoch has.
const EPOCH_TICKS: u64 = 1 << 32;

/// An epoch that was heard, where it is later than the site's, and not too far ahead.
pub(crate) fn later_than(own: Epoch, heard: Epoch) -> Option<Epoch>
    ensures { IfSome result (λ later. (later ≡ heard) × IsAheadOf own later) }
{
    let ahead = heard.get().checked_sub(own.get())?;
    if ahead == 0 || ahead > MOST_AHEAD {
        None
    } else {
        Some(heard)
    }
}

/// The epoch of a message: that of its sender as it sent it.
pub(crate) fn epoch_of_message(message: &Message) -> Epoch
    ensures { result ≡ epoch_in message.now.clock }
{
    Epoch::new((message.clock.get() / EPOCH_TICKS) as u32)
}

/// The epoch that the hello in front says, where it is one to this site from a peer of its world.
pub(crate) fn epoch_of_hello<F: SegmentFile>(node: &Node<F>, bytes: &[u8]) -> Option<Epoch>
    ensures { IfSome result (IsHeard None bytes.now) }
{
    match decode_hello(bytes) {
        HelloFront::Whole(hello) => {
            let place = place_of(node.peers(), hello.from)?;
            if is_of_peer(node, place, &hello) {
                Some(hello.epoch)
            } else {
                None
            }
        }
        _ => None,
    }
}

/// The epoch of the item in front; none of a refusal.
pub(crate) fn epoch_of_item(bytes: &[u8]) -> Option<Epoch>
    ensures { (place : ℕ) → IfSome result (IsHeard (Some place) bytes.now) }
{
    match decode_item(bytes) {
        ItemFront::Whole(item, _) => epoch_said(item),
        _ => None,
    }
}

fn epoch_said(item: Item) -> Option<Epoch>
    ensures { IfSome result (IsOfEpoch item) }
{
    match item {
        Item::Message(message) => Some(epoch_of_message(&message)),
        Item::Note(epoch) => Some(epoch),
        Item::Refused(_) => None,
    }
}

/// The epoch that the answer in front says, where it is one to this site from the peer at a place.
pub(crate) fn epoch_of_answer<F: SegmentFile>(
    node: &Node<F>,
    place: usize,
    bytes: &[u8],
) -> Option<Epoch>
    requires { place < length node.now.peers }
    ensures { IfSome result (IsHeardBack false bytes.now) }
{
    match decode_reply(bytes) {
        ReplyFront::Answered(answer) => {
            if is_of_peer(node, place, &answer.hello) {
                Some(answer.hello.epoch)
            } else {
                None
            }
        }
        _ => None,
    }
}

/// The epoch that the acknowledgement in front says.
pub(crate) fn epoch_of_acknowledgement(bytes: &[u8]) -> Option<Epoch>
    ensures { IfSome result (IsHeardBack true bytes.now) }
{
    match decode_acknowledgement(bytes) {
        AcknowledgementFront::Whole(acknowledgement) => Some(acknowledgement.epoch),
        _ => None,
    }
}

/// Whether a hello is of the peer at this place, to this site and of its world.
pub(crate) fn is_of_peer<F: SegmentFile>(node: &Node<F>, place: usize, hello: &Hello) -> bool
    requires { place < length node.now.peers }
    ensures yes { result ≡ true → AtPlace node.now place (IsOfPeer hello.now node.now) }
    ensures no { result ≡ false → AtPlace node.now place (λ peer. ¬ IsOfPeer hello.now node.now peer) }
{
    let beginning = node.station().base();
    let peer = node.peers()[place].site;
    hello.world == beginning.topology.world() && hello.from == peer && hello.to == beginning.site
}
