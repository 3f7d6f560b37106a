//! Peers and the links of a base: a site that begins an epoch writes what its ends know, and a site that starts finds its
//! ends by that and by the entries behind it.

ghost use Rattle.std.specs.Prelude.{◌≡◌, ◌+◌, ◌<◌, ◌≤◌, ◌^◌, ◌∷◌, [], length, map, Err, IfOk, OnOk, MatchOption};
ghost use Rattle.std.specs.List.{AllByRecursion};
ghost use Rattle.cmh_model3.specs.Journals.{message_from, receipts_of};
ghost use Rattle.cmh_wire3.specs.Wire.{IsMessage};
ghost use Rattle.cmh_segment3.specs.Base.{IsLinkRow, link_place};
ghost use Rattle.cmh_segment3.specs.Rows.{AreRows};
ghost use Rattle.cmh_node3.specs.Links as spec;
ghost use Rattle.cmh_node3.specs.Links.{CanBeRows, EntriesGoOn, HasTooMany, PeersComeBack, got_since, link_at, met_from, unused, with_receipts};

use crate::peer::Peer;
use cmh_model3::{Entry, Event, Message, SiteId};
use cmh_resume3::{ReceiverEnd, SenderEnd};
use cmh_segment3::{Incoming, LinkState, Outgoing, Rows};
use cmh_wire3::{Mark, encode};
use std::alloc::{AllocError, Global};
use std::collections::VecDeque;

/// Why peers are not met.
#[derive(Clone, Copy)]
pub enum Unmet {
    /// More messages were got from a site than can be counted.
    Full,
    /// Memory was refused.
    Memory,
}

// ---- from a base

/// A peer for each of these sites. The links are those of a base, and the entries those behind it in this site's journal:
/// all that they got is counted, and of what they sent nothing was given to a sender's end yet. A site without a row is one
/// to which nothing was sent and from which nothing was got.
pub fn peers_from(
    alloc: Global,
    them: &[SiteId],
    links: &[LinkState],
    entries: &[Entry<Event, Message>],
) -> Result<Vec<Peer>, Unmet>
    requires { AreRows IsLinkRow link_place links.now }
    ensures ok { IfOk result (λ peers. peers.items ≡ map (met_from links.now entries.now) them.now) }
    ensures full { result ≡ Err Unmet.Full → HasTooMany links.now entries.now them.now }
{
    let mut peers = Vec::new(alloc);
    for other in them {
        let peer = meet(alloc, *other, links, entries)?;
        if peers.push(peer).is_err() {
            return Err(Unmet::Memory);
        }
    }
    Ok(peers)
}

/// A peer, by the base and the journal.
fn meet(
    alloc: Global,
    site: SiteId,
    links: &[LinkState],
    entries: &[Entry<Event, Message>],
) -> Result<Peer, Unmet>
    requires { AllByRecursion IsLinkRow links.now }
    ensures ok { IfOk result (λ peer. peer ≡ met_from links.now entries.now site) }
    ensures full { result ≡ Err Unmet.Full → 2 ^ 64 ≤ (got_since links.now entries.now site).got }
{
    let Some(into) = receipts(incoming_at(links, site), entries, site) else {
        return Err(Unmet::Full);
    };
    let Ok(out) = sender_at(alloc, links, site) else {
        return Err(Unmet::Memory);
    };
    Ok(Peer {
        site,
        out,
        into: ReceiverEnd::new(into.got, into.mark, false),
    })
}

/// The row of a site, if it has one.
fn row_of(links: &[LinkState], site: SiteId) -> Option<&LinkState>
    ensures { MatchOption result (link_at links.now site ≡ unused site) (λ link. link.now ≡ link_at links.now site) }
{
    for link in links {
        if link.site == site {
            return Some(link);
        }
    }
    None
}

/// What the base says was got from a site.
fn incoming_at(links: &[LinkState], site: SiteId) -> Incoming
    ensures { result ≡ (link_at links.now site).into }
{
    match row_of(links, site) {
        Some(link) => link.into,
        None => Incoming {
            got: 0,
            mark: Mark::first(),
        },
    }
}

/// The sender's end of what the base says was sent to a site.
fn sender_at(alloc: Global, links: &[LinkState], site: SiteId) -> Result<SenderEnd, AllocError>
    requires { AllByRecursion IsLinkRow links.now }
    ensures { IfOk result (λ out. out ≡ spec.sender_of (link_at links.now site).out) }
{
    match row_of(links, site) {
        Some(link) => sender_of(alloc, &link.out),
        None => Ok(SenderEnd::new(0, Mark::first(), VecDeque::new(alloc))),
    }
}

/// A sender's end of what was sent.
fn sender_of(alloc: Global, sent: &Outgoing) -> Result<SenderEnd, AllocError>
    requires { sent.now.acked + length sent.now.kept < 2 ^ 64 }
    ensures { IfOk result (λ out. out ≡ spec.sender_of sent.now) }
{
    let mut kept = Vec::new(alloc);
    kept.extend_from_slice(sent.kept.as_slice())?;
    Ok(SenderEnd::new(sent.acked, sent.mark, VecDeque::from_vec(kept)))
}

/// What was got from a site: what was got before, and then what the entries got. `None` where it can't be counted.
fn receipts(before: Incoming, entries: &[Entry<Event, Message>], from: SiteId) -> Option<Incoming>
    ensures { MatchOption result (2 ^ 64 ≤ (with_receipts (receipts_of from entries.now) before).got)
        (λ all. all ≡ with_receipts (receipts_of from entries.now) before) }
{
    let mut count = before.got;
    let mut mark = before.mark;
    for entry in entries {
        match got_from(from, &entry.event) {
            Some(message) => {
                count = count.checked_add(1)?;
                mark = mark.on(encode(&message).as_slice());
            }
            None => {}
        }
    }
    Some(Incoming { got: count, mark })
}

/// The message that an event got from a site.
fn got_from(site: SiteId, event: &Event) -> Option<Message>
    ensures { MatchOption result (message_from site event.now ≡ []) (λ message. message_from site event.now ≡ message ∷ []) }
{
    match event {
        Event::Got { from, clock, frame } => {
            if *from == site {
                Some(Message {
                    clock: *clock,
                    frame: *frame,
                })
            } else {
                None
            }
        }
        _ => None,
    }
}

// ---- to a base

/// What the ends know of each link, as a base has it. The grammar allows these rows where the peers are in order and keep
/// messages of the grammar. What else it asks, the types say.
pub fn links_of(alloc: Global, peers: &[Peer]) -> Result<Rows<LinkState>, AllocError>
    ensures links { IfOk result (λ links. links ≡ map spec.link_of peers.now) }
    ensures rows { IfOk result (λ links. CanBeRows peers.now → AreRows IsLinkRow link_place links) }
{
    let mut links = Vec::new(alloc);
    for peer in peers {
        links.push(link_of(alloc, peer)?)?;
    }
    Ok(Rows::new(links))
}

/// What the ends know of a link.
fn link_of(alloc: Global, peer: &Peer) -> Result<LinkState, AllocError>
    ensures link { IfOk result (λ link. link ≡ spec.link_of peer.now) }
    ensures row { OnOk result (AllByRecursion IsMessage peer.now.out.kept → IsLinkRow (spec.link_of peer.now)) }
{
    let _numbers = (
        peer.site.get(),
        peer.out.mark().get(),
        peer.into.mark().get(),
    );
    let acked = peer.out.acked();
    let kept = peer.out.kept_messages(alloc)?;
    Ok(LinkState {
        site: peer.site,
        out: Outgoing {
            acked,
            mark: peer.out.mark(),
            kept: Rows::new(kept),
        },
        into: Incoming {
            got: peer.into.got(),
            mark: peer.into.mark(),
        },
    })
}

/// Peers that are met from the links of peers are these again, but for their connections; and what the entries behind the
/// base got is counted besides.
pub fn links_law()
    ensures back { PeersComeBack }
    ensures behind { EntriesGoOn }
{}
