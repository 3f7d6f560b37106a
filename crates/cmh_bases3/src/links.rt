//! Whether the rows of links can stand in a base.

ghost use Rattle.std.specs.Prelude.{◌≡◌, ◌↔◌, ◌-◌, ◌^◌, IsTrue, length, map, min};
ghost use Rattle.std.specs.List.{AllByRecursion};
ghost use Rattle.cmh_model3.specs.Lists.{IsAscending};
ghost use Rattle.cmh_wire3.specs.Wire.{IsMessage, IsPair, spelled, spelling};
ghost use Rattle.cmh_segment3.specs.Base.{IsLinkRow, link_place, link_row};
ghost use Rattle.cmh_segment3.specs.Rows.{rows_spelling};
ghost use Rattle.cmh_bases3.specs.FittingLinks.{FitLinks};

use cmh_model3::{Frame, Message, ProcId};
use cmh_segment3::{LinkState, Rows};

/// How many bytes the rows of links may have.
const MOST_LINK_BYTES: u64 = 1 << 30;

/// How many bytes a link has beside its messages: its site, three numbers of what was sent, and two of what was got.
const LINK_BYTES: u64 = 42;

/// Whether the rows of links can stand in a base: the grammar allows them, they are in order, and they have 2^30 bytes at
/// most. Nothing else limits how many messages a link keeps, where the other site does not acknowledge them.
pub fn links_fit(links: &Rows<LinkState>) -> bool
    ensures { IsTrue result ↔ FitLinks links.now }
{
    let rows = links.as_slice();
    are_link_rows(rows) && bytes_of_links(rows) <= MOST_LINK_BYTES
}

// ---- the grammar

/// Whether the grammar allows each, and they are in order.
fn are_link_rows(links: &[LinkState]) -> bool
    ensures { IsTrue result ↔ (AllByRecursion IsLinkRow links.now × IsAscending (map link_place links.now)) }
{
    let mut least: u32 = 0;
    for link in links {
        let place = u32::from(link.site.get());
        if place < least || !is_link_row(link) {
            return false;
        }
        least = place + 1;
    }
    true
}

fn is_link_row(link: &LinkState) -> bool
    ensures { IsTrue result ↔ IsLinkRow link.now }
{
    let _numbers = (
        link.site.get(),
        link.out.mark.get(),
        link.into.got,
        link.into.mark.get(),
    );
    let kept = link.out.kept.as_slice();
    link.out.acked <= u64::MAX - kept.len() as u64 && are_messages(kept)
}

fn are_messages(messages: &[Message]) -> bool
    ensures { IsTrue result ↔ AllByRecursion IsMessage messages.now }
{
    for message in messages {
        if !is_message(message) {
            return false;
        }
    }
    true
}

/// Whether a message has a spelling that is read again: its last two processes differ.
fn is_message(message: &Message) -> bool
    ensures { IsTrue result ↔ IsMessage message.now }
{
    let _clock = message.clock.get();
    match &message.frame {
        Frame::Request { asker, holder } => differ(*asker, *holder),
        Frame::Reply { holder, asker } => differ(*holder, *asker),
        Frame::Withdraw { asker, holder } => differ(*asker, *holder),
        Frame::Probe {
            origin,
            stamp,
            from,
            to,
        } => {
            let _numbers = (origin.get(), stamp.get());
            differ(*from, *to)
        }
    }
}

fn differ(first: ProcId, second: ProcId) -> bool
    ensures { IsTrue result ↔ IsPair (first, second) }
{
    first.get() != second.get()
}

// ---- how long they are

/// How many bytes the rows of links have, or the greatest number where there are more.
fn bytes_of_links(links: &[LinkState]) -> u64
    ensures { result ≡ min (length (rows_spelling link_row links.now)) (2 ^ 64 - 1) }
{
    let mut bytes: u64 = 4;
    for link in links {
        let kept = bytes_of_messages(link.out.kept.as_slice());
        bytes = bytes.saturating_add(kept.saturating_add(LINK_BYTES));
    }
    bytes
}

/// How many bytes messages have, or the greatest number where there are more.
fn bytes_of_messages(messages: &[Message]) -> u64
    ensures { result ≡ min (length (spelled messages.now)) (2 ^ 64 - 1) }
{
    let mut bytes: u64 = 0;
    for message in messages {
        bytes = bytes.saturating_add(bytes_of(message));
    }
    bytes
}

fn bytes_of(message: &Message) -> u64
    ensures { result ≡ length (spelling message.now) }
{
    match &message.frame {
        Frame::Probe { .. } => 23,
        _ => 13,
    }
}
