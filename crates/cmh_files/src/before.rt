//! What each site had done when the journals stopped.

ghost use Rattle.std.specs.Prelude.{◌≡◌, ◌≤◌, All, IfOk, OnOk, ◌++◌, length};
ghost use Rattle.cmh_audit.specs.Journals.{journal_of};
ghost use Rattle.cmh_audit.specs.Stops.{before_stop};
ghost use Rattle.cmh_frames.specs.Journals.{frame_from, frames_to, receipts_of, sendings_of};

use cmh_audit::entries_at;
use cmh_frames::{Entry, Event, Frame, SiteId};
use cmh_journal::Journal;
use std::alloc::{AllocError, Global};

/// The entries of a site before its stop; all where it has none.
pub fn before_stop<'a>(
    journals: &'a [Journal],
    stops: &[(SiteId, usize)],
    site: SiteId,
) -> &'a [Entry]
    requires { All (λ stop. (1 ≤ stop.1) × (stop.1 ≤ length (journal_of journals.now stop.0))) stops.now }
    ensures { result.now ≡ before_stop stops.now site (journal_of journals.now site) }
{
    let entries = entries_at(journals, site);
    for (stopped, number) in stops {
        if *stopped == site {
            return &entries[..*number - 1];
        }
    }
    entries
}

/// How many frames the entries got from a site.
pub fn count_received(entries: &[Entry], from: SiteId) -> usize
    ensures { result ≡ length (receipts_of from entries.now) }
{
    let mut count = 0;
    for entry in entries {
        count += count_got(&entry.event, from);
    }
    count
}

/// How many frames an event got from a site: one or none.
fn count_got(event: &Event, from: SiteId) -> usize
    ensures value { result ≡ length (frame_from from event.now) }
    ensures bound { result ≤ 1 }
{
    match event {
        Event::Got { from: sender, .. } if *sender == from => 1,
        _ => 0,
    }
}

/// The frames that the entries sent to a site, in their order.
pub fn frames_sent(alloc: Global, entries: &[Entry], to: SiteId) -> Result<Vec<Frame>, AllocError>
    ensures { IfOk result (λ frames. frames.items ≡ sendings_of to entries.now) }
{
    let mut frames = Vec::new(alloc);
    for entry in entries {
        push_to(&mut frames, entry.sent.as_slice(), to)?;
    }
    Ok(frames)
}

/// Adds the frames of these that go to a site.
fn push_to(frames: &mut Vec<Frame>, sent: &[(SiteId, Frame)], to: SiteId) -> Result<(), AllocError>
    ensures { OnOk result (frames.new.items ≡ frames.old.items ++ frames_to to sent.now) }
{
    for (site, frame) in sent {
        if *site == to {
            frames.push(*frame)?;
        }
    }
    Ok(())
}
