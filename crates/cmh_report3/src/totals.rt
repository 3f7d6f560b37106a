//! How many messages the entries of a run sent, and how many they got.

ghost use Rattle.std.specs.Prelude.{◌≡◌};
ghost use Rattle.cmh_report3.specs.Transit as spec;

use cmh_model3::{Event, Message, WorldEvent};

/// How many messages were sent, counted up to 2^64 - 1.
pub fn sent_in(events: &[WorldEvent<Event, Message>]) -> u64
    ensures { result ≡ spec.kept (spec.sent_in events.now) }
{
    let mut sent = 0u64;
    for event in events {
        sent = sent.saturating_add(event.entry.sent.as_slice().len() as u64);
    }
    sent
}

/// How many messages were got, counted up to 2^64 - 1.
pub fn got_in(events: &[WorldEvent<Event, Message>]) -> u64
    ensures { result ≡ spec.kept (spec.got_in events.now) }
{
    let mut got = 0u64;
    for event in events {
        got = got.saturating_add(got_by(&event.entry.event));
    }
    got
}

/// How many messages an event got.
fn got_by(event: &Event) -> u64
    ensures { result ≡ spec.got_by event.now }
{
    match event {
        Event::Got { .. } => 1,
        _ => 0,
    }
}
