//! A walk through the entries of a segment, for the merge.

ghost use Rattle.std.specs.Prelude.{◌≡◌, ◌≢◌, ◌↔◌, ℕ, IsTrue, MatchBool, length, map};
ghost use Rattle.cmh_merge.specs.Walks.{GotFrom};
ghost use Rattle.cmh_model3.specs.declared.frame.Message as model_message;
ghost use Rattle.cmh_model3.specs.Journals.{message_from};
ghost use Rattle.cmh_audit3.specs.Inner.Walks.{Tells};
ghost use Rattle.cmh_segment3.specs.Entries.{step_of};

use cmh_merge::{Next, Walk};
use cmh_model3::{Event, Message, SiteId};
use cmh_segment3::Entry;
use std::alloc::AllocError;
use std::marker::Model;

/// The entries of a segment that were not taken yet.
#[derive(Drop)]
pub struct SegmentWalk<'a> {
    left: &'a [Entry],
}

impl<'a> Model for SegmentWalk<'a> {
    ghost use Rattle.std.specs.Prelude.{List};
    ghost use Rattle.cmh_segment3.specs.declared.entry.Entry as entry;

    ghost Value = { List entry.Entry };

    ghost view = { λ w. w.left.now };
}

impl<'a> SegmentWalk<'a> {
    pub fn new(entries: &'a [Entry]) -> Self
        ensures { result ≡ entries.now }
    {
        SegmentWalk { left: entries }
    }

    /// How many entries were not taken.
    pub fn len(&self) -> usize
        ensures { result ≡ length self.now }
    {
        self.left.len()
    }
}

impl<'a> Walk<Event, Message> for SegmentWalk<'a> {
    ghost got = { message_from };

    ghost left = { λ w. map step_of w };

    fn next(&self) -> Next {
        match self.left.first() {
            Some(entry) => told_of(&entry.event),
            None => Next::End,
        }
    }

    fn got_this(&self, _from: SiteId, frame: &Message) -> bool {
        match self.left.first() {
            Some(entry) => got_message(&entry.event, frame),
            None => false,
        }
    }

    fn take(&mut self, sent: &mut Vec<(SiteId, Message)>) -> Result<(), AllocError> {
        let Some((entry, behind)) = self.left.split_first() else {
            return Ok(());
        };
        sent.clear();
        sent.extend_from_slice(entry.sent.as_slice())?;
        self.left = behind;
        Ok(())
    }
}

/// What a merge is told of an event.
fn told_of(event: &Event) -> Next
    ensures { Tells event.now result }
{
    match event {
        Event::Got { from, .. } => Next::Got { from: *from },
        Event::Ask { .. } => Next::Own,
        Event::Reply { .. } => Next::Own,
        Event::Withdraw { .. } => Next::Own,
        Event::Turn { .. } => Next::Own,
    }
}

/// Whether what an event got is this message.
fn got_message(event: &Event, message: &Message) -> bool
    ensures { (from : ℕ) (got : model_message.Message) → GotFrom message_from event.now from got
        → MatchBool result (got ≡ message.now) (got ≢ message.now) }
{
    match event {
        Event::Got { clock, frame, .. } => are_equal(
            message,
            &Message {
                clock: *clock,
                frame: *frame,
            },
        ),
        _ => false,
    }
}

fn are_equal(left: &Message, right: &Message) -> bool
    ensures { IsTrue result ↔ (left.now ≡ right.now) }
{
    *left == *right
}
