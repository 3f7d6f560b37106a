//! The site of a service, as events ask it.

ghost use Rattle.std.specs.Prelude.{◌≡◌, ◌≤◌, [], length, map, vec_capacity};
ghost use Rattle.cmh_client.specs.Desks.{AreReplies};
ghost use Rattle.cmh_service.specs.Taken.{WereTaken};
ghost use Rattle.cmh_talk.specs.Replies.{IsReply, event_reply_of, taken};
ghost use Rattle.cmh_station.specs.Journaled.{batch_limit};

use cmh_carriers::Speaker;
use cmh_frames::{Event, ProcId};
use cmh_host::{Answer, FileStation, SiteReply, note_seal, step};
use cmh_station::StationRefusal;
use cmh_talk::EventReply;
use std::sync::{Arc, Wait};

/// A running site, as events ask it.
#[derive(Drop)]
pub(crate) struct Host<R: Wait + Drop> {
    pub rt: R,
    pub station: Arc<FileStation<R>>,
    pub speaker: Option<Speaker>,
}

/// What a station answered to events that it was given together.
#[derive(Drop)]
pub enum Together {
    /// An answer for each.
    Each(Vec<Answer>),
    /// The disk failed, and none of them was taken.
    Disk,
    /// None of them was taken: they have to be given one by one.
    Alone,
}

impl<R: Wait + Drop> Host<R> {
    /// Puts the replies to events into a list, in their order. The events share a sync as far as they can.
    #[tactic(auto, using(cmh_talk::proofs::Replies::taken_replies, cmh_talk::proofs::Replies::taken_count))]
    pub fn step_all(&self, events: &[Event], replies: &mut Vec<EventReply>)
        requires few { length events.now ≤ batch_limit }
        requires none { replies.old.items ≡ [] }
        requires room { batch_limit ≤ vec_capacity replies.old }
        ensures replies { AreReplies IsReply events.now replies.new.items }
        ensures room { vec_capacity replies.new ≡ vec_capacity replies.old }
    {
        match self.take_together(events) {
            Together::Each(answers) => push_answers(replies, &answers),
            Together::Disk => push_refusals(replies, events),
            Together::Alone => self.push_steps(replies, events),
        }
    }

    /// Gives events to the station one by one.
    fn push_steps(&self, replies: &mut Vec<EventReply>, events: &[Event])
        requires none { replies.old.items ≡ [] }
        requires room { length events.now ≤ vec_capacity replies.old }
        ensures replies { AreReplies IsReply events.now replies.new.items }
        ensures room { vec_capacity replies.new ≡ vec_capacity replies.old }
    {
        for event in events {
            replies.push_reserved(self.step(event));
        }
    }

    #[tactic(auto, using(cmh_talk::proofs::Replies::stepped_reply))]
    fn step(&self, event: &Event) -> EventReply
        ensures { IsReply event.now result }
    {
        match step(&self.rt, &self.station, self.speaker.as_ref(), event) {
            SiteReply::Taken(done) => taken(done.sent, done.declared),
            SiteReply::Refused(refusal) => EventReply::Refused(refusal),
            _ => unreachable!(),
        }
    }

    /// Gives events to the station with one sync, and wakes the threads that write what they sent once the lock is given
    /// back.
    #[tactic(auto, using(cmh_talk::proofs::Taking::taken_all))]
    fn take_together(&self, events: &[Event]) -> Together
        requires few { length events.now ≤ batch_limit }
        ensures { WereTaken events.now result }
    {
        if events.len() < 2 {
            return Together::Alone;
        }
        match self.station.step_all(&self.rt, events) {
            Ok(answers) => Together::Each(answers),
            Err(StationRefusal::Disk) => {
                note_seal(&self.rt, self.speaker.as_ref(), StationRefusal::Disk);
                Together::Disk
            }
            Err(_) => Together::Alone,
        }
    }
}

/// The replies to answers of a station.
fn push_answers(replies: &mut Vec<EventReply>, answers: &[Answer])
    requires none { replies.old.items ≡ [] }
    requires room { length answers.now ≤ vec_capacity replies.old }
    ensures replies { replies.new.items ≡ map event_reply_of answers.now }
    ensures room { vec_capacity replies.new ≡ vec_capacity replies.old }
{
    for answer in answers {
        replies.push_reserved(event_reply_to(answer));
    }
}

/// What is answered for what a station answered.
fn event_reply_to(answer: &Answer) -> EventReply
    ensures { result ≡ event_reply_of answer.now }
{
    match answer {
        Ok(outcome) => taken(outcome.sent.as_slice().len(), outcome.declared),
        Err(refusal) => EventReply::Refused(*refusal),
    }
}

/// A step sent so many frames, and declared this process, if it declared one.
fn taken(sent: usize, declared: Option<ProcId>) -> EventReply
    ensures { result ≡ taken sent declared }
{
    match declared {
        Some(process) => EventReply::Declared { sent, process },
        None => EventReply::Taken { sent },
    }
}

/// The replies to events that none was taken of, since the disk failed.
fn push_refusals(replies: &mut Vec<EventReply>, events: &[Event])
    requires none { replies.old.items ≡ [] }
    requires room { length events.now ≤ vec_capacity replies.old }
    ensures replies { AreReplies IsReply events.now replies.new.items }
    ensures room { vec_capacity replies.new ≡ vec_capacity replies.old }
{
    for event in events {
        replies.push_reserved(EventReply::Refused(StationRefusal::Disk));
    }
}
