//! Events of clients are given to a site, and each gets its reply.

ghost use Rattle.std.specs.Prelude.{◌≡◌, ◌≤◌, ◌∷◌, [], length, map, IfErr, IfOk};
ghost use Rattle.std.specs.List.{AllByRecursion};
ghost use Rattle.std.specs.Vec.{vec_capacity};
ghost use Rattle.cmh_node3.specs.Steps.{IsOwn};
ghost use Rattle.cmh_clients3.specs.Replies.{Replied, TakenAlone, TakenInTurn};
ghost use Rattle.cmh_talk3.specs.Numbers as spec;

use crate::batch::Batch;
use crate::telling::{Answered, Teller};
use cmh_model3::Event;
use cmh_node3::{Node, NotStepped, StepFault};
use cmh_station3::SegmentFile;
use cmh_talk3::{EventReply, reply_of, reply_of_none};
use std::alloc::{AllocError, Global};

/// Gives events to a site with one append, or one by one where they can't be given together, and answers the reply to each, in
/// their order. Where memory for the replies is refused the site is given none.
pub(crate) fn step_all<F: SegmentFile>(
    alloc: Global,
    node: &mut Node<F>,
    events: &[Event],
    teller: &mut Teller,
) -> Result<Vec<EventReply>, AllocError>
    requires own { AllByRecursion IsOwn events.now }
    ensures replied { IfOk result (λ replies. Replied F.told F.has_failed node.old events.now replies.items node.new) }
    ensures memory { IfErr result (λ _. node.new ≡ node.old) }
{
    let mut replies = Vec::with_capacity(alloc, events.len())?;
    match node.step_all(events) {
        Ok(answers) => {
            put_answers(&mut replies, &answers);
            teller.tell_own(node.controller(), events, &answers);
        }
        Err(why) => {
            if fits_some(why) {
                step_in_turn(alloc, node, events, &mut replies, teller);
            } else {
                put_same(&mut replies, events, why);
            }
        }
    }
    Ok(replies)
}

/// Whether some of the events may be taken where all of them together are not.
fn fits_some(why: NotStepped) -> bool {
    matches!(
        why,
        NotStepped::Behind | NotStepped::Failed(StepFault::Memory)
    )
}

/// The replies to what a site answered.
fn put_answers(replies: &mut Vec<EventReply>, answers: &[Answered])
    requires none { replies.old.items ≡ [] }
    requires room { length answers.now ≤ vec_capacity replies.old }
    ensures { replies.new.items ≡ map spec.reply_of answers.now }
{
    for answer in answers {
        replies.push_reserved(reply_of(answer));
    }
}

/// The same reply to each event: why none was taken.
fn put_same(replies: &mut Vec<EventReply>, events: &[Event], why: NotStepped)
    requires none { replies.old.items ≡ [] }
    requires room { length events.now ≤ vec_capacity replies.old }
    ensures { replies.new.items ≡ map (λ _. spec.reply_of_none why) events.now }
{
    for event in events {
        replies.push_reserved(reply_of_none(why));
    }
}

/// Gives events to a site one by one.
fn step_in_turn<F: SegmentFile>(
    alloc: Global,
    node: &mut Node<F>,
    events: &[Event],
    replies: &mut Vec<EventReply>,
    teller: &mut Teller,
)
    requires own { AllByRecursion IsOwn events.now }
    requires none { replies.old.items ≡ [] }
    requires room { length events.now ≤ vec_capacity replies.old }
    ensures { TakenInTurn F.told F.has_failed node.old events.now replies.new.items node.new }
{
    for event in events {
        let reply = step_one(alloc, node, event, teller);
        replies.push_reserved(reply);
    }
}

/// Gives one event to a site.
fn step_one<F: SegmentFile>(
    alloc: Global,
    node: &mut Node<F>,
    event: &Event,
    teller: &mut Teller,
) -> EventReply
    requires { IsOwn event.now }
    ensures { TakenAlone F.told F.has_failed node.old event.now result node.new }
{
    let Ok(single) = single_of(alloc, event) else {
        return reply_of_none(NotStepped::Failed(StepFault::Memory));
    };
    match node.step_all(&single) {
        Ok(answers) => {
            teller.tell_own(node.controller(), &single, &answers);
            match answers.first() {
                Some(answer) => reply_of(answer),
                None => unreachable!(),
            }
        }
        Err(why) => reply_of_none(why),
    }
}

/// An event by itself.
fn single_of(alloc: Global, event: &Event) -> Result<Vec<Event>, AllocError>
    ensures { IfOk result (λ single. single.items ≡ event.now ∷ []) }
{
    let mut single = Vec::with_capacity(alloc, 1)?;
    single.push(event.copy(alloc)?)?;
    Ok(single)
}
