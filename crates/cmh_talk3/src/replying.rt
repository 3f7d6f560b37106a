//! The reply to what a node answered for an event.

ghost use Rattle.std.specs.Prelude.{◌≡◌};
ghost use Rattle.cmh_talk3.specs.Numbers as spec;

use crate::reply::EventReply;
use cmh_controller3::{Declaration, Outcome, Refusal as RuleRefusal};
use cmh_journaled::Refusal;
use cmh_node3::{NotStepped, StepFault};

/// The reply to what `Node::step_all` answered for one event.
pub fn reply_of(answer: &Result<Outcome, Refusal<RuleRefusal>>) -> EventReply
    ensures { result ≡ spec.reply_of answer.now }
{
    match answer {
        Ok(outcome) => taken(outcome),
        Err(refusal) => EventReply::Refused(number_of(refusal)),
    }
}

/// The reply to each event, where `Node::step_all` took none.
pub fn reply_of_none(why: NotStepped) -> EventReply
    ensures { result ≡ spec.reply_of_none why }
{
    match why {
        NotStepped::Sealed => EventReply::Refused(9),
        NotStepped::Failed(StepFault::Disk) => EventReply::Refused(10),
        NotStepped::Failed(StepFault::Memory) => EventReply::Refused(11),
        NotStepped::Behind => EventReply::Refused(13),
    }
}

/// The reply to each event that comes before the site has met the other sites, where it waits for that.
pub fn reply_while_waiting() -> EventReply
    ensures { result ≡ spec.reply_while_waiting }
{
    EventReply::Refused(18)
}

/// The reply to a step that was taken.
fn taken(outcome: &Outcome) -> EventReply
    ensures { result ≡ spec.taken outcome.now }
{
    let sent = outcome.sent.as_slice().len();
    match outcome.declared {
        Some(Declaration { process, stop }) => EventReply::Declared {
            sent,
            process,
            stop,
        },
        None => EventReply::Taken { sent },
    }
}

/// The number that stands for a refusal in answers.
fn number_of(refusal: &Refusal<RuleRefusal>) -> u8
    ensures { result ≡ spec.number_of refusal.now }
{
    match refusal {
        Refusal::Rule(refusal) => refusal.number(),
        Refusal::Sealed => 9,
        Refusal::Disk => 10,
        Refusal::Memory => 11,
        Refusal::Full => 12,
    }
}
