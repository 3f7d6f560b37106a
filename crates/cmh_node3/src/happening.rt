//! What happens on the link to another site, and what is to be done about it.

ghost use Rattle.std.specs.Prelude.{◌≡◌};
ghost use Rattle.cmh_node3.specs.PeerChanges.{StandsStill};
ghost use Rattle.cmh_node3.specs.Happenings.{Does, DoesDial, DoesEnd, DoesHearAcknowledgement, DoesHearAnswer, DoesHearRefusal, DoesPass, action_of};

use cmh_resume3::{Acknowledgement, Answer, Heard, Mismatch, Refusal, SenderEnd, State, Task};
use cmh_wire3::Epoch;

/// What happened on the link to another site.
#[derive(Clone, Copy)]
pub enum Happening {
    /// A connection was dialled.
    Dialled,
    /// The receiver answered the hello.
    Answered(Answer),
    /// It refused in the place of an answer.
    Refused(Refusal),
    /// It acknowledged.
    Acknowledged(Acknowledgement),
    /// The connection ended, or a dial was in vain.
    Ended,
    /// Time has passed.
    Passed,
}

/// What is to be done on the link to another site.
#[derive(Clone, Copy)]
pub enum Action {
    /// Nothing.
    Rest,
    /// A connection is dialled.
    Dial,
    /// The hello is written.
    Greet,
    /// A note is written.
    Note,
    /// The refusal is written, and the connection closed.
    Refuse(Mismatch),
    /// The connection is closed.
    Close,
    /// The site turns to the epoch that was said; then the same happens again.
    Turn,
}

/// Tells the sender's end what happened, and answers what is to be done. What comes at a time at which it can't come closes
/// the connection, and changes nothing.
pub(crate) fn happen(out: &mut SenderEnd, what: &Happening, epoch: Epoch, now: u64) -> Action
    ensures does { Does out.old what.now epoch now out.new result }
    ensures stands { StandsStill out.old out.new }
{
    let _state = out.state();
    act(out, what, epoch, now)
}

fn act(out: &mut SenderEnd, what: &Happening, epoch: Epoch, now: u64) -> Action
    ensures { Does out.old what.now epoch now out.new result }
{
    match what {
        Happening::Dialled => dial(out, now),
        Happening::Answered(answer) => hear_answer(out, answer, epoch, now),
        Happening::Refused(refusal) => hear_refusal(out, *refusal),
        Happening::Acknowledged(acknowledgement) => {
            hear_acknowledgement(out, acknowledgement, epoch, now)
        }
        Happening::Ended => end(out, now),
        Happening::Passed => pass(out, now),
    }
}

fn dial(out: &mut SenderEnd, now: u64) -> Action
    ensures { DoesDial out.old now out.new result }
{
    match out.state() {
        State::Down { .. } => {
            out.dialled(now);
            Action::Greet
        }
        _ => Action::Close,
    }
}

fn hear_answer(out: &mut SenderEnd, answer: &Answer, epoch: Epoch, now: u64) -> Action
    ensures { DoesHearAnswer out.old answer.now epoch now out.new result }
{
    match out.state() {
        State::Asked { .. } => action_on(out.answered(answer, epoch, now)),
        _ => Action::Close,
    }
}

fn hear_refusal(out: &mut SenderEnd, refusal: Refusal) -> Action
    ensures { DoesHearRefusal out.old refusal out.new result }
{
    if let State::Asked { .. } = out.state() {
        out.refused(refusal);
    }
    Action::Close
}

fn hear_acknowledgement(
    out: &mut SenderEnd,
    acknowledgement: &Acknowledgement,
    epoch: Epoch,
    now: u64,
) -> Action
    ensures { DoesHearAcknowledgement out.old acknowledgement.now epoch now out.new result }
{
    match out.state() {
        State::Running { .. } => action_on(out.acknowledged(acknowledgement, epoch, now)),
        _ => Action::Close,
    }
}

fn end(out: &mut SenderEnd, now: u64) -> Action
    ensures { DoesEnd out.old now out.new result }
{
    out.ended(now);
    Action::Rest
}

fn pass(out: &mut SenderEnd, now: u64) -> Action
    ensures { DoesPass out.old now out.new result }
{
    match out.tick(now) {
        Task::Rest => Action::Rest,
        Task::Dial => Action::Dial,
        Task::End => Action::Close,
        Task::Note => Action::Note,
    }
}

/// What is to be done about what was heard.
fn action_on(heard: Heard) -> Action
    ensures { result ≡ action_of heard }
{
    match heard {
        Heard::Turn => Action::Turn,
        Heard::GoOn => Action::Rest,
        Heard::Refuse(mismatch) => Action::Refuse(mismatch),
        Heard::Close => Action::Close,
    }
}
