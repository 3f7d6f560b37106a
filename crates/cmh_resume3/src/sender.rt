//! The sender's end of a link.

ghost use Rattle.std.specs.Prelude.{◌≡◌, ◌++◌, ◌∷◌, [], ◌<◌, ◌≤◌, ◌+◌, ◌^◌, if◌then◌else◌, nat_le, length, take, drop, IsTrue, ◌↔◌, IfOk, OnErr, OnOk, Err};
ghost use Rattle.cmh_wire3.specs.Mark.{mark_on};
ghost use Rattle.cmh_wire3.specs.Wire.{spelled};
ghost use Rattle.cmh_resume3.specs.Within.{IsWithin};
ghost use Rattle.cmh_resume3.specs.Sender.{GivesNext, HearsAcknowledgement, HearsAnswer, IsAsked, IsDown, IsRunning, ended_state, fresh_sender, next_pause, noted_state, pause_of, sent, state_by, task_of, with_kept, with_state};

use crate::acknowledgement::Acknowledgement;
use crate::answer::Answer;
use crate::refusal::{Mismatch, Refusal};
use cmh_model3::Message;
use cmh_wire3::{Epoch, Mark, encode};
use std::alloc::{AllocError, Global};
use std::collections::VecDeque;
use std::marker::Model;

/// How the connection of a sender's end stands. Times are milliseconds.
#[derive(Clone, Copy)]
pub enum State {
    /// There is none. The next dial is due when the pause since then is over.
    Down {
        since: u64,
        pause: u64,
    },
    /// The hello was written then, and no answer has come. The pause is that before the dial.
    Asked {
        since: u64,
        pause: u64,
    },
    /// Messages are written.
    Running {
        /// How many messages of the link stand before the one that is written next.
        next: u64,
        /// When a message or a note was written last.
        spoke: u64,
        /// When an acknowledgement came last, or the oldest message was written that is not acknowledged.
        heard: u64,
    },
    /// The receiver refused. Nothing more is done until the site is started again.
    Refused(Refusal),
    /// The two journals do not fit. Nothing more is done until the site is started again.
    Mismatched(Mismatch),
}

/// What is to be done about something that was heard.
#[derive(Clone, Copy)]
pub enum Heard {
    /// The site turns to the epoch that was said, and then this is heard again.
    Turn,
    /// Nothing.
    GoOn,
    /// The refusal is written, and the connection closed. The site is sealed but where the receiver is at fault.
    Refuse(Mismatch),
    /// The connection is closed.
    Close,
}

/// What is to be done at a time.
#[derive(Clone, Copy)]
pub enum Task {
    Rest,
    /// A connection is dialled, and the hello written.
    Dial,
    /// The connection is closed.
    End,
    /// A note is written.
    Note,
}

/// The first pause between two dials, and the longest one.
const FIRST_PAUSE: u64 = 50;

const LONGEST_PAUSE: u64 = 1000;

/// How long an answer is waited for.
const ANSWER_WAIT: u64 = 10_000;

/// How long an acknowledgement is waited for. Notes are acknowledged too, so one is due at least this often.
const ACKNOWLEDGEMENT_WAIT: u64 = 15_000;

/// How long nothing is written before a note is.
const SILENCE: u64 = 5_000;

/// For how many messages there stays room.
const LEAST_ROOM: usize = 1024;

/// The sender's end of a link: the messages that the receiver is not known to have synced, and how the connection stands.
///
/// It is given only messages that are synced.
#[derive(Drop)]
pub struct SenderEnd {
    acked: u64,
    mark: Mark,
    kept: VecDeque<Message>,
    state: State,
}

impl Model for SenderEnd {
    ghost use Rattle.std.specs.Prelude.{ℕ, List, length, ◌+◌, ◌^◌, ◌<◌};
    ghost use Rattle.cmh_resume3.specs.Within.{IsWithin};
    ghost use Rattle.cmh_resume3.specs.Sender.{Sender};

    ghost Value = { Sender };

    ghost view = { λ s. record { acked = s.acked; mark = s.mark; kept = s.kept.items; state = s.state } };

    ghost invariant = { λ s. (s.acked + length s.kept.items < 2 ^ 64) × IsWithin s.acked (s.acked + length s.kept.items) s.state };
}

/// Why a message is not queued.
#[derive(Clone, Copy)]
pub enum Unqueued {
    /// No more messages can be counted.
    Full,
    /// Memory was refused.
    Memory,
}

impl SenderEnd {
    /// An end that dials at once. So many messages of the link are acknowledged, with this mark, and the others are kept.
    pub fn new(acked: u64, mark: Mark, kept: VecDeque<Message>) -> Self
        requires { acked + length kept.items < 2 ^ 64 }
        ensures { result ≡ fresh_sender acked mark kept.items }
    {
        SenderEnd {
            acked,
            mark,
            kept,
            state: State::Down { since: 0, pause: 0 },
        }
    }

    /// How the connection stands.
    pub fn state(&self) -> State
        ensures state { result ≡ self.now.state }
        ensures within { IsWithin self.now.acked (sent self.now) result }
    {
        self.state
    }

    /// How many messages it keeps: those that the receiver is not known to have synced.
    pub fn kept(&self) -> usize
        ensures { result ≡ length self.now.kept }
    {
        self.kept.len()
    }

    /// How many messages the receiver is known to have synced. They and those that are kept can be counted.
    pub fn acked(&self) -> u64
        ensures count { result ≡ self.now.acked }
        ensures countable { sent self.now < 2 ^ 64 }
    {
        self.acked
    }

    /// The mark of the messages that the receiver is known to have synced.
    pub fn mark(&self) -> Mark
        ensures { result ≡ self.now.mark }
    {
        self.mark
    }

    /// A copy of the messages that it keeps, in their order.
    pub fn kept_messages(&self, alloc: Global) -> Result<Vec<Message>, AllocError>
        ensures { IfOk result (λ messages. messages.items ≡ self.now.kept) }
    {
        let (first, second) = self.kept.as_slices();
        let mut messages = Vec::with_capacity(alloc, self.kept.len())?;
        messages.extend_from_slice(first)?;
        messages.extend_from_slice(second)?;
        Ok(messages)
    }

    /// A message of the link is synced. After an error the end is as it was.
    pub fn queue(&mut self, message: Message) -> Result<(), Unqueued>
        ensures ok { OnOk result (self.new ≡ with_kept message self.old) }
        ensures full { result ≡ Err Unqueued.Full ↔ (sent self.old ≡ 18446744073709551615) }
        ensures err { OnErr result (self.new ≡ self.old) }
    {
        if self.kept.len() as u64 == u64::MAX - self.acked {
            return Err(Unqueued::Full);
        }
        let Message { clock, frame } = message;
        match self.kept.push_back(Message { clock, frame }) {
            Ok(()) => Ok(()),
            Err(_) => Err(Unqueued::Memory),
        }
    }

    /// A connection was dialled: its hello is to be written.
    pub fn dialled(&mut self, now: u64)
        requires { IsDown self.old.state }
        ensures { self.new ≡ with_state self.old (State.Asked now (pause_of self.old.state)) }
    {
        self.state = State::Asked {
            since: now,
            pause: pause(self.state),
        };
    }

    /// The receiver of the link answered. `epoch` is that of this site.
    pub fn answered(&mut self, answer: &Answer, epoch: Epoch, now: u64) -> Heard
        requires { IsAsked self.old.state }
        ensures { HearsAnswer self.old answer.now epoch now self.new result }
    {
        if epoch.get() < answer.hello.epoch.get() {
            return Heard::Turn;
        }
        if answer.count < self.acked {
            self.state = State::Mismatched(Mismatch::LessThanAcknowledged);
            return Heard::Refuse(Mismatch::LessThanAcknowledged);
        }
        let more = answer.count - self.acked;
        let kept = self.kept.len() as u64;
        if kept < more {
            self.state = State::Mismatched(Mismatch::MoreThanSent);
            return Heard::Refuse(Mismatch::MoreThanSent);
        }
        let mark = mark_of_first(self.mark, &self.kept, more as usize);
        if answer.mark != mark {
            self.state = State::Mismatched(Mismatch::OtherFrames);
            return Heard::Refuse(Mismatch::OtherFrames);
        }
        drop_first(&mut self.kept, more as usize);
        self.acked = answer.count;
        self.mark = mark;
        self.state = State::Running {
            next: answer.count,
            spoke: now,
            heard: now,
        };
        Heard::GoOn
    }

    /// The receiver refused in the place of an answer.
    pub fn refused(&mut self, refusal: Refusal)
        ensures { self.new ≡ with_state self.old (State.Refused refusal) }
    {
        self.state = State::Refused(refusal);
    }

    /// The receiver acknowledged. `epoch` is that of this site.
    pub fn acknowledged(
        &mut self,
        acknowledgement: &Acknowledgement,
        epoch: Epoch,
        now: u64,
    ) -> Heard
        requires { IsRunning self.old.state }
        ensures { HearsAcknowledgement self.old acknowledgement.now epoch now self.new result }
    {
        let State::Running { next, spoke, .. } = self.state else {
            unreachable!();
        };
        if epoch.get() < acknowledgement.epoch.get() {
            return Heard::Turn;
        }
        if next < acknowledgement.count {
            let kept = self.kept.len() as u64;
            if kept < acknowledgement.count - self.acked {
                self.state = State::Mismatched(Mismatch::MoreThanSent);
                return Heard::Refuse(Mismatch::MoreThanSent);
            }
            self.state = after_end(now, self.state);
            return Heard::Close;
        }
        let count = u64::max(self.acked, acknowledgement.count);
        let more = count - self.acked;
        let mark = mark_of_first(self.mark, &self.kept, more as usize);
        drop_first(&mut self.kept, more as usize);
        self.acked = count;
        self.mark = mark;
        self.state = State::Running {
            next,
            spoke,
            heard: now,
        };
        Heard::GoOn
    }

    /// The next message that is to be written, which counts as written then.
    pub fn next_message(&mut self, now: u64) -> Option<Message>
        ensures { GivesNext self.old now self.new result }
    {
        let State::Running { next, heard, .. } = self.state else {
            return None;
        };
        let message = *self.kept.get((next - self.acked) as usize)?;
        self.state = State::Running {
            next: next + 1,
            spoke: now,
            heard: if next == self.acked { now } else { heard },
        };
        Some(message)
    }

    /// The connection ended, or a dial was in vain.
    pub fn ended(&mut self, now: u64)
        ensures { self.new ≡ with_state self.old (ended_state now self.old.state) }
    {
        self.state = after_end(now, self.state);
    }

    /// The site turned. Answers whether a note is to be written.
    pub fn turned(&mut self, now: u64) -> bool
        ensures note { IsTrue result ↔ IsRunning self.old.state }
        ensures after { self.new ≡ with_state self.old (noted_state now self.old.state) }
    {
        self.state = after_note(now, self.state);
        match self.state {
            State::Running { .. } => true,
            _ => false,
        }
    }

    /// What is to be done at this time.
    pub fn tick(&mut self, now: u64) -> Task
        ensures task { result ≡ task_of now self.old.state }
        ensures after { self.new ≡ with_state self.old (state_by now self.old.state result) }
    {
        let task = next_task(now, self.state);
        match task {
            Task::Rest | Task::Dial => {}
            Task::End => self.state = after_end(now, self.state),
            Task::Note => self.state = after_note(now, self.state),
        }
        task
    }
}

/// The pause before the last dial.
fn pause(state: State) -> u64
    ensures { result ≡ pause_of state }
{
    match state {
        State::Down { pause, .. } | State::Asked { pause, .. } => pause,
        _ => 0,
    }
}

/// A state whose connection ended.
fn after_end(now: u64, state: State) -> State
    ensures { result ≡ ended_state now state }
{
    match state {
        State::Refused(refusal) => State::Refused(refusal),
        State::Mismatched(mismatch) => State::Mismatched(mismatch),
        State::Down { pause, .. } | State::Asked { pause, .. } => State::Down {
            since: now,
            pause: longer(pause),
        },
        State::Running { .. } => State::Down {
            since: now,
            pause: longer(0),
        },
    }
}

/// The pause after a pause.
fn longer(pause: u64) -> u64
    ensures { result ≡ next_pause pause }
{
    pause.saturating_mul(2).max(FIRST_PAUSE).min(LONGEST_PAUSE)
}

/// A state in which a note was written.
fn after_note(now: u64, state: State) -> State
    ensures { result ≡ noted_state now state }
{
    match state {
        State::Running { next, heard, .. } => State::Running {
            next,
            spoke: now,
            heard,
        },
        other => other,
    }
}

/// What is to be done in a state at this time.
fn next_task(now: u64, state: State) -> Task
    ensures { result ≡ task_of now state }
{
    match state {
        State::Down { since, pause } if pause <= now.saturating_sub(since) => Task::Dial,
        State::Asked { since, .. } if ANSWER_WAIT <= now.saturating_sub(since) => Task::End,
        State::Running { spoke, heard, .. } => running_task(
            now.saturating_sub(spoke),
            now.saturating_sub(heard),
        ),
        _ => Task::Rest,
    }
}

/// The same of a connection, by how long ago something was written and heard.
fn running_task(written: u64, heard: u64) -> Task
    ensures { result ≡ (if nat_le 15000 heard then Task.End else (if nat_le 5000 written then Task.Note else Task.Rest)) }
{
    if ACKNOWLEDGEMENT_WAIT <= heard {
        Task::End
    } else if SILENCE <= written {
        Task::Note
    } else {
        Task::Rest
    }
}

/// The mark with that of the first so many messages after it.
fn mark_of_first(mark: Mark, messages: &VecDeque<Message>, count: usize) -> Mark
    requires { count ≤ length messages.now.items }
    ensures { result ≡ mark_on mark (spelled (take count messages.now.items)) }
{
    let mut folded = mark;
    for at in 0..count {
        folded = folded.on(encode(&messages[at]).as_slice());
    }
    folded
}

/// Drops the first so many messages. Where few are left of many, their room is given back.
fn drop_first(messages: &mut VecDeque<Message>, count: usize)
    requires { count ≤ length messages.old.items }
    ensures { messages.new.items ≡ drop count messages.old.items }
{
    for at in 0..count {
        let _ = messages.pop_front();
    }
    if messages.len() < messages.capacity() / 4 {
        messages.shrink_to(LEAST_ROOM.max(2 * messages.len()));
    }
}
