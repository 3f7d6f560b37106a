//! The clients of a thread, and their turns.

ghost use Rattle.std.specs.Prelude.{◌≡◌};
ghost use Rattle.cmh_client.specs.Wishes.{NextMeans};
ghost use Rattle.cmh_client.specs.declared.language.Meaning.TheVariants as meanings;
ghost use Rattle.cmh_talk.specs.Means.{MeansHere};

use crate::connection::{Connection, Talk};
use crate::mailbox::{Delivery, Mailbox};
use crate::rounds::Rounds;
use cmh_client::Wish;
use cmh_frames::{Event, ProcId};
use cmh_station::BATCH_LIMIT;
use cmh_talk::Said;
use std::alloc::{AllocError, Global};
use std::sync::Wait;

/// How many clients a service has at once; each further one is closed at once.
pub const MOST_CLIENTS: usize = 256;

/// How many events of a thread's clients are under way, at most: those of the round and those that wait for the next one.
/// There is room for the answers to so many.
pub(crate) const MOST_WAITING: usize = 2 * BATCH_LIMIT;

/// How many bytes are read at once, at most.
const MOST_READ: usize = 1 << 14;

/// The clients of a thread, each at a place of its own.
#[derive(Drop)]
pub(crate) struct Clients {
    places: Vec<Option<Connection>>,
    /// The number of the thread.
    number: usize,
    /// How many of their events wait for their answers.
    waiting: usize,
    /// Whose turn is first in the next round.
    first: usize,
    /// Room for the answers that came.
    replies: Vec<Delivery>,
    scratch: Vec<u8>,
    alloc: Global,
}

impl Clients {
    /// Nobody, with room for all.
    pub fn new(alloc: Global, number: usize) -> Result<Clients, AllocError> {
        Ok(Clients {
            places: Vec::with_capacity(alloc, MOST_CLIENTS)?,
            number,
            waiting: 0,
            first: 0,
            replies: Vec::with_capacity(alloc, MOST_WAITING)?,
            scratch: Vec::from_elem(alloc, 0, MOST_READ)?,
            alloc,
        })
    }

    /// A free place, if there is one.
    pub fn free_place(&mut self) -> Option<usize> {
        let free = self.places.iter().position(|client| client.is_none());
        if free.is_some() {
            return free;
        }
        let next = self.places.len();
        if next >= MOST_CLIENTS || self.places.push(None).is_err() {
            return None;
        }
        Some(next)
    }

    /// Puts a client at a place.
    pub fn put(&mut self, place: usize, connection: Connection) {
        if let Some(client) = self.places.get_mut(place) {
            *client = Some(connection);
        }
    }

    /// The client at a place.
    pub fn at(&mut self, place: usize) -> Option<&mut Connection> {
        match self.places.get_mut(place) {
            Some(Some(connection)) => Some(connection),
            _ => None,
        }
    }

    /// Reads what clients sent.
    pub fn read_all(&mut self) {
        for client in self.places.iter_mut() {
            if let Some(connection) = client {
                connection.read(&mut self.scratch);
            }
        }
    }

    /// Sends what clients are to be sent, and closes those that are over.
    pub fn write_all(&mut self, mailbox: &Mailbox) {
        for client in self.places.iter_mut() {
            if let Some(connection) = client {
                connection.write();
                if connection.is_over() {
                    *client = None;
                    mailbox.leave();
                }
            }
        }
    }

    /// Whether there is more to do at once.
    pub fn is_busy(&self) -> bool {
        self.places.iter().any(|client| match client {
            Some(connection) => connection.is_busy(),
            None => false,
        })
    }

    /// Says the answers that came to the clients that wait for them. Answers whether some came.
    pub fn take_replies<R: Wait>(&mut self, rt: &R, mailbox: &Mailbox) -> bool {
        mailbox.take_replies(rt, &mut self.replies);
        let has_some = !self.replies.is_empty();
        for delivery in self.replies.drain(..) {
            self.waiting = self.waiting.saturating_sub(1);
            if let Some(Some(connection)) = self.places.get_mut(delivery.place) {
                connection.answer(&delivery);
            }
        }
        has_some
    }

    /// There may be room for events again.
    pub fn let_on(&mut self) {
        for client in self.places.iter_mut() {
            if let Some(connection) = client {
                connection.is_held = false;
            }
        }
    }

    /// Tells declarations to those who watch.
    pub fn tell(&mut self, declared: &[ProcId]) {
        for client in self.places.iter_mut() {
            if let Some(connection) = client {
                if connection.talk.tell(declared).is_err() {
                    connection.give_up();
                }
            }
        }
    }

    pub fn has_watchers(&self) -> bool {
        self.places.iter().any(|client| match client {
            Some(connection) => connection.talk.watches(),
            None => false,
        })
    }

    /// Takes lines of each client that waits for no answer, up to a question that comes after an event: the events wait
    /// for a round, and the other lines are answered. The first one that finds no room is the first in the next turn.
    pub fn take_lines<R: Wait + Drop>(&mut self, rt: &R, rounds: &Rounds<R>) {
        let share = rounds.share();
        let count = self.places.len().max(1);
        let mut next = None;
        for step in 0..count {
            let place = self.first.saturating_add(step) % count;
            let Some(Some(connection)) = self.places.get_mut(place) else {
                continue;
            };
            if connection.waiting() > 0 || connection.is_held {
                continue;
            }
            let turn = Turn {
                place: self
                    .number
                    .saturating_mul(MOST_CLIENTS)
                    .saturating_add(place),
                most: share.min(MOST_WAITING.saturating_sub(self.waiting)),
            };
            if turn.take(rt, self.alloc, connection, rounds).is_err() {
                connection.give_up();
            }
            if next.is_none() && connection.is_held {
                next = Some(place);
            }
            self.waiting = self.waiting.saturating_add(connection.waiting());
        }
        self.first = next.unwrap_or(self.first.saturating_add(1) % count);
    }

    /// How many clients have said something that is not answered yet.
    pub fn served(&self) -> usize {
        let served = self.places.iter().filter(|client| match client {
            Some(connection) => connection.waiting() > 0 || connection.has_more(),
            None => false,
        });
        served.count()
    }
}

/// The turn of a client in a round.
#[derive(Clone, Copy)]
struct Turn {
    /// The place of the client among those of all threads.
    place: usize,
    /// How many events of it may wait.
    most: usize,
}

impl Turn {
    fn take<R: Wait + Drop>(
        self,
        rt: &R,
        alloc: Global,
        connection: &mut Connection,
        rounds: &Rounds<R>,
    ) -> Result<(), AllocError> {
        for turn in 0..BATCH_LIMIT {
            match connection.talk.wish()? {
                Wish::Silence => {}
                Wish::Nothing => return Ok(()),
                Wish::Question(question) => answer(rt, &mut connection.talk, rounds, &question)?,
                Wish::Event(event) => {
                    if !self.take_event(rt, alloc, connection, rounds, event)? {
                        return Ok(());
                    }
                }
            }
        }
        Ok(())
    }

    /// Has the next line of a client, which is this event, wait for a round. Answers whether there was room for it.
    fn take_event<R: Wait + Drop>(
        self,
        rt: &R,
        alloc: Global,
        connection: &mut Connection,
        rounds: &Rounds<R>,
        event: Event,
    ) -> Result<bool, AllocError>
        requires { NextMeans MeansHere connection.old.talk.client (meanings.Event event) }
    {
        connection.talk.make_room()?;
        let copy = event.copy(alloc)?;
        let waiting = connection.waiting();
        if waiting >= self.most || rounds.take(rt, self.place, copy).is_err() {
            connection.is_held = waiting == 0;
            return Ok(false);
        }
        connection.talk.take(event)?;
        Ok(true)
    }
}

/// Answers a line that is no event.
#[tactic(auto, using(cmh_talk::proofs::Replies::answers_question))]
fn answer<R: Wait + Drop>(
    rt: &R,
    talk: &mut Talk,
    rounds: &Rounds<R>,
    question: &Said,
) -> Result<(), AllocError>
    requires means { NextMeans MeansHere talk.old.client (meanings.Question question.now) }
    requires alone { talk.old.client.waiting ≡ 0 }
{
    talk.reply(question, rounds.answer(rt, question))?;
    if let Said::Watch = question {
        talk.watch();
        let declared = rounds.declarations(rt).ok_or(AllocError)?;
        talk.tell(declared.as_slice())?;
    }
    Ok(())
}
