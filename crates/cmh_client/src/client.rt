//! A client of a service, whatever carries its bytes.

ghost use Rattle.std.specs.Prelude.{◌≡◌, ◌↔◌, ◌+◌, ◌-◌, ◌^◌, ◌<◌, ◌≤◌, true, false, length, is_some, IfSome, IsErr, IsTrue, OnOk, OnErr};
ghost use Rattle.cmh_client.specs.Clients.{announces, answers, carries, closes, fresh, hears, leaves, skips, takes, tells, watches};
ghost use Rattle.cmh_client.specs.Lines.{HasFeed};
ghost use Rattle.cmh_client.specs.Nexts.{IsNext};

use crate::next::{MOST_HEARD, Next, first_len, first_of};
use crate::saying::{say, say_all};
use crate::telling::Telling;
use std::alloc::{AllocError, Global};
use std::fmt;
use std::marker::Model;

/// A client to which more bytes are to be sent than these does not read, and is to be closed.
pub const MOST_QUEUED: usize = 1 << 20;

/// Room for the answer to an event.
const MOST_ANSWER: usize = 64;

/// A client: the bytes that it sent and that were not taken as lines yet, the lines that wait for their answers, and the bytes
/// that are to be sent to it.
///
/// A line that is an event or a question ([`Client::wish`]) is taken, and then answered in its turn. Once memory was refused, each
/// call that can fail does, and the client is to be closed.
#[derive(Drop)]
pub struct Client {
    heard: Vec<u8>,
    /// How many of the heard bytes were taken.
    taken: usize,
    waiting: usize,
    queue: Vec<u8>,
    /// What is put into the queue next, until it is whole.
    draft: Vec<u8>,
    told: Option<usize>,
    is_leaving: bool,
    /// How many bytes it sent after it had said its last.
    past: usize,
    is_closed: bool,
}

impl Model for Client {
    ghost use Rattle.std.specs.Prelude.{◌≤◌, drop, vec_len};
    ghost use Rattle.cmh_client.specs.Clients.{State};

    ghost Value = { State };

    ghost view = { λ c. record {
      unread = drop c.taken c.heard.items;
      waiting = c.waiting;
      to_say = c.queue.items;
      told = c.told;
      is_leaving = c.is_leaving;
      is_closed = c.is_closed;
    } };

    ghost invariant = { λ c. c.taken ≤ vec_len c.heard };
}

impl Client {
    /// One that has sent nothing.
    pub fn new(alloc: Global) -> Client
        ensures { result ≡ fresh }
    {
        Client {
            heard: Vec::new(alloc),
            taken: 0,
            waiting: 0,
            queue: Vec::new(alloc),
            draft: Vec::new(alloc),
            told: None,
            is_leaving: false,
            past: 0,
            is_closed: false,
        }
    }

    /// Whether more bytes of it may be read.
    pub fn has_room(&self) -> bool
        ensures { self.now.is_leaving ≡ false → IsTrue result ↔ (length self.now.unread ≤ 65536) }
    {
        if self.is_leaving {
            self.past <= MOST_HEARD
        } else {
            self.heard.len() - self.taken <= MOST_HEARD
        }
    }

    /// Takes bytes that it sent. What it sends after its last line is none.
    pub fn hear(&mut self, bytes: &[u8]) -> Result<(), AllocError>
        ensures heard { OnOk result (self.old.is_leaving ≡ false → self.new ≡ hears self.old bytes.now) }
        ensures left { OnOk result (self.old.is_leaving ≡ true → self.new ≡ self.old) }
        ensures closed { OnErr result (self.new ≡ closes self.old) }
        ensures shut { self.old.is_closed ≡ true → IsErr result }
    {
        if self.is_closed {
            return Err(AllocError);
        }
        if self.is_leaving {
            self.past = self.past.saturating_add(bytes.len());
            return Ok(());
        }
        self.heard.drain(..self.taken);
        self.taken = 0;
        if self.heard.extend_from_slice(bytes).is_err() {
            self.is_closed = true;
            return Err(AllocError);
        }
        Ok(())
    }

    /// What it sent and was not taken.
    fn unread(&self) -> &[u8]
        ensures { result.now ≡ self.now.unread }
    {
        &self.heard[self.taken..]
    }

    /// What stands next in what it sent.
    pub fn next(&self) -> Next<'_>
        ensures { IsNext self.now result }
    {
        if self.is_leaving || self.is_closed {
            return Next::Nothing;
        }
        first_of(self.unread())
    }

    /// Makes room for the answer to an event.
    pub fn make_room(&mut self) -> Result<(), AllocError>
        ensures same { OnOk result (self.new ≡ self.old) }
        ensures closed { OnErr result (self.new ≡ closes self.old) }
        ensures shut { self.old.is_closed ≡ true → IsErr result }
    {
        let count = self.waiting.saturating_add(1);
        if self.is_closed
            || self
                .queue
                .reserve(count.saturating_mul(MOST_ANSWER))
                .is_err()
            || self.draft.reserve(MOST_ANSWER).is_err()
        {
            self.is_closed = true;
            return Err(AllocError);
        }
        Ok(())
    }

    /// Takes its next line, which waits for its answer then.
    pub fn take(&mut self)
        requires line { HasFeed self.old.unread }
        requires few { self.old.waiting < 2 ^ 64 - 1 }
        ensures { self.new ≡ takes self.old }
    {
        self.taken += first_len(&self.heard[self.taken..]);
        self.waiting += 1;
    }

    /// Passes over its next line, which has no answer.
    pub(crate) fn skip(&mut self)
        requires { HasFeed self.old.unread }
        ensures { self.new ≡ skips self.old }
    {
        self.taken += first_len(&self.heard[self.taken..]);
    }

    /// How many of its lines wait for their answers.
    pub fn waiting(&self) -> usize
        ensures { result ≡ self.now.waiting }
    {
        self.waiting
    }

    /// Answers the first of the lines that wait.
    pub fn answer<T: fmt::Display + Drop>(&mut self, text: T) -> Result<(), AllocError>
        requires { 0 < self.old.waiting }
        ensures answered { OnOk result (IfSome (T.output text) (λ text. self.new ≡ answers self.old text)) }
        ensures waiting { OnOk result (self.new.waiting + 1 ≡ self.old.waiting) }
        ensures closed { OnErr result (self.new ≡ closes self.old) }
        ensures shut { self.old.is_closed ≡ true → IsErr result }
    {
        if self.is_closed || say(&mut self.draft, &mut self.queue, text).is_err() {
            self.is_closed = true;
            return Err(AllocError);
        }
        self.waiting -= 1;
        Ok(())
    }

    /// Takes its next line, and answers it at once.
    pub fn reply<T: fmt::Display + Drop>(&mut self, text: T) -> Result<(), AllocError>
        requires { HasFeed self.old.unread }
        ensures replied { OnOk result (IfSome (T.output text) (λ text. self.new ≡ answers (takes self.old) text)) }
        ensures waiting { OnOk result (self.new.waiting ≡ self.old.waiting) }
        ensures closed { OnErr result (self.new ≡ closes self.old) }
        ensures shut { self.old.is_closed ≡ true → IsErr result }
    {
        if self.is_closed || say(&mut self.draft, &mut self.queue, text).is_err() {
            self.is_closed = true;
            return Err(AllocError);
        }
        self.taken += first_len(&self.heard[self.taken..]);
        Ok(())
    }

    /// From now on it is told news, those of before, too.
    pub fn watch(&mut self)
        ensures { self.new ≡ watches self.old }
    {
        if self.told.is_none() {
            self.told = Some(0);
        }
    }

    pub fn watches(&self) -> bool
        ensures { result ≡ is_some self.now.told }
    {
        self.told.is_some()
    }

    /// Tells it, if it watches, those of all items that it was not told.
    pub fn tell<T, L: Telling<T>>(&mut self, telling: &L, items: &[T]) -> Result<(), AllocError>
        ensures told { OnOk result (self.new ≡ tells L.line self.old items.now) }
        ensures closed { OnErr result (self.new ≡ closes self.old) }
        ensures shut { self.old.is_closed ≡ true → IsErr result }
    {
        if self.is_closed {
            return Err(AllocError);
        }
        let Some(told) = self.told else {
            return Ok(());
        };
        if told < items.len() {
            let news = &items[told..];
            if say_all(&mut self.draft, &mut self.queue, telling, news).is_err() {
                self.is_closed = true;
                return Err(AllocError);
            }
            self.told = Some(items.len());
        }
        Ok(())
    }

    /// Tells it, if it watches, each of these items, whatever it was told before.
    pub fn announce<T, L: Telling<T>>(&mut self, telling: &L, items: &[T]) -> Result<(), AllocError>
        ensures told { OnOk result (self.new ≡ announces L.line self.old items.now) }
        ensures closed { OnErr result (self.new ≡ closes self.old) }
        ensures shut { self.old.is_closed ≡ true → IsErr result }
    {
        if self.is_closed {
            return Err(AllocError);
        }
        let Some(told) = self.told else {
            return Ok(());
        };
        let Some(now_told) = told.checked_add(items.len()) else {
            self.is_closed = true;
            return Err(AllocError);
        };
        if say_all(&mut self.draft, &mut self.queue, telling, items).is_err() {
            self.is_closed = true;
            return Err(AllocError);
        }
        self.told = Some(now_told);
        Ok(())
    }

    /// What is to be sent to it.
    pub fn to_say(&self) -> &[u8]
        ensures { result.now ≡ self.now.to_say }
    {
        &self.queue
    }

    /// So many of these bytes were sent.
    pub fn said(&mut self, count: usize)
        ensures { self.new ≡ carries self.old count }
    {
        self.queue.drain(..count.min(self.queue.len()));
    }

    /// It has said its last.
    pub fn leave(&mut self)
        ensures { self.new ≡ leaves self.old }
    {
        self.is_leaving = true;
    }

    /// Memory was refused.
    pub(crate) fn close(&mut self)
        ensures { self.new ≡ closes self.old }
    {
        self.is_closed = true;
    }

    pub fn is_leaving(&self) -> bool
        ensures { result ≡ self.now.is_leaving }
    {
        self.is_leaving
    }

    /// Whether memory was refused, so that it is to be closed.
    pub fn is_closed(&self) -> bool
        ensures { result ≡ self.now.is_closed }
    {
        self.is_closed
    }
}
