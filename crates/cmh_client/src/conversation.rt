//! A client whose lines are answered as they mean, and who is told a list that grows.

ghost use Rattle.std.specs.Prelude.{◌≡◌, ◌<◌, ◌++◌, IfOk, IfSome, OnErr, OnOk, true, false, slice_index_or};
ghost use Rattle.cmh_client.specs.Clients.{carries, closes, hears, leaves, watches};
ghost use Rattle.cmh_client.specs.Conversations.{MayTell, answers_first, replies, takes_event, tells_list, unserved, with_client};
ghost use Rattle.cmh_client.specs.Nexts.{IsNext};
ghost use Rattle.cmh_client.specs.Wishes.{NextMeans, Wishes};
ghost use Rattle.cmh_client.specs.declared.language.Meaning.TheVariants.{Event, Question};

use crate::client::Client;
use crate::language::Language;
use crate::next::Next;
use crate::telling::Telling;
use crate::wish::Wish;
use std::alloc::{AllocError, Global};
use std::collections::VecDeque;
use std::fmt;
use std::marker::{Model, PhantomData};

/// A client with the events of its lines that wait for their answers, and the list that it was told.
///
/// An answer comes with the event that it is for. One for another event than the first that waits closes the client, and so
/// does a list that does not go on from the one that it was told.
#[derive(Drop)]
pub struct Conversation<E, Q, T, L: Language<E, Q> + Telling<T>> {
    language: L,
    client: Client,
    events: VecDeque<E>,
    told: Vec<T>,
    questions: PhantomData<Q>,
}

impl<E, Q, T, L: Language<E, Q> + Telling<T>> Model for Conversation<E, Q, T, L> {
    ghost use Rattle.std.specs.Prelude.{◌≡◌};
    ghost use Rattle.std.specs.VecDeque.{deque_len};
    ghost use Rattle.cmh_client.specs.Conversations.{Served};

    ghost Value = { Served E T };

    ghost view = { λ c. record { client = c.client; events = c.events.items; told = c.told.items } };

    ghost invariant = { λ c. deque_len c.events ≡ c.client.waiting };
}

impl<E: Drop, Q: Drop, T: Copy, L: Language<E, Q> + Telling<T> + Drop> Conversation<E, Q, T, L> {
    /// With one that has sent nothing.
    pub fn new(alloc: Global, language: L) -> Self
        ensures { result ≡ unserved }
    {
        Conversation {
            language,
            client: Client::new(alloc),
            events: VecDeque::new(alloc),
            told: Vec::new(alloc),
            questions: PhantomData,
        }
    }

    /// Whether more bytes of it may be read.
    pub fn has_room(&self) -> bool {
        self.client.has_room()
    }

    /// [`Client::hear`].
    pub fn hear(&mut self, bytes: &[u8]) -> Result<(), AllocError>
        ensures heard { OnOk result (self.old.client.is_leaving ≡ false
            → self.new ≡ with_client self.old (hears self.old.client bytes.now)) }
        ensures left { OnOk result (self.old.client.is_leaving ≡ true → self.new ≡ self.old) }
        ensures closed { OnErr result (self.new ≡ with_client self.old (closes self.old.client)) }
    {
        self.client.hear(bytes)
    }

    /// [`Client::next`].
    pub fn next(&self) -> Next<'_>
        ensures { IsNext self.now.client result }
    {
        self.client.next()
    }

    /// [`Client::wish`].
    pub fn wish(&mut self) -> Result<Wish<E, Q>, AllocError>
        ensures wish { IfOk result (λ wish. Wishes L.Means self.old.client wish self.new.client) }
        ensures events { self.new.events ≡ self.old.events }
        ensures told { self.new.told ≡ self.old.told }
        ensures closed { OnErr result (self.new ≡ with_client self.old (closes self.old.client)) }
    {
        self.client.wish(&mut self.language)
    }

    /// Makes room for the answer to an event, and for the event to wait.
    pub fn make_room(&mut self) -> Result<(), AllocError>
        ensures same { OnOk result (self.new ≡ self.old) }
        ensures closed { OnErr result (self.new ≡ with_client self.old (closes self.old.client)) }
    {
        self.client.make_room()?;
        if self.events.reserve(1).is_err() {
            self.client.close();
            return Err(AllocError);
        }
        Ok(())
    }

    /// Takes its next line, which means this event. It waits for its answer then.
    pub fn take(&mut self, event: E) -> Result<(), AllocError>
        requires { NextMeans L.Means self.old.client (Event event) }
        ensures taken { OnOk result (self.new ≡ takes_event self.old event) }
        ensures closed { OnErr result (self.new ≡ with_client self.old (closes self.old.client)) }
    {
        if self.events.push_back(event).is_err() {
            self.client.close();
            return Err(AllocError);
        }
        self.client.take();
        Ok(())
    }

    /// How many of its events wait for their answers.
    pub fn waiting(&self) -> usize
        ensures { result ≡ self.now.client.waiting }
    {
        self.client.waiting()
    }

    /// Answers the first of the events that wait. An error where it isn't this one, which never is so.
    pub fn answer<A: fmt::Display + Drop>(&mut self, event: &E, text: A) -> Result<(), AllocError>
        requires { IfSome (A.output text) (L.Answers event.now) }
        ensures first { OnOk result ((0 < self.old.client.waiting) × (event.now ≡ slice_index_or self.old.events 0 event.now)) }
        ensures answered { OnOk result (IfSome (A.output text) (λ text. self.new ≡ answers_first self.old text)) }
        ensures closed { OnErr result (self.new ≡ with_client self.old (closes self.old.client)) }
    {
        if !self.waits_for(event) {
            self.client.close();
            return Err(AllocError);
        }
        self.client.answer(text)?;
        self.events.pop_front();
        Ok(())
    }

    /// Whether this event is the first that waits.
    fn waits_for(&self, event: &E) -> bool
        ensures { result ≡ true → (0 < self.now.client.waiting) × (event.now ≡ slice_index_or self.now.events 0 event.now) }
    {
        match self.events.front() {
            Some(first) => self.language.same_event(first, event),
            None => false,
        }
    }

    /// Takes its next line, which means this question, and answers it.
    pub fn reply<A: fmt::Display + Drop>(&mut self, question: &Q, text: A) -> Result<(), AllocError>
        requires means { NextMeans L.Means self.old.client (Question question.now) }
        requires alone { self.old.client.waiting ≡ 0 }
        requires answers { IfSome (A.output text) (L.Replies question.now) }
        ensures replied { OnOk result (IfSome (A.output text) (λ text. self.new ≡ replies self.old text)) }
        ensures closed { OnErr result (self.new ≡ with_client self.old (closes self.old.client)) }
    {
        self.client.reply(text)
    }

    /// From now on it is told the list, what was in it before, too.
    pub fn watch(&mut self)
        ensures { self.new ≡ with_client self.old (watches self.old.client) }
    {
        self.client.watch();
    }

    pub fn watches(&self) -> bool {
        self.client.watches()
    }

    /// Tells it, if it watches, those of all items that it was not told. An error where they don't begin with those that it
    /// was told, which never is so.
    pub fn tell(&mut self, items: &[T]) -> Result<(), AllocError>
        ensures told { OnOk result (self.new ≡ tells_list L.line self.old items.now) }
        ensures goes_on { OnOk result (MayTell self.old items.now) }
        ensures closed { OnErr result (self.new ≡ with_client self.old (closes self.old.client)) }
    {
        if !self.client.watches() {
            return Ok(());
        }
        let Some(more) = behind(&self.language, &self.told, items) else {
            self.client.close();
            return Err(AllocError);
        };
        if self.told.reserve(more.len()).is_err() {
            self.client.close();
            return Err(AllocError);
        }
        self.client.tell(&self.language, items)?;
        if self.told.extend_from_slice(more).is_err() {
            unreachable!();
        }
        Ok(())
    }

    /// What is to be sent to it.
    pub fn to_say(&self) -> &[u8]
        ensures { result.now ≡ self.now.client.to_say }
    {
        self.client.to_say()
    }

    /// So many of these bytes were sent.
    pub fn said(&mut self, count: usize)
        ensures { self.new ≡ with_client self.old (carries self.old.client count) }
    {
        self.client.said(count);
    }

    pub fn is_leaving(&self) -> bool
        ensures { result ≡ self.now.client.is_leaving }
    {
        self.client.is_leaving()
    }

    /// Whether memory was refused, so that it is to be closed.
    pub fn is_closed(&self) -> bool
        ensures { result ≡ self.now.client.is_closed }
    {
        self.client.is_closed()
    }
}

/// What is behind these items, if all begin with them.
fn behind<'a, T, L: Telling<T>>(telling: &L, before: &[T], items: &'a [T]) -> Option<&'a [T]>
    ensures { IfSome result (λ more. items.now ≡ before.now ++ more.now) }
{
    if before.len() > items.len() {
        return None;
    }
    for at in 0..before.len() {
        if !telling.same_item(&before[at], &items[at]) {
            return None;
        }
    }
    Some(&items[before.len()..])
}
