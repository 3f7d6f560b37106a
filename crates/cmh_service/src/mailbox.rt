//! What other threads leave for a thread that serves clients.

ghost use Rattle.std.specs.Prelude.{None};
ghost use Rattle.cmh_talk.specs.Replies.{IsReply};

use crate::clients::{MOST_CLIENTS, MOST_WAITING};
use cmh_client::Waiting;
use cmh_frames::Event;
use cmh_talk::EventReply;
use mio::Waker;
use mio::net::TcpStream;
use std::alloc::{AllocError, Global};
use std::mem::swap;
use std::sync::atomic::{AtomicBool, AtomicUsize, Ordering};
use std::sync::{Arc, Mutex, Wait};

/// The reply to an event, with the place of the client that waits for it.
#[derive(Drop)]
pub(crate) struct Delivery {
    pub place: usize,
    pub event: Event,
    pub reply: EventReply,
    ghost is: { ∥ IsReply event reply ∥₁ },
}

/// The mailbox of a thread, and what wakes it.
#[derive(Drop)]
pub(crate) struct Mailbox {
    waker: Waker,
    newcomers: Mutex<Vec<TcpStream>>,
    replies: Mutex<Vec<Delivery>>,
    /// Whether something was declared that its watching clients were not told.
    has_news: AtomicBool,
    /// Whether the thread is to be woken at the end of the round that is under way.
    awaits_round: AtomicBool,
    /// Whether the thread is to be woken once the next round has room for events.
    awaits_room: AtomicBool,
    /// How many clients the thread has, with the newcomers.
    clients: AtomicUsize,
    /// How many of them had said something that was not answered yet, when the thread looked last.
    served: AtomicUsize,
}

impl Mailbox {
    pub fn new(alloc: Global, waker: Waker) -> Result<Mailbox, AllocError> {
        Ok(Mailbox {
            waker,
            newcomers: Mutex::new(Vec::with_capacity(alloc, MOST_CLIENTS)?),
            replies: Mutex::new(Vec::with_capacity(alloc, MOST_WAITING)?),
            has_news: AtomicBool::new(false),
            awaits_round: AtomicBool::new(false),
            awaits_room: AtomicBool::new(false),
            clients: AtomicUsize::new(0),
            served: AtomicUsize::new(0),
        })
    }

    pub fn clients(&self) -> usize {
        self.clients.load(Ordering::SeqCst)
    }

    pub fn served(&self) -> usize {
        self.served.load(Ordering::SeqCst)
    }

    pub fn set_served(&self, count: usize) {
        self.served.store(count, Ordering::SeqCst);
    }

    /// The thread is to be woken once the next round has room.
    pub fn await_room(&self) {
        self.awaits_room.store(true, Ordering::SeqCst);
    }

    pub fn awaits_room(&self) -> bool {
        self.awaits_room.load(Ordering::SeqCst)
    }

    /// Gives the thread one more client.
    pub fn bring<R: Wait>(&self, rt: &R, stream: TcpStream) {
        self.clients.fetch_add(1, Ordering::SeqCst);
        if self.newcomers.lock(rt).push(stream).is_err() {
            self.leave();
        }
        let _ = self.waker.wake();
    }

    pub fn newcomer<R: Wait>(&self, rt: &R) -> Option<TcpStream> {
        self.newcomers.lock(rt).pop()
    }

    /// A client went away.
    pub fn leave(&self) {
        self.clients.fetch_sub(1, Ordering::SeqCst);
    }

    /// Takes the answers that came, into a list that is empty.
    pub fn take_replies<R: Wait>(&self, rt: &R, into: &mut Vec<Delivery>) {
        let mut replies = self.replies.lock(rt);
        swap(&mut *replies, into);
    }

    /// Something was declared.
    pub fn tell_news(&self) {
        self.has_news.store(true, Ordering::SeqCst);
        let _ = self.waker.wake();
    }

    /// Wakes whoever waits for what comes to the thread.
    pub fn wake(&self) {
        let _ = self.waker.wake();
    }

    pub fn take_news(&self) -> bool {
        self.has_news.swap(false, Ordering::SeqCst)
    }
}

/// Puts answers into the mailboxes of the threads whose clients wait for them.
#[derive(Drop)]
pub(crate) struct Dispatcher<R: Wait + Drop> {
    rt: R,
    mailboxes: Arc<Vec<Mailbox>>,
    /// Of the thread itself, which needs not be woken.
    own: usize,
    /// A bit for each thread that was given something.
    given: u64,
}

impl<R: Wait + Drop> Dispatcher<R> {
    pub fn new(rt: R, mailboxes: Arc<Vec<Mailbox>>, own: usize) -> Dispatcher<R> {
        Dispatcher {
            rt,
            mailboxes,
            own,
            given: 0,
        }
    }

    /// The number of the thread itself.
    pub fn number(&self) -> usize {
        self.own
    }

    /// Whether the thread is to be woken at the end of the round that is under way.
    pub fn await_round(&self, awaits: bool) {
        if let Some(mailbox) = self.mailboxes.get(self.own) {
            mailbox.awaits_round.store(awaits, Ordering::SeqCst);
        }
    }

    /// Wakes the other threads that await room in the next round.
    pub fn wake_for_room(&self) {
        for (number, mailbox) in self.mailboxes.iter().enumerate() {
            let awaits = mailbox.awaits_room.swap(false, Ordering::SeqCst);
            if awaits && number != self.own {
                let _ = mailbox.waker.wake();
            }
        }
    }

    /// Wakes the other threads that were given something, and those that await the end of the round.
    pub fn wake_all(&mut self) {
        for (number, mailbox) in self.mailboxes.iter().enumerate() {
            let awaits = mailbox.awaits_round.swap(false, Ordering::SeqCst);
            let is_given = self.given >> (number % 64) & 1 == 1;
            if number != self.own && (awaits || is_given) {
                let _ = mailbox.waker.wake();
            }
        }
        self.given = 0;
    }
}

impl<R: Wait + Drop> Waiting<Event, EventReply> for Dispatcher<R> {
    ghost given = { λ _. None };

    ghost Replies = { IsReply };

    fn give(&mut self, place: usize, event: Event, reply: EventReply) {
        let number = place / MOST_CLIENTS;
        if let Some(mailbox) = self.mailboxes.get(number) {
            // There is room: a thread has no more events under way than places for their answers.
            let delivery = Delivery {
                place: place % MOST_CLIENTS,
                event,
                reply,
            };
            let _ = mailbox.replies.lock(&self.rt).push(delivery);
            self.given |= 1 << (number % 64);
        }
    }
}
