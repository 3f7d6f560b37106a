//! The rounds in which events go to the station: those of all clients that wait at that moment go together.

ghost use Rattle.std.specs.Prelude.{◌≤◌, vec_capacity};
ghost use Rattle.cmh_talk.specs.Replies.{WasAnswered};
ghost use Rattle.cmh_station.specs.Journaled.{batch_limit};

use crate::clients::MOST_CLIENTS;
use crate::host::Host;
use crate::mailbox::{Dispatcher, Mailbox};
use crate::questions::Questions;
use cmh_client::Desk;
use cmh_frames::Event;
use cmh_station::{BATCH_LIMIT, Declared};
use cmh_talk::{EventReply, Reply, Said};
use crossbeam_utils::sync::Unparker;
use mio::Waker;
use std::alloc::{AllocError, Global};
use std::mem::swap;
use std::sync::atomic::{AtomicBool, AtomicU64, AtomicUsize, Ordering};
use std::sync::{Arc, Mutex, Wait};

/// The events of a round, and room for the replies to them.
#[derive(Drop)]
pub(crate) struct Round {
    desk: Desk<Event>,
    replies: Vec<EventReply>,
    ghost room: { batch_limit ≤ vec_capacity replies },
}

impl Round {
    pub fn new(alloc: Global) -> Result<Round, AllocError> {
        Ok(Round {
            desk: Desk::new(alloc)?,
            replies: Vec::with_capacity(alloc, BATCH_LIMIT)?,
        })
    }

    /// Gives the events to a site, and the replies to who waits for them.
    fn step<R: Wait + Drop>(&mut self, host: &Host<R>, dispatcher: &mut Dispatcher<R>) {
        self.replies.clear();
        host.step_all(self.desk.events(), &mut self.replies);
        self.desk.hand_back(&self.replies, dispatcher);
    }
}

/// What the threads of a service share.
#[derive(Drop)]
pub(crate) struct Rounds<R: Wait + Drop> {
    host: Mutex<Host<R>>,
    questions: Mutex<Questions<R>>,
    /// The events that wait for the next round.
    desk: Mutex<Desk<Event>>,
    /// Whether a round is under way.
    is_stepping: AtomicBool,
    /// How many rounds have begun, and how many have ended, together: it is odd while one is under way.
    turns: AtomicU64,
    /// The number of the thread that gave the newest round to the station.
    stepping: AtomicUsize,
    stand_in: StandInState,
    pub mailboxes: Arc<Vec<Mailbox>>,
    /// Whether a thread can't serve its clients any more.
    has_ended: AtomicBool,
    /// Wakes the thread that lets clients in.
    acceptor: Waker,
}

/// The thread that stands in for another one during its round.
#[derive(Drop)]
struct StandInState {
    unparker: Unparker,
    /// Whether it looks at the rounds by itself, and need not be woken.
    is_watching: AtomicBool,
    /// Whether it serves the clients of another thread.
    is_serving: AtomicBool,
}

/// A site, as events and as questions ask it.
#[derive(Drop)]
pub(crate) struct Asked<R: Wait + Drop> {
    pub host: Host<R>,
    pub questions: Questions<R>,
}

/// What wakes the thread that lets clients in, and the one that stands in for those that serve them.
#[derive(Drop)]
pub(crate) struct Wakers {
    pub acceptor: Waker,
    pub stand_in: Unparker,
}

impl<R: Wait + Drop> Rounds<R> {
    pub fn new(
        asked: Asked<R>,
        desk: Desk<Event>,
        mailboxes: Arc<Vec<Mailbox>>,
        wakers: Wakers,
    ) -> Rounds<R> {
        let Asked { host, questions } = asked;
        let Wakers { acceptor, stand_in } = wakers;
        Rounds {
            host: Mutex::new(host),
            questions: Mutex::new(questions),
            desk: Mutex::new(desk),
            is_stepping: AtomicBool::new(false),
            turns: AtomicU64::new(0),
            stepping: AtomicUsize::new(0),
            stand_in: StandInState {
                unparker: stand_in,
                is_watching: AtomicBool::new(false),
                is_serving: AtomicBool::new(false),
            },
            mailboxes,
            has_ended: AtomicBool::new(false),
            acceptor,
        }
    }

    /// A thread can't serve its clients any more: the service ends.
    pub fn end(&self) {
        self.has_ended.store(true, Ordering::SeqCst);
        let _ = self.acceptor.wake();
    }

    pub fn has_ended(&self) -> bool {
        self.has_ended.load(Ordering::SeqCst)
    }

    /// Has an event of the client at a place wait for the next round. An error where as many wait as a round takes: its
    /// thread is woken once there is room again.
    pub fn take(&self, rt: &R, place: usize, event: Event) -> Result<(), AllocError> {
        let mut desk = self.desk.lock(rt);
        let taken = desk.take(place, event);
        if taken.is_err() {
            // Under the lock, since whoever makes room next looks for it after that.
            if let Some(mailbox) = self.mailboxes.get(place / MOST_CLIENTS) {
                mailbox.await_room();
            }
        }
        taken
    }

    /// Whether events wait for a round, and none is under way.
    pub fn is_due(&self, rt: &R) -> bool {
        !self.is_stepping.load(Ordering::SeqCst) && self.has_events(rt)
    }

    fn has_events(&self, rt: &R) -> bool {
        !self.desk.lock(rt).events().is_empty()
    }

    /// Gives the events that wait to the station. Where a round is under way, the thread is woken at its end instead.
    /// Answers whether it gave some.
    pub fn step(&self, rt: &R, round: &mut Round, dispatcher: &mut Dispatcher<R>) -> bool {
        if !self.has_events(rt) {
            return false;
        }
        dispatcher.await_round(true);
        if self.is_stepping.swap(true, Ordering::SeqCst) {
            return false;
        }
        dispatcher.await_round(false);
        {
            let mut desk = self.desk.lock(rt);
            swap(&mut *desk, &mut round.desk);
        }
        dispatcher.wake_for_room();
        if !round.desk.events().is_empty() {
            self.begin(dispatcher.number());
            round.step(&self.host.lock(rt), dispatcher);
            self.turns.fetch_add(1, Ordering::SeqCst);
        }
        self.is_stepping.store(false, Ordering::SeqCst);
        dispatcher.wake_all();
        true
    }

    /// A round of the thread with this number begins. Where there are more clients than one the thread that stands in for it
    /// is to know.
    fn begin(&self, number: usize) {
        self.stepping.store(number, Ordering::SeqCst);
        self.turns.fetch_add(1, Ordering::SeqCst);
        if !self.stand_in.is_watching.load(Ordering::SeqCst) && self.clients() > 1 {
            self.stand_in.unparker.unpark();
        }
    }

    /// How many rounds have begun, and how many have ended, together.
    pub fn turns(&self) -> u64 {
        self.turns.load(Ordering::SeqCst)
    }

    /// The number of the thread that gave the newest round to the station.
    pub fn stepping(&self) -> usize {
        self.stepping.load(Ordering::SeqCst)
    }

    /// Whether the thread that stands in for others looks at the rounds by itself, and need not be woken.
    pub fn set_watching(&self, is_watching: bool) {
        self.stand_in
            .is_watching
            .store(is_watching, Ordering::SeqCst);
    }

    /// Whether that thread serves the clients of another one.
    pub fn set_serving(&self, is_serving: bool) {
        self.stand_in.is_serving.store(is_serving, Ordering::SeqCst);
    }

    pub fn is_stood_in(&self) -> bool {
        self.stand_in.is_serving.load(Ordering::SeqCst)
    }

    /// The answer to a line that is no event.
    #[tactic(auto, using(cmh_talk::proofs::Replies::was_answered))]
    pub fn answer(&self, rt: &R, said: &Said) -> Reply
        ensures { WasAnswered said.now result }
    {
        let clients = self.clients();
        self.questions.lock(rt).answer(said, clients)
    }

    /// Has what questions are asked take in what was kept meanwhile.
    pub fn catch_up(&self, rt: &R) {
        self.questions.lock(rt).catch_up();
    }

    /// The list of all that the site declared. `None` where memory was refused.
    pub fn declarations(&self, rt: &R) -> Option<Declared> {
        self.questions.lock(rt).declarations()
    }

    /// How many clients there are.
    pub fn clients(&self) -> usize {
        let mut count = 0usize;
        for mailbox in self.mailboxes.iter() {
            count = count.saturating_add(mailbox.clients());
        }
        count
    }

    /// How many events of a client a round takes, so that all that wait have about as many and fill it.
    pub fn share(&self) -> usize {
        let mut served = 0usize;
        for mailbox in self.mailboxes.iter() {
            served = served.saturating_add(mailbox.served());
        }
        BATCH_LIMIT.div_ceil(served.max(1))
    }
}
