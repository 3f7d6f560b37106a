//! A thread that serves clients.

use crate::clients::{Clients, MOST_CLIENTS};
use crate::connection::{Connection, Talk};
use crate::mailbox::{Dispatcher, Mailbox};
use crate::rounds::{Round, Rounds};
use cmh_talk::Lines;
use mio::net::TcpStream;
use mio::{Events, Interest, Poll, Token};
use std::alloc::{AllocError, Global};
use std::sync::{Arc, Mutex, Wait};
use std::time::Duration;

/// Something is in the mailbox.
pub(crate) const MAIL: Token = Token(MOST_CLIENTS);

/// How often it looks whether more has come before it answers.
const MOST_LOOKS: usize = 3;

/// How long it waits before it tries again what memory or a descriptor was refused for.
pub(crate) const PAUSE_MILLISECONDS: u64 = 100;

/// How long a thread that stands in for another one waits for something to do, at most. It is woken where the round ends.
const SLICE_MILLISECONDS: u64 = 20;

/// What the threads that serve clients work with, each at its number, and the one that stands in for them.
pub(crate) type ServerStates = Arc<Vec<Mutex<ServerState>>>;

/// A thread that serves clients.
#[derive(Drop)]
pub(crate) struct Server<R: Wait + Drop> {
    rt: R,
    number: usize,
    states: ServerStates,
    rounds: Arc<Rounds<R>>,
    /// Room for a round.
    round: Round,
    dispatcher: Dispatcher<R>,
}

impl<R: Wait + Copy + Drop> Server<R> {
    pub fn new(
        rt: R,
        alloc: Global,
        number: usize,
        states: ServerStates,
        rounds: Arc<Rounds<R>>,
    ) -> Result<Server<R>, AllocError> {
        let dispatcher = Dispatcher::new(rt, Arc::try_clone(&rounds.mailboxes)?, number);
        Ok(Server {
            rt,
            number,
            states,
            rounds,
            round: Round::new(alloc)?,
            dispatcher,
        })
    }

    /// Serves clients until it can't go on, which ends the service.
    pub fn serve_all(&mut self) {
        let rt = self.rt;
        for _ in rt.forever() {
            if !self.hear() {
                self.rounds.end();
                return;
            }
            self.serve();
        }
    }

    /// Waits until there is something to do, reads what clients sent, and takes their lines. Answers whether it can go on.
    fn hear(&mut self) -> bool {
        let rt = self.rt;
        let (Some(state), Some(mailbox)) = (
            self.states.get(self.number),
            self.rounds.mailboxes.get(self.number),
        ) else {
            return false;
        };
        let mut state = state.lock(&rt);
        let patience = state.patience(&rt, &self.rounds);
        if !state.hear(patience) {
            return false;
        }
        state.take_lines(&rt, &self.rounds, mailbox);
        true
    }

    /// Gives events to the station, and says what came of them. Meanwhile another thread may stand in for this one.
    fn serve(&mut self) {
        let rt = self.rt;
        let has_stepped = self.rounds.step(&rt, &mut self.round, &mut self.dispatcher);
        if let (Some(state), Some(mailbox)) = (
            self.states.get(self.number),
            self.rounds.mailboxes.get(self.number),
        ) {
            if self.rounds.is_stood_in() {
                mailbox.wake();
            }
            let mut state = state.lock(&rt);
            state.say(&rt, &self.rounds, mailbox, has_stepped);
        }
    }
}

/// The clients of a thread, and what it waits on.
#[derive(Drop)]
pub(crate) struct ServerState {
    alloc: Global,
    poll: Poll,
    events: Events,
    clients: Clients,
    /// Whether something was declared that watching clients were not told.
    has_news: bool,
    /// Whether another thread stood in, which may have seen what this one waits for.
    was_stood_in: bool,
}

impl ServerState {
    pub fn new(alloc: Global, number: usize, poll: Poll) -> Result<ServerState, AllocError> {
        Ok(ServerState {
            alloc,
            poll,
            events: Events::with_capacity(alloc, MOST_CLIENTS + 1)?,
            clients: Clients::new(alloc, number)?,
            has_news: true,
            was_stood_in: false,
        })
    }

    /// Waits until there is something to do, and reads what clients sent, and what they send meanwhile. Answers whether it
    /// can go on.
    fn hear(&mut self, patience: Option<Duration>) -> bool {
        let mut patience = patience;
        for turn in 0..MOST_LOOKS {
            if self.poll.poll(&mut self.events, patience).is_err() {
                return false;
            }
            if turn > 0 && self.events.is_empty() {
                break;
            }
            look_at_events(&self.events, &mut self.clients);
            self.clients.read_all();
            patience = Some(Duration::ZERO);
        }
        true
    }

    /// Lets clients in, and takes lines of all.
    fn take_lines<R: Wait + Drop>(&mut self, rt: &R, rounds: &Rounds<R>, mailbox: &Mailbox) {
        self.has_news |= mailbox.take_news();
        for turn in 0..MOST_CLIENTS {
            let Some(stream) = mailbox.newcomer(rt) else {
                break;
            };
            let_in(self.alloc, &self.poll, &mut self.clients, mailbox, stream);
        }
        if !mailbox.awaits_room() {
            self.clients.let_on();
        }
        mailbox.set_served(self.clients.served());
        self.clients.take_lines(rt, rounds);
    }

    /// Says to clients what there is to say.
    fn say<R: Wait + Drop>(
        &mut self,
        rt: &R,
        rounds: &Rounds<R>,
        mailbox: &Mailbox,
        has_stepped: bool,
    ) {
        let has_replies = self.clients.take_replies(rt, mailbox);
        if (has_stepped || has_replies) && !mailbox.awaits_room() {
            self.clients.let_on();
        }
        if self.has_news {
            self.has_news = !tell_declarations(rt, rounds, &mut self.clients);
        }
        self.clients.write_all(mailbox);
        mailbox.set_served(self.clients.served());
    }

    /// Serves the clients while their thread waits for the end of a round. Answers whether that can go on.
    pub fn stand_in<R: Wait + Drop>(
        &mut self,
        rt: &R,
        rounds: &Rounds<R>,
        mailbox: &Mailbox,
    ) -> bool {
        self.was_stood_in = true;
        let goes_on = self.hear(Some(Duration::from_millis(SLICE_MILLISECONDS)));
        self.take_lines(rt, rounds, mailbox);
        self.say(rt, rounds, mailbox, false);
        goes_on
    }

    /// How long to wait for the next event.
    fn patience<R: Wait + Drop>(&mut self, rt: &R, rounds: &Rounds<R>) -> Option<Duration> {
        let was_stood_in = self.was_stood_in;
        self.was_stood_in = false;
        if was_stood_in || self.clients.is_busy() || rounds.is_due(rt) {
            Some(Duration::ZERO)
        } else if self.has_news {
            Some(Duration::from_millis(PAUSE_MILLISECONDS))
        } else {
            None
        }
    }
}

fn look_at_events(events: &Events, clients: &mut Clients) {
    for event in events.iter() {
        let Token(place) = event.token();
        if let Some(connection) = clients.at(place) {
            connection.ready(event);
        }
    }
}

/// Gives a client a place; where there is none its connection is closed.
fn let_in(
    alloc: Global,
    poll: &Poll,
    clients: &mut Clients,
    mailbox: &Mailbox,
    mut stream: TcpStream,
) {
    let both = Interest::READABLE | Interest::WRITABLE;
    if let Some(place) = clients.free_place() {
        if stream.set_nodelay(true).is_ok()
            && poll
                .registry()
                .register(&mut stream, Token(place), both)
                .is_ok()
        {
            let talk = Talk::new(alloc, Lines::new(alloc));
            clients.put(place, Connection::new(stream, talk));
            return;
        }
    }
    mailbox.leave();
}

/// Tells declarations to the clients that watch. Where memory is refused it is to be tried again.
fn tell_declarations<R: Wait + Drop>(rt: &R, rounds: &Rounds<R>, clients: &mut Clients) -> bool {
    if !clients.has_watchers() {
        return true;
    }
    match rounds.declarations(rt) {
        Some(declared) => {
            clients.tell(declared.as_slice());
            true
        }
        None => false,
    }
}
