//! The thread that has the site: what it waits for, and its turns.

use crate::arrivals::{Arrival, MOST_ARRIVALS};
use crate::calls::Call;
use crate::clients::Clients;
use crate::console::Console;
use crate::descriptor::Descriptor;
use crate::doors::{Doors, is_of_port};
use crate::guests::{Guest, MOST_CLIENTS};
use crate::helpers::Helpers;
use crate::links::Links;
use crate::serve_fault::ServeFault;
use crate::voice::SiteVoice;
use cmh_clients3::Site;
use cmh_console::{Ahead, Input, Output};
use cmh_disk3::JournalFolder;
use mio::{Events, Interest, Poll, Token};
use std::alloc::{AllocError, Global};
use std::io::{BufRead, Write};
use std::net::Net;
use std::sync::Wait;
use std::time::{Clock, Duration};

/// Standard error.
const ERRORS: Token = Token(4);

/// How many bytes are read at once.
const SCRATCH: usize = 1 << 14;

/// How many batches of clients' events are taken in a turn, at most.
const MOST_ROUNDS: usize = 4;

/// How often it looks whether more clients have said something, before it takes what they said.
const MOST_LOOKS: usize = 3;

/// Where so many clients can be sent something, other threads help: with fewer, waking them takes as long as it saves.
const MANY_ANSWERS: usize = 12;

/// Where so many clients can be sent something, other sites are sent theirs while the helpers begin: so their syncs are over
/// before the next one here. With fewer, clients come first, so that they go on meanwhile.
const SITES_FIRST: usize = 32;

/// How long it waits while nothing comes, in milliseconds: while a link is not open, and else.
const SHORT_WAIT: u64 = 20;

const LONG_WAIT: u64 = 500;

/// A site with its connections.
#[derive(Drop)]
pub(crate) struct Hub<D: JournalFolder> {
    poll: Poll,
    events: Events,
    site: Site<D>,
    links: Links,
    pub clients: Clients,
    /// Where notes go, if anybody wants them.
    errors: Option<Descriptor>,
    scratch: Vec<u8>,
    /// Connections may wait on a port that could not be taken yet.
    may_accept: bool,
}

/// What a hub works in. It is made before the site is opened, so that nothing that fails afterwards has to let the site go.
#[derive(Drop)]
pub(crate) struct Spare {
    scratch: Vec<u8>,
    events: Events,
    guests: Vec<Option<Guest>>,
    arrivals: Vec<Option<Arrival>>,
    helpers: Helpers,
}

impl Spare {
    pub fn new(alloc: Global) -> Result<Spare, AllocError> {
        Ok(Spare {
            scratch: Vec::from_elem(alloc, 0, SCRATCH)?,
            events: Events::with_capacity(alloc, 1024)?,
            guests: Vec::with_capacity(alloc, MOST_CLIENTS)?,
            arrivals: Vec::with_capacity(alloc, MOST_ARRIVALS)?,
            helpers: Helpers::new(alloc)?,
        })
    }
}

/// A site that waits for nothing yet.
#[derive(Drop)]
pub(crate) struct Parts<D: JournalFolder> {
    pub site: Site<D>,
    pub calls: Vec<Call>,
    pub spare: Spare,
    /// Whether its lines come from standard input.
    pub has_console: bool,
    /// Whether somebody wants its notes.
    pub has_notes: bool,
}

impl<D: JournalFolder> Hub<D> {
    pub fn new(alloc: Global, doors: Doors, parts: Parts<D>) -> Hub<D> {
        let Doors {
            poll,
            links,
            clients,
        } = doors;
        let Parts {
            site,
            calls,
            spare,
            has_console,
            has_notes,
        } = parts;
        let console = if has_console {
            Some(Console::new(alloc, poll.registry()))
        } else {
            None
        };
        let errors = if has_notes {
            Some(Descriptor::new(poll.registry(), 2, ERRORS, Interest::WRITABLE))
        } else {
            None
        };
        let Spare {
            scratch,
            events,
            guests,
            arrivals,
            helpers,
        } = spare;
        Hub {
            poll,
            events,
            site,
            links: Links::new(alloc, links, calls, arrivals),
            clients: Clients::new(alloc, clients, guests, console, helpers),
            errors,
            scratch,
            may_accept: true,
        }
    }

    /// Runs the site until its standard input has ended, or until it can't go on, and answers why.
    pub fn run<R: Wait + Clock + Net, I: BufRead + Ahead, W: Write, V: SiteVoice>(
        &mut self,
        rt: &R,
        input: &mut Input<I>,
        out: &mut Output<W>,
        voice: &V,
    ) -> Result<(), ServeFault> {
        for _ in rt.forever() {
            let patience = self.patience();
            self.wait(patience)?;
            let Ok(since) = rt.monotonic() else {
                return Err(ServeFault::Listen);
            };
            self.clients.read_console(input, self.poll.registry())?;
            self.turn(rt, since)?;
            self.tell_notes(voice);
            if self.clients.write_console(out, self.poll.registry())? {
                return Ok(());
            }
        }
        unreachable!()
    }

    /// Waits until a connection is ready for something, and notes for what.
    fn wait(&mut self, patience: Duration) -> Result<(), ServeFault> {
        if self.poll.poll(&mut self.events, Some(patience)).is_err() {
            return Err(ServeFault::Listen);
        }
        self.look_at_all();
        Ok(())
    }

    /// Notes what each connection is ready for.
    fn look_at_all(&mut self) {
        for event in self.events.iter() {
            let token = event.token();
            let Token(number) = token;
            if let Some(socket) = self.links.socket(number) {
                socket.ready(event);
            } else if let Some(socket) = self.clients.socket(number) {
                socket.ready(event);
            } else {
                self.may_accept |= is_of_port(token);
                self.clients.ready(token);
                note_errors(&mut self.errors, token);
            }
        }
    }

    /// Tells notes on standard error, as far as that does not wait.
    fn tell_notes<V: SiteVoice>(&mut self, voice: &V) {
        let Some(errors) = &mut self.errors else {
            return;
        };
        for _ in 0..MOST_ROUNDS {
            if !errors.is_ready() {
                return;
            }
            let Some(note) = self.site.noting.next() else {
                return;
            };
            voice.tell(&note);
            errors.used(self.poll.registry());
        }
    }

    /// How long to wait for the next event.
    fn patience(&self) -> Duration {
        if self.may_accept || self.is_busy() {
            return Duration::ZERO;
        }
        let is_open = self
            .site
            .node
            .peers()
            .iter()
            .all(|peer| is_settled(peer.out.state()));
        Duration::from_millis(if is_open { LONG_WAIT } else { SHORT_WAIT })
    }

    /// Whether there is more to do at once.
    fn is_busy(&self) -> bool {
        self.clients.is_busy() || self.links.is_busy() || self.has_notes()
    }

    /// Whether a note can be told at once.
    fn has_notes(&self) -> bool {
        match &self.errors {
            Some(errors) => errors.is_ready() && self.site.noting.has_note(),
            None => false,
        }
    }

    /// Does what can be done at once.
    fn turn<R: Wait + Net>(&mut self, rt: &R, since: Duration) -> Result<(), ServeFault> {
        let now = millis(since);
        self.accept(now);
        self.links.hear(&mut self.site, &mut self.scratch, now);
        self.hear_clients()?;
        for _ in 0..MOST_ROUNDS {
            if !self.clients.round(&mut self.site) {
                break;
            }
        }
        self.tell_all(rt, now);
        self.site.look(since.as_secs());
        self.clients.tell(&mut self.site);
        self.clients.write();
        Ok(())
    }

    /// Takes the connections that may wait on the ports.
    fn accept(&mut self, now: u64) {
        if self.may_accept {
            let registry = self.poll.registry();
            self.may_accept = self.links.accept(registry, &mut self.site, now)
                | self.clients.accept(registry);
        }
    }

    /// Reads what clients sent, and what more of them send meanwhile.
    fn hear_clients(&mut self) -> Result<(), ServeFault> {
        for _ in 0..MOST_LOOKS {
            self.clients.read(&mut self.scratch);
            if !self.clients.may_be_joined() {
                return Ok(());
            }
            self.wait(Duration::ZERO)?;
            if self.events.is_empty() {
                return Ok(());
            }
        }
        self.clients.read(&mut self.scratch);
        Ok(())
    }

    /// Writes what clients and other sites are to be sent.
    fn tell_all<R: Wait + Net>(&mut self, rt: &R, now: u64) {
        let answers = self.clients.answers();
        if answers >= MANY_ANSWERS {
            self.clients.lend(rt);
        } else {
            self.clients.write();
        }
        if answers < SITES_FIRST {
            self.clients.take_back(rt);
        }
        let registry = self.poll.registry();
        self.links
            .call(rt, registry, &mut self.site, &mut self.scratch, now);
        self.clients.take_back(rt);
    }
}

/// The system told that a descriptor is ready, perhaps standard error.
fn note_errors(errors: &mut Option<Descriptor>, token: Token) {
    if token == ERRORS {
        if let Some(errors) = errors {
            errors.ready();
        }
    }
}

/// Whether a link is open, or stays closed until the site starts again.
fn is_settled(state: cmh_resume3::State) -> bool {
    match state {
        cmh_resume3::State::Down { .. } | cmh_resume3::State::Asked { .. } => false,
        _ => true,
    }
}

fn millis(since: Duration) -> u64 {
    u64::try_from(since.as_millis()).unwrap_or(u64::MAX)
}
