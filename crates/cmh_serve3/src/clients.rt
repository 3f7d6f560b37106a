//! The clients of a site: those that connect, and standard input.

use crate::console::Console;
use crate::guests::{Guest, MOST_CLIENTS};
use crate::helpers::Helpers;
use crate::places::{free_place, put_at, trim};
use crate::serve_fault::ServeFault;
use crate::socket::{Socket, may_accept_more, registered};
use cmh_clients3::{MOST_TOGETHER, Site, Talker};
use cmh_console::{Ahead, Input, Output};
use cmh_disk3::JournalFolder;
use cmh_talk3::Figures;
use mio::net::{TcpListener, TcpStream};
use mio::{Registry, Token};
use std::alloc::Global;
use std::io::{BufRead, Write};
use std::sync::Wait;

/// The first of those that connect.
pub(crate) const FIRST_GUEST: usize = 512;

/// The place of standard input among clients, behind those that connect.
const CONSOLE: usize = MOST_CLIENTS;

/// The clients of a site.
#[derive(Drop)]
pub(crate) struct Clients {
    alloc: Global,
    /// The port on which they connect, if they may.
    port: Option<TcpListener>,
    guests: Vec<Option<Guest>>,
    console: Option<Console>,
    /// Who helps to write to them.
    pub helpers: Helpers,
    /// Whose turn is first in the next round.
    first: usize,
}

impl Clients {
    /// None yet but for standard input, if it is one. There is room for all that may connect.
    pub fn new(
        alloc: Global,
        port: Option<TcpListener>,
        room: Vec<Option<Guest>>,
        console: Option<Console>,
        helpers: Helpers,
    ) -> Clients {
        Clients {
            alloc,
            port,
            guests: room,
            console,
            helpers,
            first: 0,
        }
    }

    /// The socket that events of this number are of.
    pub fn socket(&mut self, number: usize) -> Option<&mut Socket> {
        match self.guests.get_mut(number.checked_sub(FIRST_GUEST)?) {
            Some(Some(guest)) => Some(guest.socket()),
            _ => None,
        }
    }

    /// The system told that a descriptor is ready, perhaps of standard input or standard output.
    pub fn ready(&mut self, token: Token) {
        if let Some(console) = &mut self.console {
            console.ready(token);
        }
    }

    /// Reads lines of standard input.
    pub fn read_console<I: BufRead + Ahead>(
        &mut self,
        input: &mut Input<I>,
        registry: &Registry,
    ) -> Result<(), ServeFault> {
        match &mut self.console {
            Some(console) => console.read(input, registry),
            None => Ok(()),
        }
    }

    /// Writes answers to standard output. Answers whether standard input has ended, and all is written.
    pub fn write_console<W: Write>(
        &mut self,
        out: &mut Output<W>,
        registry: &Registry,
    ) -> Result<bool, ServeFault> {
        let Some(console) = &mut self.console else {
            return Ok(false);
        };
        console.write(out, registry)?;
        Ok(console.is_over())
    }

    /// Whether there is more to do for them at once.
    pub fn is_busy(&self) -> bool {
        let has_lines = match &self.console {
            Some(console) => console.is_busy(),
            None => false,
        };
        has_lines || self.guests.iter().any(|guest| is_busy(guest))
    }

    /// Takes those that connect. Answers whether some may wait still.
    pub fn accept(&mut self, registry: &Registry) -> bool {
        for _ in 0..MOST_CLIENTS {
            let Some(port) = &self.port else {
                return false;
            };
            match port.accept() {
                Ok((stream, _)) => self.let_in(stream, registry),
                Err(error) => return may_accept_more(error.kind()),
            }
        }
        true
    }

    fn let_in(&mut self, stream: TcpStream, registry: &Registry) {
        let Some(place) = free_place(&mut self.guests, MOST_CLIENTS) else {
            return;
        };
        let token = Token(FIRST_GUEST.saturating_add(place));
        if let Some(socket) = registered(registry, stream, token) {
            put_at(&mut self.guests, place, Guest::new(self.alloc, socket));
        }
    }

    /// Reads what they sent.
    pub fn read(&mut self, scratch: &mut [u8]) {
        for guest in self.guests.iter_mut() {
            if let Some(guest) = guest {
                guest.read(scratch);
            }
        }
    }

    /// Whether some have said something, and others may have meanwhile.
    pub fn may_be_joined(&self) -> bool {
        let speakers = self.speakers();
        speakers > 0 && speakers < self.count()
    }

    /// How many have said something that was not taken yet.
    fn speakers(&self) -> usize {
        let speaking = self.guests.iter().filter(|guest| speaks(guest));
        let console = match &self.console {
            Some(console) => usize::from(console.talker.has_lines()),
            None => 0,
        };
        speaking.count().saturating_add(console)
    }

    /// How many there are.
    fn count(&self) -> usize {
        let guests = self.guests.iter().filter(|guest| guest.is_some());
        guests
            .count()
            .saturating_add(usize::from(self.console.is_some()))
    }

    /// Takes events as far as one append takes them, and answers them. Answers whether there were any.
    pub fn round<D: JournalFolder>(&mut self, site: &mut Site<D>) -> bool {
        let speakers = self.speakers();
        if speakers == 0 {
            return false;
        }
        site.batch.clear();
        self.take_events(site, MOST_TOGETHER.div_ceil(speakers));
        if site.batch.is_empty() {
            return false;
        }
        site.make_room();
        site.step();
        self.answer(site);
        true
    }

    /// Takes events of each, at most so many of one, until there are as many as one append takes.
    fn take_events<D: JournalFolder>(&mut self, site: &mut Site<D>, most: usize) {
        let figures = Figures {
            clients: self.count(),
        };
        let guests = self.guests.len();
        let places = guests.saturating_add(1);
        let first = self.first;
        self.first = first.saturating_add(1) % places;
        for step in 0..places {
            let at = first.saturating_add(step) % places;
            if site.batch.is_full() {
                self.first = at;
                return;
            }
            let place = if at < guests { at } else { CONSOLE };
            if let Some(talker) = self.talker_at(place) {
                talker.take_lines(place, most, site, &figures);
            }
        }
    }

    /// The client at a place.
    fn talker_at(&mut self, place: usize) -> Option<&mut Talker> {
        if place == CONSOLE {
            return match &mut self.console {
                Some(console) => Some(&mut console.talker),
                None => None,
            };
        }
        match self.guests.get_mut(place) {
            Some(Some(guest)) => Some(&mut guest.talker),
            _ => None,
        }
    }

    /// Says the replies to those that wait for them. One for which there is none is closed.
    fn answer<D: JournalFolder>(&mut self, site: &Site<D>) {
        for (number, place) in site.batch.places().iter().enumerate() {
            if let Some(talker) = self.talker_at(*place) {
                match site.replies.get(number) {
                    Some(reply) => talker.answer(*reply),
                    None => talker.give_up(),
                }
            }
        }
    }

    /// Tells those who watch what happened.
    pub fn tell<D: JournalFolder>(&mut self, site: &mut Site<D>) {
        if site.teller.news().is_empty() {
            return;
        }
        let mut watchers = false;
        let guests = 0..self.guests.len();
        for place in guests.chain(CONSOLE..=CONSOLE) {
            if let Some(talker) = self.talker_at(place) {
                watchers |= talker.watches();
                talker.tell(site.teller.news());
            }
        }
        site.teller.told(watchers);
    }

    /// How many can be sent something.
    pub fn answers(&self) -> usize {
        self.guests.iter().filter(|guest| may_write(guest)).count()
    }

    /// Has the helpers begin to write to those that can be sent something.
    pub fn lend<R: Wait>(&mut self, rt: &R) {
        self.helpers.take(rt, &mut self.guests);
    }

    /// Takes them back, once each was sent what it is to be sent.
    pub fn take_back<R: Wait>(&mut self, rt: &R) {
        self.helpers.give_back(rt, &mut self.guests);
    }

    /// Writes what they are to be sent, and closes those that are over.
    pub fn write(&mut self) {
        for guest in self.guests.iter_mut() {
            if let Some(client) = guest {
                client.write();
                if client.is_over() {
                    *guest = None;
                }
            }
        }
        trim(&mut self.guests);
    }
}

fn is_busy(guest: &Option<Guest>) -> bool {
    match guest {
        Some(guest) => guest.is_busy(),
        None => false,
    }
}

/// Whether it has said something that was not taken yet.
fn speaks(guest: &Option<Guest>) -> bool {
    match guest {
        Some(guest) => guest.talker.has_lines(),
        None => false,
    }
}

/// Whether a client stands here that can be sent something.
pub(crate) fn may_write(guest: &Option<Guest>) -> bool {
    match guest {
        Some(client) => client.may_write(),
        None => false,
    }
}
