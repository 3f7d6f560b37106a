//! The connections with other sites: one that is dialled to each, and those that they dialled.

use crate::arrivals::{Arrival, MOST_ARRIVALS};
use crate::calls::Call;
use crate::clients::FIRST_GUEST;
use crate::places::{free_place, put_at, take_at, trim};
use crate::socket::{Socket, may_accept_more, registered};
use cmh_clients3::Site;
use cmh_disk3::JournalFolder;
use mio::net::{TcpListener, TcpStream};
use mio::{Registry, Token};
use std::alloc::Global;
use std::net::Net;

/// The first of the connections that are dialled, and of those that others dialled.
const FIRST_CALL: usize = 16;

const FIRST_ARRIVAL: usize = 128;

/// The connections with other sites.
#[derive(Drop)]
pub(crate) struct Links {
    alloc: Global,
    /// The port on which others connect.
    port: TcpListener,
    calls: Vec<Call>,
    arrivals: Vec<Option<Arrival>>,
    /// The number of the next connection.
    next_line: u64,
}

impl Links {
    /// None yet. There is room for all that others may dial.
    pub fn new(
        alloc: Global,
        port: TcpListener,
        calls: Vec<Call>,
        room: Vec<Option<Arrival>>,
    ) -> Links {
        Links {
            alloc,
            port,
            calls,
            arrivals: room,
            next_line: 1,
        }
    }

    /// The socket that events of this number are of.
    pub fn socket(&mut self, number: usize) -> Option<&mut Socket> {
        if number < FIRST_ARRIVAL {
            return self
                .calls
                .get_mut(number.checked_sub(FIRST_CALL)?)?
                .socket();
        }
        if number >= FIRST_GUEST {
            return None;
        }
        match self.arrivals.get_mut(number - FIRST_ARRIVAL) {
            Some(Some(arrival)) => Some(arrival.socket()),
            _ => None,
        }
    }

    /// Whether there is more to do for them at once.
    pub fn is_busy(&self) -> bool {
        self.calls.iter().any(|call| call.is_busy())
            || self.arrivals.iter().any(|arrival| match arrival {
                Some(arrival) => arrival.is_busy(),
                None => false,
            })
    }

    /// Takes the connections that wait. Answers whether some may wait still.
    pub fn accept<D: JournalFolder>(
        &mut self,
        registry: &Registry,
        site: &mut Site<D>,
        now: u64,
    ) -> bool {
        for _ in 0..MOST_ARRIVALS {
            match self.port.accept() {
                Ok((stream, _)) => self.let_in(stream, registry, site, now),
                Err(error) => return may_accept_more(error.kind()),
            }
        }
        true
    }

    fn let_in<D: JournalFolder>(
        &mut self,
        stream: TcpStream,
        registry: &Registry,
        site: &mut Site<D>,
        now: u64,
    ) {
        let Some(place) = self.place_for_one(now) else {
            return;
        };
        if let Some(old) = take_at(&mut self.arrivals, place) {
            old.end(site);
        }
        let token = Token(FIRST_ARRIVAL.saturating_add(place));
        if let Some(socket) = registered(registry, stream, token) {
            let line = self.next_line;
            self.next_line = self.next_line.saturating_add(1);
            let arrival = Arrival::new(self.alloc, line, socket, now);
            put_at(&mut self.arrivals, place, arrival);
        }
    }

    /// A free place for a connection, or that of one that has told no hello for long.
    fn place_for_one(&mut self, now: u64) -> Option<usize> {
        match free_place(&mut self.arrivals, MOST_ARRIVALS) {
            Some(place) => Some(place),
            None => self.arrivals.iter().position(|arrival| match arrival {
                Some(arrival) => arrival.makes_room(now),
                None => true,
            }),
        }
    }

    /// Takes what other sites sent.
    pub fn hear<D: JournalFolder>(&mut self, site: &mut Site<D>, scratch: &mut [u8], now: u64) {
        for place in 0..self.arrivals.len() {
            if let Some(arrival) = take_at(&mut self.arrivals, place) {
                if let Some(left) = self.hear_one(arrival, site, scratch, now) {
                    put_at(&mut self.arrivals, place, left);
                }
            }
        }
        trim(&mut self.arrivals);
    }

    /// Takes what came on a connection, which is answered if it goes on.
    fn hear_one<D: JournalFolder>(
        &mut self,
        arrival: Arrival,
        site: &mut Site<D>,
        scratch: &mut [u8],
        now: u64,
    ) -> Option<Arrival> {
        let mut arrival = arrival;
        let was = arrival.place();
        let goes_on = arrival.go_on(site, scratch, now);
        if was.is_none() {
            self.is_called(arrival.place());
        }
        if !goes_on {
            arrival.end(site);
            return None;
        }
        if let Some(place) = arrival.goes_on_at() {
            site.meeting.is_heard(place);
        }
        Some(arrival)
    }

    /// The site at this place said hello: it can be dialled.
    fn is_called(&mut self, place: Option<usize>) {
        let Some(place) = place else {
            return;
        };
        if let Some(call) = self.calls.get_mut(place) {
            call.is_called();
        }
    }

    /// Dials other sites, and writes what they are to be sent.
    pub fn call<R: Net, D: JournalFolder>(
        &mut self,
        net: &R,
        registry: &Registry,
        site: &mut Site<D>,
        scratch: &mut [u8],
        now: u64,
    ) {
        for call in self.calls.iter_mut() {
            call.go_on(net, registry, site, scratch, now);
        }
    }
}

/// The token of the connection that is dialled to the peer at a place.
pub(crate) fn call_token(place: usize) -> Token {
    Token(FIRST_CALL.saturating_add(place))
}
