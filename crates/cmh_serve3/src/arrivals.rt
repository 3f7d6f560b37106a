//! The connections that other sites dialled.

use crate::socket::Socket;
use cmh_clients3::Site;
use cmh_disk3::JournalFolder;
use cmh_links3::{Incoming, Onward};
use std::alloc::Global;

/// How many connections of other sites there are at once, at most.
pub(crate) const MOST_ARRIVALS: usize = 256;

/// How long a connection without a hello keeps its place where others want it, in milliseconds.
const HELLO_PATIENCE: u64 = 5_000;

/// How many batches of messages are taken in a turn, at most.
const MOST_BATCHES: usize = 2;

/// How many bytes a sender says at least that finds a journal fit, and a sender that does not says no more.
const LEAST_SAID: usize = 2;

/// A connection that another site dialled.
#[derive(Drop)]
pub(crate) struct Arrival {
    incoming: Incoming,
    socket: Socket,
    since: u64,
    /// Whether the last read filled its buffer.
    filled: bool,
    /// How many bytes came after the hello was answered.
    said: usize,
}

impl Arrival {
    /// A connection of this number.
    pub fn new(alloc: Global, line: u64, socket: Socket, now: u64) -> Arrival {
        Arrival {
            incoming: Incoming::new(alloc, line, now),
            socket,
            since: now,
            filled: false,
            said: 0,
        }
    }

    /// The place of the peer that has said something after its hello was answered, so that it finds this journal fit: else it
    /// would have refused to go on, by a refusal of two bytes.
    pub fn goes_on_at(&self) -> Option<usize> {
        if self.said < LEAST_SAID {
            return None;
        }
        self.incoming.place()
    }

    pub fn socket(&mut self) -> &mut Socket {
        &mut self.socket
    }

    /// Whether it has told no hello for so long that it makes room for another.
    pub fn makes_room(&self, now: u64) -> bool {
        self.incoming.place().is_none() && now.saturating_sub(self.since) >= HELLO_PATIENCE
    }

    /// The place of the peer that said hello on it.
    pub fn place(&self) -> Option<usize> {
        self.incoming.place()
    }

    pub fn is_busy(&self) -> bool {
        self.socket.has_more() || self.incoming.has_more()
    }

    /// Reads, takes what came, and writes what is to be said. Answers whether it goes on.
    pub fn go_on<D: JournalFolder>(
        &mut self,
        site: &mut Site<D>,
        scratch: &mut [u8],
        now: u64,
    ) -> bool {
        // What was heard before is taken first, so that no more is kept than one read brings.
        if !self.incoming.has_more() {
            let count = self.socket.read(scratch);
            self.filled = count == scratch.len();
            if self.incoming.place().is_some() {
                self.said = self.said.saturating_add(count);
            }
            if count > 0 && self.incoming.hear(&scratch[..count]).is_err() {
                return false;
            }
        }
        let goes_on = self.take(site, self.filled, now);
        let written = self.socket.write(self.incoming.to_write());
        self.incoming.wrote(written);
        goes_on
            && !self.socket.is_broken()
            && !(self.socket.has_ended() && !self.incoming.has_more())
    }

    /// Takes what came, a batch at a time.
    fn take<D: JournalFolder>(&mut self, site: &mut Site<D>, filled: bool, now: u64) -> bool {
        for _ in 0..MOST_BATCHES {
            let onward = self.take_batch(site, filled, now);
            if let Onward::Close = onward {
                return false;
            }
            if !self.incoming.has_more() {
                return true;
            }
        }
        true
    }

    /// Takes the next messages, or what else comes next. What is of a later epoch is taken in that.
    fn take_batch<D: JournalFolder>(
        &mut self,
        site: &mut Site<D>,
        filled: bool,
        now: u64,
    ) -> Onward {
        site.make_room();
        let later = self.incoming.ahead(&site.node);
        site.follow(later);
        if !site.teller.has_watchers() {
            return self.incoming.go_on(&mut site.node, filled, now);
        }
        let Ok(messages) = self.incoming.upcoming(site.node.epoch()) else {
            return Onward::Close;
        };
        let Ok(left) = site.teller.left_by(site.node.controller(), &messages) else {
            return Onward::Close;
        };
        let onward = self.incoming.go_on(&mut site.node, filled, now);
        if !messages.is_empty() {
            site.teller.tell_taken(&site.node, &left, &messages);
        }
        onward
    }

    /// It is closed.
    pub fn end<D: JournalFolder>(mut self, site: &mut Site<D>) {
        self.incoming.end(&mut site.node);
    }
}
