//! A connection of a client.

use crate::mailbox::Delivery;
use cmh_client::{Conversation, MOST_QUEUED, Next};
use cmh_frames::{Event as SiteEvent, ProcId};
use cmh_talk::{Lines, Said};
use mio::event::Event;
use mio::net::TcpStream;
use std::io::{ErrorKind, Read, Write};

/// How often a client is read in a turn, at most: the others of its thread wait meanwhile.
const MOST_READS: usize = 4;

/// What a client and the service say to each other.
pub(crate) type Talk = Conversation<SiteEvent, Said, ProcId, Lines>;

/// A client and the socket that carries its bytes.
#[derive(Drop)]
pub(crate) struct Connection {
    stream: TcpStream,
    pub talk: Talk,
    /// Its next line is an event, and no room was left for that.
    pub is_held: bool,
    /// Whether a read may give bytes without waiting, as far as is known.
    can_read: bool,
    can_write: bool,
    /// Whether the other end may have said its last, so that a read has to be tried until it says so.
    may_end: bool,
    /// Nothing more comes, or is to be read.
    has_ended: bool,
    /// A call failed, or there was no memory for what it says or is to be sent.
    is_broken: bool,
}

impl Connection {
    pub fn new(stream: TcpStream, talk: Talk) -> Connection {
        Connection {
            stream,
            talk,
            is_held: false,
            can_read: true,
            can_write: true,
            may_end: false,
            has_ended: false,
            is_broken: false,
        }
    }

    /// What the socket is ready for now.
    pub fn ready(&mut self, event: &Event) {
        let ends = event.is_read_closed() || event.is_error();
        self.may_end |= ends;
        self.can_read |= event.is_readable() || ends;
        self.can_write |= event.is_writable() || event.is_write_closed();
    }

    pub fn give_up(&mut self) {
        self.is_broken = true;
    }

    /// How many of its events wait for their answers.
    pub fn waiting(&self) -> usize {
        self.talk.waiting()
    }

    /// Says the reply to an event, if its client waits for that.
    #[tactic(auto, using(cmh_talk::proofs::Replies::answers_event))]
    pub fn answer(&mut self, delivery: &Delivery) {
        if self.talk.answer(&delivery.event, delivery.reply).is_err() {
            self.is_broken = true;
        }
    }

    /// Whether it said more than was taken.
    pub fn has_more(&self) -> bool {
        self.talk.next() != Next::Nothing
    }

    /// Reads what is there, as far as there is room, in a few reads at most.
    pub fn read(&mut self, scratch: &mut [u8]) {
        for turn in 0..MOST_READS {
            if !self.can_read || self.has_ended || self.is_broken || !self.talk.has_room() {
                return;
            }
            match self.stream.read(scratch) {
                Ok(0) => self.has_ended = true,
                Ok(count) => {
                    // Where there was room for more nothing is left, and what comes later is told by an event.
                    self.can_read = count == scratch.len() || self.may_end;
                    self.is_broken |= self.talk.hear(&scratch[..count]).is_err();
                }
                Err(error) => match error.kind() {
                    ErrorKind::WouldBlock => self.can_read = false,
                    ErrorKind::Interrupted => {}
                    _ => self.is_broken = true,
                },
            }
        }
    }

    /// Writes what is to be sent, as far as the socket takes it.
    pub fn write(&mut self) {
        for turn in 0..u64::MAX {
            if !self.can_write || self.is_broken || self.talk.to_say().is_empty() {
                break;
            }
            match self.stream.write(self.talk.to_say()) {
                Ok(0) => self.is_broken = true,
                Ok(count) => self.talk.said(count),
                Err(error) => match error.kind() {
                    ErrorKind::WouldBlock => self.can_write = false,
                    ErrorKind::Interrupted => {}
                    _ => self.is_broken = true,
                },
            }
        }
        if self.talk.to_say().len() > MOST_QUEUED {
            self.is_broken = true;
        }
    }

    /// Whether there is more to do for it at once. While events of it wait, or it is held, it has nothing to say.
    pub fn is_busy(&self) -> bool {
        let reads = self.can_read && !self.has_ended && self.talk.has_room();
        let says = self.waiting() == 0 && !self.is_held && self.has_more();
        !self.is_broken && (reads || says)
    }

    /// Whether it is to be closed.
    pub fn is_over(&self) -> bool {
        let has_said_all = (self.has_ended && !self.has_more()) || self.talk.is_leaving();
        let has_all = has_said_all && self.talk.to_say().is_empty();
        self.waiting() == 0 && (self.is_broken || has_all)
    }
}
