//! A connection that gives and takes bytes as far as it can without waiting.

ghost use Rattle.std.specs.Prelude.{◌≤◌, length};

use mio::event::Event;
use mio::net::TcpStream;
use mio::{Interest, Registry, Token};
use std::io::{ErrorKind, Read, Write};

/// A socket, and what it is ready for as far as is known.
#[derive(Drop)]
pub(crate) struct Socket {
    pub stream: TcpStream,
    /// Whether a read may give bytes without waiting.
    can_read: bool,
    can_write: bool,
    /// Whether the other end may have said its last, so that a read has to be tried until it says so.
    may_end: bool,
    /// Nothing more comes.
    has_ended: bool,
    /// A call failed.
    is_broken: bool,
}

impl Socket {
    /// One that may be ready for all.
    pub fn new(stream: TcpStream) -> Socket {
        Socket {
            stream,
            can_read: true,
            can_write: true,
            may_end: false,
            has_ended: false,
            is_broken: false,
        }
    }

    /// One whose connection is being made: an event tells when it stands.
    pub fn connecting(stream: TcpStream) -> Socket {
        Socket {
            stream,
            can_read: false,
            can_write: false,
            may_end: false,
            has_ended: false,
            is_broken: false,
        }
    }

    /// What it is ready for now.
    pub fn ready(&mut self, event: &Event) {
        let ends = event.is_read_closed() || event.is_error();
        self.may_end |= ends;
        self.can_read |= event.is_readable() || ends;
        self.can_write |= event.is_writable() || event.is_write_closed();
    }

    /// Whether a read may give more at once.
    pub fn has_more(&self) -> bool {
        self.can_read && !self.has_ended && !self.is_broken
    }

    /// Whether all bytes of the other end were read.
    pub fn has_ended(&self) -> bool {
        self.has_ended
    }

    pub fn is_broken(&self) -> bool {
        self.is_broken
    }

    pub fn give_up(&mut self) {
        self.is_broken = true;
    }

    /// Reads once, and answers how many bytes came.
    pub fn read(&mut self, scratch: &mut [u8]) -> usize
        ensures { result ≤ length scratch.new }
    {
        if !self.has_more() {
            return 0;
        }
        match self.stream.read(scratch) {
            Ok(0) => {
                self.has_ended = true;
                0
            }
            Ok(count) => {
                // Where there was room for more nothing is left, and what comes later is told by an event.
                self.can_read = count == scratch.len() || self.may_end;
                count
            }
            Err(error) => {
                match error.kind() {
                    ErrorKind::WouldBlock => self.can_read = false,
                    ErrorKind::Interrupted => {}
                    _ => self.is_broken = true,
                }
                0
            }
        }
    }

    /// Writes once, and answers how many bytes it took.
    pub fn write(&mut self, bytes: &[u8]) -> usize
        ensures { result ≤ length bytes.now }
    {
        if !self.can_write || self.is_broken || bytes.is_empty() {
            return 0;
        }
        match self.stream.write(bytes) {
            Ok(0) => {
                self.is_broken = true;
                0
            }
            Ok(count) => count,
            Err(error) => {
                match error.kind() {
                    ErrorKind::WouldBlock => self.can_write = false,
                    ErrorKind::Interrupted => {}
                    _ => self.is_broken = true,
                }
                0
            }
        }
    }

    /// Whether a write may take more at once.
    pub fn takes_more(&self) -> bool {
        self.can_write && !self.is_broken
    }
}

/// A connection that is waited for.
pub(crate) fn registered(registry: &Registry, stream: TcpStream, token: Token) -> Option<Socket> {
    let mut stream = stream;
    let both = Interest::READABLE | Interest::WRITABLE;
    if stream.set_nodelay(true).is_err() || registry.register(&mut stream, token, both).is_err() {
        return None;
    }
    Some(Socket::new(stream))
}

/// Whether more connections may wait on a port after this error.
pub(crate) fn may_accept_more(error: ErrorKind) -> bool {
    matches!(error, ErrorKind::Interrupted | ErrorKind::ConnectionAborted)
}
