//! Connections over any stream.

ghost use Rattle.std.specs.Prelude.{◌≡◌, ◌≤◌, None, false, IfOk, length};
ghost use Rattle.std.specs.Io.KnownBytes.{ReadConsumes, WriteAppends};
ghost use Rattle.cmh_carriers.specs.Streams.{PassesOnRead, PassesOnWrite};

use crate::carrier::{ConnectionHandle, Incoming, IoFault, Listen, Outgoing};
use crate::gate::Gate;
use std::io;
use std::io::{ErrorKind, Read, Write};
use std::marker::Model;

/// The receiving end of a connection over a stream, which passes on what the stream gives.
#[derive(Drop)]
pub struct StreamIncoming<S: Read> {
    stream: S,
    faults: u64,
    /// Whether a `read` told the end.
    is_over: bool,
}

impl<S: Read> Model for StreamIncoming<S> {
    ghost use Rattle.cmh_carriers.specs.Streams.{ReadStream};

    ghost Value = { ReadStream };

    ghost view = { λ s. record { remaining = S.remaining s.stream; is_over = s.is_over; faults = s.faults } };
}

impl<S: Read> StreamIncoming<S> {
    /// It has read nothing.
    pub fn new(stream: S) -> StreamIncoming<S>
        ensures remaining { result.remaining ≡ S.remaining stream }
        ensures begins { result.is_over ≡ false }
        ensures faults { result.faults ≡ 0 }
    {
        StreamIncoming {
            stream,
            faults: 0,
            is_over: false,
        }
    }

    /// What it reads.
    pub fn stream(&self) -> &S {
        &self.stream
    }
}

impl<S: Read + ConnectionHandle + Drop> Incoming for StreamIncoming<S> {
    ghost failures = { λ s. s.faults };

    ghost given = { λ _. None };

    ghost is_over = { λ s. s.is_over };

    ghost read_gives = { PassesOnRead };

    /// Any error of the stream is a fault, but for that of a call which a signal interrupted: it is made again.
    fn read(&mut self, buffer: &mut [u8]) -> Result<usize, IoFault> {
        match read_uninterrupted(&mut self.stream, buffer) {
            Ok(count) => {
                if count == 0 && !buffer.is_empty() {
                    self.is_over = true;
                }
                Ok(count)
            }
            Err(fault) => {
                self.faults += 1;
                Err(fault)
            }
        }
    }

    fn faults(&self) -> u64 {
        self.faults
    }

    fn shut(&self) {
        self.stream.shut();
    }
}

/// A stream that can tell whether its other end is gone.
pub trait Look {
    /// Whether it ended or failed. Bytes that came from the other end are no end, and hide one behind them.
    fn has_ended(&self) -> bool;
}

/// The sending end of a connection over a stream, which gives the stream what it takes.
#[derive(Drop)]
pub struct StreamOutgoing<S: Write + Drop> {
    stream: S,
    faults: u64,
}

impl<S: Write + Drop> Model for StreamOutgoing<S> {
    ghost use Rattle.cmh_carriers.specs.Streams.{WrittenStream};

    ghost Value = { WrittenStream };

    ghost view = { λ s. record { contents = S.contents s.stream; faults = s.faults } };
}

impl<S: Write + Drop> StreamOutgoing<S> {
    /// It has written nothing.
    pub fn new(stream: S) -> StreamOutgoing<S>
        ensures contents { result.contents ≡ S.contents stream }
        ensures faults { result.faults ≡ 0 }
    {
        StreamOutgoing { stream, faults: 0 }
    }

    /// What it writes.
    pub fn stream(&self) -> &S {
        &self.stream
    }
}

impl<S: Write + Look + Drop> Outgoing for StreamOutgoing<S> {
    ghost failures = { λ s. s.faults };

    ghost taken = { λ _. None };

    ghost write_gives = { PassesOnWrite };

    /// Any error of the stream is a fault, but for that of a call which a signal interrupted: it is made again. A write
    /// that takes nothing of a piece is a fault, too.
    fn write(&mut self, piece: &[u8]) -> Result<usize, IoFault> {
        match write_uninterrupted(&mut self.stream, piece) {
            Ok(count) if count > 0 || piece.is_empty() => Ok(count),
            _ => {
                self.faults += 1;
                Err(IoFault)
            }
        }
    }

    /// A stream that ended takes nothing more, which is a fault.
    fn look(&mut self) -> Result<(), IoFault> {
        if self.stream.has_ended() {
            self.faults += 1;
            return Err(IoFault);
        }
        Ok(())
    }

    fn faults(&self) -> u64 {
        self.faults
    }
}

/// A socket at which streams arrive.
pub trait Accept {
    type Stream: Read + ConnectionHandle + Send + Drop + 'static;

    /// Waits for the next stream.
    fn accept(&mut self) -> io::Result<Self::Stream>;

    /// Another handle of a stream. `None` where memory for one was refused.
    fn another(&self, stream: &Self::Stream) -> Option<Self::Stream>;

    /// Another handle of itself. `None` where memory for one was refused.
    fn gate(&self) -> Option<Gate>;

    /// Refuses what waits to be accepted.
    fn shut(&self);
}

/// Where connections over streams arrive.
#[derive(Drop)]
pub struct StreamListen<L: Accept> {
    listener: L,
    faults: u64,
}

impl<L: Accept> StreamListen<L> {
    /// It has accepted nothing.
    pub fn new(listener: L) -> StreamListen<L>
        ensures { result.faults ≡ 0 }
    {
        StreamListen {
            listener,
            faults: 0,
        }
    }

    /// Where the streams arrive.
    pub fn listener(&self) -> &L {
        &self.listener
    }
}

impl<L: Accept> Listen for StreamListen<L> {
    type In = StreamIncoming<L::Stream>;

    type Handle = L::Stream;

    ghost failures = { λ s. s.faults };

    fn accept(&mut self) -> Result<StreamIncoming<L::Stream>, IoFault> {
        match self.listener.accept() {
            Ok(stream) => Ok(StreamIncoming::new(stream)),
            Err(_) => {
                self.faults += 1;
                Err(IoFault)
            }
        }
    }

    fn handle(&self, incoming: &StreamIncoming<L::Stream>) -> Option<L::Stream> {
        self.listener.another(incoming.stream())
    }

    fn gate(&self) -> Option<Gate> {
        self.listener.gate()
    }

    fn shut(&self) {
        self.listener.shut();
    }

    fn faults(&self) -> u64 {
        self.faults
    }
}

/// Reads once. A read that a signal interrupted gave nothing, and is made again.
fn read_uninterrupted<S: Read>(stream: &mut S, buffer: &mut [u8]) -> Result<usize, IoFault>
    ensures within { IfOk result (λ count. count ≤ length buffer.new) }
    ensures passes { ReadConsumes (S.remaining stream.old) (S.remaining stream.new) result buffer.new }
{
    for _ in 0..u64::MAX {
        match stream.read(buffer) {
            Ok(count) => return Ok(count),
            Err(error) if error.kind() == ErrorKind::Interrupted => {}
            Err(_) => return Err(IoFault),
        }
    }
    Err(IoFault)
}

/// Writes once. A write that a signal interrupted took nothing, and is made again.
fn write_uninterrupted<S: Write>(stream: &mut S, piece: &[u8]) -> Result<usize, IoFault>
    ensures within { IfOk result (λ count. count ≤ length piece.now) }
    ensures passes { WriteAppends (S.contents stream.old) (S.contents stream.new) result piece.now }
{
    for _ in 0..u64::MAX {
        match stream.write(piece) {
            Ok(count) => return Ok(count),
            Err(error) if error.kind() == ErrorKind::Interrupted => {}
            Err(_) => return Err(IoFault),
        }
    }
    Err(IoFault)
}
