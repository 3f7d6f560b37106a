//! Connections over TCP on 127.0.0.1.

ghost use Rattle.std.specs.Prelude.{◌≡◌, IfOk};

use crate::carrier::{ConnectionHandle, Dial, IoFault};
use crate::gate::{Door, Gate};
use crate::stream::{Accept, Look, StreamIncoming, StreamListen, StreamOutgoing};
use cmh_frames::SiteId;
use std::alloc::Global;
use std::io::{ErrorKind, Read, Write};
use std::net::{Ipv4Addr, Net, Shutdown, SocketAddr, TcpListener, TcpStream};
use std::os::fd::OwnedFd;
use std::sync::Arc;
use std::time::{Clock, Duration};
use std::{io, thread};

/// A write that moves no byte for so long has failed, so that a peer that reads nothing holds nobody for good.
const MOST_WRITE_SECONDS: u64 = 60;

/// A site whose connection isn't open by then could not be connected.
const MOST_CONNECT_SECONDS: u64 = 10;

/// The pause before a site that could not be connected is tried again; each later one is twice as long, up to the longest.
const FIRST_PAUSE_MILLISECONDS: u64 = 50;

const LONGEST_PAUSE_MILLISECONDS: u64 = 1_000;

/// How long a look waits for what the other end did.
const LOOK_MILLISECONDS: u64 = 1;

/// A connection that ends within so long is as good as none, where sites are tried again.
const FIRST_LOOK_MILLISECONDS: u64 = 20;

/// How long accepting pauses where there is no descriptor or no memory for one more connection.
const PAUSE_MILLISECONDS: u64 = 100;

/// A handle of a socket, which reads it, writes it and shuts it.
#[derive(Drop)]
pub struct TcpConnection {
    /// `None` where memory to share it was refused: then it is closed, and each read and write fails.
    socket: Option<Arc<TcpStream>>,
}

impl TcpConnection {
    /// The only handle of a socket.
    fn new(alloc: Global, stream: TcpStream) -> TcpConnection {
        TcpConnection {
            socket: Arc::new(alloc, stream).ok(),
        }
    }

    /// Another handle of the same socket. `None` where there is none, or memory for one was refused.
    fn another(&self) -> Option<TcpConnection> {
        match &self.socket {
            Some(socket) => match Arc::try_clone(socket) {
                Ok(socket) => Some(TcpConnection {
                    socket: Some(socket),
                }),
                Err(_) => None,
            },
            None => None,
        }
    }
}

impl Read for TcpConnection {
    fn read(&mut self, buffer: &mut [u8]) -> io::Result<usize> {
        match &self.socket {
            Some(socket) => {
                let mut stream: &TcpStream = socket;
                stream.read(buffer)
            }
            None => Err(io::Error::from(ErrorKind::OutOfMemory)),
        }
    }
}

impl Write for TcpConnection {
    fn write(&mut self, piece: &[u8]) -> io::Result<usize> {
        match &self.socket {
            Some(socket) => {
                let mut stream: &TcpStream = socket;
                stream.write(piece)
            }
            None => Err(io::Error::from(ErrorKind::OutOfMemory)),
        }
    }

    /// A socket holds nothing back.
    fn flush(&mut self) -> io::Result<()> {
        Ok(())
    }
}

impl Look for TcpConnection {
    fn has_ended(&self) -> bool {
        match &self.socket {
            Some(socket) => is_at_end(socket),
            None => true,
        }
    }
}

/// Whether the other end of a socket is gone.
fn is_at_end(socket: &TcpStream) -> bool {
    match socket.peek(&mut [0]) {
        Ok(count) => count == 0,
        Err(error) => !is_silence(error.kind()),
    }
}

/// Whether an error of a read says only that nothing came in time.
fn is_silence(kind: ErrorKind) -> bool {
    matches!(
        kind,
        ErrorKind::WouldBlock | ErrorKind::TimedOut | ErrorKind::Interrupted
    )
}

impl ConnectionHandle for TcpConnection {
    fn shut(&self) {
        if let Some(socket) = &self.socket {
            let _ = socket.shutdown(Shutdown::Both);
        }
    }
}

/// The receiving end of an accepted connection.
pub type TcpIncoming = StreamIncoming<TcpConnection>;

/// The sending end of a connection that was opened here.
pub type TcpOutgoing = StreamOutgoing<TcpConnection>;

/// A socket of a port.
#[derive(Drop)]
pub struct TcpPort<R: Clock + Drop> {
    rt: R,
    alloc: Global,
    listener: TcpListener,
    /// Another handle of it, made here, so that closing it later needs no descriptor. `None` where memory for it was
    /// refused.
    door: Option<Arc<Door>>,
}

impl<R: Clock + Drop> TcpPort<R> {
    fn is_shut(&self) -> bool {
        match &self.door {
            Some(door) => door.is_shut(),
            None => false,
        }
    }
}

/// How long accepting pauses before it is tried again; `None` where it has failed for good. The numbers are those of Linux.
fn pause_after(error: &io::Error) -> Option<Duration> {
    /// The connection failed before it was accepted.
    const EPROTO: i32 = 71;
    /// No memory, no descriptor of the system or of the process, or no buffer.
    const WANTS: [i32; 4] = [12, 23, 24, 105];
    if error.kind() == ErrorKind::ConnectionAborted {
        return Some(Duration::ZERO);
    }
    match error.raw_os_error() {
        Some(EPROTO) => Some(Duration::ZERO),
        Some(number) if WANTS.contains(&number) => Some(Duration::from_millis(PAUSE_MILLISECONDS)),
        _ => None,
    }
}

impl<R: Clock + Drop> Accept for TcpPort<R> {
    type Stream = TcpConnection;

    /// It is tried again after a connection that failed before it was accepted, and, with a pause, where a descriptor or
    /// memory is missing.
    fn accept(&mut self) -> io::Result<TcpConnection> {
        for _ in 0..u64::MAX {
            if self.is_shut() {
                break;
            }
            match self.listener.accept() {
                Ok((stream, _)) => return Ok(TcpConnection::new(self.alloc, stream)),
                Err(error) => match pause_after(&error) {
                    Some(pause) => thread::sleep(&self.rt, pause),
                    None => return Err(error),
                },
            }
        }
        Err(io::Error::from(ErrorKind::NotConnected))
    }

    fn another(&self, stream: &TcpConnection) -> Option<TcpConnection> {
        stream.another()
    }

    fn gate(&self) -> Option<Gate> {
        match &self.door {
            Some(door) => match Arc::try_clone(door) {
                Ok(door) => Some(Gate::new(door)),
                Err(_) => None,
            },
            None => None,
        }
    }

    fn shut(&self) {
        if let Some(door) = &self.door {
            door.shut();
        }
    }
}

/// A port on which connections arrive.
pub type TcpListen<R> = StreamListen<TcpPort<R>>;

impl<R> StreamListen<TcpPort<R>>
where
    R: Net<Listener = TcpListener, Stream = TcpStream> + Clock + Copy + Drop,
{
    /// Listens on a port of 127.0.0.1; on a free one where the port is 0.
    pub fn bind(rt: &R, alloc: Global, port: u16) -> Result<TcpListen<R>, IoFault>
        ensures { IfOk result (λ listen. listen.faults ≡ 0) }
    {
        let Ok(listener) = TcpListener::bind(rt, SocketAddr::from((Ipv4Addr::LOCALHOST, port)))
        else {
            return Err(IoFault);
        };
        let Ok(other) = listener.try_clone() else {
            return Err(IoFault);
        };
        let door = Door::new(TcpStream::from(OwnedFd::from(other)));
        Ok(StreamListen::new(TcpPort {
            rt: *rt,
            alloc,
            listener,
            door: Arc::new(alloc, door).ok(),
        }))
    }

    /// The port that it listens on.
    pub fn port(&self) -> Result<u16, IoFault> {
        match self.listener().listener.local_addr() {
            Ok(address) => Ok(address.port()),
            Err(_) => Err(IoFault),
        }
    }
}

/// Opens connections to the ports of sites.
#[derive(Drop)]
pub struct TcpDial<R: Net<Stream = TcpStream> + Clock + Drop> {
    rt: R,
    ports: Vec<(SiteId, u16)>,
    patience: Duration,
    /// When the first connection failed.
    since: Option<Duration>,
    faults: u64,
}

impl<R: Net<Stream = TcpStream> + Clock + Drop> TcpDial<R> {
    /// Each site with its port on 127.0.0.1; of equal sites the first counts. A connection that fails is not tried again.
    pub fn new(rt: R, ports: Vec<(SiteId, u16)>) -> TcpDial<R>
        ensures { result.faults ≡ 0 }
    {
        TcpDial {
            rt,
            ports,
            patience: Duration::ZERO,
            since: None,
            faults: 0,
        }
    }

    /// The same, where connections that fail are tried again for so long, which counts for all sites together from the
    /// first that failed. A connection has failed once the last try has. One that the other end closes at once, before a
    /// byte went over it, has failed, too.
    pub fn with_patience(self, patience: Duration) -> TcpDial<R>
        ensures { result.faults ≡ self.faults }
    {
        TcpDial { patience, ..self }
    }

    fn address(&self, site: SiteId) -> Option<SocketAddr> {
        for (of, port) in &self.ports {
            if *of == site {
                return Some(SocketAddr::from((Ipv4Addr::LOCALHOST, *port)));
            }
        }
        None
    }

    fn open(&mut self, site: SiteId) -> Result<TcpStream, IoFault>
        ensures { self.new.faults ≡ self.old.faults }
    {
        let Some(address) = self.address(site) else {
            return Err(IoFault);
        };
        let mut pause = Duration::from_millis(FIRST_PAUSE_MILLISECONDS);
        for turn in 0..u64::MAX {
            let opened = self.open_once(address);
            if opened.is_ok() || !self.has_patience() {
                return opened;
            }
            thread::sleep(&self.rt, pause);
            pause = pause
                .saturating_add(pause)
                .min(Duration::from_millis(LONGEST_PAUSE_MILLISECONDS));
        }
        Err(IoFault)
    }

    /// A connection that doesn't end at once, where there is patience to try again.
    fn open_once(&self, address: SocketAddr) -> Result<TcpStream, IoFault> {
        let stream = open_stream(&self.rt, address)?;
        if !self.patience.is_zero() && ends_at_once(&stream) {
            return Err(IoFault);
        }
        Ok(stream)
    }

    /// Whether a connection that failed just now is tried again.
    fn has_patience(&mut self) -> bool
        ensures { self.new.faults ≡ self.old.faults }
    {
        let Ok(now) = self.rt.monotonic() else {
            return false;
        };
        let since = match self.since {
            Some(since) => since,
            None => {
                self.since = Some(now);
                now
            }
        };
        now.saturating_sub(since) < self.patience
    }
}

/// A connection whose writes are sent at once, and whose calls don't wait for good.
fn open_stream<R: Net<Stream = TcpStream>>(
    rt: &R,
    address: SocketAddr,
) -> Result<TcpStream, IoFault> {
    let connect = Duration::from_secs(MOST_CONNECT_SECONDS);
    let Ok(stream) = TcpStream::connect_timeout(rt, &address, connect) else {
        return Err(IoFault);
    };
    let write = Some(Duration::from_secs(MOST_WRITE_SECONDS));
    let look = Some(Duration::from_millis(LOOK_MILLISECONDS));
    if stream.set_nodelay(true).is_err()
        || stream.set_write_timeout(write).is_err()
        || stream.set_read_timeout(look).is_err()
    {
        return Err(IoFault);
    }
    Ok(stream)
}

/// Whether the other end closes a new connection at once, as a site does that takes no more, or one that is ending.
fn ends_at_once(stream: &TcpStream) -> bool {
    let first = Some(Duration::from_millis(FIRST_LOOK_MILLISECONDS));
    let later = Some(Duration::from_millis(LOOK_MILLISECONDS));
    stream.set_read_timeout(first).is_err()
        || is_at_end(stream)
        || stream.set_read_timeout(later).is_err()
}

impl<R: Net<Stream = TcpStream> + Clock + Drop> Dial for TcpDial<R> {
    type Out = TcpOutgoing;

    type Handle = TcpConnection;

    ghost failures = { λ s. s.faults };

    fn connect(&mut self, site: SiteId) -> Result<TcpOutgoing, IoFault> {
        let alloc = *self.ports.allocator();
        match self.open(site) {
            Ok(stream) => Ok(StreamOutgoing::new(TcpConnection::new(alloc, stream))),
            Err(fault) => {
                self.faults += 1;
                Err(fault)
            }
        }
    }

    fn handle(&self, outgoing: &TcpOutgoing) -> Option<TcpConnection> {
        outgoing.stream().another()
    }

    fn faults(&self) -> u64 {
        self.faults
    }
}
