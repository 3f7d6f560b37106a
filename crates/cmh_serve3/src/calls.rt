//! The connections that the site dials: one to each other site.

use crate::socket::Socket;
use cmh_clients3::Site;
use cmh_disk3::JournalFolder;
use cmh_links3::{Onward, Outgoing};
use cmh_wire3::Epoch;
use mio::net::TcpStream;
use mio::{Interest, Registry, Token};
use std::alloc::Global;
use std::net::{Ipv4Addr, Net, SocketAddr};

/// How often it is read and written in a turn, at most.
const MOST_TURNS: usize = 16;

/// The link to another site, and its connection where there is one.
#[derive(Drop)]
pub(crate) struct Call {
    outgoing: Outgoing,
    socket: Option<Socket>,
    port: u16,
    token: Token,
    /// Whether the other site said hello, so that it can be dialled at once.
    is_up: bool,
    /// The epoch of which the other site was told last.
    told: Epoch,
}

impl Call {
    pub fn new(alloc: Global, place: usize, port: u16, token: Token) -> Call {
        Call {
            outgoing: Outgoing::new(alloc, place),
            socket: None,
            port,
            token,
            is_up: false,
            told: Epoch::new(0),
        }
    }

    pub fn socket(&mut self) -> Option<&mut Socket> {
        self.socket.as_mut()
    }

    /// The other site said hello.
    pub fn is_called(&mut self) {
        self.is_up = true;
    }

    /// Whether there is more to do for it at once.
    pub fn is_busy(&self) -> bool {
        match &self.socket {
            Some(socket) => socket.has_more()
                || socket.takes_more() && !self.outgoing.to_write().is_empty(),
            None => self.is_up,
        }
    }

    /// Does what is to be done: dials, reads, and writes what the site has for it.
    pub fn go_on<R: Net, D: JournalFolder>(
        &mut self,
        net: &R,
        registry: &Registry,
        site: &mut Site<D>,
        scratch: &mut [u8],
        now: u64,
    ) {
        if self.socket.is_none() {
            self.dial_if_due(net, registry, site, now);
        }
        self.is_up = false;
        let epoch = site.node.epoch();
        if self.told != epoch {
            self.told = epoch;
            self.outgoing.tell_epoch(&site.node);
        }
        let Some(socket) = &mut self.socket else {
            return;
        };
        if !carry(socket, &mut self.outgoing, site, scratch, now) {
            self.socket = None;
            self.outgoing.end(&mut site.node, now);
        }
    }

    fn dial_if_due<R: Net, D: JournalFolder>(
        &mut self,
        net: &R,
        registry: &Registry,
        site: &mut Site<D>,
        now: u64,
    ) {
        if !self.is_up && !self.outgoing.is_due(&mut site.node, now) {
            return;
        }
        if let Onward::Close = self.outgoing.dial(&mut site.node, now) {
            return;
        }
        match connect(net, registry, self.port, self.token) {
            Some(socket) => self.socket = Some(socket),
            None => self.outgoing.end(&mut site.node, now),
        }
    }
}

/// Begins a connection to a port.
fn connect<R: Net>(net: &R, registry: &Registry, port: u16, token: Token) -> Option<Socket> {
    let address = SocketAddr::from((Ipv4Addr::LOCALHOST, port));
    let Ok(mut stream) = TcpStream::connect(net, address) else {
        return None;
    };
    let both = Interest::READABLE | Interest::WRITABLE;
    if registry.register(&mut stream, token, both).is_err() {
        return None;
    }
    let _ = stream.set_nodelay(true);
    Some(Socket::connecting(stream))
}

/// Reads and writes on a connection as far as it can. Answers whether it goes on.
fn carry<D: JournalFolder>(
    socket: &mut Socket,
    outgoing: &mut Outgoing,
    site: &mut Site<D>,
    scratch: &mut [u8],
    now: u64,
) -> bool {
    for _ in 0..MOST_TURNS {
        let count = socket.read(scratch);
        if count > 0 && outgoing.hear(&scratch[..count]).is_err() {
            return false;
        }
        let later = outgoing.ahead(&site.node);
        site.follow(later);
        let onward = outgoing.go_on(&mut site.node, now);
        let written = socket.write(outgoing.to_write());
        outgoing.wrote(written);
        if let Onward::Close = onward {
            return false;
        }
        if socket.is_broken() || socket.has_ended() {
            return false;
        }
        if count == 0 && written == 0 {
            return true;
        }
    }
    true
}
