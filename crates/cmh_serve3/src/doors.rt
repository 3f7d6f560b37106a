//! The ports of a site.

use crate::serve_fault::ServeFault;
use mio::net::TcpListener;
use mio::{Interest, Poll, Token};
use std::net::{Ipv4Addr, Net, SocketAddr};

/// The port on which other sites connect.
const LINKS: Token = Token(0);

/// The port on which clients connect.
const CLIENTS: Token = Token(1);

/// The ports of a site. One whose lines come from standard input has none for clients.
#[derive(Drop)]
pub(crate) struct Doors {
    pub poll: Poll,
    pub links: TcpListener,
    pub clients: Option<TcpListener>,
}

impl Doors {
    /// Listens for other sites, and for clients where there is a port for them.
    pub fn open<R: Net>(net: &R, links: u16, clients: Option<u16>) -> Result<Doors, ServeFault> {
        let Ok(poll) = Poll::new(net) else {
            return Err(ServeFault::Listen);
        };
        let links = listen_on(net, &poll, links, LINKS)?;
        let clients = match clients {
            Some(port) => Some(listen_on(net, &poll, port, CLIENTS)?),
            None => None,
        };
        Ok(Doors {
            poll,
            links,
            clients,
        })
    }
}

/// Whether an event is of a port.
pub(crate) fn is_of_port(token: Token) -> bool {
    token == LINKS || token == CLIENTS
}

fn listen_on<R: Net>(
    net: &R,
    poll: &Poll,
    port: u16,
    token: Token,
) -> Result<TcpListener, ServeFault> {
    let address = SocketAddr::from((Ipv4Addr::LOCALHOST, port));
    let Ok(mut listener) = TcpListener::bind(net, address) else {
        return Err(ServeFault::Listen);
    };
    match poll
        .registry()
        .register(&mut listener, token, Interest::READABLE)
    {
        Ok(()) => Ok(listener),
        Err(_) => Err(ServeFault::Listen),
    }
}
