//! What lets go whoever waits for connections.

ghost use Rattle.std.specs.Prelude.{◌≡◌, None, Some};

use std::net::{Shutdown, TcpStream};
use std::sync::Arc;
use std::sync::atomic::{AtomicBool, Ordering};

/// A listening socket, and whether it was shut.
#[derive(Drop)]
pub struct Door {
    socket: TcpStream,
    is_shut: AtomicBool,
}

impl Door {
    /// Of a socket that isn't shut.
    pub fn new(socket: TcpStream) -> Door {
        Door {
            socket,
            is_shut: AtomicBool::new(false),
        }
    }

    /// Whether it was shut. Where there is no descriptor for one more connection, the system doesn't say so.
    pub fn is_shut(&self) -> bool {
        self.is_shut.load(Ordering::SeqCst)
    }

    /// An `accept` that is under way fails, as does each later one. It needs no descriptor and no memory.
    pub fn shut(&self) {
        self.is_shut.store(true, Ordering::SeqCst);
        let _ = self.socket.shutdown(Shutdown::Both);
    }
}

/// Another handle of where connections arrive, by which whoever waits in its `accept` is let go.
#[derive(Drop)]
pub struct Gate {
    door: Option<Arc<Door>>,
}

impl Gate {
    /// Of a listener in which nobody ever waits.
    pub fn unguarded() -> Gate
        ensures { result.door ≡ None }
    {
        Gate { door: None }
    }

    /// Of a listening socket.
    pub fn new(door: Arc<Door>) -> Gate
        ensures { result.door ≡ Some door }
    {
        Gate { door: Some(door) }
    }

    /// An `accept` that is under way fails, as does each later one. It needs no descriptor and no memory.
    pub fn shut(&self) {
        if let Some(door) = &self.door {
            door.shut();
        }
    }
}
