//! A descriptor that the program was started with, as its standard input.

use mio::unix::SourceFd;
use mio::{Interest, Registry, Token};

/// A descriptor of the program, and whether one read or write of it goes on without waiting. Where the system can't tell that,
/// as of a file, none ever waits.
///
/// A write goes on without waiting where it has at most as many bytes as a pipe takes at once, 4,096.
#[derive(Drop)]
pub(crate) struct Descriptor {
    number: i32,
    token: Token,
    interest: Interest,
    can_wait: bool,
    is_ready: bool,
}

impl Descriptor {
    /// The descriptor of this number, which is waited for by a token.
    pub fn new(registry: &Registry, number: i32, token: Token, interest: Interest) -> Descriptor {
        let can_wait = registry
            .register(&mut SourceFd(&number), token, interest)
            .is_ok();
        Descriptor {
            number,
            token,
            interest,
            can_wait,
            is_ready: !can_wait,
        }
    }

    /// The system told that it is ready.
    pub fn ready(&mut self) {
        self.is_ready = true;
    }

    pub fn is_ready(&self) -> bool {
        self.is_ready
    }

    /// It was read or written once. From now on it is waited for again.
    pub fn used(&mut self, registry: &Registry) {
        if !self.can_wait {
            return;
        }
        self.is_ready = false;
        let number = self.number;
        if registry
            .reregister(&mut SourceFd(&number), self.token, self.interest)
            .is_err()
        {
            self.can_wait = false;
            self.is_ready = true;
        }
    }
}
