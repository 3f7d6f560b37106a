//! The clients of the site that connect.

use crate::socket::Socket;
use cmh_client::MOST_QUEUED;
use cmh_clients3::Talker;
use std::alloc::Global;

/// How many clients a site has at once; each further one is closed at once.
pub(crate) const MOST_CLIENTS: usize = 256;

/// How often a client is read in a turn, at most.
const MOST_READS: usize = 4;

/// A client and the socket that carries its bytes.
#[derive(Drop)]
pub(crate) struct Guest {
    socket: Socket,
    pub talker: Talker,
}

impl Guest {
    pub fn new(alloc: Global, socket: Socket) -> Guest {
        Guest {
            socket,
            talker: Talker::new(alloc),
        }
    }

    pub fn socket(&mut self) -> &mut Socket {
        &mut self.socket
    }

    /// Reads what is there, in a few reads at most.
    pub fn read(&mut self, scratch: &mut [u8]) {
        for _ in 0..MOST_READS {
            if !self.talker.has_room() {
                return;
            }
            let count = self.socket.read(scratch);
            if count == 0 {
                return;
            }
            self.talker.hear(&scratch[..count]);
        }
    }

    /// Whether something is to be sent to it, and its socket may take it.
    pub fn may_write(&self) -> bool {
        self.socket.takes_more() && !self.talker.to_say().is_empty()
    }

    /// Sends what it is to be sent, as far as the socket takes it.
    pub fn write(&mut self) {
        for _ in 0..MOST_QUEUED {
            if self.talker.to_say().is_empty() || !self.socket.takes_more() {
                break;
            }
            let count = self.socket.write(self.talker.to_say());
            self.talker.said(count);
        }
        if self.talker.to_say().len() > MOST_QUEUED {
            self.socket.give_up();
        }
    }

    /// Whether there is more to do for it at once.
    pub fn is_busy(&self) -> bool {
        (self.socket.has_more() && self.talker.has_room()) || self.talker.has_lines()
    }

    /// Whether it is to be closed.
    pub fn is_over(&self) -> bool {
        let has_said_all = (self.socket.has_ended() && !self.talker.has_lines())
            || self.talker.is_leaving();
        let has_all = self.talker.is_answered() && self.talker.to_say().is_empty();
        self.socket.is_broken() || self.talker.is_broken() || (has_said_all && has_all)
    }
}
