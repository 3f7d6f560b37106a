//! What sites send to one another.

use crate::Stamp;
use cmh_runs::ProcId;

/// What one site says to another of two processes: the first is at the site that sends, the second at the one that gets.
#[derive(Clone, Copy, PartialEq, Eq)]
pub enum Frame {
    /// The asker waits for the holder from now on.
    Request {
        asker: ProcId,
        holder: ProcId,
    },
    /// The holder grants what the asker asked it for, or has heard that the asker gave it up.
    Reply {
        holder: ProcId,
        asker: ProcId,
    },
    /// The asker has given up its wait for the holder.
    Withdraw {
        asker: ProcId,
        holder: ProcId,
    },
    /// The ask of `origin` with this stamp depends on the wait of `from` for `to`.
    Probe {
        origin: ProcId,
        stamp: Stamp,
        from: ProcId,
        to: ProcId,
    },
}

/// A frame, and the clock of its sender after the step that sent it.
#[derive(Clone, Copy, PartialEq, Eq)]
pub struct Message {
    pub clock: Stamp,
    pub frame: Frame,
}
