//! What clients want of a running site.

use cmh_model3::{Event, ProcId};

/// Something to be done by the site, which is answered once it is done.
#[derive(Drop)]
pub enum Deed {
    /// An event of a process. A `start` is an ask of nobody.
    Event(Event),
    /// A process gives up all its waits: which ones is known only when it is its turn.
    WithdrawAll(ProcId),
}

/// Something to be told by the site.
#[derive(Clone, Copy)]
pub enum Question {
    /// The processes that are declared now.
    Declared,
    /// For whom a process waits.
    Waits(ProcId),
    /// Whose requests a process has not answered.
    Owed(ProcId),
    /// Whom a process can't ask again yet.
    Leaving(ProcId),
    /// The states of the links.
    Links,
    /// The figures of the site.
    Status,
    /// The news, from now on.
    Watch,
    /// The last so many entries of the segment.
    Tail(u16),
    /// That the site begins its next epoch.
    Turn,
    /// A line that fits nothing, or is too long.
    Bad,
}
