//! What happens at a controller.

ghost use Rattle.std.specs.Prelude.{◌≡◌, IfOk};

use crate::{Frame, Stamp};
use cmh_runs::{ProcId, SiteId};
use std::alloc::{AllocError, Global};
use std::marker::Model;

/// The processes that an ask or a withdrawal names, in the order in which it names them.
#[derive(Drop)]
pub struct Targets {
    processes: Vec<ProcId>,
}

impl Model for Targets {
    ghost use Rattle.std.specs.Prelude.{ℕ, List};

    ghost Value = { List ℕ };

    ghost view = { λ t. t.processes.items };
}

impl Targets {
    /// Any list is one of targets; whether an event may name them is for the controller to say.
    pub fn new(processes: Vec<ProcId>) -> Self
        ensures { result ≡ processes.items }
    {
        Targets { processes }
    }

    pub fn as_slice(&self) -> &[ProcId]
        ensures { result.now ≡ self.now }
    {
        &self.processes
    }

    /// The list of the targets, whose memory may be used again.
    #[inline(always)]
    pub fn into_processes(self) -> Vec<ProcId>
        ensures { result.items ≡ self }
    {
        self.processes
    }

    /// The same targets once more.
    pub fn copy(&self, alloc: Global) -> Result<Targets, AllocError>
        ensures { IfOk result (λ other. other ≡ self.now) }
    {
        Ok(Targets::new(self.processes.to_vec(alloc)?))
    }
}

/// What happens at a controller.
#[derive(Drop)]
pub enum Event {
    /// A process asks for what others hold, and waits for all of them. A blocked one asks for more, or of nobody: then
    /// a computation starts for it once more.
    Ask {
        asker: ProcId,
        targets: Targets,
    },
    /// A process grants what it holds to one that asked for it.
    Reply {
        holder: ProcId,
        asker: ProcId,
    },
    /// A process gives up some of its waits.
    Withdraw {
        asker: ProcId,
        targets: Targets,
    },
    /// A frame came from another site, with its sender's clock.
    Got {
        from: SiteId,
        clock: Stamp,
        frame: Frame,
    },
    /// The site's clock is set forward.
    Turn {
        clock: Stamp,
    },
}

impl Event {
    /// The same event once more.
    pub fn copy(&self, alloc: Global) -> Result<Event, AllocError>
        ensures { IfOk result (λ other. other ≡ self.now) }
    {
        match self {
            Event::Ask { asker, targets } => Ok(Event::Ask {
                asker: *asker,
                targets: targets.copy(alloc)?,
            }),
            Event::Reply { holder, asker } => Ok(Event::Reply {
                holder: *holder,
                asker: *asker,
            }),
            Event::Withdraw { asker, targets } => Ok(Event::Withdraw {
                asker: *asker,
                targets: targets.copy(alloc)?,
            }),
            Event::Got { from, clock, frame } => Ok(Event::Got {
                from: *from,
                clock: *clock,
                frame: *frame,
            }),
            Event::Turn { clock } => Ok(Event::Turn { clock: *clock }),
        }
    }
}
