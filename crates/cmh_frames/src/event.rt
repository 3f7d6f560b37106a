//! What happens at a controller.

ghost use Rattle.std.specs.Prelude.{◌≡◌, ◌↔◌, IsTrue, IfOk};
ghost use Rattle.cmh_frames.specs.Rules.{IsAscending};

use crate::{Frame, ProcId, SiteId};
use std::alloc::{AllocError, Global};
use std::marker::Model;

/// The processes that an ask names, in the order in which it names them.
#[derive(Drop)]
pub struct Targets {
    processes: Vec<ProcId>,
}

impl Model for Targets {
    ghost use Rattle.std.specs.Prelude.{ℕ, List};

    ghost Value = { List ℕ };

    ghost view = { λ t. t.processes.items };
}

impl Targets {
    /// Any list is one of targets; whether an ask may name them is for the controller to say.
    pub fn new(processes: Vec<ProcId>) -> Self
        ensures { result ≡ processes.items }
    {
        Targets { processes }
    }

    pub fn as_slice(&self) -> &[ProcId]
        ensures { result.now ≡ self.now }
    {
        &self.processes
    }

    /// The list of the targets, whose memory may be used again.
    #[inline(always)]
    pub fn into_processes(self) -> Vec<ProcId>
        ensures { result.items ≡ self }
    {
        self.processes
    }

    /// The same targets once more.
    pub fn copy(&self, alloc: Global) -> Result<Targets, AllocError>
        ensures { IfOk result (λ other. other ≡ self.now) }
    {
        Ok(Targets::new(self.processes.to_vec(alloc)?))
    }
}

/// Whether each is less than the next, as the targets of an ask are.
pub fn is_ascending(processes: &[ProcId]) -> bool
    ensures { IsTrue result ↔ IsAscending processes.now }
{
    processes.is_sorted_by(|earlier, later| earlier < later)
}

/// What happens at a controller.
#[derive(Drop)]
pub enum Event {
    /// A process asks for what others hold, and waits for all of them.
    Ask { asker: ProcId, targets: Targets },
    /// A process grants what it holds to one that asked for it.
    Reply { holder: ProcId, asker: ProcId },
    /// A probe computation is started for a process.
    Start { of: ProcId },
    /// A frame came from another site.
    Got { from: SiteId, frame: Frame },
}

impl Event {
    /// The same event once more.
    pub fn copy(&self, alloc: Global) -> Result<Event, AllocError>
        ensures { IfOk result (λ other. other ≡ self.now) }
    {
        match self {
            Event::Ask { asker, targets } => Ok(Event::Ask {
                asker: *asker,
                targets: targets.copy(alloc)?,
            }),
            Event::Reply { holder, asker } => Ok(Event::Reply {
                holder: *holder,
                asker: *asker,
            }),
            Event::Start { of } => Ok(Event::Start { of: *of }),
            Event::Got { from, frame } => Ok(Event::Got {
                from: *from,
                frame: *frame,
            }),
        }
    }
}
