//! The start of a probe computation.

ghost use Rattle.std.specs.Prelude.{IfOk};
ghost use Rattle.cmh_waits.specs.Held.{IsMember};
ghost use Rattle.cmh_rules.specs.Verdicts.{IsStart};

use crate::edges::probes_along;
use cmh_dependents::Reach;
use cmh_frames::{Frame, ProcId};
use cmh_waits::LocalWaits;
use std::alloc::{AllocError, Global};

/// What the start of a probe computation for a process comes to.
#[derive(Drop)]
pub enum StartVerdict {
    /// The process depends on itself by waits inside the site.
    Declared,
    /// Probes go out, ascending by the process that waits and then by the one it waits for. There may be none.
    Send(Vec<Frame>),
}

/// Starts a probe computation for a process of the site (Chandy, Misra and Haas 1983). The only error is out of
/// memory.
#[inline(always)]
pub fn start(alloc: Global, waits: &LocalWaits, process: ProcId) -> Result<StartVerdict, AllocError>
    requires { IsMember waits.now process }
    ensures { IfOk result (IsStart waits.now process) }
{
    let reach = Reach::new(waits, process);
    if reach.on_cycle {
        return Ok(StartVerdict::Declared);
    }
    let frames = probes_along(alloc, waits, process, reach)?;
    Ok(StartVerdict::Send(frames))
}
