//! The receipt of a probe.

ghost use Rattle.std.specs.Prelude.{IfOk};
ghost use Rattle.cmh_waits.specs.Held.{IsMember};
ghost use Rattle.cmh_rules.specs.Verdicts.{IsReceipt};

use crate::edges::probes_along;
use cmh_dependents::{DependentSets, Reach};
use cmh_frames::{Frame, ProcId};
use cmh_waits::LocalWaits;
use std::alloc::{AllocError, Global};

/// What the receipt of a probe comes to.
#[derive(Drop)]
pub enum ProbeVerdict {
    /// The probe does not act: its receiver is active, owes the sender nothing, or is known to depend on the origin.
    Ignored,
    /// The receiver reaches the origin by waits inside the site, so the origin depends on itself.
    Declared(ProcId),
    /// Probes go out, ascending by the process that waits and then by the one it waits for. There may be none.
    Forward(Vec<Frame>),
}

/// Receives a probe of the computation of `origin`, which `from` sent to `to`, a process of this site (Chandy, Misra
/// and Haas 1983). The only error is out of memory.
pub fn on_probe(
    alloc: Global,
    waits: &LocalWaits,
    dependents: &DependentSets,
    origin: ProcId,
    from: ProcId,
    to: ProcId,
) -> Result<ProbeVerdict, AllocError>
    requires { IsMember waits.now to }
    ensures { IfOk result (IsReceipt waits.now dependents.now origin from to) }
{
    if !waits.is_blocked(to) || dependents.has(to, origin) || !waits.owes(to, from) {
        return Ok(ProbeVerdict::Ignored);
    }
    let reach = Reach::new(waits, to);
    if reach.contains(waits, origin) {
        return Ok(ProbeVerdict::Declared(origin));
    }
    let frames = probes_along(alloc, waits, origin, reach)?;
    Ok(ProbeVerdict::Forward(frames))
}
