//! The probes that leave a site.

ghost use Rattle.std.specs.Prelude.{◌≡◌, ◌≢◌, ℕ, ◌++◌, map, IfOk, OnOk, Contains};
ghost use Rattle.cmh_dependents.specs.Marks.{AreLeaving, IsMarked};
ghost use Rattle.cmh_rules.specs.Verdicts.{AreProbesOf};

use cmh_bits::{lowest, without_bit};
use cmh_dependents::Reach;
use cmh_frames::{Frame, Probe, ProcId};
use cmh_waits::LocalWaits;
use std::alloc::{AllocError, Global};

/// The probes of the computation of `origin` along each wait that leaves the site from the members that are reached.
#[inline(always)]
pub fn probes_along(
    alloc: Global,
    waits: &LocalWaits,
    origin: ProcId,
    reach: Reach,
) -> Result<Vec<Frame>, AllocError>
    requires { AreLeaving waits.now reach.places reach.leaving }
    ensures { IfOk result (λ frames. AreProbesOf waits.now origin (λ p. IsMarked waits.now.members reach.places p)
        frames.items) }
{
    let _ = waits.members();
    let mut frames = Vec::new(alloc);
    let mut left = reach.leaving;
    while left != 0 {
        let place = lowest(left);
        let Some(process) = waits.member(place) else {
            return Ok(frames);
        };
        push_probes(&mut frames, origin, process, waits.remote_at(place))?;
        left = without_bit(left, place);
    }
    Ok(frames)
}

/// Adds a probe along the wait of one process for each of some others.
fn push_probes(
    frames: &mut Vec<Frame>,
    origin: ProcId,
    from: ProcId,
    targets: &[ProcId],
) -> Result<(), AllocError>
    requires { (to : ℕ) → Contains targets.now to → from ≢ to }
    ensures { OnOk result (frames.new.items
        ≡ frames.old.items ++ map (λ to. Frame.Probe (origin, from, to)) targets.now) }
{
    frames.reserve(targets.len())?;
    for to in targets {
        frames.push_reserved(Frame::Probe(Probe {
            origin,
            from,
            to: *to,
        }));
    }
    Ok(())
}
