//! Frames and the sites that they go to.

ghost use Rattle.std.specs.Prelude.{◌≡◌, ℕ, [], ◌++◌, map, IfOk, OnOk, IsSome};
ghost use Rattle.std.specs.List.{AllByRecursion};
ghost use Rattle.cmh_frames.specs.Topology.{At, home, is_at};
ghost use Rattle.cmh_frames.specs.Rules.{AreTargets, replies, requests};
ghost use Rattle.cmh_controller.specs.Destinations.{addressed, receiver_of};

use cmh_frames::{Frame, Probe, ProcId, Reply, Request, SiteId, Topology};
use std::alloc::AllocError;

/// Whether the process is at the site.
pub fn is_at(topology: &Topology, process: ProcId, site: SiteId) -> bool
    ensures { result ≡ is_at topology.now process site }
{
    match topology.home(process) {
        Some(home) => home == site,
        None => false,
    }
}

/// The process that a frame is for.
fn receiver(frame: &Frame) -> ProcId
    ensures { result ≡ receiver_of frame.now }
{
    match frame {
        Frame::Request(Request { holder, .. }) => *holder,
        Frame::Reply(Reply { asker, .. }) => *asker,
        Frame::Probe(Probe { to, .. }) => *to,
    }
}

/// Adds frames to those that go out, each with the site of the process that it is for.
#[inline(always)]
pub fn send_each(
    topology: &Topology,
    frames: &[Frame],
    sent: &mut Vec<(SiteId, Frame)>,
) -> Result<(), AllocError>
    requires { AllByRecursion (λ frame. IsSome (home topology.now (receiver_of frame))) frames.now }
    ensures { OnOk result (sent.new.items ≡ sent.old.items ++ map (addressed topology.now) frames.now) }
{
    sent.reserve(frames.len())?;
    for frame in frames {
        let site = topology.home(receiver(frame)).unwrap();
        sent.push_reserved((site, *frame));
    }
    Ok(())
}

/// The requests of an ask: one to each target of another site, in the targets' order. They are put into `spare`.
pub fn requests(
    spare: Vec<(SiteId, Frame)>,
    topology: &Topology,
    site: SiteId,
    asker: ProcId,
    targets: &[ProcId],
) -> Result<Vec<(SiteId, Frame)>, AllocError>
    requires spare { spare.items ≡ [] }
    requires targets { AreTargets topology.now asker targets.now }
    ensures { IfOk result (λ sent. sent.items ≡ requests topology.now site asker targets.now) }
{
    let mut sent = spare;
    for target in targets {
        let home = topology.home(*target).unwrap();
        if home != site {
            let holder = *target;
            sent.push((home, Frame::Request(Request { asker, holder })))?;
        }
    }
    Ok(sent)
}

/// The reply to a process, where that is at another site. It is put into `spare`.
pub fn replies(
    spare: Vec<(SiteId, Frame)>,
    topology: &Topology,
    site: SiteId,
    holder: ProcId,
    asker: ProcId,
) -> Result<Vec<(SiteId, Frame)>, AllocError>
    requires spare { spare.items ≡ [] }
    requires here { At topology.now holder site }
    requires known { IsSome (home topology.now asker) }
    ensures { IfOk result (λ sent. sent.items ≡ replies topology.now site holder asker) }
{
    let mut sent = spare;
    let home = topology.home(asker).unwrap();
    if home != site {
        sent.push((home, Frame::Reply(Reply { holder, asker })))?;
    }
    Ok(sent)
}
