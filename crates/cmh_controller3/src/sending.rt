//! What a step sends.

ghost use Rattle.std.specs.Prelude.{◌≡◌, ◌≢◌, ◌++◌, ◌∷◌, [], ℕ, true, Contains, IfOk, map};
ghost use Rattle.cmh_model3.specs.Lists.{in_list};
ghost use Rattle.cmh_model3.specs.Paths.{DependsOnItself, ReachesLocally};
ghost use Rattle.cmh_model3.specs.Rules as rules;
ghost use Rattle.cmh_model3.specs.State.{State, passes};
ghost use Rattle.cmh_controller3.specs.Inner.Looks.{AreOfSite, Sees};
ghost use Rattle.cmh_topology3.specs.Topology.{site_of};
ghost use Rattle.cmh_waits3.specs.Held.{AreWaitsOf, is_member};

use cmh_model3::{Frame, Message, ProcId, SiteId, Stamp};
use cmh_topology3::Topology;
use cmh_waits3::{Finding, SiteWaits, finding_of_ask, finding_of_probe};
use std::alloc::{AllocError, Global};

/// The requests of an ask: one to each target of another site, in the targets' order.
pub fn requests(
    alloc: Global,
    topology: &Topology,
    site: SiteId,
    clock: Stamp,
    asker: ProcId,
    targets: &[ProcId],
) -> Result<Vec<(SiteId, Message)>, AllocError>
    requires known { (k : ℕ) → in_list targets.now k ≡ true → site_of topology.now k ≢ 0 }
    ensures { IfOk result (λ sent. sent.items ≡ rules.requests (site_of topology.now) site clock asker targets.now) }
{
    let mut sent = Vec::new(alloc);
    for target in targets {
        let home = topology.home_of_known(*target);
        if home != site {
            let frame = Frame::Request {
                asker,
                holder: *target,
            };
            sent.push((home, Message { clock, frame }))?;
        }
    }
    Ok(sent)
}

/// Those of a withdrawal, likewise.
pub fn withdraws(
    alloc: Global,
    topology: &Topology,
    site: SiteId,
    clock: Stamp,
    asker: ProcId,
    targets: &[ProcId],
) -> Result<Vec<(SiteId, Message)>, AllocError>
    requires known { (k : ℕ) → in_list targets.now k ≡ true → site_of topology.now k ≢ 0 }
    ensures { IfOk result (λ sent. sent.items ≡ rules.withdraws (site_of topology.now) site clock asker targets.now) }
{
    let mut sent = Vec::new(alloc);
    for target in targets {
        let home = topology.home_of_known(*target);
        if home != site {
            let frame = Frame::Withdraw {
                asker,
                holder: *target,
            };
            sent.push((home, Message { clock, frame }))?;
        }
    }
    Ok(sent)
}

/// A list with one message.
pub fn one(
    alloc: Global,
    site: SiteId,
    message: Message,
) -> Result<Vec<(SiteId, Message)>, AllocError>
    ensures { IfOk result (λ sent. sent.items ≡ (site, message) ∷ []) }
{
    let mut sent = Vec::with_capacity(alloc, 1)?;
    sent.push((site, message))?;
    Ok(sent)
}

/// The ask of a process with a stamp. No two asks of a process have the same.
#[derive(Clone, Copy)]
pub struct AskId {
    pub origin: ProcId,
    pub stamp: Stamp,
}

/// The waits that a site holds, in the topology of its world.
#[derive(Clone, Copy)]
pub struct Here<'a> {
    pub topology: &'a Topology,
    pub site: SiteId,
    pub waits: &'a SiteWaits,
}

/// What a site sees for an ask: a deadlock, or else none, and then probes go out.
#[derive(Drop)]
pub struct Sight {
    pub deadlocked: bool,
    pub sent: Vec<(SiteId, Message)>,
}

/// What the asker's site sees of an ask whose waits have begun. The probes are added to what goes out.
pub fn look_from_ask(
    alloc: Global,
    here: &Here<'_>,
    ask: &AskId,
    sent: Vec<(SiteId, Message)>,
) -> Result<Sight, AllocError>
    requires of_site { AreOfSite here.now.topology.now here.now.site here.now.waits.now }
    requires member { is_member here.now.waits.now ask.now.origin ≡ true }
    ensures { IfOk result (λ sight. (v : State)
        → AreWaitsOf (site_of here.now.topology.now) here.now.site v here.now.waits.now
        → Sees (site_of here.now.topology.now) here.now.site v
        (DependsOnItself (site_of here.now.topology.now) here.now.site v ask.now.stamp ask.now.origin)
        ask.now.stamp ask.now.origin ask.now.stamp ask.now.origin sent.items sight.deadlocked sight.sent.items) }
{
    match finding_of_ask(alloc, here.waits, ask.stamp, ask.origin)? {
        Finding::Deadlock => Ok(Sight {
            deadlocked: true,
            sent,
        }),
        Finding::Edges(edges) => Ok(Sight {
            deadlocked: false,
            sent: probes(here.topology, ask.stamp, ask, &edges, sent)?,
        }),
    }
}

/// What the site of a process sees where a probe of the ask acts at the process. The probes go out with this clock.
pub fn look_from_probe(
    alloc: Global,
    here: &Here<'_>,
    clock: Stamp,
    ask: &AskId,
    at: ProcId,
) -> Result<Sight, AllocError>
    requires of_site { AreOfSite here.now.topology.now here.now.site here.now.waits.now }
    requires member { is_member here.now.waits.now at ≡ true }
    ensures { IfOk result (λ sight. (v : State)
        → AreWaitsOf (site_of here.now.topology.now) here.now.site v here.now.waits.now
        → Sees (site_of here.now.topology.now) here.now.site v
        (ReachesLocally (site_of here.now.topology.now) here.now.site v ask.now.stamp ask.now.origin at ask.now.origin
        × (passes v ask.now.stamp ask.now.origin ask.now.origin ≡ true))
        clock ask.now.origin ask.now.stamp at [] sight.deadlocked sight.sent.items) }
{
    match finding_of_probe(alloc, here.waits, ask.stamp, ask.origin, at)? {
        Finding::Deadlock => Ok(Sight {
            deadlocked: true,
            sent: Vec::new(alloc),
        }),
        Finding::Edges(edges) => Ok(Sight {
            deadlocked: false,
            sent: probes(here.topology, clock, ask, &edges, Vec::new(alloc))?,
        }),
    }
}

/// Adds a probe of the ask along each of these waits to what goes out.
fn probes(
    topology: &Topology,
    clock: Stamp,
    ask: &AskId,
    edges: &[(ProcId, ProcId)],
    sent: Vec<(SiteId, Message)>,
) -> Result<Vec<(SiteId, Message)>, AllocError>
    requires { (edge : ℕ × ℕ) → Contains edges.now edge → site_of topology.now edge.1 ≢ 0 }
    ensures { IfOk result (λ more. more.items ≡ sent.items
        ++ map (rules.probe_along (site_of topology.now) clock ask.now.origin ask.now.stamp) edges.now) }
{
    let mut sent = sent;
    sent.reserve(edges.len())?;
    for (from, to) in edges {
        let home = topology.home_of_known(*to);
        let frame = Frame::Probe {
            origin: ask.origin,
            stamp: ask.stamp,
            from: *from,
            to: *to,
        };
        sent.push((home, Message { clock, frame }))?;
    }
    Ok(sent)
}
