//! What becomes of the probes of a journal: a controller takes its events, one after the other.

ghost use Rattle.std.specs.Prelude.{◌≡◌, ◌≢◌, IfOk, OnOk};
ghost use Rattle.cmh_frames.specs.Journals.{IsLawful};
ghost use Rattle.cmh_frames.specs.Relation.{has};
ghost use Rattle.cmh_frames.specs.State.{is_blocked};
ghost use Rattle.cmh_frames.specs.Topology.{At};
ghost use Rattle.cmh_controller.specs.Steps.{CanTake};
ghost use Rattle.cmh_page.specs.Fates.{fate_in, fates_of};
ghost use Rattle.cmh_page.specs.Inner.Settled.{StepsSomehow, first_reason, is_of_blocked, settled};

use crate::fate::Fate;
use cmh_controller::{Controller, Refusal};
use cmh_frames::{Entry, Event, Frame, Probe, ProcId, Request, SiteId, Topology};
use std::alloc::{AllocError, Global};

/// What becomes of the probe of each entry of a site; `None` for an entry that got none. The entries are lawful, so the
/// only error is out of memory.
#[tactic(auto, using(crate::proofs::FateLemmas::follow_begins))]
pub fn fates_of(
    alloc: Global,
    topology: &Topology,
    site: SiteId,
    entries: &[Entry],
) -> Result<Vec<Option<Fate>>, AllocError>
    requires { IsLawful topology.now site entries.now }
    ensures { IfOk result (λ fates. fates.items ≡ fates_of topology.now site entries.now) }
{
    let mut controller = Controller::empty(alloc, topology, site)?;
    let mut fates = Vec::new(alloc);
    for entry in entries {
        let fate = take(&mut controller, &entry.event)?;
        fates.push(fate)?;
    }
    Ok(fates)
}

/// Takes an event that the rules accept, and answers what became of the probe that it got, if it got one.
fn take(controller: &mut Controller, event: &Event) -> Result<Option<Fate>, AllocError>
    requires { CanTake controller.old event.now }
    ensures fate { IfOk result (λ fate. fate ≡ fate_in controller.old.state event.now) }
    ensures steps { OnOk result (StepsSomehow controller.old event.now controller.new) }
{
    let reason = first_reason(controller, event);
    let Ok(prepared) = controller.prepare(event) else {
        return Err(AllocError);
    };
    controller.carry_out(event);
    Ok(settled(event, reason, prepared.acted))
}

/// Why the probe that an event got is ignored, where its receiver is active or owes the sender nothing.
fn first_reason(controller: &Controller, event: &Event) -> Option<Fate>
    requires { CanTake controller.now event.now }
    ensures { result ≡ first_reason controller.now.state event.now }
{
    let Event::Got { from: site, frame } = event else {
        return None;
    };
    let Frame::Probe(Probe { from, to, .. }) = frame else {
        return None;
    };
    if !is_blocked(controller, *to) {
        return Some(Fate::Active);
    }
    if !owes(controller, *to, *from, *site) {
        return Some(Fate::Answered);
    }
    None
}

/// Whether a process of the site waits for some process: exactly then a start of it is not refused as one of an active
/// process.
fn is_blocked(controller: &Controller, process: ProcId) -> bool
    requires { At controller.now.topology process controller.now.site }
    ensures { result ≡ is_blocked controller.now.state process }
{
    let start = Event::Start { of: process };
    let Err(refusal) = controller.check(&start) else {
        return true;
    };
    is_of_blocked(refusal)
}

/// Whether a start that is refused for this reason is that of a process which waits.
const fn is_of_blocked(refusal: Refusal) -> bool
    ensures { result ≡ is_of_blocked refusal }
{
    match refusal {
        Refusal::NotBlocked => false,
        _ => true,
    }
}

/// Whether a process of the site owes a reply to one of another: exactly then a second request is refused.
fn owes(controller: &Controller, holder: ProcId, asker: ProcId, site: SiteId) -> bool
    requires elsewhere { site ≢ controller.now.site }
    requires asker { At controller.now.topology asker site }
    requires holder { At controller.now.topology holder controller.now.site }
    ensures { result ≡ has controller.now.state.owed holder asker }
{
    let request = Event::Got {
        from: site,
        frame: Frame::Request(Request { asker, holder }),
    };
    match controller.check(&request) {
        Ok(()) => false,
        Err(_) => true,
    }
}

/// What became of the probe that an event got, by the reason that was seen first, and by whether it acted.
fn settled(event: &Event, reason: Option<Fate>, acted: bool) -> Option<Fate>
    ensures { result ≡ settled event.now reason acted }
{
    let Event::Got { frame, .. } = event else {
        return None;
    };
    let Frame::Probe(_) = frame else {
        return None;
    };
    match reason {
        Some(fate) => Some(fate),
        None if acted => Some(Fate::Acts),
        None => Some(Fate::Known),
    }
}
