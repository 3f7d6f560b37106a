//! A step of one site: its controller takes an event, its frames go on the links, and the history has the entry.

ghost use Rattle.std.specs.Prelude.{◌≡◌, ◌<◌, ℕ, IfOk, OnOk, length};
ghost use Rattle.cmh_play.specs.Held.{AreKept, IsReady, IsTaken};
ghost use Rattle.cmh_play.specs.Links.{link_of, link_after};
ghost use Rattle.cmh_play.specs.Sites.{AreOfEdition};

use crate::history::History;
use crate::links::Links;
use cmh_controller::{Controller, Refusal};
use cmh_frames::{Done, Event, Frame, ProcId, SiteId};
use cmh_journal::whole_law;
use std::alloc::AllocError;

/// Why a site took no step.
#[derive(Clone, Copy)]
pub enum Refused {
    /// The controller refused the event.
    Rule(Refusal),
    /// The site has made as many entries as a journal may hold.
    Full,
}

/// What came of an event.
#[derive(Clone, Copy)]
pub(crate) enum Step {
    Taken(Done),
    Refused(Refused),
}

/// Gives an event to the controller of the site at this place, puts what it sends on the site's links, and the entry
/// into the history. A full journal comes before the controller's reasons to refuse. An error is out of memory, after
/// which the history and the links may lack what the controller did.
#[inline(always)]
pub(crate) fn take(
    place: usize,
    controller: &mut Controller,
    history: &mut History,
    links: &mut Links,
    event: Event,
) -> Result<Step, AllocError>
    requires place { place < length history.old.steps }
    requires ready { IsReady controller.old.topology controller.old }
    requires edition { AreOfEdition controller.old.topology history.old.journals }
    ensures ready { IsReady controller.old.topology controller.new }
    ensures kept { AreKept controller.old.topology history.old history.new }
    ensures step { IfOk result (IsTaken controller.old controller.new place history.old history.new links.old
        links.new event) }
{
    if history.is_full(place) {
        return Ok(Step::Refused(Refused::Full));
    }
    whole_law(controller.topology());
    match controller.step(&event) {
        Ok(outcome) => {
            let done = Done {
                sent: outcome.sent.as_slice().len(),
                declared: outcome.declared,
            };
            send_all(links, controller.site(), outcome.sent.as_slice())?;
            history.add(place, event, outcome)?;
            Ok(Step::Taken(done))
        }
        Err(refusal) => Ok(Step::Refused(Refused::Rule(refusal))),
    }
}

/// Puts what a site sent on its links, in the order of sending. Most steps send nothing.
#[inline(always)]
fn send_all(links: &mut Links, from: SiteId, sent: &[(SiteId, Frame)]) -> Result<(), AllocError>
    ensures { OnOk result ((a b : ℕ) → link_of links.new a b ≡ link_after links.old from sent.now a b) }
{
    if sent.is_empty() {
        Ok(())
    } else {
        send_each(links, from, sent)
    }
}

/// The same, in a function of its own: amid a whole step its loop would lack registers.
#[inline(never)]
fn send_each(links: &mut Links, from: SiteId, sent: &[(SiteId, Frame)]) -> Result<(), AllocError>
    ensures { OnOk result ((a b : ℕ) → link_of links.new a b ≡ link_after links.old from sent.now a b) }
{
    for (to, frame) in sent {
        links.send(from, *to, *frame)?;
    }
    Ok(())
}
