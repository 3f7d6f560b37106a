//! What is wrong with an entry by its own site's rules.

ghost use Rattle.std.specs.Prelude.{◌≡◌, ℕ, IfOk, MatchOption};
ghost use Rattle.cmh_frames.specs.Topology.{Topology};
ghost use Rattle.cmh_frames.specs.Journals.{IsLawful, value};
ghost use Rattle.cmh_frames.specs.State.{State};
ghost use Rattle.cmh_controller.specs.Controller.{Controller};
ghost use Rattle.cmh_files.specs.Reasons.{IsOwnFault, Makes};

use crate::difference::first_difference;
use crate::reason::Reason;
use cmh_controller::{Controller, Outcome, Refusal, Replayed, replay};
use cmh_frames::{Entry, SiteId, Topology};
use std::alloc::{AllocError, Global};

/// What is wrong with an entry by its own site's entries before it, which are lawful; `None` where the site's
/// controller makes it.
pub fn fault_at(
    alloc: Global,
    topology: &Topology,
    site: SiteId,
    before: &[Entry],
    entry: &Entry,
) -> Result<Option<Reason>, AllocError>
    requires { IsLawful topology.now site before.now }
    ensures { IfOk result (λ found. MatchOption found
        (Makes topology.now site (value topology.now site before.now) entry.now.event entry.now.sent entry.now.declared)
        (IsOwnFault topology.now site (value topology.now site before.now) entry.now)) }
{
    let mut controller = controller_after(alloc, topology, site, before)?;
    own_fault(&mut controller, entry)
}

/// The controller of a site after these entries, which are lawful.
fn controller_after(
    alloc: Global,
    topology: &Topology,
    site: SiteId,
    entries: &[Entry],
) -> Result<Controller, AllocError>
    requires { IsLawful topology.now site entries.now }
    ensures { IfOk result (λ made. made
        ≡ record { topology = topology.now; site = site; state = value topology.now site entries.now }) }
{
    match replay(alloc, topology, site, entries)? {
        Replayed::Whole(controller) => Ok(controller),
        Replayed::StopsAt(_) => unreachable!(),
    }
}

/// What is wrong with an entry by its site's controller before it; `None` where the controller makes it.
fn own_fault(controller: &mut Controller, entry: &Entry) -> Result<Option<Reason>, AllocError>
    ensures { IfOk result (λ found. MatchOption found
        (Makes controller.old.topology controller.old.site controller.old.state
        entry.now.event entry.now.sent entry.now.declared)
        (IsOwnFault controller.old.topology controller.old.site controller.old.state entry.now)) }
{
    match controller.step(&entry.event) {
        Ok(outcome) => Ok(wrong_record(entry, &outcome)),
        Err(Refusal::Memory) => Err(AllocError),
        Err(refusal) => Ok(Some(Reason::Refused(refusal))),
    }
}

/// What an entry records otherwise than its step came to, if it does.
fn wrong_record(entry: &Entry, outcome: &Outcome) -> Option<Reason>
    ensures { (t : Topology) (s : ℕ) (v : State) → Makes t s v entry.now.event outcome.now.sent outcome.now.declared
        → MatchOption result (Makes t s v entry.now.event entry.now.sent entry.now.declared)
        (IsOwnFault t s v entry.now) }
{
    let sent = outcome.sent.as_slice();
    if let Some(number) = first_difference(entry.sent.as_slice(), sent) {
        let due = sent.get(number - 1).copied();
        return Some(Reason::Sent { number, due });
    }
    if entry.declared != outcome.declared {
        return Some(Reason::Declared {
            due: outcome.declared,
        });
    }
    None
}
