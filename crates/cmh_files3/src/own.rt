//! What is wrong with an entry by its own site's rules.

ghost use Rattle.std.specs.Prelude.{◌≡◌, ℕ, IfOk, MatchOption, OnOk, map};
ghost use Rattle.cmh_model3.specs.State.{State};
ghost use Rattle.cmh_topology3.specs.Topology.{Topology};
ghost use Rattle.cmh_controller3.specs.Controller.{state_of};
ghost use Rattle.cmh_controller3.specs.Replays.{StandsAfter};
ghost use Rattle.cmh_controller3.specs.Steps.{Steps};
ghost use Rattle.cmh_controller3.specs.declared.outcome.Outcome as outcomes;
ghost use Rattle.cmh_segment3.specs.Entries.{step_of};
ghost use Rattle.cmh_audit3.specs.Inner.Lawful as lawful;
ghost use Rattle.cmh_audit3.specs.Inner.Lawful.{AreLawful};
ghost use Rattle.cmh_files3.specs.Reasons.{IsOwnFault, Makes, value};

use crate::difference::first_difference;
use crate::reason::Reason;
use cmh_controller3::{Controller, Declaration as Declared, Outcome, Refusal};
use cmh_model3::{Event, Message, SiteId};
use cmh_segment3::{Declaration, Entry};
use cmh_topology3::Topology;
use std::alloc::{AllocError, Global};

/// What is wrong with an entry by its own site's entries before it, which are lawful; `None` where the site's controller
/// makes it.
pub fn fault_at(
    alloc: Global,
    topology: &Topology,
    site: SiteId,
    before: &[Entry],
    entry: &Entry,
) -> Result<Option<Reason>, AllocError>
    requires { AreLawful topology.now site before.now }
    ensures { IfOk result (λ found. MatchOption found
        (Makes topology.now site (value topology.now site before.now) entry.now.event entry.now.sent entry.now.declared)
        (IsOwnFault topology.now site (value topology.now site before.now) entry.now)) }
{
    let mut controller = controller_before(alloc, topology, site, before)?;
    own_fault(&mut controller, entry)
}

/// The controller of a site after these entries, which are lawful.
fn controller_before(
    alloc: Global,
    topology: &Topology,
    site: SiteId,
    entries: &[Entry],
) -> Result<Controller, AllocError>
    requires { AreLawful topology.now site entries.now }
    ensures { IfOk result (StandsAfter topology.now site (map step_of entries.now)) }
{
    let mut controller = Controller::empty(alloc, topology, site)?;
    for entry in entries {
        step(&mut controller, &entry.event)?;
    }
    Ok(controller)
}

/// Takes an event that the controller accepts.
fn step(controller: &mut Controller, event: &Event) -> Result<(), AllocError>
    ensures { OnOk result ((outcome : outcomes.Outcome) × Steps controller.old event.now outcome controller.new) }
{
    match controller.step(event) {
        Ok(_) => Ok(()),
        Err(_) => Err(AllocError),
    }
}

/// What is wrong with an entry by its site's controller before it; `None` where the controller makes it.
fn own_fault(controller: &mut Controller, entry: &Entry) -> Result<Option<Reason>, AllocError>
    ensures { IfOk result (λ found. MatchOption found
        (Makes controller.old.topology controller.old.site (state_of controller.old)
        entry.now.event entry.now.sent entry.now.declared)
        (IsOwnFault controller.old.topology controller.old.site (state_of controller.old) entry.now)) }
{
    match controller.step(&entry.event) {
        Ok(outcome) => {
            let Outcome { sent, declared } = outcome;
            Ok(wrong_record(entry, sent.as_slice(), recorded(declared)))
        }
        Err(Refusal::Memory) => Err(AllocError),
        Err(refusal) => Ok(Some(Reason::Refused(refusal))),
    }
}

/// A declaration as an entry records it.
fn recorded(declared: Option<Declared>) -> Option<Declaration>
    ensures { result ≡ lawful.recorded declared }
{
    match declared {
        Some(Declared { process, stop }) => Some(Declaration {
            process,
            stamp: stop,
        }),
        None => None,
    }
}

/// What an entry records otherwise than its step came to, if it does.
fn wrong_record(
    entry: &Entry,
    sent: &[(SiteId, Message)],
    declared: Option<Declaration>,
) -> Option<Reason>
    ensures { (t : Topology) (s : ℕ) (v : State) → Makes t s v entry.now.event sent.now declared
        → MatchOption result (Makes t s v entry.now.event entry.now.sent entry.now.declared)
        (IsOwnFault t s v entry.now) }
{
    if let Some(number) = first_difference(entry.sent.as_slice(), sent) {
        let due = sent.get(number - 1).copied();
        return Some(Reason::Sent { number, due });
    }
    if entry.declared != declared {
        return Some(Reason::Declared { due: declared });
    }
    None
}
