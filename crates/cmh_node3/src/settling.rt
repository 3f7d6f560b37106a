//! What a step sent goes to the sender's ends.

ghost use Rattle.std.specs.Prelude.{◌≡◌, List};
ghost use Rattle.cmh_journaled.specs.Keepers.{unsent};
ghost use Rattle.cmh_journaled.specs.Steps.{HandedOver};
ghost use Rattle.cmh_model3.specs.Entries.{Entry as Step};
ghost use Rattle.cmh_node3.specs.Nodes.{HasStory};
ghost use Rattle.cmh_node3.specs.Steps as spec;
ghost use Rattle.cmh_node3.specs.Steps.{GivenSo};

use crate::given::queue_all;
use crate::peer::Peer;
use crate::sealed::Sealed;
use cmh_controller3::Refusal as RuleRefusal;
use cmh_journaled::{Handed, Refusal};
use cmh_model3::{Entry, Event, Message};
use cmh_station3::{SegmentFile, Station};

/// Why a call took no event, whatever the rules say of them.
#[derive(Clone, Copy)]
pub enum StepFault {
    /// Memory was refused, and nothing has changed.
    Memory,
    /// The journal could not be written, or not synced. The site is sealed, and the events may stand in the journal, up to
    /// any of them.
    Disk,
}

/// The fault of a call that took no event.
pub(crate) fn fault_of(refusal: &Refusal<RuleRefusal>) -> StepFault
    ensures { result ≡ spec.fault_of refusal.now }
{
    match refusal {
        Refusal::Memory => StepFault::Memory,
        _ => StepFault::Disk,
    }
}

/// How the site is sealed by it.
pub(crate) fn sealed_by_fault(fault: StepFault) -> Option<Sealed>
    ensures { result ≡ spec.sealed_by_fault fault }
{
    match fault {
        StepFault::Memory => None,
        StepFault::Disk => Some(Sealed::Disk),
    }
}

/// What was handed over.
#[derive(Drop)]
pub(crate) struct Settled {
    /// How the site is sealed by it.
    pub sealed: Option<Sealed>,
    pub last: Handed<Event, Message>,
}

/// Hands over what waits, all of it synced, and gives it to the sender's ends.
pub(crate) fn settle<F: SegmentFile>(station: &mut Station<F>, peers: &mut Vec<Peer>) -> Settled
    ensures last { result.last ≡ station.old.kept.waiting }
    ensures handed { HandedOver unsent station.old station.old.kept.waiting station.new }
    ensures story { (steps : List Step) → HasStory F.told F.has_failed station.old steps
        → HasStory F.told F.has_failed station.new steps }
    ensures given { GivenSo result.sealed station.old.kept.waiting peers.old.items peers.new.items }
{
    let handed = station.hand_over();
    Settled {
        sealed: give_all(peers, handed.as_slice()),
        last: handed,
    }
}

/// Gives the sender's ends what entries sent. Answers whether the site is sealed by it.
pub(crate) fn give_all(peers: &mut Vec<Peer>, entries: &[Entry<Event, Message>]) -> Option<Sealed>
    ensures { GivenSo result entries.now peers.old.items peers.new.items }
{
    match queue_all(peers, entries) {
        Ok(()) => None,
        Err(_) => Some(Sealed::Memory),
    }
}
