//! Events of the site's own processes.

ghost use Rattle.std.specs.Prelude.{◌≡◌, ◌&&◌, IfErr, IfOk};
ghost use Rattle.std.specs.List.{AllByRecursion, list_any};
ghost use Rattle.cmh_node3.specs.Peers.{keeps_many};
ghost use Rattle.cmh_node3.specs.Steps as spec;
ghost use Rattle.cmh_node3.specs.Steps.{IsOwn, NotSteps, StepsAll};

use crate::node::Node;
use crate::peer::{Peer, is_behind};
use crate::settling::{StepFault, fault_of, sealed_by_fault, settle};
use cmh_controller3::{Outcome, Refusal as RuleRefusal};
use cmh_journaled::Refusal;
use cmh_model3::Event;
use cmh_station3::SegmentFile;

/// Why none of some events was taken: the first reason that holds.
#[derive(Clone, Copy)]
pub enum NotStepped {
    /// The site has stopped for good.
    Sealed,
    /// One of the events asks, and the sender's end of a link keeps more than a million messages.
    Behind,
    /// Memory was refused, or the journal failed.
    Failed(StepFault),
}

impl<F: SegmentFile> Node<F> {
    /// Takes events of the site's own processes, each in its turn, with one append for all: what is accepted is synced, and
    /// what it sends was given to the sender's ends. An event that the rules refuse changes nothing.
    ///
    /// After an error nothing has changed, but where the disk failed. Where a link is behind, the events that do not ask can
    /// be given without the others.
    pub fn step_all(
        &mut self,
        events: &[Event],
    ) -> Result<Vec<Result<Outcome, Refusal<RuleRefusal>>>, NotStepped>
        requires { AllByRecursion IsOwn events.now }
        ensures ok { IfOk result (λ answers.
            StepsAll F.told F.has_failed self.old events.now answers.items self.new) }
        ensures not { IfErr result (λ why. NotSteps F.told F.has_failed self.old events.now why self.new) }
    {
        match self.sealed {
            Some(_) => return Err(NotStepped::Sealed),
            None => {}
        }
        if must_wait(events, &self.peers) {
            return Err(NotStepped::Behind);
        }
        let clock = self.controller().clock();
        match self.station.step_all(events) {
            Ok(answers) => {
                let settled = settle(&mut self.station, &mut self.peers);
                self.stops.note(clock, settled.last.as_slice());
                self.sealed = settled.sealed;
                self.last = Some(settled.last);
                Ok(answers)
            }
            Err(refusal) => {
                let fault = fault_of(&refusal);
                self.sealed = sealed_by_fault(fault);
                Err(NotStepped::Failed(fault))
            }
        }
    }
}

/// Whether one of the events asks, and a link is behind.
fn must_wait(events: &[Event], peers: &[Peer]) -> bool
    ensures { result ≡ (list_any spec.is_ask events.now && list_any keeps_many peers.now) }
{
    has_ask(events) && is_behind(peers)
}

/// Whether one of the events is an ask or a start.
fn has_ask(events: &[Event]) -> bool
    ensures { result ≡ list_any spec.is_ask events.now }
{
    for event in events {
        if is_ask(event) {
            return true;
        }
    }
    false
}

fn is_ask(event: &Event) -> bool
    ensures { result ≡ spec.is_ask event.now }
{
    match event {
        Event::Ask { .. } => true,
        _ => false,
    }
}
