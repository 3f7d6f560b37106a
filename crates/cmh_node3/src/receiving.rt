//! What comes on the links from the other sites.

ghost use Rattle.std.specs.Prelude.{◌≡◌, ◌≢◌, ◌↔◌, ◌≤◌, ◌+◌, ◌-◌, ◌^◌, ◌<◌, true, length, map, take, IfErr, IfOk, IsTrue, None, OnErr, Some};
ghost use Rattle.std.specs.List.{list_any};
ghost use Rattle.cmh_node3.specs.Changes.{Admits, Ends, RefusesHello, Says, Tells, sealed_if_told};
ghost use Rattle.cmh_node3.specs.Nodes.{AtPlace, StaysExact};
ghost use Rattle.cmh_node3.specs.Steps as spec;
ghost use Rattle.cmh_node3.specs.Steps.{IsClaimant, NotTakes, Takes, accepted, got_event};

use crate::node::Node;
use crate::peer::{Peer, place_of};
use crate::places::{acknowledge_at, claim_at, end_at, receive_at};
use crate::sealed::Sealed;
use crate::settling::{StepFault, fault_of, sealed_by_fault, settle};
use cmh_controller3::{Outcome, Refusal as RuleRefusal};
use cmh_journaled::Refusal as StepRefusal;
use cmh_model3::{Event, Message, SiteId};
use cmh_resume3::{Acknowledgement, Answer, Hello, Mismatch, Refusal, check_hello};
use cmh_station3::SegmentFile;
use std::alloc::{AllocError, Global};

/// The answer to an event.
type Answered = Result<Outcome, StepRefusal<RuleRefusal>>;

/// A connection that has the claim of a link.
#[derive(Clone, Copy)]
pub struct Admitted {
    /// Where the link's sender stands among the peers.
    pub place: usize,
    /// What is to be written.
    pub answer: Answer,
}

/// What became of messages that came.
#[derive(Clone, Copy)]
pub struct Taken {
    /// How many of them were accepted, from the first on. Where it is not all, the connection is closed.
    pub count: usize,
    /// Whether the rules refused the next one: then the link is closed for good. Otherwise, where it is not all, the journal
    /// is full.
    pub closed: bool,
}

/// Why messages that came were not taken: the first reason that holds. The connection is closed.
#[derive(Clone, Copy)]
pub enum NotTaken {
    /// The site has stopped for good.
    Sealed,
    /// The connection has not the claim of the link.
    Stale,
    /// Memory was refused, or more came than can be counted; or the journal failed.
    Failed(StepFault),
}

impl<F: SegmentFile> Node<F> {
    /// A hello came on a connection of this number, between two batches: the connection has the claim of the link from now
    /// on. A restart does not know which links the rules had closed: there the sender goes on with the message that was
    /// refused, and the rules judge it again.
    pub fn hello(&mut self, line: u64, hello: &Hello, now: u64) -> Result<Admitted, Refusal>
        ensures ok { IfOk result (λ admitted. Admits line now hello.now self.old admitted self.new) }
        ensures refused { IfErr result (λ refusal. RefusesHello hello.now self.old refusal) }
        ensures same { OnErr result (self.new ≡ self.old) }
        ensures exact { StaysExact F.told F.has_failed self.old self.new }
    {
        match check_hello(hello, &self.world, self.site, &self.others) {
            Ok(()) => {}
            Err(refusal) => return Err(refusal),
        }
        match self.sealed {
            Some(_) => return Err(Refusal::Sealed),
            None => {}
        }
        let Some(place) = place_of(&self.peers, hello.from) else {
            unreachable!();
        };
        let speaker = Hello {
            world: self.world,
            from: self.site,
            to: hello.from,
            epoch: self.epoch(),
        };
        let answer = match claim_at(&mut self.peers, place, line, now, speaker) {
            Ok(answer) => answer,
            Err(refusal) => return Err(refusal),
        };
        Ok(Admitted { place, answer })
    }

    /// Messages came on a connection from the peer at this place, at most as many as fit one append: each is an event, and
    /// all those that are accepted are synced. None came is taken too: then something else was heard.
    pub fn take(
        &mut self,
        place: usize,
        line: u64,
        messages: &[Message],
        now: u64,
    ) -> Result<Taken, NotTaken>
        requires { place < length self.old.peers }
        ensures ok { IfOk result (λ taken.
            Takes F.told F.has_failed place line messages.now now self.old taken self.new) }
        ensures not { IfErr result (λ why.
            NotTakes F.told F.has_failed place line messages.now self.old why self.new) }
    {
        match self.sealed {
            Some(_) => return Err(NotTaken::Sealed),
            None => {}
        }
        let Some(from) = claimant(&self.peers, place, line) else {
            return Err(NotTaken::Stale);
        };
        if !can_count(&self.peers[place], messages.len()) {
            return Err(NotTaken::Failed(StepFault::Memory));
        }
        let Ok(events) = events_of(self.alloc, from, messages) else {
            return Err(NotTaken::Failed(StepFault::Memory));
        };
        let clock = self.controller().clock();
        match self.station.step_until(&events) {
            Ok(answers) => {
                let taken = taken_by(&answers);
                let first = first_of(messages, taken.count);
                receive_at(&mut self.peers, place, line, first, now, taken.closed);
                let settled = settle(&mut self.station, &mut self.peers);
                self.stops.note(clock, settled.last.as_slice());
                self.sealed = settled.sealed;
                self.last = Some(settled.last);
                Ok(taken)
            }
            Err(refusal) => {
                let fault = fault_of(&refusal);
                self.sealed = sealed_by_fault(fault);
                Err(NotTaken::Failed(fault))
            }
        }
    }

    /// What is to be acknowledged on a connection after a read, which filled its buffer or not: only what is synced. `None`
    /// where nothing is, or the connection has not the claim. A site that is sealed acknowledges nothing.
    pub fn acknowledge(&mut self, place: usize, line: u64, filled: bool) -> Option<Acknowledgement>
        requires { place < length self.old.peers }
        ensures open { self.old.sealed ≡ None → Says place line filled self.old result self.new }
        ensures sealed { self.old.sealed ≢ None → (result ≡ None) × (self.new ≡ self.old) }
        ensures exact { StaysExact F.told F.has_failed self.old self.new }
    {
        match self.sealed {
            Some(_) => return None,
            None => {}
        }
        let epoch = self.epoch();
        acknowledge_at(&mut self.peers, place, line, filled, epoch)
    }

    /// A connection from the peer at this place ended.
    pub fn end_line(&mut self, place: usize, line: u64)
        requires { place < length self.old.peers }
        ensures ends { Ends place line self.old self.new }
        ensures exact { StaysExact F.told F.has_failed self.old self.new }
    {
        end_at(&mut self.peers, place, line);
    }

    /// Whether a connection from the peer at this place has the claim, and nothing came on it for 30 s.
    pub fn is_silent(&self, place: usize, line: u64, now: u64) -> bool
        requires { place < length self.now.peers }
        ensures { AtPlace self.now place (λ peer.
            IsTrue result ↔ ((peer.into.claim ≡ Some line) × (30000 ≤ now - peer.into.heard))) }
    {
        self.peers[place].into.is_claimed(line) && self.peers[place].into.is_silent(now)
    }

    /// The peer at this place said on a claimed connection that the journals do not fit: where this one lacks entries, the
    /// site is sealed.
    pub fn told(&mut self, place: usize, line: u64, mismatch: Mismatch)
        requires { place < length self.old.peers }
        ensures tells { Tells place line mismatch self.old self.new }
        ensures exact { StaysExact F.told F.has_failed self.old self.new }
    {
        if self.peers[place].into.is_claimed(line) {
            self.sealed = sealed_when_told(self.sealed, self.peers[place].site, mismatch);
        }
    }
}

/// Why a site is sealed once a peer has said this.
fn sealed_when_told(sealed: Option<Sealed>, peer: SiteId, mismatch: Mismatch) -> Option<Sealed>
    ensures { result ≡ sealed_if_told sealed peer mismatch }
{
    match (sealed, mismatch) {
        (None, Mismatch::LessThanAcknowledged) => Some(Sealed::Mismatch(peer, mismatch)),
        (earlier, _) => earlier,
    }
}

/// The site of the peer at a place, where the connection has the claim of the link from it.
fn claimant(peers: &[Peer], place: usize, line: u64) -> Option<SiteId>
    requires { place < length peers.now }
    ensures { IsClaimant peers.now place line result }
{
    if peers[place].into.is_claimed(line) {
        Some(peers[place].site)
    } else {
        None
    }
}

/// Whether so many more messages from the peer can be counted. Only a base can say that so many came before that they can't.
fn can_count(peer: &Peer, more: usize) -> bool
    ensures { result ≡ true → peer.now.into.got + more < 2 ^ 64 }
{
    peer.into.got().checked_add(more as u64).is_some()
}

/// The first so many messages, or all where there are no more.
#[tactic(auto, using(std::proofs::lemmas::List::take_min))]
fn first_of(messages: &[Message], count: usize) -> &[Message]
    ensures { result.now ≡ take count messages.now }
{
    let (first, _) = messages.split_at(count.min(messages.len()));
    first
}

/// Messages that came from a site, as events.
fn events_of(alloc: Global, from: SiteId, messages: &[Message]) -> Result<Vec<Event>, AllocError>
    ensures { IfOk result (λ events. events.items ≡ map (got_event from) messages.now) }
{
    let _number = from.get();
    let mut events = Vec::with_capacity(alloc, messages.len())?;
    for message in messages {
        events.push(Event::Got {
            from,
            clock: message.clock,
            frame: message.frame,
        })?;
    }
    Ok(events)
}

/// What the answers to events say of the messages that came as them.
fn taken_by(answers: &[Answered]) -> Taken
    ensures count { result.count ≡ accepted answers.now }
    ensures closed { result.closed ≡ list_any spec.is_unlawful answers.now }
{
    Taken {
        count: count_accepted(answers),
        closed: has_unlawful(answers),
    }
}

fn count_accepted(answers: &[Answered]) -> usize
    ensures { result ≡ accepted answers.now }
{
    let mut count = 0;
    for answer in answers {
        if is_accepted(answer) {
            count += 1;
        }
    }
    count
}

fn has_unlawful(answers: &[Answered]) -> bool
    ensures { result ≡ list_any spec.is_unlawful answers.now }
{
    for answer in answers {
        if is_unlawful(answer) {
            return true;
        }
    }
    false
}

fn is_accepted(answer: &Answered) -> bool
    ensures { result ≡ spec.is_accepted answer.now }
{
    match answer {
        Ok(_) => true,
        Err(_) => false,
    }
}

fn is_unlawful(answer: &Answered) -> bool
    ensures { result ≡ spec.is_unlawful answer.now }
{
    match answer {
        Err(StepRefusal::Rule(_)) => true,
        _ => false,
    }
}
