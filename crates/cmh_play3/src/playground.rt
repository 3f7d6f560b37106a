//! A world that is played: the controllers of all its sites, the links between them, and all that happened.

ghost use Rattle.std.specs.Prelude.{◌≡◌, ◌++◌, ◌<◌, ℕ, List, [], false, true, drop, if◌then◌else◌, ◌==◌, length, slice_index, IfOk, OnOk};
ghost use Rattle.std.specs.List.Sorted.{IsStrictlyIncreasing};
ghost use Rattle.cmh_controller3.specs.Steps.{process_in};
ghost use Rattle.cmh_model3.specs.Journals.{frames_to, message_from};
ghost use Rattle.cmh_model3.specs.Entries as model;
ghost use Rattle.cmh_model3.specs.Laws as laws;
ghost use Rattle.cmh_play3.specs.Held.{IsPlayed, Leads, Shows, world_of};
ghost use Rattle.cmh_play3.specs.Inner.Stepped.{IsNextAt, IsStep};
ghost use Rattle.cmh_play3.specs.Inner.Fresh.{AreFresh};
ghost use Rattle.cmh_play3.specs.Links.{is_cut, under_way};
ghost use Rattle.cmh_play3.specs.World.{CarriesOut, joins};
ghost use Rattle.cmh_script3.specs.declared.script.Command.TheVariants as command;
ghost use Rattle.cmh_topology3.specs.Topology.{is_site, sites_of};

use crate::links::Links;
use crate::reply::{Done, Reply};
use cmh_controller3::{Controller, Declaration, Refusal};
use cmh_model3::{Entry, Event, Message, ProcId, Sendings, SiteId, Targets, WorldEvent};
use cmh_report3::Report;
use cmh_topology3::Topology;
use std::alloc::{AllocError, Global};

/// A world that is played: the controllers of its sites, in the order of the topology, what happened to them, in one order,
/// and the links between the sites. What an event sent is on the links alone, so that it takes memory as long as it waits.
#[derive(Drop)]
pub struct Playground {
    topology: Topology,
    controllers: Vec<Controller>,

    /// Without what they sent.
    events: Vec<WorldEvent<Event, Message>>,

    /// How many messages they sent, counted up to 2^64 - 1.
    sent: u64,
    links: Links,
    alloc: Global,
}

/// What came of an event.
#[derive(Clone, Copy)]
enum Step {
    Taken(Done),
    Refused(Refusal),
}

impl Playground {
    /// A world in which nothing has happened yet.
    pub fn new(alloc: Global, topology: &Topology) -> Result<Playground, AllocError>
        ensures played { IfOk result (Shows []) }
        ensures topology { IfOk result (λ held. held.topology ≡ topology.now) }
        ensures uncut { IfOk result (λ held. (a b : ℕ) → is_cut held.links a b ≡ false) }
    {
        Ok(Playground {
            topology: topology.copy(alloc)?,
            controllers: new_controllers(alloc, topology)?,
            events: Vec::new(alloc),
            sent: 0,
            links: Links::new(alloc),
            alloc,
        })
    }

    pub fn topology(&self) -> &Topology
        ensures { result.now ≡ self.now.topology }
    {
        &self.topology
    }

    /// All that happened, in one order, without what was sent.
    pub fn events(&self) -> &[WorldEvent<Event, Message>]
        ensures { result.now ≡ self.now.events.items }
    {
        &self.events
    }

    /// Gives an event to the controller of its process's home. Where memory runs out after the step, an error is
    /// answered, and nothing is said of the world from then on.
    pub fn act(&mut self, process: ProcId, event: Event) -> Result<Reply, AllocError>
        requires played { IsPlayed self.old }
        requires own { (a : ℕ) → message_from a event ≡ [] }
        ensures { IfOk result (λ reply. Leads (λ old new. CarriesOut old new (command.Act process event) reply)
            self.old self.new) }
    {
        let Some(site) = self.topology.home(process) else {
            return Ok(Reply::Refused(Refusal::UnknownProcess));
        };
        match self.step(site, event)? {
            Step::Taken(done) => Ok(Reply::Taken(done)),
            Step::Refused(refusal) => Ok(Reply::Refused(refusal)),
        }
    }

    /// Gives up all waits of a process, as its controller keeps them. An error is as in `act`.
    pub fn withdraw_all(&mut self, alloc: Global, process: ProcId) -> Result<Reply, AllocError>
        requires { IsPlayed self.old }
        ensures { IfOk result (λ reply. Leads (λ old new. CarriesOut old new (command.WithdrawAll process) reply)
            self.old self.new) }
    {
        let Some(site) = self.topology.home(process) else {
            return Ok(Reply::Refused(Refusal::UnknownProcess));
        };
        let place = place_of(&self.topology, site);
        let targets = Targets::new(self.controllers[place].waits_of(alloc, process)?);
        let event = Event::Withdraw {
            asker: process,
            targets,
        };
        match self.step(site, event)? {
            Step::Taken(done) => Ok(Reply::Taken(done)),
            Step::Refused(refusal) => Ok(Reply::Refused(refusal)),
        }
    }

    /// Hands over the oldest message of a link. Where the receiver refuses it, it stays there. An error is as in `act`.
    pub fn deliver(&mut self, from: SiteId, to: SiteId) -> Result<Reply, AllocError>
        requires { IsPlayed self.old }
        ensures { IfOk result (λ reply. Leads (λ old new. CarriesOut old new (command.Deliver from to) reply)
            self.old self.new) }
    {
        if !is_link(&self.topology, from, to) {
            return Ok(Reply::BadLink);
        }
        if self.links.is_cut(from, to) {
            return Ok(Reply::Closed);
        }
        let Some(message) = self.links.front(from, to) else {
            return Ok(Reply::Empty);
        };
        match self.step(to, got(from, &message))? {
            Step::Taken(done) => Ok(Reply::Got(message.frame, done)),
            Step::Refused(refusal) => Ok(Reply::Refused(refusal)),
        }
    }

    /// Cuts a link: what is under way on it, and what is sent on it later, never comes.
    pub fn cut(&mut self, from: SiteId, to: SiteId) -> Result<Reply, AllocError>
        requires { IsPlayed self.old }
        ensures { IfOk result (λ reply. Leads (λ old new. CarriesOut old new (command.Cut from to) reply)
            self.old self.new) }
    {
        if !is_link(&self.topology, from, to) {
            return Ok(Reply::BadLink);
        }
        if self.links.is_cut(from, to) {
            return Ok(Reply::Closed);
        }
        self.links.cut(from, to)?;
        Ok(Reply::Lost(self.links.len(from, to)))
    }

    /// The report on the world as it stands.
    pub fn report(&self, alloc: Global) -> Result<Reply, AllocError>
        requires { IsPlayed self.now }
        ensures { IfOk result (λ reply. Leads (λ old new. CarriesOut old new command.Report reply) self.now self.now) }
    {
        let report = Report::of_kept(alloc, &self.controllers, &self.events, self.sent)?;
        Ok(Reply::Report(Box::new(alloc, report)?))
    }

    /// Gives an event to a site's controller, puts what it sends on the site's links, and adds the rest of the entry to what
    /// happened.
    fn step(&mut self, site: SiteId, event: Event) -> Result<Step, AllocError>
        requires played { IsPlayed self.old }
        requires site { is_site self.old.topology site ≡ true }
        requires next { (events : List model.WorldEvent) → Shows events self.old
            → IsNextAt (world_of self.old events) site event }
        ensures { IfOk result (λ step. Leads (λ old new. IsStep old new site event step) self.old self.new) }
    {
        let place = place_of(&self.topology, site);
        match self.controllers[place].step(&event) {
            Ok(outcome) => {
                let sent = outcome.sent.as_slice();
                let done = Done {
                    sent: sent.len(),
                    declared: outcome.declared,
                };
                send_all(&mut self.links, site, sent)?;
                receive(&mut self.links, site, &event);
                self.sent = self.sent.saturating_add(sent.len() as u64);
                let entry = bare_entry(self.alloc, site, event, &outcome.declared);
                self.events.push(entry)?;
                Ok(Step::Taken(done))
            }
            Err(refusal) => Ok(Step::Refused(refusal)),
        }
    }
}

/// Whether there is a link between these: they are two sites of the topology.
fn is_link(topology: &Topology, from: SiteId, to: SiteId) -> bool
    ensures { result ≡ joins topology.now from to }
{
    from != to && topology.has_site(from) && topology.has_site(to)
}

/// An entry without what it sent.
fn bare_entry(
    alloc: Global,
    site: SiteId,
    event: Event,
    declared: &Option<Declaration>,
) -> WorldEvent<Event, Message>
    ensures { result ≡ laws.entry_at site event [] (process_in declared.now) }
{
    WorldEvent {
        site,
        entry: Entry {
            event,
            sent: Sendings::new(Vec::new(alloc)),
            declared: process_of(declared),
        },
    }
}

/// The process of a declaration.
fn process_of(declared: &Option<Declaration>) -> Option<ProcId>
    ensures { result ≡ process_in declared.now }
{
    match declared {
        Some(declaration) => Some(declaration.process),
        None => None,
    }
}

/// That a message came from a site.
fn got(from: SiteId, message: &Message) -> Event
    ensures { result ≡ Event.Got from message.now.clock message.now.frame }
{
    Event::Got {
        from,
        clock: message.clock,
        frame: message.frame,
    }
}

/// Puts what a site sent on its links, in the order of sending.
fn send_all(links: &mut Links, from: SiteId, sent: &[(SiteId, Message)]) -> Result<(), AllocError>
    ensures sent { OnOk result ((a b : ℕ) → under_way links.new a b
        ≡ under_way links.old a b ++ (if from == a then frames_to b sent.now else [])) }
    ensures cuts { (a b : ℕ) → is_cut links.new a b ≡ is_cut links.old a b }
{
    for (to, message) in sent {
        links.send(from, *to, *message)?;
    }
    Ok(())
}

/// Takes what a site got off its link.
fn receive(links: &mut Links, site: SiteId, event: &Event)
    ensures taken { (a b : ℕ) → under_way links.new a b
        ≡ drop (length (if site == b then message_from a event.now else [])) (under_way links.old a b) }
    ensures cuts { (a b : ℕ) → is_cut links.new a b ≡ is_cut links.old a b }
{
    if let Event::Got { from, .. } = event {
        links.drop_front(*from, site);
    }
}

/// Where a site stands in the topology.
fn place_of(topology: &Topology, site: SiteId) -> usize
    requires { is_site topology.now site ≡ true }
    ensures within { result < length (sites_of topology.now) }
    ensures site { slice_index (sites_of topology.now) result ≡ site }
    ensures ascending { IsStrictlyIncreasing (sites_of topology.now) }
{
    let Ok(place) = topology.sites().binary_search(&site) else {
        unreachable!()
    };
    place
}

/// The controllers of all sites, in the order of the topology, before their first steps.
fn new_controllers(alloc: Global, topology: &Topology) -> Result<Vec<Controller>, AllocError>
    ensures { IfOk result (λ controllers. AreFresh topology.now (sites_of topology.now) controllers.items) }
{
    let mut controllers = Vec::new(alloc);
    for site in topology.sites() {
        controllers.push(Controller::empty(alloc, topology, *site)?)?;
    }
    Ok(controllers)
}
