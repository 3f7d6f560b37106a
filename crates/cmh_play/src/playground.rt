//! A world that is played: the controllers of all its sites, what their steps come to, and the links between them.

ghost use Rattle.std.specs.Prelude.{◌≡◌, ◌<◌, ℕ, true, IfOk, Some, Bool, length, map, slice_index};
ghost use Rattle.std.specs.List.Sorted.{IsStrictlyIncreasing};
ghost use Rattle.cmh_frames.specs.Topology.{is_site, sites_of};
ghost use Rattle.cmh_controller.specs.Controller.{new_controller};

use crate::history::History;
use crate::links::Links;
use crate::reply::Reply;
use crate::site::{Refused, Step, take};
use cmh_audit::{AuditMemory, Verdict};
use cmh_controller::{Controller, Refusal};
use cmh_frames::{Edition, Event, Frame, ProcId, SiteId, Topology};
use cmh_journal::{Journal, whole_law};
use std::alloc::{AllocError, Global};
use std::marker::Model;

/// A world that is played: the controllers of its sites, in the order of the topology, what is kept of their steps, and
/// the links between the sites. Where no journals are wanted, a step takes no memory that lasts but for what waits.
#[derive(Drop)]
pub struct Playground {
    topology: Topology,
    controllers: Vec<Controller>,
    history: History,
    links: Links,
}

impl Model for Playground {
    ghost use Rattle.std.specs.FinSet as set;
    ghost use Rattle.std.specs.Ordering.{nat_cmp};
    ghost use Rattle.std.specs.Coded.{codes, coded_ℕ};
    ghost use Rattle.cmh_frames.specs.Inner.Codes.{relation_code};
    ghost use Rattle.cmh_play.specs.Held as spec;

    ghost Value = { spec.Held };

    ghost coded = { Prim.hlevel (codes, relation_code, set.code {R = nat_cmp} coded_ℕ) };

    ghost view = { λ w. record {
      topology = w.topology;
      controllers = w.controllers.items;
      history = w.history;
      links = w.links;
    } };

    ghost invariant = { λ w. spec.AreReady w.topology w.controllers.items w.history };
}

impl Playground {
    ghost use Rattle.cmh_audit.specs.Verdicts.{IsVerdictOn};
    ghost use Rattle.cmh_play.specs.Held.{IsWorldStep, Leads, Shows, ShowsNew};
    ghost use Rattle.cmh_play.specs.Runs.{IsPlayed};
    ghost use Rattle.cmh_play.specs.World.{World, CarriesOut, joins};
    ghost use Rattle.cmh_console.specs.declared.script.Command.TheVariants.{Act, Deliver, Cut};

    /// A world in which nothing has happened yet. Where it keeps no journals, all is said of each world that it may be.
    pub fn new(
        alloc: Global,
        topology: &Topology,
        keeps_journals: bool,
    ) -> Result<Playground, AllocError>
        ensures { IfOk result (ShowsNew topology.now keeps_journals) }
    {
        Ok(Playground {
            topology: topology.copy(alloc)?,
            controllers: new_controllers(alloc, topology)?,
            history: History::new(alloc, topology, keeps_journals)?,
            links: Links::new(alloc),
        })
    }

    pub fn edition(&self) -> Edition
        ensures { result ≡ self.now.topology.edition }
    {
        self.topology.edition()
    }

    /// The topology of the world.
    pub fn topology(&self) -> &Topology
        ensures { result.now ≡ self.now.topology }
    {
        &self.topology
    }

    /// The journals of all sites, in the order of the topology, where they are kept.
    pub fn journals(&self) -> &[Journal]
        ensures { result.now ≡ self.now.history.journals }
    {
        self.history.journals()
    }

    /// Gives an event to the controller of its process's home. Where memory runs out after the step, an error is
    /// answered, and nothing is said of the world from then on.
    #[inline(always)]
    pub fn act(&mut self, process: ProcId, event: Event) -> Result<Reply, AllocError>
        ensures { IfOk result (λ reply. Leads (λ old new. CarriesOut old new (Act process event) reply)
            self.old self.new) }
    {
        let Some(site) = self.topology.home(process) else {
            return Ok(Reply::Refused(Refused::Rule(Refusal::UnknownProcess)));
        };
        match self.step(site, event)? {
            Step::Taken(done) => Ok(Reply::Taken(done)),
            Step::Refused(refused) => Ok(Reply::Refused(refused)),
        }
    }

    /// Gives memory of targets that nobody keeps to a list that has none, for those of a later ask.
    #[inline(always)]
    pub fn give_spare(&mut self, spare: &mut Vec<ProcId>)
        ensures { self.new ≡ self.old }
    {
        self.history.give_spare(spare);
    }

    /// Hands over the oldest frame of a link. Where the receiver refuses it, it stays there. An error is as in `act`.
    #[inline(always)]
    pub fn deliver(&mut self, from: SiteId, to: SiteId) -> Result<Reply, AllocError>
        ensures { IfOk result (λ reply. Leads (λ old new. CarriesOut old new (Deliver from to) reply)
            self.old self.new) }
    {
        if !self.is_link(from, to) {
            return Ok(Reply::BadLink);
        }
        if self.links.is_cut(from, to) {
            return Ok(Reply::Closed);
        }
        let Some(frame) = self.links.front(from, to) else {
            return Ok(Reply::Empty);
        };
        match self.step(to, got(from, &frame))? {
            Step::Taken(done) => {
                self.links.drop_front(from, to);
                Ok(Reply::Got(frame, done))
            }
            Step::Refused(refused) => Ok(Reply::Refused(refused)),
        }
    }

    /// Cuts a link: what is under way on it is lost, and so is what is sent on it later.
    pub fn cut(&mut self, from: SiteId, to: SiteId) -> Result<Reply, AllocError>
        ensures { IfOk result (λ reply. Leads (λ old new. CarriesOut old new (Cut from to) reply)
            self.old self.new) }
    {
        if !self.is_link(from, to) {
            return Ok(Reply::BadLink);
        }
        if self.links.is_cut(from, to) {
            return Ok(Reply::Closed);
        }
        let lost = self.links.len(from, to);
        self.links.cut(from, to)?;
        Ok(Reply::Lost(lost))
    }

    fn is_link(&self, from: SiteId, to: SiteId) -> bool
        ensures { result ≡ joins self.now.topology from to }
    {
        from != to && self.topology.has_site(from) && self.topology.has_site(to)
    }

    /// Gives an event to a site's controller; `take` says what comes of it. It is inlined, and so are its callers and
    /// `take`: each call would copy the event.
    #[inline(always)]
    fn step(&mut self, site: SiteId, event: Event) -> Result<Step, AllocError>
        requires { is_site self.old.topology site ≡ true }
        ensures { IfOk result (λ step. Leads (λ old new. IsWorldStep old new site event step) self.old self.new) }
    {
        whole_law(&self.topology);
        let place = place_of(&self.topology, site);
        take(
            place,
            &mut self.controllers[place],
            &mut self.history,
            &mut self.links,
            event,
        )
    }

    /// The verdict on the journals, kept or not, of a world that was played from its beginning on: they come from its
    /// run, so none is looked through. The only error is out of memory.
    pub fn audit(&self, alloc: Global) -> Result<Verdict, AuditMemory>
        ensures { IfOk result (λ verdict. (keeps : Bool) (world : World) → Shows keeps world self.now → IsPlayed world
            → IsVerdictOn world.topology world.journals verdict) }
    {
        self.history.verdict(alloc, &self.topology)
    }
}

/// Where a site stands in the topology.
#[inline(always)]
fn place_of(topology: &Topology, site: SiteId) -> usize
    requires { is_site topology.now site ≡ true }
    ensures within { result < length (sites_of topology.now) }
    ensures site { slice_index (sites_of topology.now) result ≡ site }
{
    match topology.known_place(site) {
        Some(place) => place,
        None => searched_place(topology, site),
    }
}

/// The same, by a search.
#[cold]
fn searched_place(topology: &Topology, site: SiteId) -> usize
    requires { is_site topology.now site ≡ true }
    ensures within { result < length (sites_of topology.now) }
    ensures site { slice_index (sites_of topology.now) result ≡ site }
{
    let Ok(place) = topology.sites().binary_search(&site) else {
        unreachable!()
    };
    place
}

/// The controllers of all sites, in the order of the topology, before their first steps.
fn new_controllers(alloc: Global, topology: &Topology) -> Result<Vec<Controller>, AllocError>
    ensures new { IfOk result (λ controllers. controllers.items
        ≡ map (new_controller topology.now) (sites_of topology.now)) }
    ensures ascending { IsStrictlyIncreasing (sites_of topology.now) }
{
    let mut controllers = Vec::new(alloc);
    for site in topology.sites() {
        let Ok(controller) = Controller::new(alloc, topology, *site) else {
            return Err(AllocError);
        };
        controllers.push(controller)?;
    }
    Ok(controllers)
}

fn got(from: SiteId, frame: &Frame) -> Event
    ensures { result ≡ Event.Got from frame.now }
{
    Event::Got {
        from,
        frame: *frame,
    }
}
