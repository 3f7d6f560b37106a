//! What a line of a script does to the sites, and what answers it.

ghost use Rattle.std.specs.Prelude.{◌≡◌, ◌≢◌, ℕ, Some, IfOk, IfSome, MatchOption, slice_get};
ghost use Rattle.cmh_cluster3.specs.Sites as spec;
ghost use Rattle.cmh_cluster3.specs.Sites.{AllGoOn, IsOwnDeed};
ghost use Rattle.cmh_cluster3.specs.Turns.{AnswersOf, Does, DoesDeed, HasNoHome, IsAt, IsHomeAt, IsNoSite, Kills, OrdersLink, OrdersSite, Restarts};

use crate::folders::Opener;
use crate::line::{ClusterLine, LinkOrder, SiteOrder};
use crate::reply::ClusterReply;
use crate::world::World;
use cmh_controller3::Refusal;
use cmh_disk3::Start;
use cmh_model3::{Event, ProcId, SiteId};
use cmh_station3::SegmentFile;
use cmh_talk3::{Deed, EventReply, Question};
use cmh_topology3::Topology;
use std::alloc::{AllocError, Global};

/// The sites of a topology and what opens them.
#[derive(Drop)]
pub(crate) struct Cluster<'a, F: SegmentFile, O: Opener<F>> {
    pub alloc: Global,
    pub topology: &'a Topology,
    pub opener: &'a O,
    pub world: World<F>,
}

impl<'a, F: SegmentFile, O: Opener<F>> Cluster<'a, F, O> {
    /// Does what a line says, and answers it.
    pub fn answer(&mut self, said: ClusterLine) -> Result<ClusterReply, AllocError>
        ensures does { IfOk result (λ reply. Does F.told F.has_failed self.old.topology.now said reply
            self.old.world.nodes.items self.new.world.nodes.items) }
        ensures topology { self.new.topology ≡ self.old.topology }
    {
        match said {
            ClusterLine::Silent => Ok(ClusterReply::Silent),
            ClusterLine::Bad => Ok(ClusterReply::BadLine),
            ClusterLine::Deed(deed) => self.take(deed),
            ClusterLine::OfProcess(process, question) => self.tell_of_process(process, &question),
            ClusterLine::OfSite(order, site) => self.order_site(order, site),
            ClusterLine::OfLink(order, from, to) => Ok(self.order_link(order, from, to)),
        }
    }

    fn take(&mut self, deed: Deed) -> Result<ClusterReply, AllocError>
        ensures does { IfOk result (λ reply. Does F.told F.has_failed self.old.topology.now (ClusterLine.Deed deed) reply
            self.old.world.nodes.items self.new.world.nodes.items) }
        ensures topology { self.new.topology ≡ self.old.topology }
    {
        match process_of(&deed) {
            Some(process) => self.act(process, deed),
            None => Ok(ClusterReply::BadLine),
        }
    }

    /// Gives an event to the site of its process.
    fn act(&mut self, process: ProcId, deed: Deed) -> Result<ClusterReply, AllocError>
        requires { IsOwnDeed deed }
        ensures does { IfOk result (λ reply. DoesDeed F.told F.has_failed self.old.topology.now process deed reply
            self.old.world.nodes.items self.new.world.nodes.items) }
        ensures topology { self.new.topology ≡ self.old.topology }
    {
        match home_in(self.topology, process) {
            Some(place) => self.world.act(place, deed),
            None => Ok(unknown()),
        }
    }

    /// Asks the site of a process.
    fn tell_of_process(
        &self,
        process: ProcId,
        question: &Question,
    ) -> Result<ClusterReply, AllocError>
        ensures { IfOk result (λ reply. AnswersOf F.told F.has_failed self.now.topology.now process question.now reply
            self.now.world.nodes.items) }
    {
        match home_in(self.topology, process) {
            Some(place) => self.world.tell(place, question),
            None => Ok(unknown()),
        }
    }

    fn order_site(&mut self, order: SiteOrder, site: SiteId) -> Result<ClusterReply, AllocError>
        ensures does { IfOk result (λ reply. OrdersSite F.told F.has_failed self.old.topology.now order site reply
            self.old.world.nodes.items self.new.world.nodes.items) }
        ensures topology { self.new.topology ≡ self.old.topology }
    {
        let Some(place) = place_in(self.topology, site) else {
            return Ok(ClusterReply::BadSite);
        };
        match order {
            SiteOrder::Kill => Ok(self.kill(place)),
            SiteOrder::Restart => Ok(self.restart(place, site)),
            SiteOrder::Declared => self.world.tell(place, &Question::Declared),
            SiteOrder::Links => self.world.tell(place, &Question::Links),
            SiteOrder::Status => self.world.tell(place, &Question::Status),
        }
    }

    fn kill(&mut self, place: usize) -> ClusterReply
        ensures kills { Kills F.told F.has_failed place result self.old.world.nodes.items self.new.world.nodes.items }
        ensures topology { self.new.topology ≡ self.old.topology }
    {
        if !self.world.is_up(place) {
            return ClusterReply::Down;
        }
        self.world.kill(place);
        ClusterReply::Ok
    }

    /// Starts a site that is down again on its folder.
    fn restart(&mut self, place: usize, site: SiteId) -> ClusterReply
        ensures restarts { Restarts F.told F.has_failed self.old.topology.now site place result
            self.old.world.nodes.items self.new.world.nodes.items }
        ensures topology { self.new.topology ≡ self.old.topology }
    {
        if self.world.is_up(place) {
            return ClusterReply::Up;
        }
        match self
            .opener
            .open(self.alloc, self.topology, site, Start::Again)
        {
            Ok(node) => {
                self.world.put(place, node);
                ClusterReply::Ok
            }
            Err(why) => ClusterReply::NotStarted(why),
        }
    }

    fn order_link(&mut self, order: LinkOrder, from: SiteId, to: SiteId) -> ClusterReply
        ensures orders { OrdersLink F.told F.has_failed self.old.topology.now from to result
            self.old.world.nodes.items self.new.world.nodes.items }
        ensures topology { self.new.topology ≡ self.old.topology }
    {
        let Some(first) = place_in(self.topology, from) else {
            return ClusterReply::BadLink;
        };
        let Some(last) = place_in(self.topology, to) else {
            return ClusterReply::BadLink;
        };
        if from == to {
            return ClusterReply::BadLink;
        }
        self.set_link(order, first, last);
        ClusterReply::Ok
    }

    /// Cuts or joins the link between two places.
    fn set_link(&mut self, order: LinkOrder, first: usize, last: usize)
        ensures goes_on { AllGoOn F.told F.has_failed self.old.world.nodes.items self.new.world.nodes.items }
        ensures topology { self.new.topology ≡ self.old.topology }
    {
        match order {
            LinkOrder::Cut => self.world.cut(first, last),
            LinkOrder::Join => self.world.join(first, last),
        }
    }
}

/// What answers an event or a question of a process that no site has.
fn unknown() -> ClusterReply
    ensures { result ≡ ClusterReply.Event (EventReply.Refused 1) }
{
    ClusterReply::Event(EventReply::Refused(Refusal::UnknownProcess.number()))
}

/// The place of the site of a process.
fn home_in(topology: &Topology, process: ProcId) -> Option<usize>
    ensures { MatchOption result (HasNoHome topology.now process) (IsHomeAt topology.now process) }
{
    match topology.home(process) {
        Some(site) => place_in(topology, site),
        None => None,
    }
}

/// Where a site stands among the sites of a topology.
fn place_in(topology: &Topology, site: SiteId) -> Option<usize>
    ensures { MatchOption result (IsNoSite topology.now site) (IsAt topology.now site) }
{
    place_among(topology.sites(), site)
}

fn place_among(sites: &[SiteId], site: SiteId) -> Option<usize>
    ensures { MatchOption result ((place : ℕ) → slice_get sites.now place ≢ Some site) (λ place. slice_get sites.now place ≡ Some site) }
{
    for place in 0..sites.len() {
        if sites[place] == site {
            return Some(place);
        }
    }
    None
}

/// The process whose site a line is for.
fn process_of(deed: &Deed) -> Option<ProcId>
    ensures process { result ≡ spec.process_of deed.now }
    ensures own { IfSome result (λ process. IsOwnDeed deed.now) }
{
    match deed {
        Deed::WithdrawAll(process) => Some(*process),
        Deed::Event(Event::Ask { asker, .. }) => Some(*asker),
        Deed::Event(Event::Withdraw { asker, .. }) => Some(*asker),
        Deed::Event(Event::Reply { holder, .. }) => Some(*holder),
        Deed::Event(_) => None,
    }
}
