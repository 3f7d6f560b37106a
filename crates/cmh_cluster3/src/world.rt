//! The sites of a cluster and their links.

ghost use Rattle.std.specs.Prelude.{◌≡◌, Some, false, true, IfOk, slice_set};
ghost use Rattle.cmh_cluster3.specs.Sites.{AllGoOn, AllStart, IsDown, IsOwnDeed, IsUp, Killed};
ghost use Rattle.cmh_cluster3.specs.Turns.{AnswersAt, DoesAt};

use crate::folders::Opener;
use crate::link::Link;
use crate::no_node::NoNode;
use crate::places::{node_at, put_at};
use crate::reply::{ClusterReply, KeptLink};
use crate::stepping::{act, tell};
use cmh_disk3::Start;
use cmh_model3::SiteId;
use cmh_node3::Node;
use cmh_station3::SegmentFile;
use cmh_talk3::{Deed, OutState, Question, out_state};
use cmh_topology3::Topology;
use std::alloc::{AllocError, Global};

/// How often each link is given a turn, before the sites are said not to settle.
const MOST_TURNS: u32 = 1_000_000;

/// How often a connection is made after a line, where it ends.
const MOST_DIALS: u32 = 2;

/// The sites of a topology, each of which runs or is down, and the links between them.
#[derive(Drop)]
pub(crate) struct World<F: SegmentFile> {
    alloc: Global,
    /// Ascending by site; none where the site is down.
    nodes: Vec<Option<Node<F>>>,
    links: Vec<Link>,
    /// The number of the next connection.
    next_line: u64,
}

impl<F: SegmentFile> World<F> {
    /// All sites of a topology, with new journals. None is connected yet.
    pub fn begin<O: Opener<F>>(
        alloc: Global,
        topology: &Topology,
        opener: &O,
    ) -> Result<World<F>, NoNode>
        ensures { IfOk result (λ world. AllStart F.told F.has_failed topology.now world.nodes.items) }
    {
        let nodes = begin_all(alloc, topology, opener)?;
        let links = links_between(alloc, topology.sites().len())?;
        Ok(World {
            alloc,
            nodes,
            links,
            next_line: 1,
        })
    }

    pub fn is_up(&self, place: usize) -> bool
        ensures up { result ≡ true → IsUp self.now.nodes.items place }
        ensures down { result ≡ false → IsDown self.now.nodes.items place }
    {
        match node_at(&self.nodes, place) {
            Some(_) => true,
            None => false,
        }
    }

    /// Gives an event to the site at a place, if it runs.
    pub fn act(&mut self, place: usize, deed: Deed) -> Result<ClusterReply, AllocError>
        requires { IsOwnDeed deed }
        ensures { IfOk result (λ reply. DoesAt F.told F.has_failed place deed reply self.old.nodes.items self.new.nodes.items) }
    {
        match self.nodes.get_mut(place) {
            Some(site) => act(self.alloc, site, deed),
            None => Ok(ClusterReply::Down),
        }
    }

    /// Asks the site at a place, if it runs.
    pub fn tell(&self, place: usize, question: &Question) -> Result<ClusterReply, AllocError>
        ensures { IfOk result (λ reply. AnswersAt F.told F.has_failed place question.now reply self.now.nodes.items) }
    {
        match node_at(&self.nodes, place) {
            Some(node) => Ok(ClusterReply::Told(tell(self.alloc, node, question)?)),
            None => Ok(ClusterReply::Down),
        }
    }

    /// The site at a place stops where it is.
    pub fn kill(&mut self, place: usize)
        ensures { Killed F.told F.has_failed place self.old.nodes.items self.new.nodes.items }
    {
        end_links_of(place, &mut self.links, &mut self.nodes);
        put_at(&mut self.nodes, place, None);
    }

    /// The site at a place runs from now on, by this node.
    pub fn put(&mut self, place: usize, node: Node<F>)
        ensures { self.new.nodes.items ≡ slice_set self.old.nodes.items place (Some node) }
    {
        put_at(&mut self.nodes, place, Some(node));
    }

    /// The connection of the link between two places ends, and none can be made.
    pub fn cut(&mut self, from: usize, to: usize)
        ensures { AllGoOn F.told F.has_failed self.old.nodes.items self.new.nodes.items }
    {
        if let Some(link) = link_between(&mut self.links, from, to) {
            link.is_cut = true;
            link.end(&mut self.nodes);
        }
    }

    /// A connection of the link between two places can be made again.
    pub fn join(&mut self, from: usize, to: usize)
        ensures { self.new.nodes ≡ self.old.nodes }
    {
        if let Some(link) = link_between(&mut self.links, from, to) {
            link.is_cut = false;
        }
    }

    /// Makes the connections that can be made, and carries messages until nothing moves. Answers whether it got so far.
    pub fn settle(&mut self) -> bool
        ensures { AllGoOn F.told F.has_failed self.old.nodes.items self.new.nodes.items }
    {
        for _dial in 0..MOST_DIALS {
            self.next_line = connect_all(
                self.alloc,
                &mut self.links,
                &mut self.nodes,
                self.next_line,
            );
            if !carry_on(&mut self.links, &mut self.nodes) {
                return false;
            }
        }
        true
    }

    /// The links that keep messages or were refused, ascending.
    pub fn kept_links(&self, sites: &[SiteId]) -> Result<Vec<KeptLink>, AllocError> {
        let mut kept = Vec::new(self.alloc);
        for link in &self.links {
            if let Some(state) = self.kept_by(link) {
                if let (Some(from), Some(to)) = (sites.get(link.from), sites.get(link.to)) {
                    kept.push(KeptLink {
                        from: *from,
                        to: *to,
                        state,
                    })?;
                }
            }
        }
        Ok(kept)
    }

    /// How the sender's end of a link stands, where it keeps messages or was refused.
    fn kept_by(&self, link: &Link) -> Option<OutState> {
        let node = node_at(&self.nodes, link.from)?;
        let peer = node.peers().get(link.peer_place())?;
        match out_state(&peer.out) {
            OutState::Down(count) if count > 0 => Some(OutState::Down(count)),
            OutState::Refused(number) => Some(OutState::Refused(number)),
            _ => None,
        }
    }
}

fn begin_all<F: SegmentFile, O: Opener<F>>(
    alloc: Global,
    topology: &Topology,
    opener: &O,
) -> Result<Vec<Option<Node<F>>>, NoNode>
    ensures { IfOk result (λ nodes. AllStart F.told F.has_failed topology.now nodes.items) }
{
    let sites = topology.sites();
    let mut nodes = Vec::with_capacity(alloc, sites.len())?;
    for site in sites {
        let node = opener.open(alloc, topology, *site, Start::New)?;
        nodes.push(Some(node))?;
    }
    Ok(nodes)
}

/// A link from each of so many sites to each other, ascending.
fn links_between(alloc: Global, count: usize) -> Result<Vec<Link>, AllocError> {
    let mut links = Vec::new(alloc);
    for from in 0..count {
        for to in 0..count {
            if from != to {
                links.push(Link::new(alloc, from, to))?;
            }
        }
    }
    Ok(links)
}

/// The link between two places.
fn link_between(links: &mut Vec<Link>, from: usize, to: usize) -> Option<&mut Link> {
    for link in links.iter_mut() {
        if link.from == from && link.to == to {
            return Some(link);
        }
    }
    None
}

/// Ends the connections of the site at a place.
fn end_links_of<F: SegmentFile>(
    place: usize,
    links: &mut Vec<Link>,
    nodes: &mut Vec<Option<Node<F>>>,
)
    ensures { AllGoOn F.told F.has_failed nodes.old.items nodes.new.items }
{
    for link in links.iter_mut() {
        if link.has_end_at(place) {
            link.end(nodes);
        }
    }
}

/// Makes the connections that can be made, and answers the number of the next one.
fn connect_all<F: SegmentFile>(
    alloc: Global,
    links: &mut Vec<Link>,
    nodes: &mut Vec<Option<Node<F>>>,
    first: u64,
) -> u64
    ensures { AllGoOn F.told F.has_failed nodes.old.items nodes.new.items }
{
    let mut line = first;
    for link in links.iter_mut() {
        link.connect(alloc, nodes, line);
        line = line.saturating_add(1);
    }
    line
}

/// Carries messages on all links until nothing moves. Answers whether it got so far.
fn carry_on<F: SegmentFile>(links: &mut Vec<Link>, nodes: &mut Vec<Option<Node<F>>>) -> bool
    ensures { AllGoOn F.told F.has_failed nodes.old.items nodes.new.items }
{
    for _turn in 0..MOST_TURNS {
        if !carry_all(links, nodes) {
            return true;
        }
    }
    false
}

/// Gives each link a turn. Answers whether anything moved.
fn carry_all<F: SegmentFile>(links: &mut Vec<Link>, nodes: &mut Vec<Option<Node<F>>>) -> bool
    ensures { AllGoOn F.told F.has_failed nodes.old.items nodes.new.items }
{
    let mut moved = false;
    for link in links.iter_mut() {
        if link.carry(nodes) {
            moved = true;
        }
    }
    moved
}
