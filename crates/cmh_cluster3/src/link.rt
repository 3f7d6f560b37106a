//! The link from a site to another, and its connection, which is carried in memory.

ghost use Rattle.std.specs.Prelude.{◌≤◌, length};
ghost use Rattle.cmh_cluster3.specs.Sites.{AllGoOn, GoesOn};

use crate::places::node_at;
use cmh_links3::{Incoming, Onward, Outgoing};
use cmh_node3::Node;
use cmh_station3::SegmentFile;
use std::alloc::Global;

/// No time passes in a cluster, so that its output does not depend on how long anything takes: no link is silent, and no note
/// is due.
const NOW: u64 = 0;

/// How many bytes are heard at once, at most, while both ends go on.
const PIECE: usize = 100;

/// What came of a turn of an end.
#[derive(Clone, Copy)]
pub(crate) enum Turn {
    /// It had nothing to do.
    Still,
    /// It did something.
    Moved,
    /// The connection is closed.
    Ended,
}

/// The link from one of the sites to another, by their places.
#[derive(Drop)]
pub(crate) struct Link {
    pub from: usize,
    pub to: usize,
    outgoing: Outgoing,
    /// The other end of the connection, if there is one.
    incoming: Option<Incoming>,
    pub is_cut: bool,
}

impl Link {
    /// A link without a connection.
    pub fn new(alloc: Global, from: usize, to: usize) -> Link {
        Link {
            from,
            to,
            outgoing: Outgoing::new(alloc, peer_place(from, to)),
            incoming: None,
            is_cut: false,
        }
    }

    /// Where the site to which it leads stands among the peers of the other one.
    pub fn peer_place(&self) -> usize {
        peer_place(self.from, self.to)
    }

    /// Whether it leads from the site at a place or to it.
    pub fn has_end_at(&self, place: usize) -> bool {
        self.from == place || self.to == place
    }

    /// Makes a connection of this number where there is none, unless the link is cut or one of the sites is down.
    #[tactic(auto, using(crate::proofs::Going::all_put))]
    pub fn connect<F: SegmentFile>(
        &mut self,
        alloc: Global,
        nodes: &mut Vec<Option<Node<F>>>,
        line: u64,
    )
        ensures { AllGoOn F.told F.has_failed nodes.old.items nodes.new.items }
    {
        if self.is_cut || self.incoming.is_some() || node_at(nodes, self.to).is_none() {
            return;
        }
        if let Some(site) = nodes.get_mut(self.from) {
            self.dial(alloc, site, line);
        }
    }

    /// The sender dials, if it runs, and the receiver has the other end.
    fn dial<F: SegmentFile>(&mut self, alloc: Global, site: &mut Option<Node<F>>, line: u64)
        ensures { GoesOn F.told F.has_failed site.old site.new }
    {
        let Some(node) = site else {
            return;
        };
        match self.outgoing.dial(node, NOW) {
            Onward::Open => self.incoming = Some(Incoming::new(alloc, line, NOW)),
            Onward::Close => {}
        }
    }

    /// Gives both ends a turn, and carries bytes between them. Answers whether anything moved.
    pub fn carry<F: SegmentFile>(&mut self, nodes: &mut Vec<Option<Node<F>>>) -> bool
        ensures { AllGoOn F.told F.has_failed nodes.old.items nodes.new.items }
    {
        if self.incoming.is_none() {
            return false;
        }
        match self.take_turns(nodes) {
            Turn::Still => false,
            Turn::Moved => true,
            Turn::Ended => {
                self.end(nodes);
                true
            }
        }
    }

    /// A turn of each end. Where the receiver's ends, the sender hears why.
    fn take_turns<F: SegmentFile>(&mut self, nodes: &mut Vec<Option<Node<F>>>) -> Turn
        ensures { AllGoOn F.told F.has_failed nodes.old.items nodes.new.items }
    {
        let spoken = self.speak(nodes);
        let heard = self.listen(nodes);
        match (spoken, heard) {
            (Turn::Still, Turn::Still) => Turn::Still,
            (Turn::Ended, _) => Turn::Ended,
            (_, Turn::Ended) => {
                self.speak(nodes);
                Turn::Ended
            }
            _ => Turn::Moved,
        }
    }

    /// A turn of the sender's end, if its site runs. What it has to write is heard at the other end.
    #[tactic(auto, using(crate::proofs::Going::all_put))]
    fn speak<F: SegmentFile>(&mut self, nodes: &mut Vec<Option<Node<F>>>) -> Turn
        ensures { AllGoOn F.told F.has_failed nodes.old.items nodes.new.items }
    {
        match nodes.get_mut(self.from) {
            Some(site) => self.speak_from(site),
            None => Turn::Ended,
        }
    }

    fn speak_from<F: SegmentFile>(&mut self, site: &mut Option<Node<F>>) -> Turn
        ensures { GoesOn F.told F.has_failed site.old site.new }
    {
        let Some(node) = site else {
            return Turn::Ended;
        };
        let Some(incoming) = &mut self.incoming else {
            return Turn::Ended;
        };
        let onward = self.outgoing.go_on(node, NOW);
        let count = piece_of(self.outgoing.to_write(), onward);
        if incoming.hear(&self.outgoing.to_write()[..count]).is_err() {
            return Turn::Ended;
        }
        self.outgoing.wrote(count);
        turn_of(onward, count > 0)
    }

    /// The same of the receiver's end.
    #[tactic(auto, using(crate::proofs::Going::all_put))]
    fn listen<F: SegmentFile>(&mut self, nodes: &mut Vec<Option<Node<F>>>) -> Turn
        ensures { AllGoOn F.told F.has_failed nodes.old.items nodes.new.items }
    {
        match nodes.get_mut(self.to) {
            Some(site) => self.listen_at(site),
            None => Turn::Ended,
        }
    }

    fn listen_at<F: SegmentFile>(&mut self, site: &mut Option<Node<F>>) -> Turn
        ensures { GoesOn F.told F.has_failed site.old site.new }
    {
        let Some(node) = site else {
            return Turn::Ended;
        };
        let Some(incoming) = &mut self.incoming else {
            return Turn::Ended;
        };
        let had_more = incoming.has_more();
        let onward = incoming.go_on(node, false, NOW);
        let count = piece_of(incoming.to_write(), onward);
        if self.outgoing.hear(&incoming.to_write()[..count]).is_err() {
            return Turn::Ended;
        }
        incoming.wrote(count);
        turn_of(onward, had_more || count > 0)
    }

    /// The connection ends, if there is one. What was under way on it is lost, and what is kept for it is not.
    pub fn end<F: SegmentFile>(&mut self, nodes: &mut Vec<Option<Node<F>>>)
        ensures { AllGoOn F.told F.has_failed nodes.old.items nodes.new.items }
    {
        self.end_at_receiver(nodes);
        self.incoming = None;
        self.end_at_sender(nodes);
    }

    #[tactic(auto, using(crate::proofs::Going::all_put))]
    fn end_at_receiver<F: SegmentFile>(&mut self, nodes: &mut Vec<Option<Node<F>>>)
        ensures { AllGoOn F.told F.has_failed nodes.old.items nodes.new.items }
    {
        if let Some(site) = nodes.get_mut(self.to) {
            end_incoming(&mut self.incoming, site);
        }
    }

    #[tactic(auto, using(crate::proofs::Going::all_put))]
    fn end_at_sender<F: SegmentFile>(&mut self, nodes: &mut Vec<Option<Node<F>>>)
        ensures { AllGoOn F.told F.has_failed nodes.old.items nodes.new.items }
    {
        if let Some(site) = nodes.get_mut(self.from) {
            end_outgoing(&mut self.outgoing, site);
        }
    }
}

/// Ends a receiver's end, if its site runs.
fn end_incoming<F: SegmentFile>(incoming: &mut Option<Incoming>, site: &mut Option<Node<F>>)
    ensures { GoesOn F.told F.has_failed site.old site.new }
{
    let Some(node) = site else {
        return;
    };
    if let Some(incoming) = incoming {
        incoming.end(node);
    }
}

/// Ends a sender's end, if its site runs.
fn end_outgoing<F: SegmentFile>(outgoing: &mut Outgoing, site: &mut Option<Node<F>>)
    ensures { GoesOn F.told F.has_failed site.old site.new }
{
    if let Some(node) = site {
        outgoing.end(node, NOW);
    }
}

/// Where the site at a place stands among the other sites of another one.
fn peer_place(from: usize, to: usize) -> usize {
    if to > from { to - 1 } else { to }
}

/// How many of these bytes are carried: all of them from an end that is closed.
fn piece_of(bytes: &[u8], onward: Onward) -> usize
    ensures { result ≤ length bytes.now }
{
    match onward {
        Onward::Open => bytes.len().min(PIECE),
        Onward::Close => bytes.len(),
    }
}

fn turn_of(onward: Onward, moved: bool) -> Turn {
    match onward {
        Onward::Close => Turn::Ended,
        Onward::Open if moved => Turn::Moved,
        Onward::Open => Turn::Still,
    }
}
