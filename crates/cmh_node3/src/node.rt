//! A station with its links.

ghost use Rattle.std.specs.Prelude.{◌≡◌, Err, IfOk, List, Option, map};
ghost use Rattle.std.specs.List.Sorted.{IsStrictlyIncreasing};
ghost use Rattle.cmh_journaled.specs.Keepers.{unsent};
ghost use Rattle.cmh_journaled.specs.Steps.{HandedOver};
ghost use Rattle.cmh_station3.specs.Files.{Held};
ghost use Rattle.cmh_model3.specs.Entries.{Entry as Step};
ghost use Rattle.cmh_node3.specs.Nodes.{HasStory, IsExact, epoch_of};
ghost use Rattle.cmh_node3.specs.Steps.{BeginsAs, GivenSo};
ghost use Rattle.cmh_node3.specs.Links.{HasTooMany, met_from};
ghost use Rattle.cmh_node3.specs.Peers.{others};
ghost use Rattle.cmh_node3.specs.declared.links.Unmet.TheVariants as Unmet;
ghost use Rattle.cmh_segment3.specs.Base.{IsLinkRow, link_place};
ghost use Rattle.cmh_segment3.specs.Rows.{AreRows};
ghost use Rattle.cmh_station3.specs.Opening.{Opened};
ghost use Rattle.cmh_topology3.specs.Topology.{sites_of};

use crate::links::{Unmet, peers_from};
use crate::peer::{Peer, others_of};
use crate::sealed::Sealed;
use crate::settling::give_all;
use crate::stops::{Stops, first_clock};
use cmh_controller3::Controller;
use cmh_journaled::Handed;
use cmh_model3::{Entry, Event, Message, SiteId};
use cmh_station3::{SegmentFile, Station};
use cmh_topology3::{Topology, World};
use cmh_wire3::Epoch;
use std::alloc::{AllocError, Global};
use std::marker::Model;

/// A site of edition 3: its station, and with each other site the two ends here of their links.
///
/// Between two calls each sender's end was given just what the journal sent to its site, all of it synced, and in the
/// journal's order; and each receiver's end counts what the journal got from its site. But once the site is sealed for
/// memory, a sender's end may lack the last of what was sent.
#[derive(Drop)]
pub struct Node<F: SegmentFile> {
    pub(crate) alloc: Global,
    pub(crate) world: World,
    pub(crate) site: SiteId,
    pub(crate) station: Station<F>,
    /// Ascending by site.
    pub(crate) peers: Vec<Peer>,
    /// Their sites.
    pub(crate) others: Vec<SiteId>,
    pub(crate) sealed: Option<Sealed>,
    /// The entries of the last call that took events; `None` before any.
    pub(crate) last: Option<Handed<Event, Message>>,
    pub(crate) stops: Stops,
}

impl<F: SegmentFile> Model for Node<F> {
    ghost use Rattle.std.specs.Prelude.{List};
    ghost use Rattle.cmh_model3.specs.Entries.{Entry as Step};
    ghost use Rattle.cmh_node3.specs.Nodes as spec;

    ghost Value = { spec.Node F };

    ghost view = { λ n. record {
      world = n.world;
      site = n.site;
      station = n.station;
      peers = n.peers.items;
      others = n.others.items;
      sealed = n.sealed;
      last = spec.kept_last n.last;
    } };

    ghost invariant = { λ n. (steps : List Step) × spec.IsExact F.told F.has_failed (record {
      world = n.world;
      site = n.site;
      station = n.station;
      peers = n.peers.items;
      others = n.others.items;
      sealed = n.sealed;
      last = spec.kept_last n.last;
    }) steps };
}

impl<F: SegmentFile> Node<F> {
    /// A site that begins where its station was opened: its links go on from what the base of the segment says of them, and
    /// from the entries behind it. No link of it is connected, and none is closed. Where its peers are not met, the station is
    /// given up.
    pub fn new(
        alloc: Global,
        topology: &Topology,
        site: SiteId,
        station: Station<F>,
    ) -> Result<Self, Unmet>
        requires { (before : Option Held) × Opened F.told F.has_failed topology.now site before station }
        ensures begins { IfOk result (BeginsAs F.told F.has_failed topology.now site station) }
        ensures full { result ≡ Err Unmet.Full
            → HasTooMany station.base.base.links station.kept.waiting (others site (sites_of topology.now)) }
    {
        let mut station = station;
        match meet_all(alloc, topology, site, &mut station) {
            Ok(met) => {
                let Met {
                    others,
                    peers,
                    sealed,
                    stops,
                } = met;
                Ok(Node {
                    alloc,
                    world: topology.world(),
                    site,
                    station,
                    peers,
                    others,
                    sealed,
                    last: None,
                    stops,
                })
            }
            Err(why) => Err(why),
        }
    }

    /// The station, to ask.
    pub fn station(&self) -> &Station<F>
        ensures { result.now ≡ self.now.station }
    {
        &self.station
    }

    /// The number of the site.
    pub fn site(&self) -> SiteId
        ensures { result ≡ self.now.site }
    {
        self.site
    }

    /// The epoch in which the site is: that of the segment on which its station was opened.
    pub fn epoch(&self) -> Epoch
        ensures { result ≡ epoch_of self.now }
    {
        self.station.base().epoch
    }

    /// The site's controller, to ask.
    pub fn controller(&self) -> &Controller
        ensures { result.now ≡ self.now.station.machine.controller }
    {
        self.station.machine().controller()
    }

    /// The entries that the last call of `step_all` or `take` added that took events; none before any. A call that took
    /// none leaves them.
    pub fn last(&self) -> &[Entry<Event, Message>]
        ensures { result.now ≡ self.now.last }
    {
        match &self.last {
            Some(entries) => entries.as_slice(),
            None => &[],
        }
    }

    /// The other sites, ascending, each with the ends of its links. They have just what the journal has.
    pub fn peers(&self) -> &[Peer]
        ensures value { result.now ≡ self.now.peers }
        ensures exact { (steps : List Step) × IsExact F.told F.has_failed self.now steps }
    {
        &self.peers
    }

    /// Why the site has stopped for good.
    pub fn sealed(&self) -> Option<Sealed>
        ensures { result ≡ self.now.sealed }
    {
        self.sealed
    }
}

/// The other sites, and the ends of their links; and at which stops processes were declared.
#[derive(Drop)]
struct Met {
    others: Vec<SiteId>,
    peers: Vec<Peer>,
    sealed: Option<Sealed>,
    stops: Stops,
}

/// Hands over all that the station has, and meets the other sites by it and by the links of its base. It stands apart, so that
/// a failure here does not drop the station.
fn meet_all<F: SegmentFile>(
    alloc: Global,
    topology: &Topology,
    site: SiteId,
    station: &mut Station<F>,
) -> Result<Met, Unmet>
    requires { AreRows IsLinkRow link_place station.old.base.base.links }
    ensures others { IfOk result (λ met. met.others.items ≡ others site (sites_of topology.now)) }
    ensures ascending { IfOk result (λ met. IsStrictlyIncreasing met.others.items) }
    ensures handed { IfOk result (λ met. HandedOver unsent station.old station.old.kept.waiting station.new) }
    ensures story { IfOk result (λ met. (steps : List Step) → HasStory F.told F.has_failed station.old steps
        → HasStory F.told F.has_failed station.new steps) }
    ensures given { IfOk result (λ met. GivenSo met.sealed station.old.kept.waiting
        (map (met_from station.old.base.base.links station.old.kept.waiting) met.others.items) met.peers.items) }
    ensures full { result ≡ Err Unmet.Full
        → HasTooMany station.old.base.base.links station.old.kept.waiting (others site (sites_of topology.now)) }
{
    let Ok(others) = others_in(alloc, topology, site) else {
        return Err(Unmet::Memory);
    };
    let processes = station.machine().controller().members().len();
    let Ok(mut stops) = Stops::of(alloc, station.base(), processes) else {
        return Err(Unmet::Memory);
    };
    let handed = station.hand_over();
    stops.note(first_clock(station.base()), handed.as_slice());
    let links = station.base().base.links.as_slice();
    let mut peers = match peers_from(alloc, &others, links, handed.as_slice()) {
        Ok(peers) => peers,
        Err(why) => return Err(why),
    };
    let sealed = give_all(&mut peers, handed.as_slice());
    Ok(Met {
        others,
        peers,
        sealed,
        stops,
    })
}

/// The sites of the topology but this one.
#[tactic(auto, using(crate::proofs::Others::others_ascend))]
fn others_in(alloc: Global, topology: &Topology, site: SiteId) -> Result<Vec<SiteId>, AllocError>
    ensures value { IfOk result (λ them. them.items ≡ others site (sites_of topology.now)) }
    ensures ascending { IfOk result (λ them. IsStrictlyIncreasing them.items) }
{
    others_of(alloc, topology.sites(), site)
}
