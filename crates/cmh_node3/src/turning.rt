//! A site begins its next epoch.

ghost use Rattle.std.specs.Prelude.{◌≡◌, ℕ, map, IfErr, IfOk};
ghost use Rattle.cmh_controller3.specs.Controller.{state_of};
ghost use Rattle.cmh_node3.specs.Turns.{HasTurned, IsNext, IsNotReady, IsUnbased, NotTurns};
ghost use Rattle.cmh_node3.specs.Links.{link_of};
ghost use Rattle.cmh_segment3.specs.Base.{IsBase};
ghost use Rattle.cmh_segment3.specs.States as spec;
ghost use Rattle.cmh_segment3.specs.States.{stamp_of, state_in, turned_to};

use crate::links::{links_law, links_of};
use crate::node::Node;
use crate::peer::Peer;
use crate::sealed::Sealed;
use cmh_bases3::{base_of, links_fit};
use cmh_controller3::Controller;
use cmh_disk3::{JournalFolder, NoFolder, NotBegun, begin_segment};
use cmh_segment3::{Base, Header, Stamped};
use cmh_station3::{NewSegment, OpenFault, SegmentFile};
use cmh_wire3::Epoch;
use std::alloc::{AllocError, Global};

/// Why a site does not begin an epoch: the first reason that holds, but that memory may be refused at any time. It goes on in its
/// own epoch, unless it has stopped for good.
#[derive(Clone, Copy)]
pub enum NotTurned {
    /// The site has stopped for good.
    Sealed,
    /// It is in this epoch, or in a later one.
    Passed,
    /// What is kept for the other sites is longer than a segment can say: 2^30 bytes.
    TooLong,
    /// It could not begin again in the state in which it is. No state of the rules is like that.
    BadState,
    /// Memory was refused.
    Memory,
    /// The disk failed or is full.
    Disk,
    /// The disk failed as the segment got its name. The site has stopped for good: a later start may go on with that segment,
    /// and would not see what is added to the one before.
    Unsure,
}

impl<F: SegmentFile> Node<F> {
    /// Begins a later epoch: the next segment is made in the folder of the journal, and the site goes on in it. Its base says
    /// the state in which the site is, and what the ends of its links know. So these stay as they are.
    ///
    /// No memory is asked for once the segment has its name.
    pub fn turn<D: JournalFolder<File = F>>(
        &mut self,
        folder: &mut D,
        epoch: Epoch,
    ) -> Result<(), NotTurned>
        ensures ok { IfOk result (λ _. HasTurned F.told F.has_failed epoch
            (D.told folder.old) (D.told folder.new) self.old self.new) }
        ensures not { IfErr result (λ why. NotTurns F.told F.has_failed epoch why
            (D.told folder.old) (D.told folder.new) self.old self.new) }
    {
        links_law();
        let segment = self.next_segment(epoch)?;
        match begin_segment(self.alloc, folder, segment) {
            Ok(station) => {
                self.station = station;
                Ok(())
            }
            Err(NotBegun::Unmade(NoFolder::Memory)) => Err(NotTurned::Memory),
            Err(NotBegun::Unmade(NoFolder::Disk)) => Err(NotTurned::Disk),
            Err(NotBegun::MayBeNamed(_)) => {
                self.sealed = Some(Sealed::Disk);
                Err(NotTurned::Unsure)
            }
        }
    }

    /// The segment with which the site begins the epoch.
    fn next_segment(&self, epoch: Epoch) -> Result<NewSegment, NotTurned>
        ensures next { IfOk result (IsNext self.now epoch) }
        ensures not { IfErr result (IsNotReady self.now epoch) }
    {
        match self.sealed {
            Some(_) => return Err(NotTurned::Sealed),
            None => {}
        }
        let before = self.epoch();
        if epoch.get() <= before.get() {
            return Err(NotTurned::Passed);
        }
        let base = base_with(
            self.alloc,
            self.controller(),
            self.stops.as_slice(),
            &self.peers,
        )?;
        let beginning = self.station.base();
        let _number = beginning.site.get();
        let header = Header {
            site: beginning.site,
            world: beginning.topology.world(),
            epoch,
            before,
        };
        match NewSegment::new(self.alloc, &beginning.topology, header, base) {
            Ok(segment) => Ok(segment),
            Err(OpenFault::BadBase) => Err(NotTurned::BadState),
            Err(_) => Err(NotTurned::Memory),
        }
    }
}

/// Where a site begins an epoch that has this controller, these stops of declared processes, and these peers.
fn base_with(
    alloc: Global,
    controller: &Controller,
    stops: &[Stamped],
    peers: &[Peer],
) -> Result<Base, NotTurned>
    ensures base { IfOk result (λ base. base
        ≡ spec.base_of (state_of controller.now) (stamp_of stops.now) (map link_of peers.now)) }
    ensures whole { IfOk result IsBase }
    ensures state { IfOk result (λ base. (epoch : ℕ) → state_in epoch base ≡ turned_to epoch (state_of controller.now)) }
    ensures not { IfErr result (IsUnbased peers.now) }
{
    let Ok(links) = links_of(alloc, peers) else {
        return Err(NotTurned::Memory);
    };
    if !links_fit(&links) {
        return Err(NotTurned::TooLong);
    }
    match base_of(alloc, controller, stops, links) {
        Ok(base) => Ok(base),
        Err(AllocError) => Err(NotTurned::Memory),
    }
}
