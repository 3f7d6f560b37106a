//! Controllers with journals, and no boards, that take the frames of links.

ghost use Rattle.std.specs.Prelude.{◌≡◌, ◌<◌, ◌-◌, ◌^◌, [], false};
ghost use Rattle.cmh_reader.specs.Reader.{StandsFor};
ghost use Rattle.cmh_lab_stations.specs.Disks.{failures_of};

use crate::answer::{Answer, Unanswered};
use crate::disk::Disk;
use crate::stepping::{Stepping, Steps, call_stepping, look};
use crate::taps::take_from;
use cmh_carriers::MemIncoming;
use cmh_console::Words;
use cmh_frames::{Event, Frame, Outcome, SiteId, Topology};
use cmh_links::{Lent, ReaderEnd, SharedLinks, run_reader};
use cmh_reader::FrameReader;
use cmh_station::{JournaledController, LinkTap, StationRefusal};
use std::alloc::Global;
use std::sync::Wait;

/// A journaled controller and its taps.
#[derive(Drop)]
pub struct Core {
    pub lent: Lent<Disk>,
    taps: Vec<LinkTap>,
}

/// The core of a site, or the refusal and the sink.
pub fn open_core(
    alloc: Global,
    topology: &Topology,
    site: SiteId,
    disk: Disk,
) -> Result<Core, (StationRefusal, Disk)>
    requires { failures_of disk ≡ 0 }
{
    let (station, taps) = match JournaledController::new(alloc, topology, site, disk) {
        Ok(made) => made,
        Err(refused) => return Err(refused),
    };
    let lent = Lent {
        station,
        refused: None,
    };
    Ok(Core { lent, taps })
}

impl Stepping for Core {
    fn step(&mut self, event: &Event) -> Result<Outcome, StationRefusal> {
        self.lent.station.step(event)
    }

    fn step_all(&mut self, events: &[Event]) -> Steps {
        self.lent.station.step_all(events)
    }

    fn step_until(&mut self, events: &[Event]) -> Steps {
        self.lent.station.step_until(events)
    }

    fn release(&mut self) {
        self.lent.station.release();
    }

    fn take(&mut self, site: SiteId) -> Option<Option<Frame>> {
        take_from(&mut self.taps, site)
    }
}

impl Core {
    /// Reads a connection to its end. It has refused nothing yet, as far as this reader knows.
    pub fn read<R: Wait>(
        &mut self,
        rt: &R,
        incoming: &mut MemIncoming,
        reader: &mut FrameReader,
        links: &SharedLinks,
    ) -> ReaderEnd
        requires fresh { StandsFor reader.old [] [] }
        requires fed { reader.old.starved ≡ false }
        requires faults { incoming.old.faults < 2 ^ 64 - 1 }
    {
        self.lent.refused = None;
        run_reader(rt, incoming, reader, links, &mut self.lent)
    }

    pub fn call(
        &mut self,
        alloc: Global,
        words: &mut Words<'_>,
        answer: &mut Answer,
    ) -> Result<(), Unanswered> {
        let Some(first) = words.next_word() else {
            return Err(Unanswered::BadLine);
        };
        let station = &self.lent.station;
        if look(
            station.journal(),
            station.is_sealed(),
            station.sink(),
            first,
            answer,
        )? {
            return Ok(());
        }
        call_stepping(alloc, self, first, words, answer)
    }
}
