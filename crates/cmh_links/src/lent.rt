//! A station that takes the frames of one link.

ghost use Rattle.std.specs.Prelude.{◌≡◌, ◌≢◌, ◌++◌, ℕ, List, Some};
ghost use Rattle.cmh_frames.specs.declared.frame.Frame.{Frame};
ghost use Rattle.cmh_frames.specs.Entries.{Entry};
ghost use Rattle.cmh_frames.specs.Journals.{receipts_of};
ghost use Rattle.cmh_journal.specs.Sink.{known_and};
ghost use Rattle.cmh_links.specs.Reading.{from_site};
ghost use Rattle.cmh_links.specs.Lent.{all_receipts};

use crate::reading::Handover;
use cmh_frames::{Event, Frame, SiteId};
use cmh_journal::Sink;
use cmh_station::{JournaledController, StationRefusal};

/// A station that no other thread has, and its last refusal of a frame.
#[derive(Drop)]
pub struct Lent<S: Sink> {
    pub station: JournaledController<S>,
    pub refused: Option<StationRefusal>,
}

impl<S: Sink> Handover for Lent<S> {
    ghost accepted = { λ s. Some (all_receipts s.station.core.entries) };

    ghost refused = { λ s. s.refused };

    fn hand(&mut self, from: SiteId, frame: Frame) -> Result<(), StationRefusal> {
        match self.station.step(&Event::Got { from, frame }) {
            Ok(_) => Ok(()),
            Err(refusal) => {
                self.refused = Some(refusal);
                Err(refusal)
            }
        }
    }

    fn hand_all(&mut self, from: SiteId, frames: &[Frame]) -> Result<(), StationRefusal> {
        match self.station.take_frames(from, frames) {
            Ok(()) => Ok(()),
            Err(refusal) => {
                self.refused = Some(refusal);
                Err(refusal)
            }
        }
    }
}

/// Where a station accepted these frames from a site, its receipts on that link grew by just these, and on no other.
pub fn lent_law()
    ensures { (before after : List Entry) (site : ℕ) (got : List Frame) → Some (all_receipts after) ≡ known_and
        (Some (all_receipts before)) (from_site site got)
        → (receipts_of site after ≡ receipts_of site before ++ got) ×
        ((other : ℕ) → other ≢ site → receipts_of other after ≡ receipts_of other before) }
{}
