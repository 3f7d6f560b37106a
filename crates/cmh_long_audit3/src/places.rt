//! Where an entry of a whole journal stands in its segments.

ghost use Rattle.std.specs.Prelude.{◌≡◌, ◌/◌, ◌^◌};

use cmh_model3::{Event, SiteId};
use cmh_segment3::Segment;
use cmh_wire3::Epoch;

/// An entry of a site, by its segment. The head of a segment, which is the turn to it, is at 0.
#[derive(Clone, Copy)]
pub struct Place {
    /// That of the segment.
    pub epoch: Epoch,
    /// The number of the entry in the segment.
    pub entry: usize,
}

/// Where this entry of a site stands, whose whole journal is among these.
pub fn place_of(wholes: &[Segment], site: SiteId, entry: usize) -> Place {
    let mut place = Place {
        epoch: Epoch::new(0),
        entry,
    };
    for whole in wholes {
        if whole.header.site == site {
            place = place_in(whole, entry);
        }
    }
    place
}

/// Where this entry of a whole journal stands.
fn place_in(whole: &Segment, entry: usize) -> Place {
    let mut epoch = whole.header.epoch;
    let mut turned = 0;
    for (i, step) in whole.entries.as_slice().iter().enumerate() {
        if i < entry {
            if let Event::Turn { clock } = &step.event {
                epoch = epoch_in(clock.get());
                turned = i + 1;
            }
        }
    }
    Place {
        epoch,
        entry: entry.saturating_sub(turned),
    }
}

/// The epoch of a clock.
pub fn epoch_in(clock: u64) -> Epoch
    ensures { result ≡ clock / 2 ^ 32 }
{
    Epoch::new((clock / 0x1_0000_0000) as u32)
}

/// How many entries whole journals have, but for turns.
pub fn events_in(wholes: &[Segment]) -> usize {
    let mut events = 0usize;
    for whole in wholes {
        for entry in whole.entries.as_slice() {
            match &entry.event {
                Event::Turn { .. } => {}
                _ => events = events.saturating_add(1),
            }
        }
    }
    events
}
