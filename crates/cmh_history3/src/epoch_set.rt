//! Whether segments are of one epoch.

ghost use Rattle.std.specs.Prelude.{◌↔◌, IsTrue};
ghost use Rattle.cmh_history3.specs.EpochSet.{AreOfEpoch};

use cmh_segment3::Segment;
use cmh_wire3::Epoch;

/// Whether all segments are of this epoch. With `check_world` of the auditor it tests what an audit of one epoch is given.
pub fn are_of_epoch(segments: &[Segment], epoch: Epoch) -> bool
    ensures { IsTrue result ↔ AreOfEpoch epoch segments.now }
{
    for segment in segments {
        if segment.header.epoch != epoch {
            return false;
        }
    }
    true
}
