//! Where two lists of sendings differ.

ghost use Rattle.std.specs.Prelude.{◌≡◌, ◌↔◌, IsTrue, MatchOption};
ghost use Rattle.cmh_files.specs.Reasons.{FirstDiffer};

use cmh_frames::{Frame, SiteId};

/// The number, counted from 1, of the first place at which the lists differ, if they do.
pub fn first_difference(left: &[(SiteId, Frame)], right: &[(SiteId, Frame)]) -> Option<usize>
    ensures { MatchOption result (left.now ≡ right.now) (λ number. FirstDiffer left.now right.now number) }
{
    let shared = left.len().min(right.len());
    for place in 0..shared {
        if left[place] != right[place] {
            return Some(place + 1);
        }
    }
    if left.len() == right.len() {
        return None;
    }
    Some(shared + 1)
}
