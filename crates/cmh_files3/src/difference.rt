//! Where two lists of sendings differ.

ghost use Rattle.std.specs.Prelude.{◌≡◌, MatchOption};
ghost use Rattle.cmh_files3.specs.Reasons.{FirstDiffer};

use cmh_model3::{Message, SiteId};

/// The number, counted from 1, of the first place at which the lists differ, if they do.
pub fn first_difference(left: &[(SiteId, Message)], right: &[(SiteId, Message)]) -> Option<usize>
    ensures { MatchOption result (left.now ≡ right.now) (λ number. FirstDiffer left.now right.now number) }
{
    for place in 0..left.len() {
        if place >= right.len() {
            return Some(place + 1);
        }
        if left[place] != right[place] {
            return Some(place + 1);
        }
    }
    if left.len() < right.len() {
        return Some(left.len() + 1);
    }
    None
}
