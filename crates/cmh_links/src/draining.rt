//! What becomes of the frames of a closed link: they are taken and dropped, so that no more of them stay in memory than its ring
//! has room for.

ghost use Rattle.std.specs.Prelude.{◌≡◌};

use crate::shared::Shared;
use cmh_journal::Sink;
use cmh_station::{Keeper, LinkTap, Listing, ParkingTap};
use std::sync::Wait;
use std::sync::atomic::Ordering;

/// How many frames are dropped while the station is locked once. So many keep up with steps that send tens of thousands, and
/// take some milliseconds.
const MOST_DROPPED: usize = 262_144;

/// Drops the frames of a tap until the site is ending, and gives the tap back.
pub(crate) fn drain<R: Wait, S: Sink, B: Listing, K: Keeper>(
    rt: &R,
    shared: &Shared<S, B, K>,
    mut tap: ParkingTap,
) -> LinkTap
    ensures { result.to ≡ tap.to }
{
    shared.station.wake_seldom(tap.to());
    for _ in rt.forever() {
        if shared.ending.load(Ordering::SeqCst) {
            break;
        }
        if drop_frames(rt, shared, &mut tap) {
            tap.park(rt);
        }
    }
    tap.into_tap()
}

/// Drops frames, those of the backlog by way of the ring, and says whether none is left.
fn drop_frames<R: Wait, S: Sink, B: Listing, K: Keeper>(
    rt: &R,
    shared: &Shared<S, B, K>,
    tap: &mut ParkingTap,
) -> bool
    ensures to { tap.new.to ≡ tap.old.to }
{
    let mut station = shared.station.lock(rt);
    for _ in 0..MOST_DROPPED {
        if tap.take().is_some() {
            continue;
        }
        station.release();
        if tap.take().is_none() {
            return true;
        }
    }
    false
}
