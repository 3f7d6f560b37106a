//! Taps of links by their sites.

ghost use Rattle.std.specs.List.{AllZip};
ghost use Rattle.cmh_lab_stations.specs.Pairs.{IsSameTap};

use cmh_frames::{Frame, SiteId};
use cmh_station::{LinkTap, ParkingTap};

/// The next frame of the link to a site; `None` where there is no such link.
pub fn take_from(taps: &mut Vec<LinkTap>, site: SiteId) -> Option<Option<Frame>>
    ensures { AllZip IsSameTap taps.old.items taps.new.items }
{
    let at = taps.iter().position(|tap| tap.to() == site)?;
    if at < taps.len() {
        Some(taps[at].take())
    } else {
        None
    }
}

/// The tap of the link to a site.
pub fn parking_to(taps: &mut Vec<ParkingTap>, site: SiteId) -> Option<&mut ParkingTap> {
    let at = taps.iter().position(|tap| tap.to() == site)?;
    taps.get_mut(at)
}
