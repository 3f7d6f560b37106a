//! A tap whose thread sleeps while there is nothing to take.

ghost use Rattle.std.specs.Prelude.{◌≡◌, [], ◌∷◌, ◌++◌, IfSome, IfNone};

use cmh_frames::{Frame, SiteId};
use crossbeam_utils::sync::Parker;
use std::marker::Model;
use std::sync::Wait;

/// The end of a link that takes its frames: those of this model.
pub type LinkTap = cmh_shared::LinkTap<Frame>;

/// A tap of a shared station. Contracts see the tap.
#[derive(Drop)]
pub struct ParkingTap {
    tap: LinkTap,
    parker: Parker,
}

impl Model for ParkingTap {
    ghost use Rattle.cmh_station.specs.LinkEnds.{Tap};

    ghost Value = { Tap };

    ghost view = { λ p. p.tap };
}

impl ParkingTap {
    pub(crate) fn new(tap: LinkTap, parker: Parker) -> ParkingTap
        ensures { result ≡ tap }
    {
        ParkingTap { tap, parker }
    }

    /// The site that the link leads to.
    pub fn to(&self) -> SiteId
        ensures { result ≡ self.now.to }
    {
        self.tap.to()
    }

    /// The next frame of the ring, or `None` where none is seen there. It locks nothing, waits for nobody and takes no
    /// memory.
    pub fn take(&mut self) -> Option<Frame>
        ensures to { self.new.to ≡ self.old.to }
        ensures ring { self.new.ring ≡ self.old.ring }
        ensures some { IfSome result (λ frame. self.new.taken ≡ self.old.taken ++ frame ∷ []) }
        ensures none { IfNone result ((self.new.taken ≡ self.old.taken) × (self.new.known ≡ [])) }
    {
        self.tap.take()
    }

    /// Waits until the station is woken: by a `wake` after this call began, or by one since the last call of `park`
    /// returned.
    pub fn park<R: Wait>(&mut self, rt: &R)
        ensures { self.new ≡ self.old }
    {
        self.parker.park(rt);
    }

    pub fn into_tap(self) -> LinkTap
        ensures { result ≡ self }
    {
        let ParkingTap {
            tap,
            parker: _parker,
        } = self;
        tap
    }
}
