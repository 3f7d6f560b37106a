//! Where the tap of a link waits for its thread.

ghost use Rattle.std.specs.Prelude.{◌≡◌, IfOk};

use cmh_frames::SiteId;
use cmh_station::ParkingTap;
use std::alloc::{AllocError, Global};
use std::sync::{Arc, Mutex, Wait};

/// A hand on the place where the tap of a link lies. Two have one: the thread of the link, and who starts that thread.
/// Whoever comes first takes the tap.
#[derive(Drop)]
pub(crate) struct Berth {
    /// The site that the link leads to.
    pub to: SiteId,
    tap: Arc<Mutex<Option<ParkingTap>>>,
}

impl Berth {
    /// Two hands on a place where no tap lies.
    pub fn pair(alloc: Global, to: SiteId) -> Result<(Berth, Berth), AllocError>
        ensures one { IfOk result (λ hands. hands.0.to ≡ to) }
        ensures other { IfOk result (λ hands. hands.1.to ≡ to) }
    {
        let tap = Arc::new(alloc, Mutex::new(None))?;
        let other = Arc::try_clone(&tap)?;
        Ok((Berth { to, tap }, Berth { to, tap: other }))
    }

    /// Lays the tap down.
    pub fn put<R: Wait>(&self, rt: &R, tap: ParkingTap) {
        *self.tap.lock(rt) = Some(tap);
    }

    /// Takes the tap. Who comes second waits for ever, so the starter comes only where no thread could be had.
    pub fn take<R: Wait>(&self, rt: &R) -> ParkingTap
        ensures { result.to ≡ self.now.to }
    {
        for _ in rt.forever() {
            // What comes out of a lock is known by its type alone, so the tap is asked where it leads.
            match self.tap.lock(rt).take() {
                Some(tap) if tap.to() == self.to => return tap,
                Some(_) | None => {}
            }
        }
        unreachable!()
    }
}
