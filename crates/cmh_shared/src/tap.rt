//! The other end of a link, from which a writing thread takes frames.

ghost use Rattle.std.specs.Prelude.{◌≡◌, [], ◌∷◌, ◌++◌, IfNone, IfSome};
ghost use Rattle.rtrb.specs.Ring.{known_items, received};

use crate::link::Link;
use cmh_runs::SiteId;
use rtrb::Consumer;
use std::alloc::AllocError;
use std::marker::Model;
use std::sync::Arc;
use std::sync::atomic::AtomicUsize;

/// The end of a link that takes its frames. It may be in another thread than the station: it locks nothing, waits for
/// nobody and takes no memory.
#[derive(Drop)]
pub struct LinkTap<F> {
    to: SiteId,
    consumer: Consumer<F>,
    waiting: Arc<AtomicUsize>,
}

impl<F> Model for LinkTap<F> {
    ghost use Rattle.rtrb.specs.Ring.{known_items, received};
    ghost use Rattle.cmh_shared.specs.Links as spec;

    ghost Value = { spec.Tap F };

    ghost view = { λ t. record {
      to = t.to;
      ring = (t.consumer.end.words, t.consumer.end.slots, t.consumer.end.names);
      taken = received t.consumer;
      known = known_items t.consumer;
    } };
}

impl<F: Copy + Drop> LinkTap<F> {
    ghost use Rattle.cmh_shared.specs.Backlogs.{seen};
    ghost use Rattle.cmh_shared.specs.Links.{IsTapOf, Through};

    pub(crate) fn new(to: SiteId, consumer: Consumer<F>, waiting: Arc<AtomicUsize>) -> LinkTap<F>
        ensures to { result.to ≡ to }
        ensures ring { result.ring ≡ (consumer.end.words, consumer.end.slots, consumer.end.names) }
        ensures taken { result.taken ≡ received consumer }
        ensures known { result.known ≡ known_items consumer }
    {
        LinkTap {
            to,
            consumer,
            waiting,
        }
    }

    /// The site that the link leads to.
    pub fn to(&self) -> SiteId
        ensures { result ≡ self.now.to }
    {
        self.to
    }

    /// How many frames wait to go into the ring, as a number that any thread reads: it is that of the last step or release.
    pub fn waiting(&self) -> Result<Arc<AtomicUsize>, AllocError> {
        Arc::try_clone(&self.waiting)
    }

    /// The next frame of the ring, or `None` where none is seen there.
    pub fn take(&mut self) -> Option<F>
        ensures to { self.new.to ≡ self.old.to }
        ensures ring { self.new.ring ≡ self.old.ring }
        ensures some { IfSome result (λ frame. self.new.taken ≡ self.old.taken ++ frame ∷ []) }
        ensures none { IfNone result ((self.new.taken ≡ self.old.taken) × (self.new.known ≡ [])) }
    {
        self.consumer.pop().ok()
    }

    /// With both ends in one thread: what was taken and what is left in the ring is what was released.
    pub(crate) fn reconcile(&mut self, link: &mut Link<F>)
        requires { IsTapOf (seen link.old) self.old }
        ensures { Through (seen link.old) self.old }
    {
        self.consumer.slots_beside(&mut link.producer);
    }
}
