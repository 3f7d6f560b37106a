//! What connects the links of a site.

ghost use Rattle.std.specs.Prelude.{◌≡◌, ◌+◌, ◌-◌, ◌<◌, ◌^◌, IfOk, OnOk, OnErr};

use crate::seats::{Seat, Seats};
use cmh_carriers::{Dial, IoFault};
use cmh_frames::SiteId;
use std::alloc::{AllocError, Global};
use std::marker::Model;
use std::sync::{Arc, Wait};
use std::time::Clock;

/// A dial, and the seats of the connections that it opened. Contracts see how many of its calls have failed.
#[derive(Drop)]
pub(crate) struct Dialler<D: Dial> {
    dial: D,
    seats: Arc<Seats<D::Handle>>,
}

impl<D: Dial> Model for Dialler<D> {
    ghost use Rattle.std.specs.Prelude.{ℕ};

    ghost Value = { ℕ };

    ghost view = { λ d. D.failures d.dial };
}

impl<D: Dial> Dialler<D> {
    /// It opened no connection.
    pub fn new(alloc: Global, dial: D) -> Result<Dialler<D>, AllocError>
    where
        D: Drop,
        ensures { IfOk result (λ dialler. dialler ≡ D.failures dial) }
    {
        let seats = Arc::new(alloc, Seats::new(alloc))?;
        Ok(Dialler { dial, seats })
    }

    /// The connections that it opened.
    pub fn seats(&self) -> &Arc<Seats<D::Handle>> {
        &self.seats
    }

    /// Opens a connection to where a site listens. It may wait.
    pub fn connect(&mut self, site: SiteId) -> Result<D::Out, IoFault>
        requires countable { self.old < 2 ^ 64 - 1 }
        ensures fresh { IfOk result (λ outgoing. D.Out.failures outgoing ≡ 0) }
        ensures ok { OnOk result (self.new ≡ self.old) }
        ensures err { OnErr result (self.new ≡ self.old + 1) }
    {
        self.dial.connect(site)
    }

    /// A seat for a connection that it opened to a site. `None` where memory was refused, or the clock can't be read.
    pub fn seat<R: Wait + Clock>(
        &self,
        rt: &R,
        site: SiteId,
        outgoing: &D::Out,
    ) -> Option<Arc<Seat<D::Handle>>> {
        self.seats.seat(rt, self.dial.handle(outgoing)?, Some(site))
    }
}
