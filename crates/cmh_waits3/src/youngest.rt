//! How young the waits of a site are.

ghost use Rattle.std.specs.Prelude.{◌≡◌, false, not};
ghost use Rattle.cmh_model3.specs.Lists.{is_before};

use crate::wait::is_no_younger;
use cmh_model3::{ProcId, Stamp};

/// An ask such that no wait of the site is younger.
#[derive(Clone, Copy)]
pub struct Youngest {
    pub stamp: Stamp,
    pub asker: ProcId,
}

impl Youngest {
    /// That of a site where nobody waits: any.
    pub fn of_none() -> Youngest {
        Youngest {
            stamp: Stamp::new(0),
            asker: ProcId::of(1),
        }
    }

    /// The younger of it and another ask.
    pub fn with(self, stamp: Stamp, asker: ProcId) -> Youngest
        ensures before { is_before result.stamp result.asker self.stamp self.asker ≡ false }
        ensures new { is_before result.stamp result.asker stamp asker ≡ false }
    {
        if is_no_younger(self.stamp, self.asker, stamp, asker) {
            Youngest { stamp, asker }
        } else {
            self
        }
    }

    /// Whether waits that are no younger count for the ask of the origin with this stamp.
    #[inline(always)]
    pub fn counts(self, stamp: Stamp, origin: ProcId) -> bool
        ensures { result ≡ not (is_before stamp origin self.stamp self.asker) }
    {
        is_no_younger(self.stamp, self.asker, stamp, origin)
    }
}
