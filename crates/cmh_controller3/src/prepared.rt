//! The first half of a step.

ghost use Rattle.std.specs.Prelude.{◌≡◌, IfOk};

use crate::outcome::Outcome;
use cmh_model3::Stamp;
use cmh_waits::ProcList;
use std::alloc::{AllocError, Global};

/// A step that a controller has prepared: its outcome is known and nothing of it can fail any longer. It waits to be
/// carried out or taken back.
#[derive(Drop)]
pub struct Prepared {
    /// What the step sends and declares.
    pub outcome: Outcome,
    pub(crate) before: Before,
}

/// What stood, before a step, at the places that its first half has written. Elsewhere it says nothing.
#[derive(Drop)]
pub(crate) struct Before {
    /// The clock of the site.
    pub clock: Stamp,
    /// The stamp of the newest ask of an ask's asker.
    pub stamp: Stamp,
    /// Whether an ask's asker was declared.
    pub declared: bool,
    /// The mark of a probe's origin at its receiver.
    pub mark: Stamp,
    /// Those whom the asker of a withdrawal was leaving.
    pub leaving: ProcList,
}

impl Before {
    /// With this clock and these, and with nothing else.
    pub fn new(clock: Stamp, leaving: ProcList) -> Before
        ensures clock { result.clock ≡ clock }
        ensures leaving { result.leaving ≡ leaving }
    {
        Before {
            clock,
            stamp: Stamp::new(0),
            declared: false,
            mark: Stamp::new(0),
            leaving,
        }
    }

    /// The same once more.
    pub fn copy(&self, alloc: Global) -> Result<Before, AllocError>
        ensures { IfOk result (λ other. other ≡ self.now) }
    {
        Ok(Before {
            clock: self.clock,
            stamp: self.stamp,
            declared: self.declared,
            mark: self.mark,
            leaving: self.leaving.copy(alloc)?,
        })
    }
}
