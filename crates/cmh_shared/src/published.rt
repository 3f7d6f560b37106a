//! What is published, and the one operation on it.

ghost use Rattle.std.specs.Prelude.{◌≡◌};

use crate::declared::Declared;
use crate::history::SeenHistory;
use cmh_runs::ProcId;
use left_right::Absorb;
use std::alloc::AllocError;

/// A published list, with the history that it is.
#[derive(Drop)]
pub struct Published {
    pub list: Declared,
    pub seen: SeenHistory,
}

impl Published {
    /// The same once more.
    pub fn again(&self) -> Published
        ensures { result ≡ self.now }
    {
        Published {
            list: self.list.again(),
            seen: self.seen.again(),
        }
    }
}

/// One more process, with the history that the longer list is.
#[derive(Drop)]
pub struct Add {
    pub process: ProcId,
    pub seen: SeenHistory,
}

impl Absorb<Add> for Published {
    ghost use Rattle.cmh_shared.specs.Lists.{added};

    // No value of it is made: it names the type that contracts see, a list of processes and what was seen of the
    // history.
    type State = ([ProcId; 0], SeenHistory);

    ghost state = { λ p. (p.list, p.seen) };

    ghost applied = { λ s a. (added s.0 a.process, a.seen) };

    ghost never_fails = { Unit {0} };

    fn absorb_first(&mut self, operation: &Add, _other: &Published) -> Result<(), AllocError> {
        self.list.add(operation.process);
        self.seen = operation.seen.again();
        Ok(())
    }
}
