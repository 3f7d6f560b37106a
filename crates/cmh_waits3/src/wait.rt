//! One wait.

ghost use Rattle.std.specs.Prelude.{◌≡◌, not};
ghost use Rattle.cmh_model3.specs.Lists.{is_before};

use cmh_model3::{ProcId, Stamp};

/// That a process waits for another, and since which ask of it.
#[derive(Clone, Copy)]
pub struct Wait {
    /// The process that is waited for.
    pub target: ProcId,
    /// The stamp of the ask that began the wait.
    pub since: Stamp,
}

impl Wait {
    /// Whether the wait, which is one of the asker's, counts for the ask of the origin with this stamp: it is not younger.
    /// Of two asks with the same stamp that of the greater process is the younger.
    #[inline(always)]
    pub fn counts(&self, stamp: Stamp, origin: ProcId, asker: ProcId) -> bool
        ensures { result ≡ not (is_before stamp origin self.now.since asker) }
    {
        is_no_younger(self.since, asker, stamp, origin)
    }
}

/// Whether an ask of the asker since this stamp is not younger than that of the origin with the other.
#[inline(always)]
pub fn is_no_younger(since: Stamp, asker: ProcId, stamp: Stamp, origin: ProcId) -> bool
    ensures { result ≡ not (is_before stamp origin since asker) }
{
    since < stamp || (since == stamp && asker <= origin)
}
