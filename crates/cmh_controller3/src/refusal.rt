//! Why a controller refuses an event.

ghost use Rattle.std.specs.Prelude.{◌≡◌};

use thiserror::Error;

/// Why a controller refuses an event, or is not made. The first reason that holds is given, in this order; `Memory` comes
/// last, and only to an event that the rules accept.
///
/// The numbers are those of editions 1 and 2; of theirs, 7 is never given.
#[derive(Clone, Copy, Debug, PartialEq, Eq, Error)]
pub enum Refusal {
    /// The asker, the replier or the one replied to is not in the topology.
    #[error("unknown process")]
    UnknownProcess,
    /// The asker or the replier is at another site; or the site is not in the topology.
    #[error("process of another site")]
    NotHere,
    /// The targets are not strictly ascending, or hold the asker or an unknown process; or the asker would have more
    /// than 255 waits.
    #[error("bad targets")]
    BadTargets,
    /// The replier is blocked.
    #[error("process is blocked")]
    Blocked,
    /// An active process asks of nobody, which starts a computation for a blocked one.
    #[error("process is not blocked")]
    NotBlocked,
    /// The replier has no open request of the process that it replies to.
    #[error("no such request is open")]
    NotOwed,
    /// No controller that follows the rules sends this frame to this site now; or a turn would not set the clock forward.
    #[error("unlawful frame")]
    Unlawful,
    /// A growth was refused.
    #[error("out of memory")]
    Memory,
    /// The asker has given up its wait for one of the targets, and the target's site has not answered yet.
    #[error("a wait for a target has not ended everywhere")]
    Leaving,
    /// The asker waits for one of the targets already.
    #[error("process waits for a target already")]
    AlreadyWaits,
    /// A withdrawal names nobody, or one that the process does not wait for.
    #[error("process does not wait for a target")]
    NotWaiting,
    /// The clock stands at its greatest, and cannot tick for an ask.
    #[error("the clock is spent")]
    ClockSpent,
}

impl Refusal {
    ghost use Rattle.cmh_controller3.specs.Refusals.{number_of};

    /// The number that stands for the refusal in answers.
    pub const fn number(&self) -> u8
        ensures { result ≡ number_of self.now }
    {
        match self {
            Refusal::UnknownProcess => 1,
            Refusal::NotHere => 2,
            Refusal::BadTargets => 3,
            Refusal::Blocked => 4,
            Refusal::NotBlocked => 5,
            Refusal::NotOwed => 6,
            Refusal::Unlawful => 8,
            Refusal::Memory => 11,
            Refusal::Leaving => 14,
            Refusal::AlreadyWaits => 15,
            Refusal::NotWaiting => 16,
            Refusal::ClockSpent => 17,
        }
    }
}
