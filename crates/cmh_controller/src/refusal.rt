//! Why a controller refuses an event.

ghost use Rattle.std.specs.Prelude.{◌≡◌};

use thiserror::Error;

/// Why a controller refuses an event, or is not made. The first reason that holds is given, in this order.
#[derive(Clone, Copy, Debug, PartialEq, Eq, Error)]
pub enum Refusal {
    /// The asker, the replier or the one replied to, or the process of a start is not in the topology.
    #[error("unknown process")]
    UnknownProcess,
    /// The asker, the replier or the process of a start is at another site; or the site is not in the topology.
    #[error("process of another site")]
    NotHere,
    /// The targets are none, too many, not strictly ascending, or hold the asker or an unknown process.
    #[error("bad targets")]
    BadTargets,
    /// The asker or the replier is blocked.
    #[error("process is blocked")]
    Blocked,
    /// The process of a start is active.
    #[error("process is not blocked")]
    NotBlocked,
    /// The replier has no open request of the process that it replies to.
    #[error("no such request is open")]
    NotOwed,
    /// The process of a start is declared.
    #[error("process is declared already")]
    AlreadyDeclared,
    /// No controller that follows the rules sends this frame to this site now.
    #[error("unlawful frame")]
    Unlawful,
    /// A growth was refused.
    #[error("out of memory")]
    Memory,
}

impl Refusal {
    ghost use Rattle.cmh_controller.specs.Refusals.{number_of};

    /// The number that stands for the refusal in answers.
    pub const fn number(&self) -> u8
        ensures { result ≡ number_of self.now }
    {
        match self {
            Refusal::UnknownProcess => 1,
            Refusal::NotHere => 2,
            Refusal::BadTargets => 3,
            Refusal::Blocked => 4,
            Refusal::NotBlocked => 5,
            Refusal::NotOwed => 6,
            Refusal::AlreadyDeclared => 7,
            Refusal::Unlawful => 8,
            Refusal::Memory => 11,
        }
    }
}
