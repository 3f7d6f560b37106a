//! Why a station takes no step, or is not made.

ghost use Rattle.std.specs.Prelude.{◌≡◌};

use cmh_controller::Refusal;
use thiserror::Error;

/// Why a station takes no step, or is not made. Of a step the first reason that holds is given: `Sealed`, `Full`, the
/// controller's by their numbers, and last `Disk`.
#[derive(Clone, Copy, Debug, PartialEq, Eq, Error)]
pub enum StationRefusal {
    /// The controller refuses the event; or, as its `Memory`, a growth of the station was refused.
    #[error("{0}")]
    Rule(Refusal),
    /// An earlier entry could not be written.
    #[error("the station is sealed")]
    Sealed,
    /// The bytes could not be written, or not synced.
    #[error("the journal can't be written")]
    Disk,
    /// The journal holds 1,000,000 entries.
    #[error("the journal is full")]
    Full,
}

impl StationRefusal {
    ghost use Rattle.cmh_station.specs.Journaled.{number_of};

    /// The number that stands for the refusal in answers.
    pub const fn number(&self) -> u8
        ensures { result ≡ number_of self.now }
    {
        match self {
            StationRefusal::Rule(refusal) => refusal.number(),
            StationRefusal::Sealed => 9,
            StationRefusal::Disk => 10,
            StationRefusal::Full => 12,
        }
    }
}
