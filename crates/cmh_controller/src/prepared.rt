//! The first half of a step.

use cmh_frames::Outcome;

/// A step that a controller has prepared: its outcome is known and nothing of it can fail any longer. It waits to be
/// carried out or taken back.
#[derive(Drop)]
pub struct Prepared {
    /// What the step sends and declares.
    pub outcome: Outcome,
    /// Whether the step is the receipt of a probe that acted.
    pub acted: bool,
}
