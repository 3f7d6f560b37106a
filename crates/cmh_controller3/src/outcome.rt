//! What comes of a step.

use cmh_model3::{Message, ProcId, Sendings, Stamp};

/// That a process is deadlocked, and since when.
#[derive(Clone, Copy, PartialEq, Eq)]
pub struct Declaration {
    pub process: ProcId,
    /// The number of the stop at which the process lay on a cycle.
    pub stop: Stamp,
}

/// What a step sends and declares.
#[derive(Drop)]
pub struct Outcome {
    pub sent: Sendings<Message>,
    /// The process that was declared, where it was not before.
    pub declared: Option<Declaration>,
}
