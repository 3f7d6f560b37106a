//! A site and a reader for callers that are not written in Rattle: they take the bytes of events and of streams, and
//! give those of entries and frames. The caller keeps the journal and carries the frames.
#![tactic(auto)]

mod fault;
mod held;
mod held_inlet;
mod inlet;
mod parts;
mod pending;
mod seat;

pub use crate::fault::{NotPrepared, SeatFault};
pub use crate::held::Held;
pub use crate::held_inlet::HeldInlet;
pub use crate::inlet::{FRAME_LEFT, Inlet, InletFault};
pub use crate::parts::Parts;
pub use crate::seat::Seat;
