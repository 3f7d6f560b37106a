//! The controller of one site: which events it accepts, what it sends and declares, and its state afterwards.
#![tactic(auto)]

mod beginning;
mod controller;
mod joining;
mod laws;
mod prepared;
mod proc_set;
mod refusal;
mod replayed;
mod sending;

pub use crate::controller::Controller;
pub use crate::laws::memory_law;
pub use crate::prepared::Prepared;
pub use crate::refusal::Refusal;
pub use crate::replayed::{Replayed, replay};
pub use cmh_frames::{Entry, Event, Outcome, Sendings, Targets};
