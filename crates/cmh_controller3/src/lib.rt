//! One site's controller by the rules of edition 3.
//!
//! It holds what the site keeps of its processes, and takes events: it accepts those that the rules of `cmh_model3`
//! accept, and sends and declares what they say.
#![tactic(auto)]

mod changes;
mod controller;
mod mark_row;
mod mark_table;
mod outcome;
mod pair_table;
mod prepared;
mod reading;
mod refusal;
mod replayed;
mod restoring;
mod rows;
mod second_half;
mod sending;
mod targets;
mod way_back;

pub use crate::controller::Controller;
pub use crate::mark_row::Mark;
pub use crate::outcome::{Declaration, Outcome};
pub use crate::prepared::Prepared;
pub use crate::refusal::Refusal;
pub use crate::replayed::{Replayed, replay};
pub use crate::way_back::WayBack;
