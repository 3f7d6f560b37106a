//! What a station drives: the machine of a site, which takes each event in two halves, and can go back.
//!
//! A model's controller implements `Machine`; what stands on the trait knows no model.
#![tactic(auto)]

mod machine;
mod record;

pub use crate::machine::{Machine, NotPrepared};
pub use crate::record::Record;
