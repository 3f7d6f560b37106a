//! The command `audit` of edition 3 where a site has begun a later epoch than the first: over all segments of all journals,
//! epoch by epoch.
#![tactic(auto)]

mod auditing;
mod bases;
mod journals;
mod keeping;
mod lines;
mod noted;
mod part;
mod part_report;
mod part_text;
mod places;
mod progress;
mod wholes;

pub use crate::auditing::run_long_audit3;
pub use crate::part::{EpochRange, run_part_audit3};
pub use crate::places::epoch_in;
pub use crate::wholes::{AuditedWholes, audit_wholes, wholes_of};
