//! The command `site`, which runs one site of a topology.
#![tactic(auto)]

mod site;

pub use crate::site::{run_site, run_site_noting};
