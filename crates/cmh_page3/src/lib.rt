//! A page that steps through a run of edition 3 in a browser: its lines, and what it has besides what stands in every page.
#![tactic(auto)]

mod extra;
mod lines;
mod page_fault;
mod paging;
mod told;
mod topology_text;

pub use crate::paging::run_page3;
