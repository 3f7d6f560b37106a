//! A page that steps through a run in a browser: one file of HTML, with nothing from elsewhere. It is a constant text round
//! the lines of the run.
#![tactic(auto)]

mod around;
mod fate;
mod fates;
mod foot;
mod head;
mod held;
mod lines;
mod moment;
mod page_fault;
mod paging;
mod topology_text;

pub use crate::around::{Extra, page_around};
pub use crate::page_fault::PageFault;
pub use crate::paging::{page_text, run_page};
