//! The waits of a site's processes in edition 3, each with the stamp of the ask that began it, and the search along those
//! that count for an ask.
#![tactic(auto)]

mod member_table;
mod place_set;
mod search;
mod site_waits;
mod summary;
mod wait;
mod wait_list;
mod wait_row;
mod youngest;

pub use crate::search::{Finding, finding_of_ask, finding_of_probe};
pub use crate::site_waits::SiteWaits;
pub use crate::wait::Wait;
pub use crate::wait_row::WaitRow;
