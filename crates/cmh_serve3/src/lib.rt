//! A running site of edition 3: a thread that waits for its links, its clients and the time, and gives what comes to the site,
//! and two that help it to write answers. It starts again on its journal, and its links resume.
#![tactic(auto)]

mod arrivals;
mod calls;
mod clients;
mod console;
mod descriptor;
mod doors;
mod guests;
mod helpers;
mod hub;
mod links;
mod opening;
mod places;
mod ports;
mod serve_fault;
mod serving;
mod setting;
mod socket;
mod voice;

pub use crate::serve_fault::ServeFault;
pub use crate::serving::{ServeStart, run_service3, run_site3};
pub use crate::setting::is_of_edition3;
pub use crate::voice::SiteVoice;
