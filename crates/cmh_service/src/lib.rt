//! The command `serve`: a site that clients talk to over connections of their own.
#![tactic(auto)]

mod clients;
mod connection;
mod host;
mod mailbox;
mod questions;
mod rounds;
mod server;
mod service_fault;
mod serving;
mod stand_in;

pub use crate::service_fault::ServiceFault;
pub use crate::serving::{ServiceStart, run_service};
