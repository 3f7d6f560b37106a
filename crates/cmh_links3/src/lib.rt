//! The connections of the links of a site of edition 3, without sockets: for each connection what was heard on it and was
//! not taken yet, and what is to be written. An event loop carries the bytes.
//!
//! Times are milliseconds, and connections have numbers; both come from the caller.
#![tactic(auto)]

mod ahead;
mod batch;
mod incoming;
mod onward;
mod outgoing;
mod unread;

pub use crate::incoming::Incoming;
pub use crate::onward::Onward;
pub use crate::outgoing::Outgoing;
