//! A site of edition 3 as a value: its station, and both ends of the links with each other site, without threads, sockets
//! or a clock. Each call says what happened, and answers what the caller has to do.
//!
//! Times are milliseconds, and connections have numbers; both come from the caller. `Node` says what holds between the
//! calls: the ends have just what the journal has. So at a restart they are found again: what the journal sent to a site is
//! what its sender's end is given, and what it got from there is what its receiver's end counts. Where the journal begins
//! with a base, its links say what was before.
#![tactic(auto)]

mod given;
mod happening;
mod links;
mod node;
mod peer;
mod places;
mod receiving;
mod sealed;
mod sending;
mod settling;
mod stepping;
mod stops;
mod taken;
mod turning;

pub use crate::given::queue_all;
pub use crate::happening::{Action, Happening};
pub use crate::links::{Unmet, links_law, links_of, peers_from};
pub use crate::node::Node;
pub use crate::peer::{Peer, is_behind, others_of, place_of};
pub use crate::places::{acknowledge_at, claim_at, end_at, happen_at, next_at, receive_at};
pub use crate::receiving::{Admitted, NotTaken, Taken};
pub use crate::sealed::Sealed;
pub use crate::settling::StepFault;
pub use crate::stepping::NotStepped;
pub use crate::turning::NotTurned;
