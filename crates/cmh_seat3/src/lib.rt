//! A site of edition 3 for callers that are not written in Rattle: it takes the bytes of events, and gives those of
//! entries and messages. The caller keeps the journal and carries the messages.
//!
//! A site starts again, and its links go on, from the bytes of the journal alone. `open` is a site after the steps of its
//! journal. `got` tells how many messages of another site are in the journal, and their mark, with which that site's link
//! goes on here. `sent_past` gives the messages with which a link to another site goes on there, where that site tells the
//! same of what it got.
#![tactic(auto)]

mod again;
mod entries;
mod fault;
mod held;
mod journal;
mod links;
mod opening;
mod pending;
mod restart_fault;
mod seat;

pub use crate::entries::{EntryFault, Placed, declared_in, sendings_in};
pub use crate::fault::SeatFault;
pub use crate::held::Held;
pub use crate::links::{Receipts, got, sent_past};
pub use crate::opening::{Opened, open};
pub use crate::restart_fault::RestartFault;
pub use crate::seat::{ENTRY_MAX, Seat};
pub use cmh_seat::NotPrepared;
