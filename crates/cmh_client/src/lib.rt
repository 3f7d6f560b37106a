//! A client of a service: the lines that it sends, their answers, and the news that it is told. Nothing here knows what carries
//! the bytes; what lines mean and how news reads are parameters.
#![tactic(auto)]

mod client;
mod conversation;
mod desk;
mod http;
mod language;
pub mod laws;
mod next;
mod saying;
mod telling;
mod wish;

pub use crate::client::{Client, MOST_QUEUED};
pub use crate::conversation::Conversation;
pub use crate::desk::{Desk, MOST_TOGETHER, Waiting};
pub use crate::http::speaks_http;
pub use crate::language::{Language, Meaning};
pub use crate::next::Next;
pub use crate::telling::Telling;
pub use crate::wish::Wish;
