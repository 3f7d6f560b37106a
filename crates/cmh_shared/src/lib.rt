//! What the threads of a site share. For each other site a ring of frames, at whose one end the site lets frames go and
//! at whose other end a writing thread takes them. And the board, a list of processes that one writer makes longer, and
//! that readers read without waiting and without going back.
#![tactic(auto)]

mod board;
mod declared;
mod history;
pub mod instances;
mod kept_board;
mod link;
mod links;
mod published;
mod reader;
mod rule;
mod tap;
mod writer;

pub use crate::board::Board;
pub use crate::declared::Declared;
pub use crate::kept_board::{KeptBoard, Listing};
pub use crate::links::SiteLinks;
pub use crate::reader::{BoardReader, Told};
pub use crate::tap::LinkTap;
