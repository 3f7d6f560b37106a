//! A world in memory: the controllers of all its sites, what their steps come to, and the links between them. And the
//! command `play`, which drives it by a script.
#![tactic(auto)]

mod answer;
mod draft;
mod history;
mod keeper;
mod links;
mod play;
mod play_fault;
mod playground;
mod reply;
mod site;

pub use crate::draft::Draft;
pub use crate::keeper::{Folder, Keeper, NoKeeper};
pub use crate::links::Links;
pub use crate::play::{run_play, run_play_keeping};
pub use crate::play_fault::PlayFault;
pub use crate::playground::Playground;
pub use crate::reply::Reply;
pub use crate::site::Refused;
