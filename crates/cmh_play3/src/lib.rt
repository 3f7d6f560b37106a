//! A world of edition 3 in memory: the controllers of all its sites, the messages under way between them, and all that
//! happened. And the command `play --edition 3`, which drives it by a script, and may keep the journals of the world that was
//! played (`--journals`), each in the folder of its site.
#![tactic(auto)]

mod answer;
mod draft;
mod entries;
mod files;
mod folders;
mod links;
mod names;
mod play;
mod playground;
mod playing;
mod reply;

pub use crate::draft::Draft;
pub use crate::files::{journal_file, segment_file};
pub use crate::folders::{Folders, Keeper, keep_each};
pub use crate::links::Links;
pub use crate::names::newest_segment;
pub use crate::play::{PlayState, fault_of, play_script, run_play3};
pub use crate::playground::Playground;
pub use crate::playing::{run_play3_into, run_play3_keeping};
pub use crate::reply::{Done, Reply};
