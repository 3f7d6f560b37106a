//! The commands that only need files: `audit`, `show`, `draw`, `segments`, `restore`, and `play` into a folder or a page, as the
//! words of the command line name them.
#![tactic(auto)]

mod auditing;
mod drawing;
mod earlier;
mod files;
mod kept_files;
mod listing;
mod new_world;
mod paging;
mod parts;
mod playing;
mod recording;
mod restoring;

pub use crate::auditing::{audit, show};
pub use crate::drawing::draw;
pub use crate::files::{ClusterFiles, cluster_files_of};
pub use crate::listing::segments;
pub use crate::new_world::run_new_world;
pub use crate::paging::{draw_or_page, play_page};
pub use crate::playing::play_into;
pub use crate::restoring::restore;
