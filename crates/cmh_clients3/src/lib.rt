//! What a running site of edition 3 does for its clients, whatever carries their bytes: their events, which go together in
//! batches, their questions, the news for those who watch, and the notes for its operator.
#![tactic(auto)]

mod batch;
mod meeting;
mod note;
mod noting;
mod replying;
mod stepping;
mod tail_text;
mod talker;
mod telling;
mod turning;

pub use crate::batch::{Batch, MOST_TOGETHER};
pub use crate::meeting::Meeting;
pub use crate::note::SiteNote;
pub use crate::noting::Noting;
pub use crate::stepping::Site;
pub use crate::tail_text::{NoTail, TailText, tail_of};
pub use crate::talker::Talker;
pub use crate::telling::Teller;
