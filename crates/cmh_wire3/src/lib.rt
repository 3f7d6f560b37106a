//! The bytes of edition 3 that links and journals share: messages, which are frames with the clock of their sender, the
//! marks by which two sites find that they know other bytes, and the numbers of epochs.
//!
//! The grammar is in `specs/`; `docs/formats.md` has it in tables.
#![tactic(auto)]

mod cursor;
mod epoch;
mod frame;
mod laws;
mod mark;
mod put;

pub use crate::cursor::Cursor;
pub use crate::epoch::Epoch;
pub use crate::frame::{Front, Spelled, decode_front, encode};
pub use crate::laws::{mark_law, one_spelling_law};
pub use crate::mark::Mark;
pub use crate::put::{put_message, put_u16, put_u32, put_u64};
pub use cmh_model3::{Frame, Message, ProcId, SiteId, Stamp};
