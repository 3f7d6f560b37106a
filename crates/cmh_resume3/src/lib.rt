//! The two ends of a link of edition 3 that resumes, as values without sockets, files, threads or a clock: each call says
//! what happened, and answers what the caller has to do. And the law of such links: whatever connections end and whichever
//! sites are killed, each message comes once and in its order.
//!
//! Besides messages the ends say to one another the sender's hello and the receiver's answer, with which a link resumes,
//! notes, acknowledgements and refusals. Their grammar is in `specs/Hello.antt` and `specs/Stream.antt`; `docs/formats.md` has
//! it in a table.
#![tactic(auto)]

mod acknowledgement;
mod answer;
mod hello;
mod item;
mod laws;
mod receiver;
mod refusal;
mod sender;
mod spelling_laws;

pub use crate::acknowledgement::{Acknowledgement, AcknowledgementFront, decode_acknowledgement};
pub use crate::answer::{Answer, ReplyFront, decode_reply, spell_refusal};
pub use crate::hello::{Hello, HelloFront, decode_hello};
pub use crate::item::{Item, ItemFront, decode_item, spell_mismatch, spell_note};
pub use crate::laws::resume_law;
pub use crate::receiver::{ReceiverEnd, Untaken, check_hello};
pub use crate::refusal::{Mismatch, Refusal};
pub use crate::sender::{Heard, SenderEnd, State, Task, Unqueued};
pub use crate::spelling_laws::{
    one_acknowledgement_law, one_answer_law, one_hello_law, one_item_law,
};
