//! The messages in front of what was heard.

ghost use Rattle.std.specs.Prelude.{◌≡◌, IfOk};
ghost use Rattle.cmh_links3.specs.Hearing.{IsBatch};

use crate::ahead::epoch_of_message;
use cmh_model3::Message;
use cmh_resume3::{Item, ItemFront, decode_item};
use cmh_wire3::Epoch;
use std::alloc::{AllocError, Global};

/// How many messages are taken at once.
const MOST_TAKEN: usize = 64;

/// Messages, and how many bytes spell them.
#[derive(Drop)]
pub(crate) struct Batch {
    pub(crate) messages: Vec<Message>,
    pub(crate) len: usize,
}

/// The messages in front of the bytes, at most 64, up to one of a later epoch than the site's.
#[tactic(auto, using(crate::proofs::Hearing::batch_more))]
pub(crate) fn batch_of(alloc: Global, bytes: &[u8], epoch: Epoch) -> Result<Batch, AllocError>
    ensures { IfOk result (λ batch. IsBatch bytes.now batch.len batch.messages.items) }
{
    let mut messages = Vec::new(alloc);
    let mut len = 0;
    for _count in 0..MOST_TAKEN {
        let (_, rest) = bytes.split_at(len);
        match decode_item(rest) {
            ItemFront::Whole(Item::Message(message), count) if !is_later(&message, epoch) => {
                messages.push(message)?;
                len += count;
            }
            _ => return Ok(Batch { messages, len }),
        }
    }
    Ok(Batch { messages, len })
}

/// Whether a message is of a later epoch than the site's: then it can't be taken.
fn is_later(message: &Message, epoch: Epoch) -> bool {
    epoch_of_message(message).get() > epoch.get()
}
