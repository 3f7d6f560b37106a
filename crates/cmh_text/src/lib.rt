//! Short texts that are put together from their end, which takes less time than to format them.
#![tactic(auto)]

mod short_text;

pub use crate::short_text::ShortText;
