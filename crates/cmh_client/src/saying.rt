//! Texts go into a queue whole, or not at all.

ghost use Rattle.std.specs.Prelude.{◌≡◌, ◌++◌, flat_map, IfSome, OnErr, OnOk};

use crate::telling::Telling;
use std::alloc::AllocError;
use std::fmt;
use std::io::Write;

/// Puts a text into a queue. It is written into a draft first.
pub(crate) fn say<T: fmt::Display + Drop>(
    draft: &mut Vec<u8>,
    queue: &mut Vec<u8>,
    text: T,
) -> Result<(), AllocError>
    ensures said { OnOk result (IfSome (T.output text) (λ text. queue.new.items ≡ queue.old.items ++ text)) }
    ensures unsaid { OnErr result (queue.new.items ≡ queue.old.items) }
{
    draft.clear();
    match draft.write_fmt(text) {
        Ok(()) => queue.extend_from_slice(draft),
        Err(_) => Err(AllocError),
    }
}

/// Puts the lines of all items into a queue.
pub(crate) fn say_all<T, L: Telling<T>>(
    draft: &mut Vec<u8>,
    queue: &mut Vec<u8>,
    telling: &L,
    items: &[T],
) -> Result<(), AllocError>
    ensures said { OnOk result (queue.new.items ≡ queue.old.items ++ flat_map L.line items.now) }
    ensures unsaid { OnErr result (queue.new.items ≡ queue.old.items) }
{
    draft.clear();
    for item in items {
        telling.tell(item, draft)?;
    }
    queue.extend_from_slice(draft)
}
