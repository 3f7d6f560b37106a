//! What a client that watches is told.

ghost use Rattle.std.specs.Prelude.{◌≡◌, ◌++◌, true, OnOk};

use std::alloc::AllocError;

/// How items of news read.
pub trait Telling<T> {
    ghost use Rattle.std.specs.Prelude.{ℕ, List};

    /// The line of an item, with its line feed.
    ghost line: { T → List ℕ };

    /// Whether an item is the same as another one.
    fn same_item(&self, item: &T, other: &T) -> bool
        ensures { result ≡ true → item.now ≡ other.now };

    /// Puts the line of an item behind a text. Where memory is refused, a part of it may be put there.
    fn tell(&self, item: &T, text: &mut Vec<u8>) -> Result<(), AllocError>
        ensures { OnOk result (text.new.items ≡ text.old.items ++ line item.now) };
}
