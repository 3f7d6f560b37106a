//! The rule of the board: what holds of the published list, and of what the writer and each reader know.

use crate::published::Published;
use atomic_table::{Join, Split};
use crossbeam_utils::rule::{Outcome, Protocol};

/// What one end of the board knows: nothing, or the name of the history. No value of it is made: contracts see a list
/// of numbers.
pub type Known = [u64; 0];

/// The published list is the history that comes with it, and whoever knows the name of a history knows this one's.
pub struct BoardRule;

impl Protocol<Published, Known> for BoardRule {
    ghost use Rattle.std.specs.Prelude.{[]};
    ghost use Rattle.cmh_shared.specs.Rule.{Kept};

    ghost holds = { Kept };

    ghost first = { [] };
}

/// A step of the writer or of a reader, after which it knows the history of what is published then.
pub struct Sees;

impl Outcome<Published, Known> for Sees {
    ghost use Rattle.cmh_shared.specs.Rule.{Saw};

    ghost then = { Saw };
}

/// What the writer knows, for itself and for another.
pub struct Same;

impl Split<Known> for Same {
    ghost left = { λ v. v };

    ghost right = { λ v. v };
}

/// What another knows, taken in by a reader that knows nothing.
pub struct Takes;

impl Join<Known> for Takes {
    ghost use Rattle.std.specs.Prelude.{[]};

    ghost both = { λ v w. w };

    ghost spent = { [] };
}
