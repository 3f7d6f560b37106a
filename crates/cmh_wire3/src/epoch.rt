//! Which epoch bytes are of.

ghost use Rattle.std.specs.Prelude.{◌≡◌};

use std::marker::Model;

/// The number of an epoch: the upper half of a clock.
#[derive(Clone, Copy, PartialEq, Eq, PartialOrd, Ord, Hash)]
pub struct Epoch {
    number: u32,
}

impl Model for Epoch {
    ghost use Rattle.std.specs.Prelude.{ℕ};

    ghost Value = { ℕ };

    ghost view = { λ e. e.number };

    ghost inverse = { λ n. record { number = n } };
}

impl Epoch {
    pub const fn new(number: u32) -> Self
        ensures { result ≡ number }
    {
        Epoch { number }
    }

    pub const fn get(self) -> u32
        ensures { result ≡ self }
    {
        let Epoch { number } = self;
        number
    }
}
