//! Stamps of asks, which are also the clocks of sites.

ghost use Rattle.std.specs.Fmt.{decimal};
ghost use Rattle.std.specs.Prelude.{◌≡◌, Some};

use std::fmt;
use std::marker::Model;

/// The stamp of an ask, and the clock of a site: the greatest stamp that it has heard of.
#[derive(Clone, Copy, PartialEq, Eq, PartialOrd, Ord, Hash)]
pub struct Stamp {
    number: u64,
}

impl Model for Stamp {
    ghost use Rattle.std.specs.Prelude.{ℕ};

    ghost Value = { ℕ };

    ghost view = { λ s. s.number };

    ghost inverse = { λ n. record { number = n } };
}

impl Stamp {
    #[inline(always)]
    pub const fn new(number: u64) -> Self
        ensures { result ≡ number }
    {
        Stamp { number }
    }

    #[inline(always)]
    pub const fn get(self) -> u64
        ensures { result ≡ self }
    {
        let Stamp { number } = self;
        number
    }
}

impl fmt::Display for Stamp {
    ghost output = { λ s. Some (decimal s) };

    fn fmt<W: fmt::Write>(&self, f: &mut fmt::Formatter<W>) -> fmt::Result {
        write!(f, "{}", self.number)
    }
}
