//! Editions of the rules and formats.

ghost use Rattle.std.specs.Fmt.{decimal};
ghost use Rattle.std.specs.Prelude.{Some, ◌≡◌, ◌≤◌, ◌==◌, ◌||◌, IsTrue, ◌↔◌, MatchOption, ◌≢◌};
ghost use Rattle.cmh_frames.specs.Edition as spec;

use std::fmt;

/// An edition of the rules and formats. All sites of a world are of one.
#[derive(Clone, Copy, PartialEq, Eq, PartialOrd, Ord, Hash)]
pub enum Edition {
    /// Probe computations start where they are asked for.
    One,
    /// Larger limits, and each ask starts a probe computation for the asker.
    Two,
}

impl Edition {
    /// The number that stands for the edition in bytes and texts, 1 or 2.
    pub const fn number(self) -> u8
        ensures { result ≡ spec.number_of self }
    {
        match self {
            Edition::One => 1,
            Edition::Two => 2,
        }
    }

    /// The edition of a number.
    pub const fn of_number(number: u8) -> Option<Edition>
        ensures { MatchOption result ((edition : Edition) → number ≢ spec.number_of edition)
            (λ edition. number ≡ spec.number_of edition) }
    {
        match number {
            1 => Some(Edition::One),
            2 => Some(Edition::Two),
            _ => None,
        }
    }

    /// How many sites a topology may have.
    pub const fn site_limit(self) -> usize
        ensures { result ≡ spec.site_limit self }
    {
        match self {
            Edition::One => 16,
            Edition::Two => 64,
        }
    }

    /// How many processes a topology may have.
    pub const fn process_limit(self) -> usize
        ensures { result ≡ spec.process_limit self }
    {
        match self {
            Edition::One => 256,
            Edition::Two => 1024,
        }
    }

    /// How many processes a site may have.
    pub const fn member_limit(self) -> usize
        ensures { result ≡ spec.member_limit self }
    {
        match self {
            Edition::One => 32,
            Edition::Two => 64,
        }
    }

    /// How many processes an ask may name.
    pub const fn target_limit(self) -> usize
        ensures { result ≡ spec.target_limit self }
    {
        match self {
            Edition::One => 16,
            Edition::Two => 32,
        }
    }

    /// Whether an ask starts a probe computation for the asker.
    pub const fn starts_at_ask(self) -> bool
        ensures { result ≡ spec.starts_at_ask self }
    {
        match self {
            Edition::One => false,
            Edition::Two => true,
        }
    }
}

impl fmt::Display for Edition {
    ghost output = { λ e. Some (decimal (spec.number_of e)) };

    fn fmt<W: fmt::Write>(&self, f: &mut fmt::Formatter<W>) -> fmt::Result {
        write!(f, "{}", self.number())
    }
}
