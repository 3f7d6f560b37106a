//! What becomes of a probe that comes to a process.

ghost use Rattle.std.specs.Prelude.{Some};
ghost use Rattle.cmh_page.specs.Moments.{fate_word};

use std::fmt;

/// What becomes of a probe that comes to a process. The first reason for which it is ignored counts.
#[derive(Clone, Copy)]
pub enum Fate {
    /// The process comes to know that the probe's origin depends on it.
    Acts,
    /// The process waits for nobody.
    Active,
    /// The process owes the sender nothing any more.
    Answered,
    /// The process is known to have the origin among its dependents.
    Known,
}

impl fmt::Display for Fate {
    ghost output = { λ fate. Some (fate_word fate) };

    fn fmt<W: fmt::Write>(&self, f: &mut fmt::Formatter<W>) -> fmt::Result {
        match self {
            Fate::Acts => write!(f, "acts"),
            Fate::Active => write!(f, "ignored active"),
            Fate::Answered => write!(f, "ignored answered"),
            Fate::Known => write!(f, "ignored known"),
        }
    }
}
