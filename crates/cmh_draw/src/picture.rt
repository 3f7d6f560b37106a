//! A picture, and of what it is.

ghost use Rattle.cmh_draw.specs.Kinds.{IsKindOf};

use crate::mark::Mark;
use std::str::FromStr;

/// What a picture is of.
#[derive(Clone, Copy)]
pub enum Kind {
    /// Who waits for whom at the end.
    Waits,
    /// The run as a space-time diagram.
    Run,
}

/// The word names no kind of picture.
#[derive(Clone, Copy)]
pub struct NoKind;

/// The words of a command line: `waits` and `run`.
impl FromStr for Kind {
    type Err = NoKind;

    ghost from_str_gives = { IsKindOf };

    fn from_str(word: &str) -> Result<Kind, NoKind> {
        match word {
            "waits" => Ok(Kind::Waits),
            "run" => Ok(Kind::Run),
            _ => Err(NoKind),
        }
    }
}

/// What is drawn, and how many columns and rows it takes.
#[derive(Drop)]
pub struct Picture {
    pub kind: Kind,
    /// Whether processes may withdraw, as in edition 3: then the legend says how that looks.
    pub may_withdraw: bool,
    pub columns: u32,
    pub rows: u32,
    pub marks: Vec<Mark>,
}
