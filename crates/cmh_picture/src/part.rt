//! The part of a run that is drawn.

ghost use Rattle.std.specs.Prelude.{◌≡◌, Some};
ghost use Rattle.cmh_picture.specs.Parts as spec;

use cmh_draw::{Arrow, Mark, Picture, Spot};

/// The columns of a run that are drawn: from the first to the last, counted from 1.
#[derive(Clone, Copy)]
pub struct Part {
    pub first: u32,
    pub last: u32,
}

impl Part {
    /// Whether a spot is in one of the columns.
    pub fn has(self, spot: Spot) -> bool
        ensures { result ≡ spec.has self spot }
    {
        spot.column < self.last && self.first.saturating_sub(1) <= spot.column
    }

    /// Whether a mark is drawn: an entry or a stop in one of the columns, a frame that was sent or got in one, and what has
    /// no column of its own.
    fn shows(self, mark: &Mark) -> bool
        ensures { result ≡ spec.shows self mark.now }
    {
        match mark {
            Mark::Entry(entry) => self.has(entry.at.spot),
            Mark::Stop(at) => self.has(at.spot),
            Mark::Arrow(arrow) => self.has(arrow.from.spot) || self.has_end(arrow),
            _ => true,
        }
    }

    fn has_end(self, arrow: &Arrow) -> bool
        ensures { result ≡ spec.has_end self arrow.now }
    {
        match arrow.got {
            Some(got) => self.has(got.spot),
            None => false,
        }
    }

    /// The picture of these columns of a run.
    fn of(self, picture: Picture) -> Picture
        ensures { result.marks.items ≡ spec.marks_in (Some self) picture.marks.items }
    {
        let Picture {
            kind,
            may_withdraw,
            columns,
            rows,
            mut marks,
        } = picture;
        marks.retain(|mark| self.shows(mark));
        Picture {
            kind,
            may_withdraw,
            columns: columns.min(self.last),
            rows,
            marks,
        }
    }
}

/// The picture of a part of a run; the whole, where no part is asked for.
pub fn part_of(part: Option<Part>, picture: Picture) -> Picture
    ensures { result.marks.items ≡ spec.marks_in part picture.marks.items }
{
    match part {
        Some(part) => part.of(picture),
        None => picture,
    }
}
