//! Where a picture has its columns and rows.

use crate::format::Format;
use crate::label::StepText;
use crate::part::Part;
use crate::point::Point;
use crate::words::{DeclaredText, FrameText, got_of};
use cmh_draw::{Arrow, Declared, EntryMark, Mark, Spot};
use std::alloc::{AllocError, Global};
use std::fmt;

/// The places of a run, in points: its first entry, how far its columns and its rows are apart, and how far up and down
/// from its line the labels of a site's entries reach. The longest labels say how much room they need.
#[derive(Clone, Copy)]
pub struct Layout {
    pub left: i32,
    pub top: i32,
    pub column: i32,
    pub row: i32,
    pub up: i32,
    pub down: i32,
    pub has_open_ends: bool,
}

impl Layout {
    pub fn new(alloc: Global, format: Format, marks: &[Mark]) -> Result<Layout, AllocError> {
        let mut longest = Longest::NONE;
        for mark in marks {
            longest.add(alloc, mark)?;
        }
        Ok(longest.layout(format))
    }

    /// The places of a part, whose first column stands where that of the whole would.
    pub fn from_part(self, part: Option<Part>) -> Layout {
        match part {
            Some(part) => Layout {
                left: place(
                    self.left,
                    0i32.saturating_sub(self.column),
                    part.first.saturating_sub(1),
                ),
                ..self
            },
            None => self,
        }
    }

    pub fn point(self, spot: Spot) -> Point {
        Point {
            x: place(self.left, self.column, spot.column),
            y: place(self.top, self.row, spot.row),
        }
    }
}

fn place(first: i32, apart: i32, number: u32) -> i32 {
    let number = number.min(1_000_000) as i32;
    first.saturating_add(apart.saturating_mul(number))
}

/// How a picture of waits has its processes: every other one of a site is moved to the right, so that no three of them
/// stand in a line.
pub fn process_point(spot: Spot) -> Point {
    let corner = home_point(spot.column);
    if spot.row % 2 == 0 {
        corner.moved(48, place(74, 84, spot.row))
    } else {
        corner.moved(122, place(74, 84, spot.row))
    }
}

/// The upper left corner of a site's box in a picture of waits.
pub fn home_point(column: u32) -> Point {
    Point {
        x: place(40, 220, column),
        y: 76,
    }
}

/// How high the box of so many processes is.
pub fn home_height(members: u32) -> i32 {
    place(64, 84, members)
}

/// The lengths of the longest labels, in characters: of what processes did, of frames that came, and of frames that
/// nobody got. And the last place of one of these among the frames of its entry.
#[derive(Clone, Copy)]
struct Longest {
    step: i32,
    label: i32,
    open: i32,
    place: i32,
}

impl Longest {
    const NONE: Longest = Longest {
        step: 0,
        label: 0,
        open: 0,
        place: 0,
    };

    fn add(&mut self, alloc: Global, mark: &Mark) -> Result<(), AllocError> {
        match mark {
            Mark::Entry(entry) => {
                self.add_step(alloc, entry)?;
                self.add_declared(alloc, entry.declared)
            }
            Mark::Arrow(arrow) => self.add_arrow(alloc, arrow),
            _ => Ok(()),
        }
    }

    fn add_step(&mut self, alloc: Global, entry: &EntryMark) -> Result<(), AllocError> {
        if got_of(&entry.event).is_none() {
            let text = StepText {
                event: &entry.event,
            };
            self.step = self.step.max(length_of(alloc, &text)?);
        }
        Ok(())
    }

    /// With its stop a declaration may be longer than the labels of frames.
    fn add_declared(
        &mut self,
        alloc: Global,
        declared: Option<Declared>,
    ) -> Result<(), AllocError> {
        match declared {
            Some(declared) if declared.stop.is_some() => {
                let text = DeclaredText { declared };
                self.label = self.label.max(length_of(alloc, &text)?);
                Ok(())
            }
            _ => Ok(()),
        }
    }

    fn add_arrow(&mut self, alloc: Global, arrow: &Arrow) -> Result<(), AllocError> {
        let text = FrameText { frame: arrow.frame };
        let length = length_of(alloc, &text)?;
        if arrow.got.is_some() {
            self.label = self.label.max(length);
        } else {
            self.open = self.open.max(length.saturating_add(5));
            self.place = self.place.max(place_of(arrow));
        }
        Ok(())
    }

    fn layout(self, format: Format) -> Layout {
        let has_open_ends = self.open != 0;
        let label = match format {
            Format::Svg => self.label,
            Format::Dot => self.label.max(self.step),
        };
        let label = label.saturating_mul(6).saturating_add(36);
        let open = self.open.saturating_mul(11) / 2;
        let open = open.saturating_add(76);
        let up = self.step.saturating_mul(3).saturating_add(16).max(40);
        let down = if has_open_ends {
            self.place.saturating_mul(13).saturating_add(56)
        } else {
            40
        };
        Layout {
            left: self.step.saturating_mul(6).max(120),
            top: up.saturating_add(90),
            column: label.max(open).max(110),
            row: up.saturating_add(down).saturating_add(70),
            up,
            down,
            has_open_ends,
        }
    }
}

/// The place of a frame among those of its entry, at most 99.
pub fn place_of(arrow: &Arrow) -> i32 {
    arrow.place.min(99) as i32
}

/// How many characters a text has, at most 200.
pub fn length_of<T: fmt::Display>(alloc: Global, text: &T) -> Result<i32, AllocError> {
    let text = String::format(alloc, text)?;
    Ok(text.len().min(200) as i32)
}
