//! A point of a picture.

use std::fmt;

/// So many points from the left and from the upper edge. Sums saturate.
#[derive(Clone, Copy)]
pub struct Point {
    pub x: i32,
    pub y: i32,
}

impl Point {
    pub const fn moved(self, right: i32, down: i32) -> Point {
        Point {
            x: self.x.saturating_add(right),
            y: self.y.saturating_add(down),
        }
    }

    /// The point halfway to another.
    pub const fn midpoint(self, other: Point) -> Point {
        Point {
            x: self.x.midpoint(other.x),
            y: self.y.midpoint(other.y),
        }
    }
}

/// A point of a path.
impl fmt::Display for Point {
    fn fmt<W: fmt::Write>(&self, f: &mut fmt::Formatter<W>) -> fmt::Result {
        let x = self.x;
        let y = self.y;
        write!(f, "{x} {y}")
    }
}
