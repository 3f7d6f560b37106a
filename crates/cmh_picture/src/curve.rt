//! The curves of waits.

use crate::point::Point;
use std::fmt;

/// A quadratic curve from a point to another, drawn towards a third.
#[derive(Clone, Copy)]
pub struct Curve {
    start: Point,
    pull: Point,
    end: Point,
}

impl Curve {
    /// A curve that bends by so many parts of the way, of which it has 32: to the left where they are positive.
    pub fn new(start: Point, end: Point, bend: i32) -> Curve {
        let right = end.y.saturating_sub(start.y).saturating_mul(bend) / 32;
        let down = start.x.saturating_sub(end.x).saturating_mul(bend) / 32;
        Curve {
            start,
            pull: start.midpoint(end).moved(right, down),
            end,
        }
    }

    /// Whether it goes to the right, or straight down.
    pub fn goes_right(&self) -> bool {
        self.start.x < self.end.x || (self.start.x == self.end.x && self.start.y < self.end.y)
    }

    /// The point of the curve at half its time.
    pub fn middle(&self) -> Point {
        let first = self.start.midpoint(self.pull);
        let second = self.pull.midpoint(self.end);
        first.midpoint(second)
    }

    pub fn ends_at(&self, point: Point) -> bool {
        is_same(self.start, point) || is_same(self.end, point)
    }

    /// The halves of the curve, which are such curves too.
    pub fn halves(&self) -> (Curve, Curve) {
        let first = self.start.midpoint(self.pull);
        let second = self.pull.midpoint(self.end);
        let middle = first.midpoint(second);
        let left = Curve {
            start: self.start,
            pull: first,
            end: middle,
        };
        let right = Curve {
            start: middle,
            pull: second,
            end: self.end,
        };
        (left, right)
    }

    /// The curve up to a distance from its end.
    pub fn cut(&self, reach: i32) -> Curve {
        let mut rest = *self;
        let mut end = self.end;
        let mut part = 0i32;
        for step in [128, 64, 32, 16, 8, 4, 2, 1] {
            let (left, right) = rest.halves();
            if distance(right.start, self.end) > reach {
                end = right.start;
                part = part.saturating_add(step);
                rest = right;
            } else {
                rest = left;
            }
        }
        let right = self.pull.x.saturating_sub(self.start.x);
        let down = self.pull.y.saturating_sub(self.start.y);
        Curve {
            start: self.start,
            pull: self.start.moved(
                right.saturating_mul(part) / 256,
                down.saturating_mul(part) / 256,
            ),
            end,
        }
    }

    /// Whether the curve comes nearer to a point than the margin. It lies in the box round its three points, and so do
    /// its halves in theirs.
    pub fn passes(&self, point: Point, margin: i32, halvings: u32) -> bool {
        if !self.is_near(point, margin) {
            return false;
        }
        if halvings == 0 {
            return distance(self.start, point) < margin;
        }
        let (left, right) = self.halves();
        left.passes(point, margin, halvings - 1) || right.passes(point, margin, halvings - 1)
    }

    /// Whether the box round the three points comes nearer to a point than the margin.
    fn is_near(&self, point: Point, margin: i32) -> bool {
        let left = self.start.x.min(self.pull.x).min(self.end.x);
        let right = self.start.x.max(self.pull.x).max(self.end.x);
        let top = self.start.y.min(self.pull.y).min(self.end.y);
        let bottom = self.start.y.max(self.pull.y).max(self.end.y);
        let low = point.moved(margin, margin);
        left < low.x
            && top < low.y
            && point.x < right.saturating_add(margin)
            && point.y < bottom.saturating_add(margin)
    }
}

/// Nearly the distance of two points, without a square.
fn distance(a: Point, b: Point) -> i32 {
    let wide = a.x.saturating_sub(b.x).saturating_abs();
    let high = a.y.saturating_sub(b.y).saturating_abs();
    let near = wide.min(high) / 8;
    wide.max(high).saturating_add(near.saturating_mul(3))
}

fn is_same(a: Point, b: Point) -> bool {
    a.x == b.x && a.y == b.y
}

/// The path of a curve.
impl fmt::Display for Curve {
    fn fmt<W: fmt::Write>(&self, f: &mut fmt::Formatter<W>) -> fmt::Result {
        let start = self.start;
        let pull = self.pull;
        let end = self.end;
        write!(f, "M{start}Q{pull} {end}")
    }
}
