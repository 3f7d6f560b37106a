//! What a mark's text must know of the other marks.

use crate::curve::Curve;
use crate::layout::{Layout, home_height, home_point, process_point};
use crate::part::Part;
use crate::point::Point;
use cmh_draw::{EntrySpot, Kind, Mark, Picture, Site, Spot};
use cmh_frames::SiteId;
use std::alloc::{AllocError, Global};

/// A picture, and where its marks stand.
#[derive(Clone, Copy)]
pub struct Scene<'a> {
    pub picture: &'a Picture,
    pub part: Option<Part>,
    pub layout: Layout,
    pub processes: &'a [Point],
}

impl<'a> Scene<'a> {
    /// The right and the lower edge.
    pub fn end(self) -> Point {
        let columns = self.picture.columns;
        let rows = self.picture.rows;
        let end = match self.picture.kind {
            Kind::Waits => home_point(columns)
                .moved(20, home_height(rows))
                .moved(0, 40),
            Kind::Run => self
                .layout
                .point(Spot {
                    column: columns,
                    row: rows,
                })
                .moved(20, 0)
                .moved(0, 0i32.saturating_sub(self.layout.up))
                .moved(0, -40),
        };
        Point {
            x: end.x.max(600),
            y: end.y,
        }
    }

    /// The first column of a run that is drawn, from 0.
    pub fn first_column(self) -> u32 {
        match self.part {
            Some(part) => part.first.saturating_sub(1),
            None => 0,
        }
    }

    /// The end of a site's line in a run.
    pub fn line_end(self, line: Site) -> Point {
        let end = self.layout.point(Spot {
            column: line.length.min(self.picture.columns),
            row: line.place,
        });
        Point {
            x: end.x.max(80),
            y: end.y,
        }
    }

    /// Where an arrow enters or leaves the part of a run that is drawn, if its entry is not drawn: next to that part.
    pub fn edge_of(self, at: EntrySpot) -> Option<EntrySpot> {
        let part = self.part?;
        if part.has(at.spot) {
            return None;
        }
        let column = if at.spot.column < part.last {
            part.first.saturating_sub(2)
        } else {
            part.last
        };
        Some(EntrySpot {
            spot: Spot {
                column,
                row: at.spot.row,
            },
            ..at
        })
    }

    /// Where an arrow begins or ends: at its entry, or next to the part that is drawn.
    pub fn end_of(self, at: EntrySpot) -> EntrySpot {
        let entry = at;
        self.edge_of(at).unwrap_or(entry)
    }

    /// The row of a site in a run, if it has a line.
    pub fn row_of(self, site: SiteId) -> Option<u32> {
        for mark in &self.picture.marks {
            match mark {
                Mark::Site(line) => {
                    if line.site == site {
                        return Some(line.place);
                    }
                }
                _ => return None,
            }
        }
        None
    }

    /// The curve of a wait: the first that passes no other process, with some room or with little. Where all bends do,
    /// and in a crowd, where nobody could follow it, it takes the first.
    pub fn curve(self, from: Point, to: Point) -> Curve {
        if self.processes.len() > CROWD {
            return Curve::new(from, to, 8);
        }
        let straight = Curve::new(from, to, 0);
        let apart = if straight.goes_right() { 0 } else { 2 };
        for margin in [30, 25] {
            for bend in BENDS {
                let curve = Curve::new(from, to, bend.saturating_add(apart));
                if self.is_free(&curve, margin) {
                    return curve;
                }
            }
        }
        Curve::new(from, to, 8)
    }

    /// Whether a point lies well within a picture of waits, below its legend.
    fn has(self, point: Point) -> bool {
        let low = point.moved(8, 8);
        let end = self.end();
        8 < point.x && 84 < point.y && low.x < end.x && low.y < end.y
    }

    /// Whether the curve stays in the picture, and so far from the middle of each process that is not at its ends.
    fn is_free(self, curve: &Curve, margin: i32) -> bool {
        let (left, right) = curve.halves();
        if !self.has(left.middle()) || !self.has(curve.middle()) || !self.has(right.middle()) {
            return false;
        }
        for process in self.processes {
            if !curve.ends_at(*process) && curve.passes(*process, margin, HALVINGS) {
                return false;
            }
        }
        true
    }
}

/// With more processes than these no bends are tried: each is compared with each process.
const CROWD: usize = 400;

/// The bends that are tried, those to the left first. They are multiples of four. A wait that goes to the left bends by
/// two more, so that two that go to and fro never meet.
const BENDS: [i32; 21] = [
    8, 12, 4, 16, 0, 20, -4, -8, 24, -12, 28, -16, 32, -20, 36, -24, 40, -28, 44, -32, 48,
];

/// How often a curve is halved: then a part of one as long as a picture is wide is shorter than a process.
const HALVINGS: u32 = 6;

/// Where the processes of a picture of waits stand.
pub fn processes_of(alloc: Global, marks: &[Mark]) -> Result<Vec<Point>, AllocError> {
    let mut points = Vec::new(alloc);
    for mark in marks {
        match mark {
            Mark::Process(process) | Mark::Released(process) => {
                points.push(process_point(process.spot))?;
            }
            _ => {}
        }
    }
    Ok(points)
}
