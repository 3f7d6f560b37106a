//! The marks of a run as SVG. Arrows leave an entry to its right, so all labels of an entry but its number stand on its
//! left.

use crate::label::{OpenText, SiteText, StepText, StopText};
use crate::layout::{Layout, place_of};
use crate::look::{Look, look_of, word_of};
use crate::point::Point;
use crate::scene::Scene;
use crate::svg::add_label;
use crate::words::{DeclaredText, FrameText, got_of};
use cmh_draw::{Arrow, Declared, DrawnEvent, DrawnFrame, EntryMark, EntrySpot, Site, Spot};
use cmh_frames::SiteId;
use std::alloc::AllocError;
use std::fmt;

/// How long, in points, a line is at most whose site is named at its beginning alone.
const SHORT: i32 = 5000;

/// How far apart, in points, the names along a longer line are, but for the columns: one of them is seen on most screens.
const NAMES_APART: i32 = 1200;

/// A line from the left to the right, with the site's name at its beginning; along a long one again and again.
pub fn add_line(scene: Scene<'_>, line: Site, text: &mut String) -> Result<(), AllocError> {
    let site = line.site;
    let row = line.place;
    let end = scene.line_end(line);
    let x = end.x;
    let y = end.y;
    write!(text, "<path d='M80 {y}H{x}'/>")?;
    add_name(text, site, Point { x: 20, y })?;
    if x > SHORT {
        add_names(scene, site, row, text)?;
    }
    Ok(())
}

/// The names along the line in a row, each on the right of an entry, where no label is.
fn add_names(
    scene: Scene<'_>,
    site: SiteId,
    row: u32,
    text: &mut String,
) -> Result<(), AllocError> {
    let first = scene.first_column();
    let apart = (NAMES_APART / scene.layout.column.max(1)).max(1) as u32;
    let columns = scene.picture.columns.saturating_sub(first);
    for number in 1..=columns.saturating_sub(1) / apart {
        let column = first.saturating_add(number.saturating_mul(apart));
        let at = scene.layout.point(Spot { column, row });
        add_name(text, site, at.moved(14, 0))?;
    }
    Ok(())
}

fn add_name(text: &mut String, site: SiteId, at: Point) -> Result<(), AllocError> {
    add_label(text, "name", at.moved(0, 4), SiteText { site })
}

/// A disk where a process did something, a diamond where it withdrew, a square where a frame came, an octagon where one
/// was declared, with the entry's number in it.
pub fn add_entry(scene: Scene<'_>, entry: &EntryMark, text: &mut String) -> Result<(), AllocError> {
    let at = scene.layout.point(entry.at.spot);
    let shape = match look_of(entry) {
        Look::Act => "m-10 0a10 10 0 1 0 20 0a10 10 0 1 0 -20 0",
        Look::Got => "m-9 -9h18v18h-18z",
        Look::Declared | Look::Over => "m-5 -12h10l7 7v10l-7 7h-10l-7 -7v-10z",
        Look::Withdraw => "m0 -14l14 14l-14 14l-14 -14z",
    };
    write!(text, "<path d='M{at}{shape}'/>")?;
    add_label(text, "number", at.moved(0, 3), entry.at.number)?;
    match got_of(&entry.event) {
        Some((from, frame)) => {
            let is_from_below = is_below(scene, from, entry.at);
            add_got(at, is_from_below, frame, entry.declared, text)
        }
        None => add_step(at, &entry.event, entry.declared, text),
    }
}

/// Whether the line of a site is below that of an entry, or the same.
pub fn is_below(scene: Scene<'_>, site: SiteId, at: EntrySpot) -> bool {
    match scene.row_of(site) {
        Some(row) => row >= at.spot.row,
        None => false,
    }
}

/// What a process did, climbing away to the left, and who was declared then.
fn add_step(
    at: Point,
    event: &DrawnEvent,
    declared: Option<Declared>,
    text: &mut String,
) -> Result<(), AllocError> {
    add_slanted(text, "step", at.moved(-8, -14), StepText { event })?;
    match declared {
        Some(declared) => add_slanted(
            text,
            "step who",
            at.moved(-2, -27),
            DeclaredText { declared },
        ),
        None => Ok(()),
    }
}

fn add_slanted<T: fmt::Display + Drop>(
    text: &mut String,
    class: &str,
    at: Point,
    words: T,
) -> Result<(), AllocError> {
    let x = at.x;
    let y = at.y;
    write!(
        text,
        "<text class='{class}' x='{x}' y='{y}' transform='rotate(25 {at})'>{words}</text>"
    )
}

/// What came, on the side that its arrow does not come from, and who was declared then.
fn add_got(
    at: Point,
    is_from_below: bool,
    frame: DrawnFrame,
    declared: Option<Declared>,
    text: &mut String,
) -> Result<(), AllocError> {
    let place = if is_from_below {
        at.moved(-13, -7)
    } else {
        at.moved(-13, 17)
    };
    let words = FrameText { frame };
    add_label(text, word_of(words.frame), place, words)?;
    let further = if is_from_below { -14 } else { 14 };
    match declared {
        Some(declared) => add_label(
            text,
            "who",
            place.moved(0, further),
            DeclaredText { declared },
        ),
        None => Ok(()),
    }
}

/// An arrow to the entry that got the frame; a short one with an open end, and its label, under the entry where none did.
pub fn add_arrow(layout: Layout, arrow: &Arrow, text: &mut String) -> Result<(), AllocError> {
    match arrow.got {
        Some(got) => add_way(way_of(layout, arrow, &got), text),
        None => add_open(layout, arrow, text),
    }
}

fn add_open(layout: Layout, arrow: &Arrow, text: &mut String) -> Result<(), AllocError> {
    let start = layout.point(arrow.from.spot);
    let corner = start.moved(-9, 9);
    let end = start
        .moved(-13, 42)
        .moved(0, place_of(arrow).saturating_mul(13));
    write!(text, "<path d='M{corner}L{end}'/>")?;
    let words = OpenText {
        frame: arrow.frame,
        to: arrow.to,
    };
    add_label(text, word_of(arrow.frame), end.moved(-8, 4), words)
}

/// The way of a frame: steeply off its line, where the labels are, straight past the lines between, on the right of the
/// entry that sent it, across between two lines, and steeply to its end.
#[derive(Clone, Copy)]
pub struct Way {
    pub start: Point,
    pub off: Point,
    /// Where it has passed the lines between, if there are some.
    pub past: Option<Point>,
    pub near: Point,
    pub end: Point,
}

/// The way of a frame to the entry that got it. Frames from one entry, and those that pass its column from other lines,
/// keep apart.
pub fn way_of(layout: Layout, arrow: &Arrow, got: &EntrySpot) -> Way {
    let start = layout.point(arrow.from.spot);
    let end = layout.point(got.spot);
    let lane = (arrow.place % 7 + arrow.from.spot.row as usize * 2) % 7;
    let aside = lane as i32 * 4 + 26;
    let (up, down) = (0i32.saturating_sub(layout.up), layout.down);
    let back = 0i32.saturating_sub(layout.row);
    let sheer = if layout.has_open_ends { -2 } else { -26 };
    if start.y < end.y {
        let past = end.moved(0, back).moved(0, down);
        Way {
            start,
            off: start.moved(aside, down),
            past: past_if(
                start.y.saturating_add(layout.row) < end.y,
                start.moved(aside, 0),
                past,
            ),
            near: end.moved(-26, up),
            end: end.moved(-9, -13),
        }
    } else {
        let past = end.moved(0, layout.row).moved(0, up);
        Way {
            start,
            off: start.moved(aside, up),
            past: past_if(
                end.y.saturating_add(layout.row) < start.y,
                start.moved(aside, 0),
                past,
            ),
            near: end.moved(sheer, down),
            end: end.moved(sheer / 3, 13),
        }
    }
}

/// The point in this column and in this row, if the way passes lines.
fn past_if(passes: bool, column: Point, row: Point) -> Option<Point> {
    if passes {
        Some(Point {
            x: column.x,
            y: row.y,
        })
    } else {
        None
    }
}

fn add_way(way: Way, text: &mut String) -> Result<(), AllocError> {
    let start = way.start;
    let off = way.off;
    write!(text, "<path d='M{start}L{off}")?;
    if let Some(past) = way.past {
        write!(text, "L{past}")?;
    }
    let near = way.near;
    let end = way.end;
    write!(text, "L{near}L{end}'/>")
}

/// A cross over an entry that can't be taken.
pub fn add_stop(layout: Layout, stop: EntrySpot, text: &mut String) -> Result<(), AllocError> {
    let at = layout.point(stop.spot);
    write!(text, "<path d='M{at}m-11 -11l22 22m0 -22l-22 22'/>")?;
    let number = stop.number;
    add_label(text, "who", at.moved(18, 4), StopText { number })
}
