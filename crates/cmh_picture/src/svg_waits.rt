//! The marks of waits as SVG.

use crate::label::SiteText;
use crate::layout::{home_height, home_point, process_point};
use crate::scene::Scene;
use crate::svg::add_label;
use cmh_draw::{EntrySpot, Process, Site, Wait};
use std::alloc::AllocError;
use std::fmt;

/// A box round the processes of a site.
pub fn add_home(home: Site, text: &mut String) -> Result<(), AllocError> {
    let corner = home_point(home.place);
    let x = corner.x;
    let y = corner.y;
    let height = home_height(home.length);
    write!(
        text,
        "<rect x='{x}' y='{y}' width='170' height='{height}' rx='10'/>"
    )?;
    add_label(
        text,
        "name",
        corner.moved(0, -8),
        SiteText { site: home.site },
    )
}

/// Where a site stops.
pub fn add_halt(stop: EntrySpot, text: &mut String) -> Result<(), AllocError> {
    let number = stop.number;
    let place = home_point(stop.spot.row).moved(60, -8);
    add_label(text, "who", place, HaltText { number })
}

#[derive(Clone, Copy)]
struct HaltText {
    number: usize,
}

impl fmt::Display for HaltText {
    fn fmt<W: fmt::Write>(&self, f: &mut fmt::Formatter<W>) -> fmt::Result {
        let number = self.number;
        write!(f, "stops at entry {number}")
    }
}

const OCTAGON: &str = "m-9 -21h18l12 12v18l-12 12h-18l-12 -12v-18z";

const CIRCLE: &str = "m-20 0a20 20 0 1 0 40 0a20 20 0 1 0 -40 0";

/// A declared process is an octagon, any other one a circle.
pub fn add_process(process: Process, text: &mut String) -> Result<(), AllocError> {
    let shape = if process.is_declared { OCTAGON } else { CIRCLE };
    add_shape(process, shape, text)
}

/// One whose cycle was left is an octagon too.
pub fn add_released(process: Process, text: &mut String) -> Result<(), AllocError> {
    add_shape(process, OCTAGON, text)
}

fn add_shape(process: Process, shape: &str, text: &mut String) -> Result<(), AllocError> {
    let at = process_point(process.spot);
    write!(text, "<path d='M{at}{shape}'/>")?;
    add_label(text, "middle", at.moved(0, 4), process.process)
}

/// A curve from the process that asks.
pub fn add_wait(scene: Scene<'_>, wait: Wait, text: &mut String) -> Result<(), AllocError> {
    let curve = scene.curve(process_point(wait.from), process_point(wait.to));
    let curve = curve.cut(29);
    write!(text, "<path d='{curve}'/>")
}

/// A curve from the process that gave up, with a cross on its middle.
pub fn add_leaving(scene: Scene<'_>, wait: Wait, text: &mut String) -> Result<(), AllocError> {
    let curve = scene.curve(process_point(wait.from), process_point(wait.to));
    let at = curve.middle();
    let curve = curve.cut(29);
    write!(text, "<path d='{curve}'/>")?;
    write!(
        text,
        "<path class='cross' d='M{at}m-7 -7l14 14m0 -14l-14 14'/>"
    )
}
