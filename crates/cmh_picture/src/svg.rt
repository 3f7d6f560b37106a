//! Marks as SVG.

use crate::look::{Look, look_of, open_word_of, word_of};
use crate::point::Point;
use crate::scene::Scene;
use crate::style::{RUN_LEGEND, RUN_MORE, STYLE, WAITS_LEGEND, WAITS_MORE};
use crate::svg_run::{add_arrow, add_entry, add_line, add_stop};
use crate::svg_waits::{add_halt, add_home, add_leaving, add_process, add_released, add_wait};
use cmh_draw::{Kind, Mark};
use std::alloc::{AllocError, Global};
use std::fmt;

/// What stands before the marks, but for the first words.
pub fn head_of(alloc: Global, scene: Scene<'_>) -> Result<String, AllocError> {
    let end = scene.end();
    let width = end.x;
    let height = end.y;
    let legend = match scene.picture.kind {
        Kind::Waits => WAITS_LEGEND,
        Kind::Run => RUN_LEGEND,
    };
    let more = match scene.picture.kind {
        _ if !scene.picture.may_withdraw => "",
        Kind::Waits => WAITS_MORE,
        Kind::Run => RUN_MORE,
    };
    format!(in alloc;
        "width='{width}' height='{height}' viewBox='0 0 {width} {height}'>\n{STYLE}{legend}{more}"
    )
}

/// The class of a mark's group.
pub fn class_of(mark: &Mark) -> &'static str {
    match mark {
        Mark::Site(_) => "site",
        Mark::Process(process) if process.is_declared => "process declared",
        Mark::Process(_) => "process",
        Mark::Wait(wait) if wait.is_on_cycle => "cycle",
        Mark::Wait(_) => "wait",
        Mark::Released(_) => "process over",
        Mark::Leaving(_) => "leaving",
        Mark::Entry(entry) => match look_of(entry) {
            Look::Act => "act",
            Look::Got => "got",
            Look::Declared => "declared",
            Look::Over => "declared over",
            Look::Withdraw => "withdrawal",
        },
        Mark::Arrow(arrow) if arrow.got.is_some() => word_of(arrow.frame),
        Mark::Arrow(arrow) => open_word_of(arrow.frame),
        Mark::Stop(_) => "stop",
    }
}

/// The shapes and labels of a mark.
pub fn shape_of(alloc: Global, scene: Scene<'_>, mark: &Mark) -> Result<String, AllocError> {
    let mut text = String::new(alloc);
    match mark {
        Mark::Site(site) => match scene.picture.kind {
            Kind::Waits => add_home(*site, &mut text)?,
            Kind::Run => add_line(scene, *site, &mut text)?,
        },
        Mark::Process(process) => add_process(*process, &mut text)?,
        Mark::Wait(wait) => add_wait(scene, *wait, &mut text)?,
        Mark::Released(process) => add_released(*process, &mut text)?,
        Mark::Leaving(wait) => add_leaving(scene, *wait, &mut text)?,
        Mark::Entry(entry) => add_entry(scene, entry, &mut text)?,
        Mark::Arrow(arrow) => add_arrow(scene.layout, arrow, &mut text)?,
        Mark::Stop(stop) => match scene.picture.kind {
            Kind::Waits => add_halt(*stop, &mut text)?,
            Kind::Run => add_stop(scene.layout, *stop, &mut text)?,
        },
    }
    Ok(text)
}

/// Adds a label. Its class says on which side of its point it stands, and its colour.
pub fn add_label<T: fmt::Display + Drop>(
    text: &mut String,
    class: &str,
    at: Point,
    words: T,
) -> Result<(), AllocError> {
    let x = at.x;
    let y = at.y;
    write!(text, "<text class='{class}' x='{x}' y='{y}'>{words}</text>")
}
