//! Marks as text for Graphviz. Labels are nodes of their own with a white ground: in runs Graphviz draws edges first, so
//! that no arrow lies on a label.

use crate::label::{OpenText, SiteText, StepText, StopText};
use crate::layout::{Layout, length_of, place_of};
use crate::look::{FrameLook, Look, look_of, look_of_frame};
use crate::point::Point;
use crate::scene::Scene;
use crate::svg_run::{is_below, way_of};
use crate::words::{DeclaredText, FrameText, got_of};
use cmh_draw::{Arrow, DrawnFrame, EntryMark, EntrySpot, Kind, Mark, Process, Site, Wait};
use std::alloc::{AllocError, Global};
use std::fmt;

/// What stands before the marks, but for the first words.
pub fn head_of(alloc: Global, kind: Kind) -> Result<String, AllocError> {
    match kind {
        Kind::Waits => String::from_str(alloc, WAITS_HEAD),
        Kind::Run => String::from_str(alloc, RUN_HEAD),
    }
}

const WAITS_HEAD: &str = "\
waits {
rankdir=LR
fontname=Helvetica
node [style=filled, fontname=Helvetica]
";

const RUN_HEAD: &str = "\
run {
layout=neato
inputscale=72
outputorder=edgesfirst
fontname=Helvetica
fontsize=10
label=\"an arrow with an open end: nobody got the frame, which is lost or waiting\"
node [style=filled, fontname=Helvetica, fontsize=10, height=0.28, width=0.28]
";

/// The nodes and edges of a mark.
pub fn shape_of(alloc: Global, scene: Scene<'_>, mark: &Mark) -> Result<String, AllocError> {
    let mut text = String::new(alloc);
    match mark {
        Mark::Site(site) => match scene.picture.kind {
            Kind::Waits => add_home(*site, &mut text)?,
            Kind::Run => add_line(scene, *site, &mut text)?,
        },
        Mark::Process(process) => add_process(*process, &mut text)?,
        Mark::Wait(wait) => add_wait(*wait, &mut text)?,
        Mark::Released(process) => add_released(*process, &mut text)?,
        Mark::Leaving(wait) => add_leaving(*wait, &mut text)?,
        Mark::Entry(entry) => add_entry(alloc, scene, entry, &mut text)?,
        Mark::Arrow(arrow) => add_arrow(alloc, scene, arrow, &mut text)?,
        Mark::Stop(stop) => match scene.picture.kind {
            Kind::Waits => add_halt(*stop, &mut text)?,
            Kind::Run => add_stop(alloc, scene, *stop, &mut text)?,
        },
    }
    Ok(text)
}

// ---- waits

fn add_home(home: Site, text: &mut String) -> Result<(), AllocError> {
    let site = home.site;
    write!(
        text,
        "subgraph cluster_{site} {{ label=\"site {site}\" }}\n"
    )
}

fn add_halt(stop: EntrySpot, text: &mut String) -> Result<(), AllocError> {
    let site = stop.site;
    let number = stop.number;
    write!(
        text,
        "subgraph cluster_{site} {{ label=\"site {site} stops at entry {number}\" }}\n"
    )
}

fn add_process(of: Process, text: &mut String) -> Result<(), AllocError> {
    let look = if of.is_declared {
        "shape=doubleoctagon, fillcolor=\"#E69F00\""
    } else {
        "shape=circle, fillcolor=white"
    };
    add_member(of, look, text)
}

fn add_released(of: Process, text: &mut String) -> Result<(), AllocError> {
    add_member(of, OVER, text)
}

/// How one looks who was declared, and that is over.
const OVER: &str = "shape=octagon, color=\"#D55E00\", fillcolor=white";

fn add_member(of: Process, look: &str, text: &mut String) -> Result<(), AllocError> {
    let site = of.site;
    let process = of.process;
    write!(
        text,
        "subgraph cluster_{site} {{ p{process} [label={process}, {look}] }}\n"
    )
}

fn add_wait(wait: Wait, text: &mut String) -> Result<(), AllocError> {
    let asker = wait.asker;
    let holder = wait.holder;
    let look = if wait.is_on_cycle {
        "color=\"#D55E00\", penwidth=4"
    } else {
        "style=dashed"
    };
    write!(text, "p{asker} -> p{holder} [{look}]\n")
}

fn add_leaving(wait: Wait, text: &mut String) -> Result<(), AllocError> {
    let asker = wait.asker;
    let holder = wait.holder;
    write!(
        text,
        "p{asker} -> p{holder} [color=\"#CC79A7\", style=dotted, arrowhead=odot, label=\"gave it up\"]\n"
    )
}

// ---- a run

/// A line from the name of a site to the right.
fn add_line(scene: Scene<'_>, line: Site, text: &mut String) -> Result<(), AllocError> {
    let site = line.site;
    let right = scene.line_end(line);
    let end = Position { at: right };
    let left = Position {
        at: Point { x: 40, y: right.y },
    };
    let name = SiteText { site };
    write!(
        text,
        "s{site} [label=\"{name}\", shape=plaintext, style=\"\", {left}]\n"
    )?;
    write!(text, "s{site}_end [shape=point, width=0.05, {end}]\n")?;
    write!(
        text,
        "s{site} -> s{site}_end [arrowhead=none, color=gray]\n"
    )
}

/// A node with the number of the entry, and one with its labels.
fn add_entry(
    alloc: Global,
    scene: Scene<'_>,
    entry: &EntryMark,
    text: &mut String,
) -> Result<(), AllocError> {
    let at = scene.layout.point(entry.at.spot);
    let node = Node { at: entry.at };
    let number = entry.at.number;
    let position = Position { at };
    let look = match look_of(entry) {
        Look::Act => "shape=circle, fillcolor=\"#56B4E9\"",
        Look::Got => "shape=box, fillcolor=white",
        Look::Declared => "shape=doubleoctagon, fillcolor=\"#E69F00\"",
        Look::Over => OVER,
        Look::Withdraw => "shape=diamond, fillcolor=\"#CC79A7\", height=0.4, width=0.4",
    };
    write!(
        text,
        "{node} [label={number}, fixedsize=true, {position}, {look}]\n"
    )?;
    let side = Side::of(scene, entry);
    match got_of(&entry.event) {
        Some((_, frame)) => {
            let words = FrameText { frame };
            let length = length_of(alloc, &words)?;
            add_label(text, node, "got", left_of(at, length, side.near), words)?;
        }
        None => {
            let words = StepText {
                event: &entry.event,
            };
            let length = length_of(alloc, &words)?;
            add_label(text, node, "step", left_of(at, length, side.near), words)?;
        }
    }
    add_declared(alloc, entry, at, side.far, text)
}

/// The side of an entry on which its labels stand, by how far down they are.
#[derive(Clone, Copy)]
struct Side {
    /// The label of what happened.
    near: i32,
    /// The label of who was declared then.
    far: i32,
}

impl Side {
    const OVER: Side = Side {
        near: -17,
        far: -31,
    };

    const UNDER: Side = Side { near: 17, far: 31 };

    /// The side from which no arrow comes: over the entry, but under it where it got a frame from above.
    fn of(scene: Scene<'_>, entry: &EntryMark) -> Side {
        match got_of(&entry.event) {
            Some((from, _)) if !is_below(scene, from, entry.at) => Side::UNDER,
            _ => Side::OVER,
        }
    }
}

fn add_declared(
    alloc: Global,
    entry: &EntryMark,
    at: Point,
    down: i32,
    text: &mut String,
) -> Result<(), AllocError> {
    match entry.declared {
        Some(declared) => {
            let words = DeclaredText { declared };
            let length = length_of(alloc, &words)?;
            let node = Node { at: entry.at };
            add_label(text, node, "who", left_of(at, length, down), words)
        }
        None => Ok(()),
    }
}

/// The middle of a label of so many characters that ends on the left of a point.
fn left_of(at: Point, length: i32, down: i32) -> Point {
    let half = length.saturating_mul(27) / 10;
    at.moved(-14, down).moved(0i32.saturating_sub(half), 0)
}

/// The middle of a label of so many characters that begins on the right of a point.
fn right_of(at: Point, length: i32, down: i32) -> Point {
    let half = length.saturating_mul(27) / 10;
    at.moved(16, down).moved(half, 0)
}

/// How the node of a label looks.
const LABEL: &str = "shape=plaintext, fillcolor=white, width=0, height=0, margin=0";

/// A node for a label, named after that of its entry.
fn add_label<T: fmt::Display + Drop>(
    text: &mut String,
    node: Node,
    name: &str,
    at: Point,
    words: T,
) -> Result<(), AllocError> {
    let position = Position { at };
    write!(
        text,
        "{node}_{name} [label=\"{words}\", {LABEL}, {position}]\n"
    )
}

/// An edge to the entry that got the frame; to a label under the entry where none did.
fn add_arrow(
    alloc: Global,
    scene: Scene<'_>,
    arrow: &Arrow,
    text: &mut String,
) -> Result<(), AllocError> {
    match arrow.got {
        Some(got) => add_way(scene, arrow, &got, text),
        None => add_open(alloc, scene, arrow, text),
    }
}

fn pen_of(frame: DrawnFrame) -> &'static str {
    match look_of_frame(frame) {
        FrameLook::Request => "color=\"#0072B2\", style=solid, penwidth=1.5",
        FrameLook::Reply => "color=\"#009E73\", style=dashed, penwidth=1.5",
        FrameLook::Probe => "color=\"#D55E00\", style=dotted, penwidth=1.5",
        FrameLook::Withdraw => "color=\"#CC79A7\", style=dashed, penwidth=3",
    }
}

fn add_open(
    alloc: Global,
    scene: Scene<'_>,
    arrow: &Arrow,
    text: &mut String,
) -> Result<(), AllocError> {
    let words = OpenText {
        frame: arrow.frame,
        to: arrow.to,
    };
    let length = length_of(alloc, &words)?;
    let at = scene.layout.point(arrow.from.spot);
    let at = left_of(at, length, 42).moved(0, place_of(arrow).saturating_mul(13));
    let node = Node { at: arrow.from };
    let position = Position { at };
    let look = pen_of(arrow.frame);
    let place = arrow.place;
    write!(
        text,
        "{node}_{place} [label=\"{words}\", {LABEL}, {position}]\n"
    )?;
    write!(
        text,
        "{node}:sw -> {node}_{place}:e [arrowhead=odot, {look}]\n"
    )
}

/// An edge to the entry that got the frame.
fn add_way(
    scene: Scene<'_>,
    arrow: &Arrow,
    got: &EntrySpot,
    text: &mut String,
) -> Result<(), AllocError> {
    add_hidden(scene, &arrow.from, text)?;
    add_hidden(scene, got, text)?;
    let arrow = Arrow {
        from: scene.end_of(arrow.from),
        place: arrow.place,
        to: arrow.to,
        frame: arrow.frame,
        got: arrow.got,
    };
    add_edge(scene.layout, &arrow, &scene.end_of(*got), text)
}

/// A node that is not seen, where an edge begins or ends whose entry is not drawn.
fn add_hidden(scene: Scene<'_>, at: &EntrySpot, text: &mut String) -> Result<(), AllocError> {
    let Some(edge) = scene.edge_of(*at) else {
        return Ok(());
    };
    let at = scene.layout.point(edge.spot);
    let node = Node { at: edge };
    let position = Position { at };
    write!(
        text,
        "{node} [shape=point, width=0.02, style=invis, {position}]\n"
    )
}

/// An edge, by two points of its own where it passes the lines of other sites: there it stays away from their entries.
fn add_edge(
    layout: Layout,
    arrow: &Arrow,
    got: &EntrySpot,
    text: &mut String,
) -> Result<(), AllocError> {
    let look = pen_of(arrow.frame);
    let from = Node { at: arrow.from };
    let way = way_of(layout, arrow, got);
    let got = Node { at: *got };
    let Some(past) = way.past else {
        return write!(text, "{from} -> {got} [{look}]\n");
    };
    let place = arrow.place;
    let off = Position { at: way.off };
    let past = Position { at: past };
    write!(
        text,
        "{from}_{place}_a [shape=point, width=0.02, style=invis, {off}]\n"
    )?;
    write!(
        text,
        "{from}_{place}_b [shape=point, width=0.02, style=invis, {past}]\n"
    )?;
    write!(
        text,
        "{from} -> {from}_{place}_a -> {from}_{place}_b [arrowhead=none, {look}]\n"
    )?;
    write!(text, "{from}_{place}_b -> {got} [{look}]\n")
}

/// The entry's node gets a frame, and a label on its line.
fn add_stop(
    alloc: Global,
    scene: Scene<'_>,
    stop: EntrySpot,
    text: &mut String,
) -> Result<(), AllocError> {
    let number = stop.number;
    let at = scene.layout.point(stop.spot);
    let node = Node { at: stop };
    let words = StopText { number };
    let length = length_of(alloc, &words)?;
    write!(text, "{node} [shape=Msquare, height=0.36, width=0.36]\n")?;
    add_label(text, node, "stop", right_of(at, length, 0), words)
}

/// The name of an entry's node.
#[derive(Clone, Copy)]
struct Node {
    at: EntrySpot,
}

impl fmt::Display for Node {
    fn fmt<W: fmt::Write>(&self, f: &mut fmt::Formatter<W>) -> fmt::Result {
        let site = self.at.site;
        let number = self.at.number;
        write!(f, "s{site}_{number}")
    }
}

/// Where a node stands.
#[derive(Clone, Copy)]
struct Position {
    at: Point,
}

impl fmt::Display for Position {
    fn fmt<W: fmt::Write>(&self, f: &mut fmt::Formatter<W>) -> fmt::Result {
        let x = self.at.x;
        let y = self.at.y;
        write!(f, "pos=\"{x},-{y}!\"")
    }
}
