//! The text of a picture.

ghost use Rattle.std.specs.Prelude.{IfOk, OnOk, string_bytes};
ghost use Rattle.cmh_picture.specs.Inner.Adding.{AddsMark, IsMade};
ghost use Rattle.cmh_picture.specs.PictureTexts.{IsDrawn};
ghost use Rattle.cmh_picture.specs.declared.format.Format.TheVariants.{Dot, Svg};

use crate::format::Format;
use crate::layout::Layout;
use crate::name::MarkName;
use crate::part::Part;
use crate::scene::{Scene, processes_of};
use crate::{dot, svg};
use cmh_draw::{Mark, Picture};
use std::alloc::{AllocError, Global};

/// A picture as text: a head, the text of each mark, and a foot. An SVG is closed, and so is a graph.
///
/// Nothing in it has to be escaped: it is made of numbers and of words that stand here. What a mark's text says but its
/// name is shown by files that were looked at (`scripts/lessons/run`). The only error is out of memory.
pub fn picture_text(
    alloc: Global,
    format: Format,
    part: Option<Part>,
    picture: &Picture,
) -> Result<String, AllocError>
    ensures { IfOk result (λ text. IsDrawn format picture.now.marks.items (string_bytes text)) }
{
    let processes = processes_of(alloc, &picture.marks)?;
    let layout = Layout::new(alloc, format, &picture.marks)?.from_part(part);
    let scene = Scene {
        picture,
        part,
        layout,
        processes: &processes,
    };
    let text = text_of(alloc, format, picture, scene)?;
    Ok(text)
}

fn text_of(
    alloc: Global,
    format: Format,
    picture: &Picture,
    scene: Scene<'_>,
) -> Result<String, AllocError>
    ensures { IfOk result (λ text. IsMade format picture.now.marks.items (string_bytes text)) }
{
    match format {
        Format::Svg => svg_text(alloc, picture, scene),
        Format::Dot => dot_text(alloc, picture, scene),
    }
}

fn svg_text(alloc: Global, picture: &Picture, scene: Scene<'_>) -> Result<String, AllocError>
    ensures { IfOk result (λ text. IsMade Svg picture.now.marks.items (string_bytes text)) }
{
    let head = svg::head_of(alloc, scene)?;
    let mut text = format!(in alloc; "<svg xmlns='http://www.w3.org/2000/svg' {head}")?;
    for mark in &picture.marks {
        add_svg(alloc, scene, mark, &mut text)?;
    }
    text.push_str("</svg>\n")?;
    Ok(text)
}

fn add_svg(
    alloc: Global,
    scene: Scene<'_>,
    mark: &Mark,
    text: &mut String,
) -> Result<(), AllocError>
    ensures { OnOk result (AddsMark mark.now (string_bytes text.old) (string_bytes text.new)) }
{
    let class = svg::class_of(mark);
    let shape = svg::shape_of(alloc, scene, mark)?;
    let name = MarkName { mark };
    write!(
        text,
        "<g class='{class}'><title>{name}</title>{shape}</g>\n"
    )?;
    Ok(())
}

fn dot_text(alloc: Global, picture: &Picture, scene: Scene<'_>) -> Result<String, AllocError>
    ensures { IfOk result (λ text. IsMade Dot picture.now.marks.items (string_bytes text)) }
{
    let head = dot::head_of(alloc, picture.kind)?;
    let mut text = format!(in alloc; "digraph {head}")?;
    for mark in &picture.marks {
        add_dot(alloc, scene, mark, &mut text)?;
    }
    text.push_str("}\n")?;
    Ok(text)
}

fn add_dot(
    alloc: Global,
    scene: Scene<'_>,
    mark: &Mark,
    text: &mut String,
) -> Result<(), AllocError>
    ensures { OnOk result (AddsMark mark.now (string_bytes text.old) (string_bytes text.new)) }
{
    let shape = dot::shape_of(alloc, scene, mark)?;
    let name = MarkName { mark };
    write!(text, "// {name}\n{shape}")?;
    Ok(())
}
