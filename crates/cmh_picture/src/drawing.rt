//! The command `draw`: the picture of the journals of all sites.

ghost use Rattle.std.specs.Prelude.{◌≡◌, true, OnOk, IfOk, IfErr, map};
ghost use Rattle.std.specs.Bool.{OnFalse, OnTrue};
ghost use Rattle.cmh_files.specs.Audits.{IsAuditFault};
ghost use Rattle.cmh_console.specs.Status.{IsStatus};
ghost use Rattle.cmh_picture.specs.Draws.{DrawEnds, DrawsFiles, IsFew, IsMany, IsPartCause, IsPictureCause, IsPictureOf, WroteDrawing, WrotePart};

use crate::format::Format;
use crate::part::{Part, part_of};
use crate::picture_fault::PictureFault;
use crate::picture_text::picture_text;
use cmh_console::Output;
use cmh_draw::{Kind, Picture, run_picture, waits_picture};
use cmh_files::{AuditFault, Audited, audit_files};
use cmh_journal::list_journals;
use std::alloc::{AllocError, Global};
use std::io::Write;

/// Of what files a picture is drawn, of which kind, and how it is written.
#[derive(Clone, Copy)]
pub struct Drawing<'a> {
    /// The bytes of the topology file.
    pub topology: &'a [u8],
    /// The bytes of the journals' files, in any order.
    pub journals: &'a [Vec<u8>],
    pub kind: Kind,
    pub format: Format,
    /// The part of a run that is drawn; all of it where this is none. A picture of waits has no parts.
    pub part: Option<Part>,
}

/// How many marks a picture of a run may have: its lines, entries, frames and stops.
const MARK_LIMIT: usize = 20_000;

/// Audits the journals of all sites of a topology and writes their picture: of the run, or of who waits for whom at its
/// end. Where they come from no run, it shows how far they can be taken.
///
/// The answer is the status of the program: 0 where a picture is written, also of journals that come from no run, 1
/// where memory ran out, 3 at any other fault. The faults are those of `run_audit`, and `PictureFault::TooManyMarks`. A
/// fault is named on `err`, and a write to it that fails is ignored. Nothing is written to `out` before a fault but where
/// writing itself failed.
pub fn run_draw<W: Write, E: Write>(
    alloc: Global,
    drawing: &Drawing<'_>,
    out: &mut Output<W>,
    err: &mut Output<E>,
) -> u8
    ensures status { IsStatus result }

    // A picture is written, or a fault is named, and nothing else.
    ensures ends { DrawEnds drawing.now.topology.now (map (λ file. file.items) drawing.now.journals.now)
        drawing.now.kind drawing.now.format drawing.now.part out.old out.new err.old err.new result }
{
    match draw_into(alloc, drawing, out) {
        Ok(()) => 0,
        Err(fault) => fault.name_on(err),
    }
}

/// Writes the picture.
fn draw_into<W: Write>(
    alloc: Global,
    drawing: &Drawing<'_>,
    out: &mut Output<W>,
) -> Result<(), PictureFault>
    ensures wrote { OnOk result (WroteDrawing drawing.now.topology.now
        (map (λ file. file.items) drawing.now.journals.now) drawing.now.kind drawing.now.format drawing.now.part
        out.old.written out.new.written) }
    ensures flushed { OnOk result (out.new.is_flushed ≡ true) }
    ensures fault { IfErr result (IsPictureCause drawing.now.topology.now
        (map (λ file. file.items) drawing.now.journals.now) drawing.now.kind drawing.now.part
        out.old.written out.new.written out.new.has_failed) }
{
    let whole = picture_of_files(alloc, drawing)?;
    write_picture(
        alloc,
        drawing.kind,
        drawing.format,
        drawing.part,
        whole,
        out,
    )
}

/// Writes the part of a picture of this kind that is asked for, if it is not too large.
///
/// Nothing is written before a fault but where writing itself failed.
pub fn write_picture<W: Write>(
    alloc: Global,
    kind: Kind,
    format: Format,
    part: Option<Part>,
    whole: Picture,
    out: &mut Output<W>,
) -> Result<(), PictureFault>
    ensures wrote { OnOk result (WrotePart kind format part whole.marks.items out.old.written out.new.written) }
    ensures flushed { OnOk result (out.new.is_flushed ≡ true) }
    ensures fault { IfErr result (IsPartCause kind part whole.marks.items
        out.old.written out.new.written out.new.has_failed) }
{
    let picture = part_of(part, whole);
    if is_too_large(kind, picture.marks.len()) {
        return Err(PictureFault::TooManyMarks);
    }
    let text = picture_text(alloc, format, part, &picture)?;
    out.write_text(text)?;
    out.flush()?;
    Ok(())
}

/// Whether a picture of this kind may not have so many marks.
const fn is_too_large(kind: Kind, count: usize) -> bool
    ensures few { OnFalse result (IsFew kind count) }
    ensures many { OnTrue result (IsMany kind count) }
{
    match kind {
        Kind::Waits => false,
        Kind::Run => count > MARK_LIMIT,
    }
}

/// The picture of these files. The first fault is answered, as of an audit.
fn picture_of_files(alloc: Global, drawing: &Drawing<'_>) -> Result<Picture, AuditFault>
    ensures draws { IfOk result (DrawsFiles drawing.now.topology.now
        (map (λ file. file.items) drawing.now.journals.now) drawing.now.kind) }
    ensures fault { IfErr result (IsAuditFault drawing.now.topology.now
        (map (λ file. file.items) drawing.now.journals.now)) }
{
    let audited = audit_files(alloc, drawing.topology, drawing.journals)?;
    let picture = picture_of(alloc, &audited, drawing.kind)?;
    Ok(picture)
}

/// The picture of what was audited.
fn picture_of(alloc: Global, audited: &Audited<'_>, kind: Kind) -> Result<Picture, AllocError>
    ensures { IfOk result
        (IsPictureOf kind audited.now.world audited.now.journals.items audited.now.verdict) }
{
    match kind {
        Kind::Waits => waits_picture(alloc, &audited.world, &audited.verdict),
        Kind::Run => {
            let listed = list_journals(alloc, &audited.journals)?;
            run_picture(alloc, &audited.world, &listed, &audited.verdict)
        }
    }
}
