//! The command `draw` of edition 3: the picture of the journals of all sites.

ghost use Rattle.std.specs.Prelude.{IfErr, IfOk, map};
ghost use Rattle.cmh_console.specs.Status.{IsStatus};
ghost use Rattle.cmh_draw3.specs.Draws.{AreSegmentsOf, DrawEnds, DrawsFiles, IsPictureOf};
ghost use Rattle.cmh_files3.specs.Audits.{IsAuditFault};

use crate::running::run_picture;
use crate::waiting::waits_picture;
use cmh_audit3::{Segment, read_file};
use cmh_console::{Fault, Output};
use cmh_files3::{AuditFault, Audited, audit_files};
use cmh_picture::{Drawing, Kind, Picture, write_picture};
use std::alloc::{AllocError, Global};
use std::io::Write;

/// Audits the journals of all sites of a world of edition 3 and writes their picture: of the run, or of who waits for whom
/// at its end. Where they come from no run, it shows how far they can be taken.
///
/// The answer is the status of the program: 0 where a picture is written, also of journals that come from no run, 1
/// where memory ran out, 3 at any other fault. The faults are those of `run_audit3`, and `PictureFault::TooManyMarks`. A
/// fault is named on `err`, and a write to it that fails is ignored. Nothing is written to `out` before a fault but where
/// writing itself failed.
pub fn run_draw3<W: Write, E: Write>(
    alloc: Global,
    drawing: &Drawing<'_>,
    out: &mut Output<W>,
    err: &mut Output<E>,
) -> u8
    ensures status { IsStatus result }

    // A picture is written, or a fault is named, and nothing else.
    ensures ends { DrawEnds drawing.now.topology.now (map (λ file. file.items) drawing.now.journals.now)
        drawing.now.kind drawing.now.format drawing.now.part out.old out.new err.old err.new result }
{
    let whole = match picture_of_files(alloc, drawing) {
        Ok(whole) => whole,
        Err(fault) => return Fault::from(fault).name_on(err),
    };
    let written = write_picture(
        alloc,
        drawing.kind,
        drawing.format,
        drawing.part,
        whole,
        out,
    );
    match written {
        Ok(()) => 0,
        Err(fault) => fault.name_on(err),
    }
}

/// The picture of these files. The first fault is answered, as of an audit.
fn picture_of_files(alloc: Global, drawing: &Drawing<'_>) -> Result<Picture, AuditFault>
    ensures draws { IfOk result (DrawsFiles drawing.now.topology.now
        (map (λ file. file.items) drawing.now.journals.now) drawing.now.kind) }
    ensures fault { IfErr result (IsAuditFault drawing.now.topology.now
        (map (λ file. file.items) drawing.now.journals.now)) }
{
    let audited = audit_files(alloc, drawing.topology, drawing.journals)?;
    let picture = picture_of(alloc, &audited, drawing.journals, drawing.kind)?;
    Ok(picture)
}

/// The picture of what was audited.
fn picture_of(
    alloc: Global,
    audited: &Audited,
    journals: &[Vec<u8>],
    kind: Kind,
) -> Result<Picture, AllocError>
    ensures { IfOk result (IsPictureOf kind audited.now.world (map (λ file. file.items) journals.now)
        audited.now.finding) }
{
    match kind {
        Kind::Waits => waits_picture(alloc, &audited.world, &audited.finding),
        Kind::Run => {
            let segments = segments_of(alloc, journals)?;
            run_picture(alloc, &audited.world, &segments, &audited.finding)
        }
    }
}

/// The segments of files that were audited before, so that no fault but out of memory is left.
fn segments_of(alloc: Global, files: &[Vec<u8>]) -> Result<Vec<Segment>, AllocError>
    ensures { IfOk result (λ segments. AreSegmentsOf (map (λ file. file.items) files.now) segments.items) }
{
    let mut segments = Vec::new(alloc);
    for bytes in files {
        match read_file(alloc, bytes) {
            Ok((segment, _)) => segments.push(segment)?,
            Err(_) => return Err(AllocError),
        }
    }
    Ok(segments)
}
