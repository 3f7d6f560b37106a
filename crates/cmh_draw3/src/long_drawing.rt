//! The command `draw` of edition 3 over several epochs.

ghost use Rattle.std.specs.Prelude.{IfErr, IfOk, map};
ghost use Rattle.cmh_console.specs.Status.{IsStatus};
ghost use Rattle.cmh_draw3.specs.Epochs.{DrawsEpochs, DrawsRun, IsDrawnPart, LongDrawEnds};
ghost use Rattle.cmh_long_audit3.specs.Wholes.{IsWholesFault};

use crate::epoch_part::part_of_epoch;
use crate::running::run_picture;
use crate::waiting::waits_picture;
use cmh_audit3::Segment;
use cmh_console::{Fault, Output};
use cmh_files3::AuditFault;
use cmh_long_audit3::{AuditedWholes, audit_wholes, wholes_of};
use cmh_picture::{Format, Kind, Part, Picture, write_picture};
use cmh_topology3::Topology;
use cmh_wire3::Epoch;
use std::alloc::{AllocError, Global};
use std::io::Write;

/// Of what files a picture over several epochs is drawn, of which kind, and how it is written.
#[derive(Clone, Copy)]
pub struct LongDrawing<'a> {
    /// The bytes of the topology file.
    pub topology: &'a [u8],
    /// Of each journal, in any order, the bytes of the files of its segments, in theirs.
    pub journals: &'a [Vec<Vec<u8>>],
    pub kind: Kind,
    pub format: Format,
    /// The part of a run that is drawn, where no epoch is named.
    pub part: Option<Part>,
    /// The last epoch of which segments are taken. Of a run the part is drawn in which its entries stand.
    pub epoch: Option<Epoch>,
}

/// A picture, and the part of it that is written.
#[derive(Drop)]
struct Drawn {
    whole: Picture,
    part: Option<Part>,
}

/// Audits the journals of all sites of a world of edition 3 as those of one run over their epochs, and writes their picture: of
/// the run, in which a turn is an entry, or of who waits for whom at its end. Where they come from no run, it shows how far they
/// can be taken. Of the bases with which epochs begin it shows nothing.
///
/// The answer is the status of the program: 0 where a picture is written, also of journals that come from no run, 1 where
/// memory ran out, 3 at any other fault, as of `run_draw3`. It is `fault set 6` where no site has begun the epoch.
pub fn run_long_draw3<W: Write, E: Write>(
    alloc: Global,
    drawing: &LongDrawing<'_>,
    out: &mut Output<W>,
    err: &mut Output<E>,
) -> u8
    ensures status { IsStatus result }

    // A picture is written, or a fault is named, and nothing else.
    ensures ends { LongDrawEnds drawing.now.topology.now
        (map (λ segments. map (λ file. file.items) segments.items) drawing.now.journals.now) drawing.now.epoch
        drawing.now.kind drawing.now.format drawing.now.part out.old out.new err.old err.new result }
{
    let drawn = match drawn_of(alloc, drawing) {
        Ok(drawn) => drawn,
        Err(fault) => return Fault::from(fault).name_on(err),
    };
    let Drawn { whole, part } = drawn;
    let written = write_picture(alloc, drawing.kind, drawing.format, part, whole, out);
    match written {
        Ok(()) => 0,
        Err(fault) => fault.name_on(err),
    }
}

/// The picture of these files. The first fault is answered, as of an audit.
fn drawn_of(alloc: Global, drawing: &LongDrawing<'_>) -> Result<Drawn, AuditFault>
    ensures draws { IfOk result (λ drawn. DrawsEpochs drawing.now.topology.now
        (map (λ segments. map (λ file. file.items) segments.items) drawing.now.journals.now) drawing.now.epoch
        drawing.now.kind drawing.now.part drawn.whole drawn.part) }
    ensures fault { IfErr result (IsWholesFault drawing.now.topology.now) }
{
    let audited = audit_wholes(alloc, drawing.topology, drawing.journals, drawing.epoch)?;
    match drawing.kind {
        Kind::Waits => Ok(Drawn {
            whole: waits_picture(alloc, &audited.world, &audited.finding)?,
            part: drawing.part,
        }),
        Kind::Run => Ok(drawn_run(alloc, drawing, &audited)?),
    }
}

/// The picture of the run of files that were audited before, so that none is at fault.
fn drawn_run(
    alloc: Global,
    drawing: &LongDrawing<'_>,
    audited: &AuditedWholes,
) -> Result<Drawn, AllocError>
    ensures { IfOk result (λ drawn. DrawsRun (map (λ segments. map (λ file. file.items) segments.items) drawing.now.journals.now)
        drawing.now.epoch audited.now.world audited.now.finding drawing.now.part drawn.whole drawn.part) }
{
    let Ok(wholes) = wholes_of(alloc, drawing.journals, drawing.epoch) else {
        return Err(AllocError);
    };
    let whole = run_picture(alloc, &audited.world, &wholes, &audited.finding)?;
    let part = drawn_part(alloc, drawing, &audited.world, &wholes, &whole)?;
    Ok(Drawn { whole, part })
}

/// The part of a run that is drawn: that of the epoch, where one is named.
fn drawn_part(
    alloc: Global,
    drawing: &LongDrawing<'_>,
    world: &Topology,
    wholes: &[Segment],
    whole: &Picture,
) -> Result<Option<Part>, AllocError>
    ensures { IfOk result (IsDrawnPart drawing.now.epoch drawing.now.part world.now wholes.now whole.now.marks.items) }
{
    match drawing.epoch {
        Some(epoch) => Ok(Some(part_of_epoch(alloc, epoch, world, wholes, &whole.marks)?)),
        None => Ok(drawing.part),
    }
}
