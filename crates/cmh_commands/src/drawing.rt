//! The command `draw`.

ghost use Rattle.std.specs.Prelude.{◌≡◌, ℕ, false, true, IfErr, IfOk, MatchBool, Option, None, Some, codes, map};
ghost use Rattle.clap.specs.Matches.{found_of, one_text};
ghost use Rattle.cmh_inputs.specs.Editions.{SaysSomeWorld};
ghost use Rattle.cmh_commands.specs.Drawing.{DrawEndsByEdition, DrawsFiles, DrawsNamed, DrawsSome, NeedsAll, TellsColumn, part_between};
ghost use Rattle.cmh_commands.specs.Later.{OneBeginsLater};
ghost use Rattle.cmh_commands.specs.Numbers.{TellsEpoch};
ghost use Rattle.cmh_draw3.specs.Epochs.{LongDrawEnds};
ghost use Rattle.cmh_inputs.specs.declared.file_fault.FileFault.TheVariants.{Memory as NoMemory};
ghost use Rattle.cmh_console.specs.TopologyFile3.{SaysNoWorld};
ghost use Rattle.cmh_draw.specs.Kinds.{kind_word};
ghost use Rattle.cmh_draw.specs.declared.picture.Kind as kinds;
ghost use Rattle.cmh_console.specs.Status.{IsStatus};
ghost use Rattle.cmh_picture.specs.Formats.{format_word};
ghost use Rattle.cmh_picture.specs.declared.format.Format as formats;

use crate::earlier::{all_segments, have_later};
use crate::files::{files_named, number_named};
use clap::ArgMatches;
use cmh_console::{Fault, Output};
use cmh_draw3::{LongDrawing, run_draw3, run_long_draw3};
use cmh_inputs::{AuditFiles, FileFault, Inputs};
use cmh_options::{EPOCH, FORMAT, FROM, JOURNALS, KIND, TO};
use cmh_picture::{Drawing, Format, Kind, Part, run_draw};
use cmh_wire3::Epoch;
use std::alloc::Global;
use std::io::Write;

/// What the words ask for.
#[derive(Clone, Copy)]
struct Look {
    kind: Kind,
    format: Format,
    part: Option<Part>,
    epoch: Option<Epoch>,
}

/// The files of journals over several epochs.
#[derive(Drop)]
struct LongFiles {
    topology: Vec<u8>,
    /// Of each journal those of its segments, in order.
    journals: Vec<Vec<Vec<u8>>>,
}

/// Draws the journals that the words name. Where they name an epoch, or a journal of edition 3 is of a later one than the first,
/// all segments of all journals are read.
pub fn draw<N: Inputs, W: Write, E: Write>(
    alloc: Global,
    inputs: &N,
    words: &ArgMatches<'_>,
    out: &mut Output<W>,
    err: &mut Output<E>,
) -> u8
    ensures status { IsStatus result }
    ensures draws_named { (kind : kinds.Kind) → (format : formats.Format) → (first last epoch : Option ℕ)
        → one_text (found_of words.now) (codes "kind") ≡ Some (kind_word kind)
        → one_text (found_of words.now) (codes "format") ≡ Some (format_word format)
        → TellsColumn (one_text (found_of words.now) (codes "from")) first
        → TellsColumn (one_text (found_of words.now) (codes "to")) last
        → TellsEpoch (one_text (found_of words.now) (codes "epoch")) epoch
        → DrawsNamed (N.holds inputs.now) (found_of words.now) kind format (part_between first last) epoch
        out.old out.new err.old err.new result }
    ensures draws { (kind : kinds.Kind) → (format : formats.Format) → (first last epoch : Option ℕ)
        → one_text (found_of words.now) (codes "kind") ≡ Some (kind_word kind)
        → one_text (found_of words.now) (codes "format") ≡ Some (format_word format)
        → TellsColumn (one_text (found_of words.now) (codes "from")) first
        → TellsColumn (one_text (found_of words.now) (codes "to")) last
        → TellsEpoch (one_text (found_of words.now) (codes "epoch")) epoch
        → DrawsFiles kind format (part_between first last) epoch out.old out.new err.old err.new result }
    ensures draws_some { DrawsSome out.old out.new err.old err.new result }
{
    let kind = kind_of(words);
    let format = format_of(words);
    let part = part_of(words);
    let epoch = epoch_of(words);
    let look = Look {
        kind,
        format,
        part,
        epoch,
    };
    match files_named(alloc, inputs, words) {
        Ok(files) if needs_all(&files, &look) => match all_named(alloc, inputs, words, files) {
            Ok(files) => draw_epochs(alloc, &files, &look, out, err),
            Err(fault) => Fault::from(fault).name_on(err),
        },
        Ok(files) => draw_by_edition(alloc, &files, &look, out, err),
        Err(fault) => Fault::from(fault).name_on(err),
    }
}

/// Whether earlier segments are drawn, too.
fn needs_all(files: &AuditFiles, look: &Look) -> bool
    requires { MatchBool files.now.is_edition3 (SaysSomeWorld files.now.topology.items)
        (SaysNoWorld files.now.topology.items) }
    ensures all { result ≡ true → NeedsAll files.now.topology.items
        (map (λ file. file.items) files.now.journals.items) look.now.epoch }
    ensures newest { result ≡ false → look.now.epoch ≡ None }
{
    match look.epoch {
        Some(_) => true,
        None => are_later(files),
    }
}

/// Whether a journal of edition 3 is of a later epoch than the first.
fn are_later(files: &AuditFiles) -> bool
    requires { MatchBool files.now.is_edition3 (SaysSomeWorld files.now.topology.items)
        (SaysNoWorld files.now.topology.items) }
    ensures world { result ≡ true → SaysSomeWorld files.now.topology.items }
    ensures later { result ≡ true → OneBeginsLater (map (λ file. file.items) files.now.journals.items) }
{
    if files.is_edition3 {
        return have_later(&files.journals);
    }
    false
}

/// The files of all segments of the journals that the words name, of which these are the newest. The only error is out of
/// memory.
fn all_named<N: Inputs>(
    alloc: Global,
    inputs: &N,
    words: &ArgMatches<'_>,
    files: AuditFiles,
) -> Result<LongFiles, FileFault>
    ensures topology { IfOk result (λ all. all.topology.items ≡ files.topology.items) }
    ensures fault { IfErr result (λ fault. fault ≡ NoMemory) }
{
    let AuditFiles {
        topology,
        journals,
        ..
    } = files;
    let read = match words.get_strs(JOURNALS) {
        Some(paths) => all_segments(alloc, inputs, paths, journals),
        None => all_segments(alloc, inputs, &[], journals),
    };
    match read {
        Ok(journals) => Ok(LongFiles { topology, journals }),
        Err(_) => Err(FileFault::Memory),
    }
}

/// Draws journals over several epochs.
fn draw_epochs<W: Write, E: Write>(
    alloc: Global,
    files: &LongFiles,
    look: &Look,
    out: &mut Output<W>,
    err: &mut Output<E>,
) -> u8
    ensures status { IsStatus result }
    ensures ends { LongDrawEnds files.now.topology.items
        (map (λ segments. map (λ file. file.items) segments.items) files.now.journals.items)
        look.now.epoch look.now.kind look.now.format look.now.part out.old out.new err.old err.new result }
{
    let drawing = LongDrawing {
        topology: &files.topology,
        journals: &files.journals,
        kind: look.kind,
        format: look.format,
        part: look.part,
        epoch: look.epoch,
    };
    run_long_draw3(alloc, &drawing, out, err)
}

/// Draws files whose topology says a world of edition 3, or none.
fn draw_by_edition<W: Write, E: Write>(
    alloc: Global,
    files: &AuditFiles,
    look: &Look,
    out: &mut Output<W>,
    err: &mut Output<E>,
) -> u8
    requires { MatchBool files.now.is_edition3 (SaysSomeWorld files.now.topology.items)
        (SaysNoWorld files.now.topology.items) }
    ensures status { IsStatus result }
    ensures ends { DrawEndsByEdition files.now.topology.items (map (λ file. file.items) files.now.journals.items)
        look.now.kind look.now.format look.now.part None out.old out.new err.old err.new result }
{
    let drawing = Drawing {
        topology: &files.topology,
        journals: &files.journals,
        kind: look.kind,
        format: look.format,
        part: look.part,
    };
    if files.is_edition3 {
        return run_draw3(alloc, &drawing, out, err);
    }
    run_draw(alloc, &drawing, out, err)
}

/// The kind of picture that the words ask for. The command line has a default, and takes no word that is none.
fn kind_of(words: &ArgMatches<'_>) -> Kind
    ensures { (kind : kinds.Kind) → one_text (found_of words.now) (codes "kind") ≡ Some (kind_word kind)
        → result ≡ kind }
{
    words.get_one(KIND).unwrap_or(Kind::Waits)
}

/// The format that the words ask for. The command line has a default, and takes no word that is none.
fn format_of(words: &ArgMatches<'_>) -> Format
    ensures { (format : formats.Format) → one_text (found_of words.now) (codes "format") ≡ Some (format_word format)
        → result ≡ format }
{
    words.get_one(FORMAT).unwrap_or(Format::Svg)
}

/// The part of a run that the words ask for, if they name a column.
fn part_of(words: &ArgMatches<'_>) -> Option<Part>
    ensures { (first last : Option ℕ)
        → TellsColumn (one_text (found_of words.now) (codes "from")) first
        → TellsColumn (one_text (found_of words.now) (codes "to")) last
        → result ≡ part_between first last }
{
    let first = number_named(words, FROM);
    let last = number_named(words, TO);
    between(first, last)
}

/// The columns from the first one, or the first of all, to the last one, or the last of all; none where all are meant.
fn between(first: Option<u32>, last: Option<u32>) -> Option<Part>
    ensures { result ≡ part_between first last }
{
    if first.is_none() && last.is_none() {
        return None;
    }
    Some(Part {
        first: first.unwrap_or(1),
        last: last.unwrap_or(u32::MAX),
    })
}

/// The epoch that the words name, if they do.
fn epoch_of(words: &ArgMatches<'_>) -> Option<Epoch>
    ensures { (epoch : Option ℕ) → TellsEpoch (one_text (found_of words.now) (codes "epoch")) epoch → result ≡ epoch }
{
    match number_named(words, EPOCH) {
        Some(number) => Some(Epoch::new(number)),
        None => None,
    }
}
