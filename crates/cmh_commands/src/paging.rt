//! Pages that step through a run: `draw --page` and `play --page`.

ghost use Rattle.std.specs.Prelude.{◌≡◌, ℕ, MatchBool, Option, Some, codes, map};
ghost use Rattle.clap.specs.Matches.{found_of, one_text};
ghost use Rattle.cmh_draw.specs.Kinds.{kind_word};
ghost use Rattle.cmh_draw.specs.declared.picture.Kind as kinds;
ghost use Rattle.cmh_console.specs.Status.{IsStatus};
ghost use Rattle.cmh_console.specs.TopologyFile3.{SaysNoWorld};
ghost use Rattle.cmh_picture.specs.Formats.{format_word};
ghost use Rattle.cmh_picture.specs.declared.format.Format as formats;
ghost use Rattle.cmh_inputs.specs.Editions.{SaysSomeWorld};
ghost use Rattle.cmh_commands.specs.Drawing.{DrawsFiles, DrawsNamed, DrawsSome, TellsColumn, part_between};
ghost use Rattle.cmh_commands.specs.Files.{IsUnset};
ghost use Rattle.cmh_commands.specs.Numbers.{TellsEpoch};
ghost use Rattle.cmh_commands.specs.Paging.{IsWritten, PageEndsByEdition, PagesFiles, PagesNamed, PlaysToPage};
ghost use Rattle.cmh_commands.specs.Playing.{PlaysScript};

use crate::drawing::draw;
use crate::files::files_named;
use crate::kept_files::KeptFiles;
use clap::ArgMatches;
use cmh_console::{Ahead, Fault, Input, Output};
use cmh_inputs::{AuditFiles, Inputs};
use cmh_options::PAGE;
use cmh_page::{page_text, run_page};
use cmh_page3::run_page3;
use cmh_play::run_play_keeping;
use std::alloc::Global;
use std::fs;
use std::fs::File;
use std::io::{BufRead, ErrorKind, Write};
use std::rt::Files;

/// Draws the journals that the words name, or writes a page of them where the words ask for one.
pub fn draw_or_page<N: Inputs, W: Write, E: Write>(
    alloc: Global,
    inputs: &N,
    words: &ArgMatches<'_>,
    out: &mut Output<W>,
    err: &mut Output<E>,
) -> u8
    ensures status { IsStatus result }

    // Where the inputs tell their files, these are drawn.
    ensures draws_named { IsUnset (one_text (found_of words.now) (codes "page")) → (kind : kinds.Kind) → (format : formats.Format)
        → (first last epoch : Option ℕ)
        → one_text (found_of words.now) (codes "kind") ≡ Some (kind_word kind)
        → one_text (found_of words.now) (codes "format") ≡ Some (format_word format)
        → TellsColumn (one_text (found_of words.now) (codes "from")) first
        → TellsColumn (one_text (found_of words.now) (codes "to")) last
        → TellsEpoch (one_text (found_of words.now) (codes "epoch")) epoch
        → DrawsNamed (N.holds inputs.now) (found_of words.now) kind format (part_between first last) epoch
        out.old out.new err.old err.new result }
    ensures pages_named { one_text (found_of words.now) (codes "page") ≡ Some (codes "true")
        → PagesNamed (N.holds inputs.now) (found_of words.now) out.old out.new err.old err.new result }

    // Else some files are.
    ensures draws { IsUnset (one_text (found_of words.now) (codes "page")) → (kind : kinds.Kind) → (format : formats.Format)
        → (first last epoch : Option ℕ)
        → one_text (found_of words.now) (codes "kind") ≡ Some (kind_word kind)
        → one_text (found_of words.now) (codes "format") ≡ Some (format_word format)
        → TellsColumn (one_text (found_of words.now) (codes "from")) first
        → TellsColumn (one_text (found_of words.now) (codes "to")) last
        → TellsEpoch (one_text (found_of words.now) (codes "epoch")) epoch
        → DrawsFiles kind format (part_between first last) epoch out.old out.new err.old err.new result }
    ensures draws_some { IsUnset (one_text (found_of words.now) (codes "page"))
        → DrawsSome out.old out.new err.old err.new result }
    ensures pages { one_text (found_of words.now) (codes "page") ≡ Some (codes "true")
        → PagesFiles out.old out.new err.old err.new result }
{
    if words.get_flag(PAGE) {
        return page(alloc, inputs, words, out, err);
    }
    draw(alloc, inputs, words, out, err)
}

/// Writes a page of the journals that the words name.
fn page<N: Inputs, W: Write, E: Write>(
    alloc: Global,
    inputs: &N,
    words: &ArgMatches<'_>,
    out: &mut Output<W>,
    err: &mut Output<E>,
) -> u8
    ensures status { IsStatus result }
    ensures pages_named { PagesNamed (N.holds inputs.now) (found_of words.now) out.old out.new err.old err.new result }
    ensures pages { PagesFiles out.old out.new err.old err.new result }
{
    match files_named(alloc, inputs, words) {
        Ok(files) => page_by_edition(alloc, &files, out, err),
        Err(fault) => Fault::from(fault).name_on(err),
    }
}

/// Writes a page of files whose topology says a world of edition 3, or none.
fn page_by_edition<W: Write, E: Write>(
    alloc: Global,
    files: &AuditFiles,
    out: &mut Output<W>,
    err: &mut Output<E>,
) -> u8
    requires { MatchBool files.now.is_edition3 (SaysSomeWorld files.now.topology.items)
        (SaysNoWorld files.now.topology.items) }
    ensures status { IsStatus result }
    ensures ends { PageEndsByEdition files.now.topology.items (map (λ file. file.items) files.now.journals.items)
        out.old out.new err.old err.new result }
{
    if files.is_edition3 {
        return run_page3(alloc, &files.topology, &files.journals, out, err);
    }
    run_page(alloc, &files.topology, &files.journals, out, err)
}

/// Plays a script, and once its answers are flushed writes a page of its run to the file at a path.
pub fn play_page<R: AllocGlobal + Files<File = File>, I: BufRead + Ahead, W: Write, E: Write>(
    rt: &R,
    path: &str,
    input: &mut Input<I>,
    out: &mut Output<W>,
    err: &mut Output<E>,
) -> u8
    ensures status { IsStatus result }
    ensures plays { PlaysToPage input.old input.new out.old out.new err.old err.new result }
{
    let alloc = rt.alloc();
    let mut kept = KeptFiles::new(alloc);
    let played = play_keeping(alloc, input, out, err, &mut kept);
    if played != 0 {
        return played;
    }
    match page_text(alloc, &kept.topology, &kept.journals) {
        Ok(page) => write_page(rt, path, page.as_str(), err),
        Err(fault) => fault.name_on(err),
    }
}

/// Plays a script, and keeps the files of its world.
fn play_keeping<I: BufRead + Ahead, W: Write, E: Write>(
    alloc: Global,
    input: &mut Input<I>,
    out: &mut Output<W>,
    err: &mut Output<E>,
    kept: &mut KeptFiles,
) -> u8
    ensures status { IsStatus result }
    ensures plays { PlaysScript input.old input.new out.old out.new err.old err.new result }
{
    run_play_keeping(alloc, input, out, err, kept)
}

/// Writes a page to the file at a path, in place of what stands there.
fn write_page<R: Files<File = File>, E: Write>(
    rt: &R,
    path: &str,
    page: &str,
    err: &mut Output<E>,
) -> u8
    ensures status { IsStatus result }
    ensures ends { IsWritten err.old err.new result }
{
    match fs::write(rt, path, page) {
        Ok(()) => 0,
        Err(error) if error.kind() == ErrorKind::OutOfMemory => Fault::Memory.name_on(err),
        Err(_) => Fault::OutFile.name_on(err),
    }
}
