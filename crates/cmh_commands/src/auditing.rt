//! The commands `audit` and `show`.

ghost use Rattle.std.specs.Prelude.{◌≡◌, ◌⊎◌, ℕ, MatchBool, Option, codes, map};
ghost use Rattle.clap.specs.Matches.{found_of, one_text};
ghost use Rattle.cmh_console.specs.Status.{IsStatus};
ghost use Rattle.cmh_console.specs.TopologyFile3.{SaysNoWorld};
ghost use Rattle.cmh_files3.specs.More.{MoreEnds};
ghost use Rattle.cmh_files3.specs.declared.more.More.{More as MoreType};
ghost use Rattle.cmh_inputs.specs.Editions.{BeginWithSegment, SaysSomeWorld};
ghost use Rattle.cmh_commands.specs.Later.{LongEnds, NamesNoEpoch, SomePartEnds};
ghost use Rattle.cmh_commands.specs.Numbers.{TellsEpoch};
ghost use Rattle.cmh_commands.specs.Files.{AsksFor, AuditEndsByEdition, AuditEndsInOlder, AuditsFiles, AuditsNamed, ShowEndsByEdition, ShowsFiles, ShowsNamed};

use crate::earlier::{all_segments, have_later};
use crate::files::{files_named, shown_named};
use crate::parts::{audit_part, range_of};
use crate::recording::keep_records;
use clap::ArgMatches;
use cmh_archive3::RecordKeeper;
use cmh_console::{Fault, Output};
use cmh_files::{run_audit, run_audit_run, run_audit_why, run_show};
use cmh_files3::{More, run_audit3_with, run_show3};
use cmh_inputs::{AuditFiles, Inputs, begins_segment};
use cmh_long_audit3::run_long_audit3;
use cmh_options::{DECLARATIONS, JOURNALS, RUN, WHY};
use std::alloc::Global;
use std::io::{Eprint, Write};
use std::thread::Threads;
use std::time::Clock;

/// Audits the epochs that the words ask for, or all that the files that they name hold, as `audit_whole` does. The keeper gets
/// the records of what was accepted, where the words ask for them.
pub fn audit<R, N: Inputs, K: RecordKeeper, W: Write, E: Write>(
    rt: &R,
    inputs: &N,
    words: &ArgMatches<'_>,
    keeper: &mut K,
    out: &mut Output<W>,
    err: &mut Output<E>,
) -> u8
where
    R: Threads + AllocGlobal + Clock + Eprint + Sync,
    ensures status { IsStatus result }

    // Where they name no epoch, all are audited.
    ensures audits_named { NamesNoEpoch (found_of words.now) → (more : MoreType) → AsksFor (found_of words.now) more
        → AuditsNamed more (N.holds inputs.now) (found_of words.now) out.old out.new err.old err.new result }
    ensures audits { NamesNoEpoch (found_of words.now) → (more : MoreType) → AsksFor (found_of words.now) more
        → AuditsFiles more out.old out.new err.old err.new result }

    ensures audits_some { NamesNoEpoch (found_of words.now)
        → (more : MoreType) × AuditsFiles more out.old out.new err.old err.new result }

    // Else those that they name.
    ensures audits_part { ((more : MoreType) × AuditsFiles more out.old out.new err.old err.new result)
        ⊎ SomePartEnds result }
{
    match range_of(words) {
        Some(range) => audit_part(rt, inputs, words, &range, keeper, out, err),
        None => audit_whole(rt, inputs, words, keeper, out, err),
    }
}

/// Audits the files that the words name, and tells the reasons for stops, a run, or its declarations, where they ask for
/// them. Where the topology is one of edition 3, the journals are segments of it. Declarations are told of edition 3 alone.
fn audit_whole<R, N: Inputs, K: RecordKeeper, W: Write, E: Write>(
    rt: &R,
    inputs: &N,
    words: &ArgMatches<'_>,
    keeper: &mut K,
    out: &mut Output<W>,
    err: &mut Output<E>,
) -> u8
where
    R: Threads + AllocGlobal + Clock + Eprint + Sync,
    ensures status { IsStatus result }

    // Where the inputs tell their files, these are audited.
    ensures audits_named { (more : MoreType) → AsksFor (found_of words.now) more
        → AuditsNamed more (N.holds inputs.now) (found_of words.now) out.old out.new err.old err.new result }

    // Else some files are.
    ensures audits { (more : MoreType) → AsksFor (found_of words.now) more
        → AuditsFiles more out.old out.new err.old err.new result }
    ensures audits_some { (more : MoreType) × AuditsFiles more out.old out.new err.old err.new result }
{
    let alloc = rt.alloc();
    let more = more_of(words);
    match files_named(alloc, inputs, words) {
        Ok(files) if files.is_edition3 && have_later(&files.journals) => {
            audit_all(rt, inputs, words, files, keeper, out, err)
        }
        Ok(files) => audit_files(alloc, more, &files, out, err),
        Err(fault) => Fault::from(fault).name_on(err),
    }
}

/// Audits journals of edition 3 of which one is of a later epoch than the first: with all segments that stand before it, and
/// before the others. Records of what was accepted are kept where the words ask for them.
fn audit_all<R, N: Inputs, K: RecordKeeper, W: Write, E: Write>(
    rt: &R,
    inputs: &N,
    words: &ArgMatches<'_>,
    files: AuditFiles,
    keeper: &mut K,
    out: &mut Output<W>,
    err: &mut Output<E>,
) -> u8
where
    R: Threads + AllocGlobal + Clock + Eprint + Sync,
    ensures { LongEnds files.topology.items result }
{
    let alloc = rt.alloc();
    let AuditFiles {
        topology,
        journals,
        ..
    } = files;
    let read = match words.get_strs(JOURNALS) {
        Some(paths) => all_segments(alloc, inputs, paths, journals),
        None => all_segments(alloc, inputs, &[], journals),
    };
    let journals = match read {
        Ok(journals) => journals,
        Err(fault) => return Fault::from(fault).name_on(err),
    };
    let status = run_long_audit3(rt, &topology, &journals, more_of(words), out, err);
    if status != 0 {
        return status;
    }
    keep_records(alloc, words, &journals, keeper, err)
}

/// What the words ask an audit to tell after its report.
fn more_of(words: &ArgMatches<'_>) -> More
    ensures { (more : MoreType) → AsksFor (found_of words.now) more → result ≡ more }
{
    if words.get_flag(WHY) {
        return More::Reasons;
    }
    if words.get_flag(RUN) {
        return More::Run;
    }
    if words.get_flag(DECLARATIONS) {
        return More::Declarations;
    }
    More::Nothing
}

/// Audits files whose topology says a world of edition 3, or none.
fn audit_files<W: Write, E: Write>(
    alloc: Global,
    more: More,
    files: &AuditFiles,
    out: &mut Output<W>,
    err: &mut Output<E>,
) -> u8
    requires { MatchBool files.now.is_edition3 (SaysSomeWorld files.now.topology.items)
        (SaysNoWorld files.now.topology.items) }
    ensures status { IsStatus result }
    ensures ends { AuditEndsByEdition more files.now.topology.items (map (λ file. file.items) files.now.journals.items)
        out.old out.new err.old err.new result }
{
    let (topology, journals) = (files.topology.as_slice(), files.journals.as_slice());
    if files.is_edition3 {
        run_audit3_with(alloc, topology, journals, more, out, err)
    } else {
        audit_older(alloc, topology, journals, more, out, err)
    }
}

/// Audits files of editions 1 and 2. Only an audit of edition 3 tells declarations: that of other files names its fault.
fn audit_older<W: Write, E: Write>(
    alloc: Global,
    topology: &[u8],
    journals: &[Vec<u8>],
    more: More,
    out: &mut Output<W>,
    err: &mut Output<E>,
) -> u8
    ensures status { IsStatus result }
    ensures ends { AuditEndsInOlder more topology.now (map (λ file. file.items) journals.now)
        out.old out.new err.old err.new result }
{
    match more {
        More::Nothing => run_audit(alloc, topology, journals, out, err),
        More::Reasons => run_audit_why(alloc, topology, journals, out, err),
        More::Run => run_audit_run(alloc, topology, journals, out, err),
        More::Declarations => run_audit3_with(alloc, topology, journals, more, out, err),
    }
}

/// Writes what the journals that the words name hold; where they name an epoch, its segments in these folders. Where the first
/// one is a segment of edition 3, all are to be.
pub fn show<N: Inputs, W: Write, E: Write>(
    alloc: Global,
    inputs: &N,
    words: &ArgMatches<'_>,
    out: &mut Output<W>,
    err: &mut Output<E>,
) -> u8
    ensures status { IsStatus result }
    ensures shows_named { (epoch : Option ℕ) → TellsEpoch (one_text (found_of words.now) (codes "epoch")) epoch
        → ShowsNamed (N.holds inputs.now) (found_of words.now) epoch out.old out.new err.old err.new result }
    ensures shows { ShowsFiles out.old out.new err.old err.new result }
{
    match shown_named(alloc, inputs, words) {
        Ok(journals) => show_files(alloc, &journals, out, err),
        Err(fault) => Fault::from(fault).name_on(err),
    }
}

/// Writes what the files of journals hold.
fn show_files<W: Write, E: Write>(
    alloc: Global,
    journals: &[Vec<u8>],
    out: &mut Output<W>,
    err: &mut Output<E>,
) -> u8
    ensures status { IsStatus result }
    ensures ends { ShowEndsByEdition (map (λ file. file.items) journals.now) out.old out.new err.old err.new result }
{
    if begin_with_segment(journals) {
        return run_show3(alloc, journals, out, err);
    }
    run_show(alloc, journals, out, err)
}

/// Whether the first of these files begins as a segment of edition 3.
fn begin_with_segment(files: &[Vec<u8>]) -> bool
    ensures { MatchBool result (BeginWithSegment (map (λ file. file.items) files.now))
        (¬ BeginWithSegment (map (λ file. file.items) files.now)) }
{
    match files {
        [first, ..] => begins_segment(first),
        [] => false,
    }
}
