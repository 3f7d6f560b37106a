//! The records of what an audit accepted.

ghost use Rattle.std.specs.Prelude.{map};
ghost use Rattle.cmh_archive3.specs.Recording.{WereAccepted};
ghost use Rattle.cmh_console.specs.Status.{IsStatus};

use clap::ArgMatches;
use cmh_archive3::{RecordKeeper, record_audited};
use cmh_console::{Fault, NoFile, Output};
use cmh_options::{JOURNALS, RECORD};
use std::alloc::Global;
use std::io::Write;

/// Keeps records of the journals that the words name, if they ask for that. An audit accepted the files of their segments,
/// which are given of each journal in order. Answers the status of the program.
pub fn keep_records<K: RecordKeeper, E: Write>(
    alloc: Global,
    words: &ArgMatches<'_>,
    files: &[Vec<Vec<u8>>],
    keeper: &mut K,
    err: &mut Output<E>,
) -> u8
    requires { WereAccepted (map (λ segments. map (λ file. file.items) segments.items) files.now) }
    ensures { IsStatus result }
{
    if !words.get_flag(RECORD) {
        return 0;
    }
    let kept = match words.get_strs(JOURNALS) {
        Some(paths) if paths.len() == files.len() => record_audited(alloc, paths, files, keeper),
        _ => Ok(()),
    };
    match kept {
        Ok(()) => 0,
        Err(NoFile::Disk) => Fault::OutFile.name_on(err),
        Err(NoFile::Memory) => Fault::Memory.name_on(err),
    }
}
