//! The command `audit` over some epochs alone.

ghost use Rattle.std.specs.Prelude.{◌≡◌, None, codes};
ghost use Rattle.clap.specs.Matches.{found_of, one_text};
ghost use Rattle.cmh_commands.specs.Later.{NamesNoEpoch, PartEnds};

use crate::earlier::{Front, front_of, read_segment};
use crate::files::files_named;
use crate::recording::keep_records;
use clap::ArgMatches;
use cmh_archive3::RecordKeeper;
use cmh_console::{Fault, Output};
use cmh_inputs::{AuditFiles, FileFault, InputFile, Inputs, NotRead};
use cmh_long_audit3::{EpochRange, run_part_audit3};
use cmh_options::{EPOCH, FROM, JOURNALS};
use cmh_wire3::Epoch;
use std::alloc::Global;
use std::io::{Eprint, Write};
use std::thread::Threads;
use std::time::Clock;

/// The epochs that the words ask for, if they name one.
pub fn range_of(words: &ArgMatches<'_>) -> Option<EpochRange>
    ensures { NamesNoEpoch (found_of words.now) → result ≡ None }
{
    if let Some(epoch) = epoch_named(words, EPOCH) {
        return Some(EpochRange {
            first: epoch,
            last: Some(epoch),
        });
    }
    match epoch_named(words, FROM) {
        Some(first) => Some(EpochRange { first, last: None }),
        None => None,
    }
}

/// The epoch that an option names, if it is given.
fn epoch_named(words: &ArgMatches<'_>, option: &str) -> Option<Epoch>
    ensures { one_text (found_of words.now) option.now ≡ None → result ≡ None }
{
    let number: Option<u32> = words.get_one(option);
    match number {
        Some(number) => Some(Epoch::new(number)),
        None => None,
    }
}

/// Audits these epochs of the journals that the words name. The keeper gets the records of what was accepted, where the words
/// ask for them.
pub fn audit_part<R, N: Inputs, K: RecordKeeper, W: Write, E: Write>(
    rt: &R,
    inputs: &N,
    words: &ArgMatches<'_>,
    range: &EpochRange,
    keeper: &mut K,
    out: &mut Output<W>,
    err: &mut Output<E>,
) -> u8
where
    R: Threads + AllocGlobal + Clock + Eprint + Sync,
    ensures { PartEnds range.now result }
{
    match files_named(rt.alloc(), inputs, words) {
        Ok(files) => audit_part_of(rt, inputs, words, range, files, keeper, out, err),
        Err(fault) => Fault::from(fault).name_on(err),
    }
}

/// Audits these epochs of journals whose newest segments are in these files.
fn audit_part_of<R, N: Inputs, K: RecordKeeper, W: Write, E: Write>(
    rt: &R,
    inputs: &N,
    words: &ArgMatches<'_>,
    range: &EpochRange,
    files: AuditFiles,
    keeper: &mut K,
    out: &mut Output<W>,
    err: &mut Output<E>,
) -> u8
where
    R: Threads + AllocGlobal + Clock + Eprint + Sync,
    ensures { PartEnds range.now result }
{
    let alloc = rt.alloc();
    let AuditFiles {
        topology,
        journals,
        ..
    } = files;
    let read = match words.get_strs(JOURNALS) {
        Some(paths) => needed_segments(alloc, inputs, paths, journals, range),
        None => needed_segments(alloc, inputs, &[], journals, range),
    };
    let files = match read {
        Ok(files) => files,
        Err(fault) => return Fault::from(fault).name_on(err),
    };
    let status = run_part_audit3(rt, &topology, &files, range, out, err);
    if status != 0 {
        return status;
    }
    keep_records(alloc, words, &files, keeper, err)
}

/// The files of the segments of the journals at these paths that an audit of these epochs needs, of each in order. The
/// newest ones are these. Of the others the headers are read until one stands for the first epoch, and then those that are
/// needed. Where one can't be read, those before it are left out.
fn needed_segments<N: Inputs>(
    alloc: Global,
    inputs: &N,
    paths: &[&str],
    newest: Vec<Vec<u8>>,
    range: &EpochRange,
) -> Result<Vec<Vec<Vec<u8>>>, FileFault> {
    let mut journals = Vec::new(alloc);
    for (i, file) in newest.into_iter().enumerate() {
        let path = match paths.get(i) {
            Some(path) => *path,
            None => "",
        };
        journals.push(needed_of(alloc, inputs, path, file, range)?)?;
    }
    Ok(journals)
}

/// The files of one journal.
fn needed_of<N: Inputs>(
    alloc: Global,
    inputs: &N,
    path: &str,
    newest: Vec<u8>,
    range: &EpochRange,
) -> Result<Vec<Vec<u8>>, FileFault> {
    let mut files = Vec::new(alloc);
    let front = front_of(&newest);
    let epochs = needed_epochs(alloc, inputs, path, front, range)?;
    let mut newest = Some(newest);
    for epoch in epochs {
        let is_newest = match front {
            Some(front) => front.epoch == epoch,
            None => false,
        };
        if is_newest {
            if let Some(file) = newest.take() {
                files.push(file)?;
            }
        } else if let Some(file) = read_segment(alloc, inputs, path, epoch)? {
            files.push(file)?;
        }
    }
    if let (None, Some(file)) = (front, newest) {
        // It is no segment, which the audit says.
        files.push(file)?;
    }
    Ok(files)
}

/// The epochs of the segments of a journal that are needed, ascending: from that on whose base stands for the first epoch,
/// to the next one behind the last.
fn needed_epochs<N: Inputs>(
    alloc: Global,
    inputs: &N,
    path: &str,
    newest: Option<Front>,
    range: &EpochRange,
) -> Result<Vec<u32>, FileFault> {
    let first = range.first.get();
    let mut needed = Vec::new(alloc);
    let Some(newest) = newest else {
        return Ok(needed);
    };
    let mut front = newest;
    for _ in 0..u32::MAX {
        if is_behind(front.epoch, range) {
            needed.clear();
        }
        needed.push(front.epoch)?;
        if front.epoch <= first || front.before < first {
            break;
        }
        match read_front(alloc, inputs, path, front.before)? {
            Some(before) => front = before,
            None => break,
        }
    }
    needed.reverse();
    Ok(needed)
}

/// Whether an epoch lies behind the last of these.
fn is_behind(epoch: u32, range: &EpochRange) -> bool {
    match range.last {
        Some(last) => epoch > last.get(),
        None => false,
    }
}

/// The front of the segment of this epoch in a folder, if it can be read, and is of it.
fn read_front<N: Inputs>(
    alloc: Global,
    inputs: &N,
    folder: &str,
    epoch: u32,
) -> Result<Option<Front>, FileFault> {
    let mut path = String::new(alloc);
    write!(path, "{folder}/{epoch:010}.cmhj")?;
    let mut bytes = Vec::new(alloc);
    let mut file = match inputs.open(path.as_str()) {
        Ok(file) => file,
        Err(NotRead::Memory) => return Err(FileFault::Memory),
        Err(NotRead::Refused) => return Ok(None),
    };
    match file.read_up_to(Front::LEN, &mut bytes) {
        Ok(()) => {}
        Err(NotRead::Memory) => return Err(FileFault::Memory),
        Err(NotRead::Refused) => return Ok(None),
    }
    match front_of(&bytes) {
        Some(front) if front.epoch == epoch => Ok(Some(front)),
        _ => Ok(None),
    }
}
