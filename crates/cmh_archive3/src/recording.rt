//! The records of segments that an audit accepted, as they are kept.

ghost use Rattle.std.specs.Prelude.{◌≡◌, ℕ, List, length, IfOk, OnOk, map};
ghost use Rattle.std.specs.List.{AllZip};
ghost use Rattle.cmh_archive3.specs.Recording as spec;
ghost use Rattle.cmh_archive3.specs.Recording.{AreSummaries, KeepsAll, KeepsEach, KeepsJournal, KeepsOne, WereAccepted};

use crate::lines::is_closed;
use crate::names::{record_path, record_text};
use crate::summary::{Summary, summary_of};
use cmh_audit3::{FileFault, SegmentFault};
use cmh_console::NoFile;
use cmh_journal::{FileSink, append};
use cmh_wire3::Epoch;
use std::alloc::{AllocError, Global};
use std::fs;
use std::fs::File;
use std::io::ErrorKind;
use std::rt::Files;

/// What keeps records, each in the folder of a journal in place of the one of its epoch that is there.
pub trait RecordKeeper: Drop {
    /// That in a folder the record of an epoch was kept, which has these bytes, of the keeper before and after.
    ghost keeps: { Self → List ℕ → ℕ → List ℕ → Self → Type 0 };

    /// The only errors are those of a disk and of memory.
    fn keep(
        &mut self,
        alloc: Global,
        folder: &str,
        epoch: Epoch,
        bytes: &[u8],
    ) -> Result<(), NoFile>
        ensures { OnOk result (keeps self.old folder.now epoch bytes.now self.new) };
}

/// Keeps a record for each closed segment of journals that an audit accepted, whose folders are at these paths: that it was
/// accepted with the mark behind its last entry. Of each journal the files of the segments that the audit read are given in
/// order. The records before an error are kept.
pub fn record_audited<K: RecordKeeper>(
    alloc: Global,
    paths: &[&str],
    files: &[Vec<Vec<u8>>],
    keeper: &mut K,
) -> Result<(), NoFile>
    requires accepted { WereAccepted (map (λ segments. map (λ file. file.items) segments.items) files.now) }
    requires each { length paths.now ≡ length files.now }
    ensures { OnOk result (KeepsAll K.keeps (map (λ path. path.now) paths.now)
        (map (λ segments. map (λ file. file.items) segments.items) files.now) keeper.old keeper.new) }
{
    let journals = summaries_of(alloc, files)?;
    let newest = newest_epochs(alloc, &journals)?;
    keep_each(alloc, &newest, paths, &journals, keeper)
}

/// Keeps the records of the closed segments of journals, each in the folder at its path.
fn keep_each<K: RecordKeeper>(
    alloc: Global,
    newest: &[Epoch],
    paths: &[&str],
    journals: &[Vec<Summary>],
    keeper: &mut K,
) -> Result<(), NoFile>
    requires { length paths.now ≡ length journals.now }
    ensures { OnOk result (KeepsEach K.keeps newest.now (map (λ path. path.now) paths.now)
        (map (λ segments. segments.items) journals.now) keeper.old keeper.new) }
{
    for (i, journal) in journals.iter().enumerate() {
        keep_journal(alloc, newest, paths[i], journal, keeper)?;
    }
    Ok(())
}

/// The summaries of journals.
fn summaries_of(alloc: Global, files: &[Vec<Vec<u8>>]) -> Result<Vec<Vec<Summary>>, NoFile>
    ensures { IfOk result (λ journals. AllZip AreSummaries
        (map (λ segments. map (λ file. file.items) segments.items) files.now)
        (map (λ segments. segments.items) journals.items)) }
{
    let mut journals = Vec::new(alloc);
    for segments in files {
        journals.push(journal_of(alloc, segments)?)?;
    }
    Ok(journals)
}

/// The summaries of the segments of a journal.
fn journal_of(alloc: Global, files: &[Vec<u8>]) -> Result<Vec<Summary>, NoFile>
    ensures { IfOk result (λ segments. AreSummaries (map (λ file. file.items) files.now) segments.items) }
{
    let mut segments = Vec::new(alloc);
    for bytes in files {
        match summary_of(alloc, bytes) {
            Ok(summary) => segments.push(summary)?,
            Err(FileFault::Segment(SegmentFault::Memory)) => return Err(NoFile::Memory),
            // Never so: the audit has read it.
            Err(_) => return Err(NoFile::Disk),
        }
    }
    Ok(segments)
}

/// The newest epoch of each journal.
fn newest_epochs(alloc: Global, journals: &[Vec<Summary>]) -> Result<Vec<Epoch>, AllocError>
    ensures { IfOk result (λ newest. newest.items ≡ map (λ segments. spec.last_epoch segments.items) journals.now) }
{
    let mut newest = Vec::new(alloc);
    for segments in journals {
        newest.push(last_epoch(segments))?;
    }
    Ok(newest)
}

fn last_epoch(segments: &[Summary]) -> Epoch
    ensures { result ≡ spec.last_epoch segments.now }
{
    match segments {
        [.., last] => last.header.epoch,
        [] => Epoch::new(0),
    }
}

/// Keeps the records of the closed segments of a journal.
fn keep_journal<K: RecordKeeper>(
    alloc: Global,
    newest: &[Epoch],
    folder: &str,
    segments: &[Summary],
    keeper: &mut K,
) -> Result<(), NoFile>
    ensures { OnOk result (KeepsJournal K.keeps newest.now folder.now segments.now keeper.old keeper.new) }
{
    for segment in segments {
        keep_one(alloc, newest, folder, segment, keeper)?;
    }
    Ok(())
}

/// Keeps the record of a segment, if that is closed.
fn keep_one<K: RecordKeeper>(
    alloc: Global,
    newest: &[Epoch],
    folder: &str,
    segment: &Summary,
    keeper: &mut K,
) -> Result<(), NoFile>
    ensures { OnOk result (KeepsOne K.keeps newest.now folder.now segment.now keeper.old keeper.new) }
{
    let epoch = segment.header.epoch;
    if !is_closed(newest, epoch) {
        return Ok(());
    }
    let text = record_text(alloc, segment.mark)?;
    keeper.keep(alloc, folder, epoch, text.as_str().as_bytes())
}

/// The folders of the disk.
#[derive(Drop)]
pub struct RecordFiles<'a, R: Files<File = File>> {
    rt: &'a R,
}

impl<'a, R: Files<File = File>> RecordFiles<'a, R> {
    pub fn new(rt: &'a R) -> RecordFiles<'a, R> {
        RecordFiles { rt }
    }
}

impl<'a, R: Files<File = File>> RecordKeeper for RecordFiles<'a, R> {
    ghost use Rattle.std.specs.Prelude.{⊤};

    // Nothing is said of what a file holds.
    ghost keeps = { λ _ _ _ _ _. ⊤ };

    /// The record is written under another name, synced, and then gets its own.
    fn keep(
        &mut self,
        alloc: Global,
        folder: &str,
        epoch: Epoch,
        bytes: &[u8],
    ) -> Result<(), NoFile> {
        let path = record_path(alloc, folder, epoch)?;
        let mut unfinished = record_path(alloc, folder, epoch)?;
        unfinished.push_str(".new")?;
        let Ok(mut sink) = FileSink::create(self.rt, unfinished.as_str()) else {
            return Err(NoFile::Disk);
        };
        if append(&mut sink, bytes).is_err() {
            return Err(NoFile::Disk);
        }
        match fs::rename(self.rt, unfinished.as_str(), path.as_str()) {
            Ok(()) => Ok(()),
            Err(error) if error.kind() == ErrorKind::OutOfMemory => Err(NoFile::Memory),
            Err(_) => Err(NoFile::Disk),
        }
    }
}
