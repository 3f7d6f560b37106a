//! The lines of segments.

ghost use Rattle.std.specs.Prelude.{◌≡◌, ◌++◌, Some, IfOk, OnOk, map};
ghost use Rattle.cmh_archive3.specs.Lines as spec;
ghost use Rattle.cmh_archive3.specs.Names as names;
ghost use Rattle.cmh_archive3.specs.Archive as archive;

use crate::summary::{Folder, Listed, Summary};
use cmh_model3::SiteId;
use cmh_wire3::{Epoch, Mark};
use std::alloc::{AllocError, Global};
use std::fmt;

/// How a segment stands among those of all sites.
#[derive(Clone, Copy)]
pub enum State {
    /// Its site writes to it, or will.
    Newest,
    /// Its site has begun a later epoch, and some other site has not.
    Open,
    /// All sites have begun a later epoch.
    Closed,
}

impl fmt::Display for State {
    ghost output = { λ state. Some (spec.state_text state) };

    fn fmt<W: fmt::Write>(&self, f: &mut fmt::Formatter<W>) -> fmt::Result {
        match self {
            State::Newest => write!(f, "newest"),
            State::Open => write!(f, "open"),
            State::Closed => write!(f, "closed"),
        }
    }
}

/// What is said of a segment. Printed, it is the segment's line.
#[derive(Clone, Copy)]
pub struct SegmentLine {
    pub segment: Listed,
    pub state: State,
    pub may_be_archived: bool,
}

impl fmt::Display for SegmentLine {
    ghost output = { λ line. Some (spec.line_text line) };

    fn fmt<W: fmt::Write>(&self, f: &mut fmt::Formatter<W>) -> fmt::Result {
        let summary = SummaryText {
            summary: self.segment.summary,
        };
        let state = self.state;
        let audited = word_if(self.segment.is_audited, " audited");
        let archive = word_if(self.may_be_archived, " archive");
        write!(f, "{summary} {state}{audited}{archive}\n")
    }
}

/// What a line says of the segment by itself.
#[derive(Clone, Copy)]
struct SummaryText {
    summary: Summary,
}

impl fmt::Display for SummaryText {
    ghost output = { λ text. Some (spec.summary_text text.summary) };

    fn fmt<W: fmt::Write>(&self, f: &mut fmt::Formatter<W>) -> fmt::Result {
        let summary = self.summary;
        let site = summary.header.site;
        let epoch = summary.header.epoch.get();
        let entries = summary.entries;
        let bytes = summary.bytes;
        let mark = MarkText { mark: summary.mark };
        write!(
            f,
            "site {site} epoch {epoch} entries {entries} bytes {bytes} mark {mark}"
        )
    }
}

/// A mark, as its line says it.
#[derive(Clone, Copy)]
struct MarkText {
    mark: Mark,
}

impl fmt::Display for MarkText {
    ghost output = { λ text. Some (names.sixteen_digits text.mark) };

    fn fmt<W: fmt::Write>(&self, f: &mut fmt::Formatter<W>) -> fmt::Result {
        let number = self.mark.get();
        write!(f, "{number:016x}")
    }
}

/// The word, if it stands there, and else nothing.
fn word_if(stands: bool, word: &'static str) -> &'static str
    ensures { result.now ≡ spec.word_if stands word.now }
{
    if stands { word } else { "" }
}

/// Lines, one after the other.
#[derive(Drop)]
pub struct LinesText<'a> {
    pub lines: &'a [SegmentLine],
}

impl<'a> fmt::Display for LinesText<'a> {
    ghost output = { λ text. Some (spec.lines_text text.lines.now) };

    fn fmt<W: fmt::Write>(&self, f: &mut fmt::Formatter<W>) -> fmt::Result {
        for line in self.lines {
            write!(f, "{line}")?;
        }
        Ok(())
    }
}

/// The lines of the segments in these folders, site by site in this order.
pub fn lines_of(
    alloc: Global,
    sites: &[SiteId],
    folders: &[Folder],
) -> Result<Vec<SegmentLine>, AllocError>
    ensures { IfOk result (λ lines. lines.items ≡ spec.all_lines sites.now folders.now) }
{
    let newest = newest_epochs(alloc, folders)?;
    let mut lines = Vec::new(alloc);
    for site in sites {
        add_site(&mut lines, &newest, folders, *site)?;
    }
    Ok(lines)
}

/// The newest epoch of each site.
fn newest_epochs(alloc: Global, folders: &[Folder]) -> Result<Vec<Epoch>, AllocError>
    ensures { IfOk result (λ newest. newest.items ≡ spec.newest_in folders.now) }
{
    let mut newest = Vec::new(alloc);
    for folder in folders {
        newest.push(folder.newest.summary.header.epoch)?;
    }
    Ok(newest)
}

fn add_site(
    lines: &mut Vec<SegmentLine>,
    newest: &[Epoch],
    folders: &[Folder],
    site: SiteId,
) -> Result<(), AllocError>
    ensures { OnOk result (lines.new.items ≡ lines.old.items ++ spec.site_lines newest.now folders.now site) }
{
    for folder in folders {
        if folder.newest.summary.header.site == site {
            add_folder(lines, newest, folder)?;
        }
    }
    Ok(())
}

fn add_folder(
    lines: &mut Vec<SegmentLine>,
    newest: &[Epoch],
    folder: &Folder,
) -> Result<(), AllocError>
    ensures { OnOk result (lines.new.items ≡ lines.old.items ++ spec.folder_lines newest.now folder.now) }
{
    add_earlier(lines, newest, &folder.earlier)?;
    lines.push(SegmentLine {
        segment: folder.newest,
        state: State::Newest,
        may_be_archived: false,
    })?;
    Ok(())
}

/// Adds the lines of segments of which the last one is given first.
fn add_earlier(
    lines: &mut Vec<SegmentLine>,
    newest: &[Epoch],
    earlier: &[Listed],
) -> Result<(), AllocError>
    ensures { OnOk result (lines.new.items ≡ lines.old.items ++ spec.earlier_lines newest.now earlier.now) }
{
    for at in 0..earlier.len() {
        let (_, rest) = earlier.split_at(earlier.len() - 1 - at);
        if let Some((segment, before)) = rest.split_first() {
            lines.push(line_of(newest, segment, before))?;
        }
    }
    Ok(())
}

/// The line of a segment that is not the newest one of its site. These are before it in its folder, the last one first.
fn line_of(newest: &[Epoch], segment: &Listed, before: &[Listed]) -> SegmentLine
    ensures { result ≡ spec.line_of newest.now segment.now before.now }
{
    let closed = is_closed(newest, segment.summary.header.epoch);
    let audited = segment.is_audited && is_audited_before(before);
    SegmentLine {
        segment: *segment,
        state: state_of(closed),
        may_be_archived: closed && audited,
    }
}

/// The state of a segment that is not the newest one of its site.
fn state_of(is_closed: bool) -> State
    ensures { result ≡ spec.state_of is_closed }
{
    if is_closed {
        State::Closed
    } else {
        State::Open
    }
}

/// Whether all sites have begun a later epoch, of each of which this is the newest.
pub fn is_closed(newest: &[Epoch], epoch: Epoch) -> bool
    ensures { result ≡ archive.is_closed newest.now epoch }
{
    for last in newest {
        if *last <= epoch {
            return false;
        }
    }
    true
}

/// Whether the segment right before in the folder was audited, or none is there any more.
fn is_audited_before(before: &[Listed]) -> bool
    ensures { result ≡ archive.is_audited_before before.now }
{
    match before {
        [last, ..] => last.is_audited,
        [] => true,
    }
}
