//! A second line for people: what the line of a fault means here. It is worked out again from the words of the command
//! line and from the files that they name, so it may find them changed. A file that is no regular one is not read again.

use crate::topology_trouble::{
    Limits, is_edition3, trouble_of_members, trouble_of_rows, trouble_of_world,
};
use clap::ArgMatches;
use cmh_console::{
    TopologyFile, Words, read_topology_file, read_topology_file_with_ports, read_topology_file3,
};
use cmh_frames::{Edition, SiteId, SiteRow, Topology, TopologyFault};
use cmh_inputs::{Disk, LONGEST_TOPOLOGY, read_journal, read_topology};
use cmh_journal::{JournalFault, read_stored};
use cmh_options::{
    DECLARATIONS, EPOCH, JOURNAL, JOURNALS, OUT, PAGE, PORT, RECORD, SCRIPT, SITE, TO, TOPOLOGY,
};
use cmh_topology3::Topology as Topology3;
use serde_json::Value;
use std::alloc::{AllocError, Global};
use std::fs;
use std::io::ErrorKind;
use std::rt::Files;

/// What the line of a fault speaks of.
#[derive(Clone, Copy)]
enum Subject {
    File,
    Topology,
    Journal,
    Set,
    Site,
    Listen,
    Input,
    Output,
    Page,
    Picture,
    Descriptors,
    Random,
    Memory,
}

/// A word behind `fault`, and what a line speaks of that has it.
struct FaultWord {
    word: &'static str,
    subject: Subject,
}

const SUBJECTS: &[FaultWord] = &[
    FaultWord {
        word: "file",
        subject: Subject::File,
    },
    FaultWord {
        word: "json",
        subject: Subject::Topology,
    },
    FaultWord {
        word: "topology",
        subject: Subject::Topology,
    },
    FaultWord {
        word: "journal",
        subject: Subject::Journal,
    },
    FaultWord {
        word: "set",
        subject: Subject::Set,
    },
    FaultWord {
        word: "site",
        subject: Subject::Site,
    },
    FaultWord {
        word: "listen",
        subject: Subject::Listen,
    },
    FaultWord {
        word: "input",
        subject: Subject::Input,
    },
    FaultWord {
        word: "output",
        subject: Subject::Output,
    },
    FaultWord {
        word: "page",
        subject: Subject::Page,
    },
    FaultWord {
        word: "picture",
        subject: Subject::Picture,
    },
    FaultWord {
        word: "descriptors",
        subject: Subject::Descriptors,
    },
    FaultWord {
        word: "random",
        subject: Subject::Random,
    },
];

/// What a line with this word speaks of; of memory, where it is no other.
fn subject_of(word: &[u8]) -> Subject {
    for each in SUBJECTS {
        if each.word.as_bytes() == word {
            return each.subject;
        }
    }
    Subject::Memory
}

/// The line that explains the line of a fault; the words are those of the command that ended with it.
///
/// It changes nothing, and waits for no file.
pub fn explanation<R: AllocGlobal + Files>(
    rt: &R,
    words: &ArgMatches<'_>,
    line: &[u8],
) -> Result<String, AllocError> {
    let mut text = String::from_str(rt.alloc(), "cmh: ")?;
    let line = match line {
        [front @ .., b'\n'] => front,
        _ => line,
    };
    let mut fault = Words::new(line);
    let _ = fault.next_word();
    match subject_of(fault.next_word().unwrap_or(b"")) {
        Subject::File => explain_file(rt, words, &mut fault, &mut text)?,
        Subject::Topology => explain_topology(rt, words, &mut text)?,
        Subject::Journal => explain_journal(words, &mut fault, &mut text)?,
        Subject::Set => explain_set(rt, words, &mut fault, &mut text)?,
        Subject::Site => explain_site(words, &mut text)?,
        Subject::Listen => explain_ports(rt, words, &mut text)?,
        Subject::Input => text.push_str("standard input can't be read")?,
        Subject::Output => text.push_str("standard output can't be written, or nobody reads it")?,
        Subject::Random => text.push_str("/dev/urandom gives no random bytes")?,
        Subject::Page => text.push_str("a page tells at most 20,000 events")?,
        Subject::Picture => text.push_str(
            "a picture of a run has at most 20,000 lines, entries and frames; --from and --to choose columns",
        )?,
        Subject::Descriptors => explain_descriptors(&mut fault, &mut text)?,
        Subject::Memory => text.push_str("memory was refused")?,
    }
    Ok(text)
}

/// Of a site that the topology does not have.
fn explain_site(words: &ArgMatches<'_>, text: &mut String) -> Result<(), AllocError> {
    let path = words.get_str(TOPOLOGY).unwrap_or("");
    let site = words.get_str(SITE).unwrap_or("");
    write!(text, "{path}: there is no site {site}")?;
    Ok(())
}

/// Of a strict cluster that may have too few descriptors.
fn explain_descriptors(fault: &mut Words<'_>, text: &mut String) -> Result<(), AllocError> {
    // No topology needs a number of more digits.
    let needed = fault.number().unwrap_or(0);
    write!(
        text,
        "no site was started, since links would be missing; `ulimit -n {needed}` allows them"
    )?;
    Ok(())
}

/// Of a file that was not read, or one that can't be written.
fn explain_file<R: AllocGlobal + Files>(
    rt: &R,
    words: &ArgMatches<'_>,
    fault: &mut Words<'_>,
    text: &mut String,
) -> Result<(), AllocError> {
    let place = fault.next_word().unwrap_or(b"");
    if place == OUT.as_bytes() {
        return explain_out(rt, words, text);
    }
    let path = path_at(words, place).unwrap_or("");
    if let Some(epoch) = shown_epoch(words) {
        write!(
            text,
            "{path}: this folder has no segment of epoch {epoch} that can be read"
        )?;
        return Ok(());
    }
    let cause = cause_of(rt, path, false);
    write!(text, "{path}: {cause}")?;
    Ok(())
}

/// The epoch whose segments `show` shows, if the words name one.
fn shown_epoch<'a>(words: &ArgMatches<'a>) -> Option<&'a str> {
    match words.get_str(TOPOLOGY) {
        Some(_) => None,
        None => words.get_str(EPOCH),
    }
}

/// The file that a fault names by this word.
fn path_at<'a>(words: &ArgMatches<'a>, place: &[u8]) -> Option<&'a str> {
    if place == TOPOLOGY.as_bytes() {
        return words.get_str(TOPOLOGY);
    }
    if place == SCRIPT.as_bytes() {
        return words.get_str(SCRIPT);
    }
    journal_at(words, Words::new(place).number())
}

/// Of a page or a record that can't be written, or a folder whose files can't be.
fn explain_out<R: AllocGlobal + Files>(
    rt: &R,
    words: &ArgMatches<'_>,
    text: &mut String,
) -> Result<(), AllocError> {
    if let Some(path) = words.get_str(PAGE) {
        write!(text, "{path}: no page can be written there")?;
        return Ok(());
    }
    if words.get_flag(RECORD) {
        text.push_str("a record can't be written beside a segment")?;
        return Ok(());
    }
    let path = words
        .get_str(OUT)
        .or(words.get_str(TO))
        .or(words.get_str(JOURNALS));
    let path = path.unwrap_or("");
    let cause = cause_of(rt, path, true);
    write!(text, "{path}: {cause}")?;
    Ok(())
}

/// Why a file can't be read, or no file be written in a folder.
fn cause_of<R: Files>(rt: &R, path: &str, is_folder: bool) -> &'static str {
    match fs::metadata(rt, path) {
        Err(error) => named(error.kind()),
        Ok(found) if is_folder && found.is_dir() => {
            "a journal in this folder can't be written or read back, one is there already, or a running site writes to it"
        }
        Ok(_) if is_folder => "this is no folder",
        Ok(found) if found.is_dir() => "this is a folder",
        Ok(found) if !found.is_file() => "it can't be read, or has no end",
        Ok(found) => match fs::open(rt, path) {
            Err(error) => named(error.kind()),
            Ok(_) if found.len() > LONGEST_TOPOLOGY => "it is longer than 64 MiB",
            Ok(_) => "it can't be read",
        },
    }
}

const fn named(kind: ErrorKind) -> &'static str {
    match kind {
        ErrorKind::NotFound => "there is no such file",
        ErrorKind::PermissionDenied => "permission is denied",
        _ => "it can't be opened",
    }
}

/// The journal at this place in the command, from 1.
fn journal_at<'a>(words: &ArgMatches<'a>, place: Option<u16>) -> Option<&'a str> {
    let paths = words.get_strs(JOURNALS)?;
    let path = paths.get((place? as usize).saturating_sub(1))?;
    Some(*path)
}

/// What the topology file held, if it is a regular one that can be read once more.
fn topology_again<R: AllocGlobal + Files>(rt: &R, path: &str) -> Option<Vec<u8>> {
    if !fs::metadata(rt, path).ok()?.is_file() {
        return None;
    }
    read_topology(rt.alloc(), &Disk::new(rt), path).ok()
}

/// The same of a journal, which is at this place in the command, from 1.
fn journal_again<R: AllocGlobal + Files>(rt: &R, path: &str, place: usize) -> Option<Vec<u8>> {
    if !fs::metadata(rt, path).ok()?.is_file() {
        return None;
    }
    read_journal(rt.alloc(), &Disk::new(rt), path, place).ok()
}

/// What a command does with a topology.
#[derive(Clone, Copy)]
enum Task {
    /// It runs a site, which has a port.
    Serve,
    /// It runs all sites, which have ports in the editions 1 and 2.
    Cluster,
    /// It tells the declarations of journals of edition 3 alone.
    Declarations,
    /// It audits or draws journals of any edition.
    Audit,
}

fn task_of(words: &ArgMatches<'_>) -> Task {
    if words.get_str(JOURNAL).is_some() {
        return Task::Serve;
    }
    if words.get_str(SCRIPT).is_some() {
        return Task::Cluster;
    }
    if words.get_flag(DECLARATIONS) {
        return Task::Declarations;
    }
    Task::Audit
}

/// Whether the sites of the editions 1 and 2 have ports.
fn has_ports(task: Task) -> bool {
    matches!(task, Task::Serve | Task::Cluster)
}

/// Of what a topology file holds.
fn explain_topology<R: AllocGlobal + Files>(
    rt: &R,
    words: &ArgMatches<'_>,
    text: &mut String,
) -> Result<(), AllocError> {
    let path = words.get_str(TOPOLOGY).unwrap_or("");
    write!(text, "{path}: ")?;
    match topology_again(rt, path) {
        Some(bytes) => tell_topology(rt.alloc(), &bytes, task_of(words), text),
        None => {
            text.push_str("it is not read again to say more")?;
            Ok(())
        }
    }
}

fn tell_topology(
    alloc: Global,
    bytes: &[u8],
    task: Task,
    text: &mut String,
) -> Result<(), AllocError> {
    let value = match Value::from_slice(alloc, bytes) {
        Ok(value) => value,
        Err(error) => {
            write!(text, "{error}")?;
            return Ok(());
        }
    };
    if is_edition3(&value) {
        return tell_edition3(alloc, bytes, &value, task, text);
    }
    if matches!(task, Task::Declarations) {
        text.push_str(
            "this is no topology of edition 3, and `audit` with --declarations has no other",
        )?;
        return Ok(());
    }
    if let Some(trouble) = trouble_of_members(&value, has_ports(task)) {
        write!(text, "{trouble}")?;
        return Ok(());
    }
    let Ok(file) = read_topology_file(alloc, bytes) else {
        return Ok(());
    };
    match Topology::new(alloc, file.edition, &file.rows) {
        Err(fault) => tell_rows(Limits::of(file.edition), &file.rows, fault, text),
        Ok(_) => {
            text.push_str("this is no topology of edition 3")?;
            Ok(())
        }
    }
}

/// Of a topology file of edition 3.
fn tell_edition3(
    alloc: Global,
    bytes: &[u8],
    value: &Value,
    task: Task,
    text: &mut String,
) -> Result<(), AllocError> {
    if let Some(trouble) = trouble_of_world(value, matches!(task, Task::Serve)) {
        write!(text, "{trouble}")?;
        return Ok(());
    }
    let Ok(file) = read_topology_file3(alloc, bytes) else {
        return Ok(());
    };
    if let Err(fault) = Topology3::new(alloc, file.world, &file.rows) {
        tell_rows(Limits::EDITION_3, &file.rows, fault, text)?;
    }
    Ok(())
}

/// Of rows that are no topology.
fn tell_rows(
    limits: Limits,
    rows: &[SiteRow],
    fault: TopologyFault,
    text: &mut String,
) -> Result<(), AllocError> {
    match trouble_of_rows(limits, rows, fault) {
        Some(trouble) => write!(text, "{trouble}")?,
        None => write!(text, "{fault}")?,
    }
    Ok(())
}

/// Of a journal that can't be made, or of what the one at a place in the command holds.
fn explain_journal(
    words: &ArgMatches<'_>,
    fault: &mut Words<'_>,
    text: &mut String,
) -> Result<(), AllocError> {
    if let Some(path) = words.get_str(JOURNAL) {
        let trouble = trouble_of_own_journal(fault.next_word().unwrap_or(b""));
        write!(text, "{path}: {trouble}")?;
        return Ok(());
    }
    match journal_at(words, fault.number()) {
        Some(path) => write!(text, "{path}: ")?,
        None => {
            let dir = words.get_str(OUT).unwrap_or("");
            write!(text, "{dir}: a journal there changed: ")?;
        }
    }
    match fault.number() {
        Some(1) => write!(text, "{}", JournalFault::BadHeader)?,
        Some(2) => text.push_str("the bytes there are no entry")?,
        _ => write!(text, "{}", JournalFault::Full)?,
    }
    Ok(())
}

/// Of the journal of a site that was to run; in edition 3 it is a folder.
fn trouble_of_own_journal(word: &[u8]) -> &'static str {
    match word {
        b"damaged" => {
            "the newest segment in it has no whole entry there, and what stands there can't be the rest of an append; nothing was cut"
        }
        b"other" => "the newest segment in it is of another site or world",
        b"unlawful" => {
            "an entry of the newest segment in it is not what the rules make of its event; at 0, the segment begins in a state that the site can't be in"
        }
        _ => {
            "it can't be made or locked here, is no regular file, or another site writes to it; of edition 3 it is a folder, which needs --new where it has no journal, and must not have one with --new"
        }
    }
}

/// The site and the edition of a journal.
#[derive(Clone, Copy)]
struct Head {
    site: SiteId,
    edition: Edition,
}

/// Of journals that are not those of one world.
fn explain_set<R: AllocGlobal + Files>(
    rt: &R,
    words: &ArgMatches<'_>,
    fault: &mut Words<'_>,
    text: &mut String,
) -> Result<(), AllocError> {
    let number = fault.number();
    let path = words.get_str(TOPOLOGY).unwrap_or("");
    let paths = words.get_strs(JOURNALS).unwrap_or(&[]);
    let bytes = topology_again(rt, path).unwrap_or(Vec::new(rt.alloc()));
    if read_topology_file3(rt.alloc(), &bytes).is_ok() {
        let trouble = trouble_of_segments(number);
        write!(text, "{trouble}")?;
        return Ok(());
    }
    let heads = heads_of(rt, paths)?;
    let topology = topology_of(rt.alloc(), &bytes);
    match (topology, heads) {
        (Some(topology), Some(heads)) => {
            tell_set(number, &topology, paths, &heads, text)?;
        }
        _ => text.push_str("the files are not read again to say more")?,
    }
    Ok(())
}

/// Why segments are not those of one world, by the number of the fault.
const fn trouble_of_segments(number: Option<u16>) -> &'static str {
    match number {
        Some(1) => "a segment is of a site that the topology does not have",
        Some(2) => "a journal is of edition 1 or 2",
        Some(3) => "two segments are of one site",
        Some(4) => "a site has no segment here",
        Some(5) => "a segment is of another world than the topology",
        _ =>
            "a segment is of a later epoch, and the one before it is missing, or is not read; or no site has begun the epoch that is named",
    }
}

fn topology_of(alloc: Global, bytes: &[u8]) -> Option<Topology> {
    let file = read_topology_file(alloc, bytes).ok()?;
    Topology::new(alloc, file.edition, &file.rows).ok()
}

/// Those of the journals that the words name, if all can be read again.
fn heads_of<R: AllocGlobal + Files>(
    rt: &R,
    paths: &[&str],
) -> Result<Option<Vec<Head>>, AllocError> {
    let mut heads = Vec::new(rt.alloc());
    for (i, path) in paths.iter().enumerate() {
        let Some(bytes) = journal_again(rt, *path, i + 1) else {
            return Ok(None);
        };
        let Ok((journal, _)) = read_stored(&bytes) else {
            return Ok(None);
        };
        heads.push(Head {
            site: journal.site(),
            edition: journal.edition(),
        })?;
    }
    Ok(Some(heads))
}

fn tell_set(
    number: Option<u16>,
    topology: &Topology,
    paths: &[&str],
    heads: &[Head],
    text: &mut String,
) -> Result<(), AllocError> {
    for (i, head) in heads.iter().enumerate() {
        let Head { site, edition } = *head;
        let path = paths.get(i).copied().unwrap_or("");
        let edition = edition.number();
        match number {
            Some(1) if !topology.has_site(site) => {
                write!(text, "{path}: its site {site} is not in the topology")?;
                return Ok(());
            }
            Some(2) if head.edition != topology.edition() => {
                write!(
                    text,
                    "{path}: its edition is {edition}, that of the topology is not"
                )?;
                return Ok(());
            }
            Some(3) if is_among(&heads[..i], site) => {
                write!(text, "{path}: this is a second journal of site {site}")?;
                return Ok(());
            }
            _ => {}
        }
    }
    for site in topology.sites() {
        if !is_among(heads, *site) {
            write!(text, "site {site} has no journal here")?;
            return Ok(());
        }
    }
    Ok(())
}

fn is_among(heads: &[Head], site: SiteId) -> bool {
    for head in heads {
        if head.site == site {
            return true;
        }
    }
    false
}

/// Of ports on which nobody can listen now.
fn explain_ports<R: AllocGlobal + Files>(
    rt: &R,
    words: &ArgMatches<'_>,
    text: &mut String,
) -> Result<(), AllocError> {
    let site: Option<u16> = words.get_one(SITE);
    match words.get_str(PORT) {
        Some(port) => write!(text, "of 127.0.0.1 this port is taken: {port}, or")?,
        None if site.is_some() => text.push_str("of 127.0.0.1 this port is taken:")?,
        None => text.push_str("of 127.0.0.1 one of these ports is taken:")?,
    }
    let path = words.get_str(TOPOLOGY).unwrap_or("");
    let Some(bytes) = topology_again(rt, path) else {
        return Ok(());
    };
    match read_topology_file_with_ports(rt.alloc(), &bytes) {
        Ok((file, ports)) => tell_ports(&file, &ports, site, text),
        Err(_) => Ok(()),
    }
}

/// The port of this site, or those of all.
fn tell_ports(
    file: &TopologyFile,
    ports: &[u16],
    site: Option<u16>,
    text: &mut String,
) -> Result<(), AllocError> {
    for (row, port) in file.rows.iter().zip(ports) {
        if site.is_none() || site == Some(row.site) {
            write!(text, " {port}")?;
        }
    }
    Ok(())
}
