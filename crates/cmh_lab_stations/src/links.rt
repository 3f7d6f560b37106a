//! The links of a site, and the loops that read and write them.

ghost use Rattle.std.specs.Prelude.{◌≡◌, [], false};
ghost use Rattle.cmh_reader.specs.Reader.{StandsFor};

use crate::answer::{Answer, Unanswered};
use crate::carriers::Taking;
use crate::hands::Frames;
use crate::making::word;
use crate::object::{Object, Objects, topology};
use crate::reading::{edition, named, number, senders};
use cmh_carriers::{Incoming, MemIncoming, Outgoing};
use cmh_console::Words;
use cmh_frames::{Edition, SiteId};
use cmh_links::{LinkFault, LinkState, LinkTable, ReaderEnd, SharedLinks, run_writer};
use cmh_reader::FrameReader;
use std::alloc::Global;
use std::sync::Wait;

/// `links NAME TOPOLOGY SITE`: the links of a site, all new.
pub fn make_links<R: Wait + Copy + Drop>(
    alloc: Global,
    objects: &mut Objects<R>,
    words: &mut Words<'_>,
    answer: &mut Answer,
) -> Result<(), Unanswered> {
    let name = word(words)?;
    let of = word(words)?;
    let site = words.site().ok_or(Unanswered::BadLine)?;
    let table = LinkTable::new(alloc, topology(objects, of)?, site)?;
    objects.put(name, Object::Links(SharedLinks::new(table)))?;
    answer.word("ok")
}

pub fn fault_of(number: u64) -> Result<LinkFault, Unanswered> {
    Ok(match number {
        1 => LinkFault::Connect,
        2 => LinkFault::Read,
        3 => LinkFault::Write,
        4 => LinkFault::Bad,
        5 => LinkFault::Ended,
        6 => LinkFault::Memory,
        7 => LinkFault::Station,
        _ => return Err(Unanswered::BadLine),
    })
}

/// `new`, `open` or `closed FAULT`.
pub fn state_of(words: &mut Words<'_>) -> Result<LinkState, Unanswered> {
    let call = word(words)?;
    match str::from_utf8(call) {
        Ok("new") => Ok(LinkState::Fresh),
        Ok("open") => Ok(LinkState::Running),
        Ok("closed") => Ok(LinkState::Closed(fault_of(number(words)?)?)),
        _ => Err(Unanswered::BadLine),
    }
}

fn put_state(state: Option<LinkState>, answer: &mut Answer) -> Result<(), Unanswered> {
    match state {
        None => answer.word("none"),
        Some(state) => answer.word(state),
    }
}

/// A call of links.
#[derive(Clone, Copy)]
enum Verb {
    Claim,
    Open,
    In,
    Out,
}

const VERBS: [(&str, Verb); 4] = [
    ("claim", Verb::Claim),
    ("open", Verb::Open),
    ("in", Verb::In),
    ("out", Verb::Out),
];

/// `claim`, `open`, `in` and `out` with a site; `close in` and `close out` with a site and a fault.
pub fn call_links<R: Wait>(
    rt: &R,
    links: &SharedLinks,
    words: &mut Words<'_>,
    answer: &mut Answer,
) -> Result<(), Unanswered> {
    let first = word(words)?;
    let closes = first == b"close".as_slice();
    let what = if closes { word(words)? } else { first };
    let site = words.site().ok_or(Unanswered::BadLine)?;
    if closes {
        let fault = fault_of(number(words)?)?;
        match named(&VERBS, what) {
            Some(Verb::In) => links.lock(rt).close_in(site, fault),
            Some(Verb::Out) => links.lock(rt).close_out(site, fault),
            _ => return Err(Unanswered::BadLine),
        }
        return answer.word("ok");
    }
    match named(&VERBS, what) {
        Some(Verb::Claim) => answer.word(links.lock(rt).claim(site)),
        Some(Verb::Open) => answer.word(links.lock(rt).open_out(site)),
        Some(Verb::In) => put_state(links.lock(rt).state_in(site), answer),
        Some(Verb::Out) => put_state(links.lock(rt).state_out(site), answer),
        None => Err(Unanswered::BadLine),
    }
}

/// `no link`, `refused SITE` or `closed SITE FAULT`.
fn put_end(end: ReaderEnd, answer: &mut Answer) -> Result<(), Unanswered> {
    match end {
        ReaderEnd::NoLink => answer.word("no link"),
        ReaderEnd::Refused(site) => {
            answer.word("refused")?;
            answer.word(site)
        }
        ReaderEnd::Closed(site, fault) => {
            answer.word("closed")?;
            answer.word(site)?;
            answer.word(fault.number())?;
            if fault == LinkFault::Memory {
                return Err(Unanswered::OutOfMemory);
            }
            Ok(())
        }
    }
}

/// Reads a connection to its end into a core or into hands.
fn read_into<R: Wait + Copy + Drop>(
    rt: &R,
    incoming: &mut MemIncoming,
    reader: &mut FrameReader,
    links: &SharedLinks,
    object: &mut Object<R>,
) -> Result<ReaderEnd, Unanswered>
    requires fresh { StandsFor reader.old [] [] }
    requires fed { reader.old.starved ≡ false }
{
    if incoming.faults() == u64::MAX {
        return Err(Unanswered::BadLine);
    }
    match object {
        Object::Core(core) => Ok(core.read(rt, incoming, reader, links)),
        Object::Hands(hands) => Ok(hands.read(rt, incoming, reader, links)),
        _ => Err(Unanswered::BadLine),
    }
}

/// The objects that a `reader` line names.
#[derive(Clone, Copy)]
struct Reading<'a> {
    links: &'a [u8],
    from: &'a [u8],
    into: &'a [u8],
}

/// `reader LINKS INCOMING NAME EDITION SENDER ..`: reads the connection to its end into a core or into hands.
pub fn read_link<R: Wait + Copy + Drop>(
    rt: R,
    alloc: Global,
    objects: &mut Objects<R>,
    words: &mut Words<'_>,
    answer: &mut Answer,
) -> Result<(), Unanswered> {
    let reading = Reading {
        links: word(words)?,
        from: word(words)?,
        into: word(words)?,
    };
    let edition = edition(words)?;
    let senders = senders(alloc, words)?;
    let mut reader = FrameReader::new(alloc, edition, senders);
    let called = read_named(&rt, objects, reading, &mut reader, answer);
    if called.is_ok() && reader.is_starved() {
        Err(Unanswered::OutOfMemory)
    } else {
        called
    }
}

fn read_named<R: Wait + Copy + Drop>(
    rt: &R,
    objects: &mut Objects<R>,
    reading: Reading<'_>,
    reader: &mut FrameReader,
    answer: &mut Answer,
) -> Result<(), Unanswered>
    requires fresh { StandsFor reader.old [] [] }
    requires fed { reader.old.starved ≡ false }
{
    let mut held = objects.take(reading.from).ok_or(Unanswered::BadLine)?;
    let end = match &mut held {
        Object::Incoming(incoming) => read_from(rt, objects, reading, reader, incoming),
        _ => Err(Unanswered::BadLine),
    };
    objects.put(reading.from, held)?;
    put_end(end?, answer)
}

fn read_from<R: Wait + Copy + Drop>(
    rt: &R,
    objects: &mut Objects<R>,
    reading: Reading<'_>,
    reader: &mut FrameReader,
    incoming: &mut MemIncoming,
) -> Result<ReaderEnd, Unanswered>
    requires fresh { StandsFor reader.old [] [] }
    requires fed { reader.old.starved ≡ false }
{
    let mut object = objects.take(reading.into).ok_or(Unanswered::BadLine)?;
    let end = match objects.get(reading.links) {
        Some(Object::Links(links)) => read_into(rt, incoming, reader, links, &mut object),
        _ => Err(Unanswered::BadLine),
    };
    objects.put(reading.into, object)?;
    end
}

/// What a `writer` line names beside the connection.
#[derive(Clone, Copy)]
struct Writing<'a> {
    of: &'a [u8],
    edition: Edition,
    site: SiteId,
}

/// `writer OUTGOING FRAMES EDITION SITE`: writes the hello of a site and the frames of a source; `ended`, or `fault` and
/// its number.
pub fn write_link<R: Wait + Copy + Drop>(
    rt: R,
    objects: &mut Objects<R>,
    words: &mut Words<'_>,
    answer: &mut Answer,
) -> Result<(), Unanswered> {
    let name = word(words)?;
    let writing = Writing {
        of: word(words)?,
        edition: edition(words)?,
        site: words.site().ok_or(Unanswered::BadLine)?,
    };
    let mut held = objects.take(name).ok_or(Unanswered::BadLine)?;
    let called = match &mut held {
        Object::Outgoing(taking) => write_named(&rt, objects, &writing, taking, answer),
        _ => Err(Unanswered::BadLine),
    };
    objects.put(name, held)?;
    called
}

fn write_named<R: Wait + Copy + Drop>(
    rt: &R,
    objects: &mut Objects<R>,
    writing: &Writing<'_>,
    taking: &mut Taking,
    answer: &mut Answer,
) -> Result<(), Unanswered> {
    let mut held = objects.take(writing.of).ok_or(Unanswered::BadLine)?;
    let called = match &mut held {
        Object::Frames(frames) => write_frames(rt, writing, taking, frames, answer),
        _ => Err(Unanswered::BadLine),
    };
    objects.put(writing.of, held)?;
    called
}

fn write_frames<R: Wait>(
    rt: &R,
    writing: &Writing<'_>,
    taking: &mut Taking,
    frames: &mut Frames,
    answer: &mut Answer,
) -> Result<(), Unanswered> {
    if taking.outgoing.faults() == u64::MAX {
        return Err(Unanswered::BadLine);
    }
    let (edition, site) = (writing.edition, writing.site);
    let fault = run_writer(rt, &mut taking.outgoing, edition, site, frames);
    put_fault(fault, taking, answer)
}

fn put_fault(
    fault: Option<LinkFault>,
    taking: &Taking,
    answer: &mut Answer,
) -> Result<(), Unanswered> {
    match fault {
        None => answer.word("ended"),
        Some(fault) => {
            answer.word("fault")?;
            answer.word(fault.number())?;
            taking.after_failure()
        }
    }
}
