//! What the words of a line spell: bytes, numbers, frames, events, topologies.

ghost use Rattle.std.specs.Prelude.{◌≢◌, ◌≤◌, IfOk};

use crate::answer::Unanswered;
use cmh_console::Words;
use cmh_frames::{Edition, Event, Frame, Probe, ProcId, Reply, Request, SiteId, SiteRow, Targets};
use std::alloc::Global;

/// What a word names in a table of words. The prover takes a table sooner than a `match` over texts.
pub fn named<C: Copy>(table: &[(&str, C)], word: &[u8]) -> Option<C> {
    for (name, meaning) in table {
        if name.as_bytes() == word {
            return Some(*meaning);
        }
    }
    None
}

/// The value of a digit.
fn digit(byte: u8, radix: u32) -> Option<u8>
    requires { (2 ≤ radix) × (radix ≤ 36) }
{
    match char::from(byte).to_digit(radix) {
        Some(value) => u8::try_from(value).ok(),
        None => None,
    }
}

/// Bytes that a word spells by hexadecimal digits, two each; `none` spells no bytes.
pub fn bytes_of(alloc: Global, words: &mut Words<'_>) -> Result<Vec<u8>, Unanswered> {
    let mut bytes = Vec::new(alloc);
    let Some(word) = words.next_word() else {
        return Err(Unanswered::BadLine);
    };
    if word == b"none".as_slice() {
        return Ok(bytes);
    }
    bytes.reserve(word.len() / 2)?;
    let mut rest = word;
    for _ in 0..word.len() {
        let [high, low, tail @ ..] = rest else {
            break;
        };
        let (Some(high), Some(low)) = (digit(*high, 16), digit(*low, 16)) else {
            return Err(Unanswered::BadLine);
        };
        bytes.push((high & 15) << 4 | low & 15)?;
        rest = tail;
    }
    if rest.is_empty() {
        Ok(bytes)
    } else {
        Err(Unanswered::BadLine)
    }
}

/// A number of decimal digits, zero too.
fn decimal(word: &[u8]) -> Option<u64> {
    let mut number = 0u64;
    if word.is_empty() {
        return None;
    }
    for byte in word {
        let digit = digit(*byte, 10)?;
        number = number.checked_mul(10)?.checked_add(u64::from(digit))?;
    }
    Some(number)
}

/// The number that the next word spells.
pub fn number(words: &mut Words<'_>) -> Result<u64, Unanswered> {
    match words.next_word() {
        Some(word) => decimal(word).ok_or(Unanswered::BadLine),
        None => Err(Unanswered::BadLine),
    }
}

/// The same, where it counts something in memory.
pub fn size(words: &mut Words<'_>) -> Result<usize, Unanswered> {
    let number = number(words)?;
    usize::try_from(number).ok().ok_or(Unanswered::BadLine)
}

/// The edition that the next word names.
pub fn edition(words: &mut Words<'_>) -> Result<Edition, Unanswered> {
    match words.next_word() {
        Some(b"1") => Ok(Edition::One),
        Some(b"2") => Ok(Edition::Two),
        _ => Err(Unanswered::BadLine),
    }
}

fn process(words: &mut Words<'_>) -> Result<ProcId, Unanswered> {
    words.process().ok_or(Unanswered::BadLine)
}

/// All processes that the words left name.
pub fn processes(alloc: Global, words: &mut Words<'_>) -> Result<Vec<ProcId>, Unanswered> {
    let mut processes = Vec::new(alloc);
    for _ in 0..u64::MAX {
        if words.is_empty() {
            break;
        }
        processes.push(process(words)?)?;
    }
    Ok(processes)
}

/// All sites that the words left name.
pub fn senders(alloc: Global, words: &mut Words<'_>) -> Result<Vec<SiteId>, Unanswered> {
    let mut sites = Vec::new(alloc);
    for _ in 0..u64::MAX {
        if words.is_empty() {
            break;
        }
        sites.push(words.site().ok_or(Unanswered::BadLine)?)?;
    }
    Ok(sites)
}

/// A frame, as `request 1 2`, `reply 2 1` or `probe 1 1 2`. The two ends of a frame differ.
pub fn frame(words: &mut Words<'_>) -> Result<Frame, Unanswered> {
    match words.next_word() {
        Some(b"request") => {
            let (asker, holder) = ends(words)?;
            Ok(Frame::Request(Request { asker, holder }))
        }
        Some(b"reply") => {
            let (holder, asker) = ends(words)?;
            Ok(Frame::Reply(Reply { holder, asker }))
        }
        Some(b"probe") => {
            let origin = process(words)?;
            let (from, to) = ends(words)?;
            Ok(Frame::Probe(Probe { origin, from, to }))
        }
        _ => Err(Unanswered::BadLine),
    }
}

/// Two processes that differ.
fn ends(words: &mut Words<'_>) -> Result<(ProcId, ProcId), Unanswered>
    ensures { IfOk result (λ ends. ends.0 ≢ ends.1) }
{
    let first = process(words)?;
    let second = process(words)?;
    if first == second {
        return Err(Unanswered::BadLine);
    }
    Ok((first, second))
}

/// Takes the next word, which must be this one.
fn expect(words: &mut Words<'_>, wanted: &[u8]) -> Result<(), Unanswered> {
    match words.next_word() {
        Some(word) if word == wanted => Ok(()),
        _ => Err(Unanswered::BadLine),
    }
}

/// A frame and the site that it goes to or comes from, as `request 1 2 to 2` with the word `to`.
pub fn sending(words: &mut Words<'_>, way: &[u8]) -> Result<(SiteId, Frame), Unanswered> {
    let frame = frame(words)?;
    expect(words, way)?;
    let site = words.site().ok_or(Unanswered::BadLine)?;
    Ok((site, frame))
}

/// An event, whose first word was read already: `ask 1 2 5`, `reply 2 1`, `start 1` or `got request 1 2 from 1`.
pub fn event(alloc: Global, first: &[u8], words: &mut Words<'_>) -> Result<Event, Unanswered> {
    match first {
        b"ask" => {
            let asker = process(words)?;
            let targets = Targets::new(processes(alloc, words)?);
            Ok(Event::Ask { asker, targets })
        }
        b"reply" => {
            let holder = process(words)?;
            let asker = process(words)?;
            Ok(Event::Reply { holder, asker })
        }
        b"start" => Ok(Event::Start {
            of: process(words)?,
        }),
        b"got" => {
            let (from, frame) = sending(words, b"from")?;
            Ok(Event::Got { from, frame })
        }
        _ => Err(Unanswered::BadLine),
    }
}

/// A number of a row, which may be none of a site or a process.
fn row_number(word: &[u8]) -> Result<u16, Unanswered> {
    match decimal(word) {
        Some(number) => u16::try_from(number).ok().ok_or(Unanswered::BadLine),
        None => Err(Unanswered::BadLine),
    }
}

/// The part of a word before a byte and the part after it; all of it and nothing where the byte is not there.
fn parted(word: &[u8], at: u8) -> (&[u8], &[u8]) {
    match word.iter().position(|byte| *byte == at) {
        Some(place) if place < word.len() => (&word[..place], &word[place + 1..]),
        _ => (word, &[]),
    }
}

/// A row of a topology, as `1:2,3`, or `1:` for no processes.
fn row(alloc: Global, word: &[u8]) -> Result<SiteRow, Unanswered> {
    let (site, mut rest) = parted(word, b':');
    let site = row_number(site)?;
    let mut processes = Vec::new(alloc);
    for _ in 0..word.len() {
        if rest.is_empty() {
            break;
        }
        let (process, behind) = parted(rest, b',');
        processes.push(row_number(process)?)?;
        rest = behind;
    }
    Ok(SiteRow { site, processes })
}

/// The rows that the words left spell.
pub fn rows(alloc: Global, words: &mut Words<'_>) -> Result<Vec<SiteRow>, Unanswered> {
    let mut rows = Vec::new(alloc);
    for _ in 0..u64::MAX {
        let Some(word) = words.next_word() else {
            break;
        };
        rows.push(row(alloc, word)?)?;
    }
    Ok(rows)
}
