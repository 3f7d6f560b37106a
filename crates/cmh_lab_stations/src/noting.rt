//! What a site notices, as lines, and how many of them are told in a second.

use crate::answer::{Answer, Unanswered};
use crate::links::{fault_of, state_of};
use crate::making::word;
use crate::object::{Object, Objects};
use crate::reading::{named, number};
use cmh_carriers::{Meter, Note, Noted, Origin};
use cmh_console::Words;
use cmh_frames::SiteId;
use std::sync::Wait;

fn site(words: &mut Words<'_>) -> Result<SiteId, Unanswered> {
    words.site().ok_or(Unanswered::BadLine)
}

/// The notes that a word alone says.
const PLAIN_NOTES: [(&str, Note); 6] = [
    ("strange", Note::StrangeHello),
    ("silent", Note::NoHello),
    ("full", Note::TurnedAway),
    ("deaf", Note::AcceptingEnded),
    ("thread", Note::NoThread),
    ("sealed", Note::Sealed),
];

/// The note that a word and a number say.
fn counted_note(word: &[u8], count: u64) -> Option<Note> {
    match word {
        b"kept" => Some(Note::Kept(u32::try_from(count).ok()?)),
        b"left" => Some(Note::LeftOut(count)),
        _ => None,
    }
}

/// The note that a word says of a site.
fn site_note(word: &[u8], site: SiteId, words: &mut Words<'_>) -> Result<Option<Note>, Unanswered> {
    Ok(Some(match word {
        b"refused" => Note::RefusedHello(site, state_of(words)?),
        b"out" => Note::ClosedOut(site, fault_of(number(words)?)?),
        b"in" => Note::ClosedIn(site, fault_of(number(words)?)?),
        b"link" => Note::NoThreadTo(site),
        _ => return Ok(None),
    }))
}

fn note_of(words: &mut Words<'_>) -> Result<Note, Unanswered> {
    let word = word(words)?;
    if let Some(note) = named(&PLAIN_NOTES, word) {
        return Ok(note);
    }
    let note = match word {
        b"kept" | b"left" => counted_note(word, number(words)?),
        _ => {
            let site = site(words)?;
            site_note(word, site, words)?
        }
    };
    note.ok_or(Unanswered::BadLine)
}

/// `note alone NOTE` or `note at SITE NOTE`: the line of a note. NOTE is `refused SITE STATE`, `strange`, `silent`,
/// `full`, `out SITE FAULT`, `in SITE FAULT`, `deaf`, `thread`, `link SITE`, `sealed`, `kept NUMBER` or `left COUNT`.
pub fn tell_note(words: &mut Words<'_>, answer: &mut Answer) -> Result<(), Unanswered> {
    let origin = match str::from_utf8(word(words)?) {
        Ok("alone") => Origin::Alone,
        Ok("at") => Origin::Site(site(words)?),
        _ => return Err(Unanswered::BadLine),
    };
    let note = note_of(words)?;
    answer.word(Noted { origin, note })
}

/// `meter NAME SECOND`: counts the notes of this second.
pub fn make_meter<R: Wait + Copy + Drop>(
    objects: &mut Objects<R>,
    words: &mut Words<'_>,
    answer: &mut Answer,
) -> Result<(), Unanswered> {
    let name = word(words)?;
    let meter = Meter::new(number(words)?);
    objects.put(name, Object::Meter(meter))?;
    answer.word("ok")
}

/// A call of a meter.
#[derive(Clone, Copy)]
enum Verb {
    Admit,
    Turn,
    Leave,
    Left,
}

const VERBS: [(&str, Verb); 4] = [
    ("admit", Verb::Admit),
    ("turn", Verb::Turn),
    ("leave", Verb::Leave),
    ("left", Verb::Left),
];

/// `admit`: whether one more is told; `turn SECOND`: how many were left out in the second before; `leave COUNT`; `left`.
pub fn call_meter(
    meter: &mut Meter,
    words: &mut Words<'_>,
    answer: &mut Answer,
) -> Result<(), Unanswered> {
    let verb = named(&VERBS, word(words)?).ok_or(Unanswered::BadLine)?;
    match verb {
        Verb::Admit => answer.word(meter.admit()),
        Verb::Turn => answer.word(meter.turn(number(words)?)),
        Verb::Leave => {
            meter.leave_out(number(words)?);
            answer.word("ok")
        }
        Verb::Left => answer.word(meter.left_out()),
    }
}
