//! What a station and its core, alone or shared, have in common: events, and frames that are taken from taps.

ghost use Rattle.std.specs.Prelude.{◌≤◌, length};
ghost use Rattle.cmh_station.specs.Journaled.{batch_limit};

use crate::answer::{Answer, Unanswered};
use crate::disk::Disk;
use crate::reading::{event, named, size};
use crate::telling::{put_entries, put_step, put_steps};
use cmh_console::{Words, number};
use cmh_frames::{Entry, Event, Frame, Outcome, ProcId, SiteId, Targets};
use cmh_journal::Sink;
use cmh_station::{BATCH_LIMIT, StationRefusal};
use std::alloc::Global;

/// What many events are answered.
pub type Steps = Result<Vec<Result<Outcome, StationRefusal>>, StationRefusal>;

/// What takes events and gives frames.
pub trait Stepping {
    fn step(&mut self, event: &Event) -> Result<Outcome, StationRefusal>;

    fn step_all(&mut self, events: &[Event]) -> Steps
        requires { length events.now ≤ batch_limit };

    fn step_until(&mut self, events: &[Event]) -> Steps
        requires { length events.now ≤ batch_limit };

    fn release(&mut self);

    /// The next frame of the link to a site; `None` where there is no such link.
    fn take(&mut self, site: SiteId) -> Option<Option<Frame>>;
}

/// Processes up to a stroke or to the end.
fn targets(alloc: Global, words: &mut Words<'_>) -> Result<Targets, Unanswered> {
    let mut targets = Vec::new(alloc);
    for _ in 0..u64::MAX {
        let Some(word) = words.next_word() else {
            break;
        };
        if word == b"/".as_slice() {
            break;
        }
        let process = match number(word) {
            Some(number) => ProcId::new(number),
            None => None,
        };
        targets.push(process.ok_or(Unanswered::BadLine)?)?;
    }
    Ok(Targets::new(targets))
}

/// Events with a stroke between two.
fn events(alloc: Global, words: &mut Words<'_>) -> Result<Vec<Event>, Unanswered> {
    let mut events = Vec::new(alloc);
    for _ in 0..u64::MAX {
        let Some(first) = words.next_word() else {
            break;
        };
        if first == b"ask".as_slice() {
            let asker = words.process().ok_or(Unanswered::BadLine)?;
            let targets = targets(alloc, words)?;
            events.push(Event::Ask { asker, targets })?;
        } else if first != b"/".as_slice() {
            events.push(event(alloc, first, words)?)?;
        }
    }
    Ok(events)
}

fn steps<T: Stepping>(
    stepping: &mut T,
    events: &[Event],
    stops: bool,
) -> Result<Steps, Unanswered> {
    if events.len() > BATCH_LIMIT {
        Err(Unanswered::BadLine)
    } else if stops {
        Ok(stepping.step_until(events))
    } else {
        Ok(stepping.step_all(events))
    }
}

/// `times COUNT EVENT / EVENT ..`: takes the events in turn, so many times over; answers how many steps were taken.
fn step_times<T: Stepping>(
    alloc: Global,
    stepping: &mut T,
    words: &mut Words<'_>,
    answer: &mut Answer,
) -> Result<(), Unanswered> {
    let rounds = size(words)?;
    let events = events(alloc, words)?;
    let mut taken = 0u64;
    for _ in 0..rounds {
        for event in &events {
            if stepping.step(event).is_ok() {
                taken = taken.saturating_add(1);
            }
        }
    }
    answer.word("taken")?;
    answer.word(taken)
}

/// A call that is no event.
#[derive(Clone, Copy)]
enum Verb {
    All,
    Until,
    Times,
    Release,
    Take,
}

const VERBS: [(&str, Verb); 5] = [
    ("all", Verb::All),
    ("until", Verb::Until),
    ("times", Verb::Times),
    ("release", Verb::Release),
    ("take", Verb::Take),
];

/// `all EVENT / EVENT ..`, `until EVENT / EVENT ..`, `times COUNT EVENT / EVENT ..`, `release`, `take SITE`, or an
/// event.
pub fn call_stepping<T: Stepping>(
    alloc: Global,
    stepping: &mut T,
    first: &[u8],
    words: &mut Words<'_>,
    answer: &mut Answer,
) -> Result<(), Unanswered> {
    let Some(verb) = named(&VERBS, first) else {
        let event = event(alloc, first, words)?;
        return put_step(&stepping.step(&event), answer);
    };
    match verb {
        Verb::All => {
            let events = events(alloc, words)?;
            put_steps(&steps(stepping, &events, false)?, answer)
        }
        Verb::Until => {
            let events = events(alloc, words)?;
            put_steps(&steps(stepping, &events, true)?, answer)
        }
        Verb::Times => step_times(alloc, stepping, words, answer),
        Verb::Release => {
            stepping.release();
            answer.word("ok")
        }
        Verb::Take => {
            let site = words.site().ok_or(Unanswered::BadLine)?;
            match stepping.take(site) {
                None => answer.word("no link"),
                Some(None) => answer.word("none"),
                Some(Some(frame)) => answer.word(frame),
            }
        }
    }
}

/// What `look` shows.
#[derive(Clone, Copy)]
enum Shown {
    Journal,
    Entries,
    Sealed,
    Bytes,
    Faults,
}

const SHOWN: [(&str, Shown); 5] = [
    ("journal", Shown::Journal),
    ("entries", Shown::Entries),
    ("sealed", Shown::Sealed),
    ("bytes", Shown::Bytes),
    ("faults", Shown::Faults),
];

/// `journal`, `entries`, `sealed`, `bytes` and `faults`; answers whether it was one of these.
pub fn look(
    entries: &[Entry],
    sealed: bool,
    disk: &Disk,
    first: &[u8],
    answer: &mut Answer,
) -> Result<bool, Unanswered> {
    let Some(shown) = named(&SHOWN, first) else {
        return Ok(false);
    };
    match shown {
        Shown::Journal => put_entries(entries, answer)?,
        Shown::Entries => answer.word(entries.len())?,
        Shown::Sealed => answer.word(sealed)?,
        Shown::Bytes => answer.bytes(disk.bytes())?,
        Shown::Faults => answer.word(disk.faults())?,
    }
    Ok(true)
}
