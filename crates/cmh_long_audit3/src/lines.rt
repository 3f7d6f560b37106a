//! What an audit of several epochs writes of stops and of runs.

use crate::places::{Place, epoch_in, place_of};
use cmh_audit3::Stop;
use cmh_files3::EntryText;
use cmh_model3::{Event, SiteId};
use cmh_segment3::Segment;
use cmh_wire3::Epoch;
use std::alloc::{AllocError, Global};
use std::fmt::Write;

/// A line for each stop: its site, and the number of the entry in its segment, with the epoch of that where it is not the one
/// that the audit names.
pub fn stop_lines(
    alloc: Global,
    wholes: &[Segment],
    stops: &[Stop],
    epoch: Epoch,
) -> Result<String, AllocError> {
    let mut text = String::new(alloc);
    for stop in stops {
        write_stop(&mut text, "stop", wholes, *stop, epoch)?;
        text.push_str("\n")?;
    }
    Ok(text)
}

/// A word, a site, and the place of its entry.
fn write_stop(
    text: &mut String,
    word: &str,
    wholes: &[Segment],
    stop: Stop,
    named: Epoch,
) -> Result<(), AllocError> {
    let site = stop.site;
    let Place { epoch, entry } = place_of(wholes, site, stop.entry);
    write!(text, "{word} {site} at {entry}")?;
    if epoch != named {
        let number = epoch.get();
        write!(text, " of epoch {number}")?;
    }
    Ok(())
}

/// The lines with the reasons of stops, as an audit of whole journals has them, with the place of each stop in its segment.
pub fn placed_reasons(
    alloc: Global,
    wholes: &[Segment],
    stops: &[Stop],
    named: Epoch,
    reasons: &str,
) -> Result<String, AllocError> {
    let mut text = String::new(alloc);
    let mut left = reasons;
    for stop in stops {
        let Some((line, rest)) = left.split_once('\n') else {
            return Ok(text);
        };
        left = rest;
        write_stop(&mut text, "why", wholes, *stop, named)?;
        text.push_str(behind_front(alloc, line, *stop)?)?;
        text.push_str("\n")?;
    }
    Ok(text)
}

/// What stands behind the site and the entry's number in the line with a stop's reason.
fn behind_front(alloc: Global, line: &str, stop: Stop) -> Result<&str, AllocError> {
    let site = stop.site;
    let entry = stop.entry;
    let mut front = String::new(alloc);
    write!(front, "why {site} at {entry}")?;
    match line.strip_prefix(front.as_str()) {
        Some(rest) => Ok(rest),
        None => Ok(line),
    }
}

/// A line for each entry of a run in this order, with its number in its segment, and one for each turn.
pub fn run_lines(
    alloc: Global,
    wholes: &[Segment],
    order: &[SiteId],
) -> Result<String, AllocError> {
    let mut taken = Vec::new(alloc);
    for _ in 0..wholes.len() {
        taken.push(Taken {
            entries: 0,
            turned: 0,
        })?;
    }
    let mut text = String::new(alloc);
    for site in order {
        for (i, whole) in wholes.iter().enumerate() {
            if whole.header.site == *site {
                if let Some(taken) = taken.get_mut(i) {
                    write_next(&mut text, whole, taken)?;
                }
            }
        }
    }
    Ok(text)
}

/// How far a run has come in a whole journal.
#[derive(Clone, Copy)]
struct Taken {
    /// How many entries it has, turns among them.
    entries: usize,
    /// How many up to the newest turn.
    turned: usize,
}

/// The line of the next entry.
fn write_next(text: &mut String, whole: &Segment, taken: &mut Taken) -> Result<(), AllocError> {
    let site = whole.header.site;
    let Some(entry) = whole.entries.as_slice().get(taken.entries) else {
        return Ok(());
    };
    taken.entries = taken.entries.saturating_add(1);
    if let Event::Turn { clock } = &entry.event {
        taken.turned = taken.entries;
        let epoch = epoch_in(clock.get()).get();
        write!(text, "{site} epoch {epoch}\n")?;
        return Ok(());
    }
    let number = taken.entries.saturating_sub(taken.turned);
    let line = EntryText { entry };
    write!(text, "{site} {number} {line}\n")?;
    Ok(())
}
