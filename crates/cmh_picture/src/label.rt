//! The words of labels.

use crate::words::{EventText, FrameText, ask_word};
use cmh_draw::{DrawnEvent, DrawnFrame};
use cmh_frames::{Event, ProcId, SiteId};
use cmh_model3::Event as Event3;
use std::fmt;

/// What a process did. Of many that it named, the first are told and the others counted.
#[derive(Clone, Copy)]
pub struct StepText<'a> {
    pub event: &'a DrawnEvent,
}

/// How many of these processes a label tells where it doesn't tell them all.
const NAMED: usize = 3;

impl<'a> fmt::Display for StepText<'a> {
    fn fmt<W: fmt::Write>(&self, f: &mut fmt::Formatter<W>) -> fmt::Result {
        match many_of(self.event) {
            Some(
                Many {
                    word,
                    process,
                    targets,
                },
            ) => {
                write!(f, "{word} {process}")?;
                for target in targets.iter().take(NAMED) {
                    write!(f, " {target}")?;
                }
                let more = targets.len().saturating_sub(NAMED);
                write!(f, " and {more} more")
            }
            None => {
                let text = EventText { event: self.event };
                write!(f, "{text}")
            }
        }
    }
}

/// More processes than a label tells, and which process named them by which word.
#[derive(Clone, Copy)]
struct Many<'a> {
    word: &'static str,
    process: ProcId,
    targets: &'a [ProcId],
}

fn many_of(event: &DrawnEvent) -> Option<Many<'_>> {
    let many = match event {
        DrawnEvent::Older(Event::Ask { asker, targets }) => Many {
            word: "ask",
            process: *asker,
            targets: targets.as_slice(),
        },
        DrawnEvent::Newer(Event3::Ask { asker, targets }) => Many {
            word: ask_word(targets.as_slice()),
            process: *asker,
            targets: targets.as_slice(),
        },
        DrawnEvent::Newer(Event3::Withdraw { asker, targets }) => Many {
            word: "withdraw",
            process: *asker,
            targets: targets.as_slice(),
        },
        _ => return None,
    };
    if many.targets.len() > NAMED + 2 {
        Some(many)
    } else {
        None
    }
}

#[derive(Clone, Copy)]
pub struct SiteText {
    pub site: SiteId,
}

impl fmt::Display for SiteText {
    fn fmt<W: fmt::Write>(&self, f: &mut fmt::Formatter<W>) -> fmt::Result {
        let site = self.site;
        write!(f, "site {site}")
    }
}

/// A frame that nobody got, and the site that it goes to.
#[derive(Clone, Copy)]
pub struct OpenText {
    pub frame: DrawnFrame,
    pub to: SiteId,
}

impl fmt::Display for OpenText {
    fn fmt<W: fmt::Write>(&self, f: &mut fmt::Formatter<W>) -> fmt::Result {
        let frame = FrameText { frame: self.frame };
        let to = self.to;
        write!(f, "{frame} to {to}")
    }
}

#[derive(Clone, Copy)]
pub struct StopText {
    pub number: usize,
}

impl fmt::Display for StopText {
    fn fmt<W: fmt::Write>(&self, f: &mut fmt::Formatter<W>) -> fmt::Result {
        let number = self.number;
        write!(f, "stop at {number}")
    }
}
