//! What a mark tells, in the words of its edition.

ghost use Rattle.std.specs.Prelude.{◌≡◌, Some};
ghost use Rattle.cmh_picture.specs.Words as spec;

use cmh_draw::{Declared, DrawnEvent, DrawnFrame};
use cmh_files::EventText as OlderText;
use cmh_frames::{Event, ProcessesText};
use cmh_model3::{Event as Event3, ProcId, SiteId};
use cmh_script3::FrameText as NewerText;
use std::fmt;

/// A frame by its name and its numbers.
#[derive(Clone, Copy)]
pub struct FrameText {
    pub frame: DrawnFrame,
}

impl fmt::Display for FrameText {
    ghost output = { λ text. Some (spec.frame_text text.frame) };

    fn fmt<W: fmt::Write>(&self, f: &mut fmt::Formatter<W>) -> fmt::Result {
        match self.frame {
            DrawnFrame::Older(frame) => write!(f, "{frame}"),
            DrawnFrame::Newer(frame) => {
                let text = NewerText { frame };
                write!(f, "{text}")
            }
        }
    }
}

/// What happened, in the words of the line that asks for it or of the answer that tells it.
#[derive(Drop)]
pub struct EventText<'a> {
    pub event: &'a DrawnEvent,
}

impl<'a> fmt::Display for EventText<'a> {
    ghost output = { λ text. Some (spec.event_text text.event.now) };

    fn fmt<W: fmt::Write>(&self, f: &mut fmt::Formatter<W>) -> fmt::Result {
        match self.event {
            DrawnEvent::Older(event) => {
                let text = OlderText { event };
                write!(f, "{text}")
            }
            DrawnEvent::Newer(event) => {
                let text = NewerEventText { event };
                write!(f, "{text}")
            }
        }
    }
}

#[derive(Drop)]
struct NewerEventText<'a> {
    event: &'a Event3,
}

impl<'a> fmt::Display for NewerEventText<'a> {
    ghost output = { λ text. Some (spec.newer_text text.event.now) };

    fn fmt<W: fmt::Write>(&self, f: &mut fmt::Formatter<W>) -> fmt::Result {
        match self.event {
            Event3::Ask { asker, targets } => {
                let word = ask_word(targets.as_slice());
                let targets = ProcessesText {
                    processes: targets.as_slice(),
                };
                write!(f, "{word} {asker}{targets}")
            }
            Event3::Reply { holder, asker } => write!(f, "reply {holder} {asker}"),
            Event3::Withdraw { asker, targets } => {
                let targets = ProcessesText {
                    processes: targets.as_slice(),
                };
                write!(f, "withdraw {asker}{targets}")
            }
            Event3::Got { from, frame, .. } => {
                let frame = NewerText { frame: *frame };
                write!(f, "got {frame} from {from}")
            }
            Event3::Turn { .. } => write!(f, "turn"),
        }
    }
}

/// An ask of nobody is a start.
pub fn ask_word(targets: &[ProcId]) -> &'static str
    ensures { result.now ≡ spec.ask_word targets.now }
{
    if targets.is_empty() { "start" } else { "ask" }
}

/// The process that was declared, with the stop at which its cycle stood if its edition names one.
#[derive(Clone, Copy)]
pub struct DeclaredText {
    pub declared: Declared,
}

impl fmt::Display for DeclaredText {
    ghost output = { λ text. Some (spec.declared_text text.declared) };

    fn fmt<W: fmt::Write>(&self, f: &mut fmt::Formatter<W>) -> fmt::Result {
        let process = self.declared.process;
        match self.declared.stop {
            Some(stop) => write!(f, "declared {process} at {stop}"),
            None => write!(f, "declared {process}"),
        }
    }
}

/// The frame that an event got, and the site that sent it; none of an event of the site's own.
pub fn got_of(event: &DrawnEvent) -> Option<(SiteId, DrawnFrame)> {
    match event {
        DrawnEvent::Older(Event::Got { from, frame }) => Some((*from, DrawnFrame::Older(*frame))),
        DrawnEvent::Newer(Event3::Got { from, frame, .. }) => {
            Some((*from, DrawnFrame::Newer(*frame)))
        }
        _ => None,
    }
}
