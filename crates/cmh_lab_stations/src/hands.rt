//! What takes the frames of a link, and what gives them.

ghost use Rattle.std.specs.Prelude.{◌≡◌, ◌<◌, ◌-◌, ◌^◌, None, [], false};
ghost use Rattle.cmh_reader.specs.Reader.{StandsFor};

use crate::answer::{Answer, Unanswered};
use crate::making::word;
use crate::object::{Object, Objects};
use crate::reading::{frame, number, size};
use crate::telling::refusal_of;
use cmh_carriers::MemIncoming;
use cmh_console::Words;
use cmh_frames::{Frame, SiteId};
use cmh_links::{FrameSource, Handover, Next, ReaderEnd, SharedLinks, run_reader};
use cmh_reader::FrameReader;
use cmh_station::StationRefusal;
use std::alloc::Global;
use std::sync::Wait;

/// How many frames are listed.
const MOST: usize = 64;

/// Lists frames, and refuses those after so many. It tells no contract its list.
#[derive(Drop)]
pub struct Hands {
    got: Vec<(SiteId, Frame)>,
    most: usize,
    refusal: StationRefusal,
    refused: Option<StationRefusal>,
}

impl Handover for Hands {
    ghost accepted = { λ _. None };

    ghost refused = { λ s. s.refused };

    fn hand(&mut self, from: SiteId, frame: Frame) -> Result<(), StationRefusal> {
        if self.got.len() < self.most && self.got.push((from, frame)).is_ok() {
            return Ok(());
        }
        self.refused = Some(self.refusal);
        Err(self.refusal)
    }
}

/// `hands NAME [COUNT REFUSAL]`: takes so many frames, and then refuses by this number.
pub fn make_hands<R: Wait + Copy + Drop>(
    alloc: Global,
    objects: &mut Objects<R>,
    words: &mut Words<'_>,
    answer: &mut Answer,
) -> Result<(), Unanswered> {
    let name = word(words)?;
    let (most, refusal) = if words.is_empty() {
        (MOST, StationRefusal::Full)
    } else {
        let most = size(words)?;
        (most, refusal_of(number(words)?)?)
    };
    let hands = Hands {
        got: Vec::with_capacity(alloc, MOST)?,
        most: most.min(MOST),
        refusal,
        refused: None,
    };
    objects.put(name, Object::Hands(hands))?;
    answer.word("ok")
}

impl Hands {
    /// Reads a connection to its end. It has refused nothing yet, as far as this reader knows.
    pub fn read<R: Wait>(
        &mut self,
        rt: &R,
        incoming: &mut MemIncoming,
        reader: &mut FrameReader,
        links: &SharedLinks,
    ) -> ReaderEnd
        requires fresh { StandsFor reader.old [] [] }
        requires fed { reader.old.starved ≡ false }
        requires faults { incoming.old.faults < 2 ^ 64 - 1 }
    {
        self.refused = None;
        run_reader(rt, incoming, reader, links, self)
    }

    /// The frames that it has, each with its site.
    pub fn call(&self, answer: &mut Answer) -> Result<(), Unanswered> {
        if self.got.is_empty() {
            return answer.word("none");
        }
        for (i, (from, frame)) in self.got.iter().enumerate() {
            if i > 0 {
                answer.word("/")?;
            }
            answer.word(*frame)?;
            answer.word("from")?;
            answer.word(*from)?;
        }
        Ok(())
    }
}

/// Gives frames, and looks between them, so many times over. It tells no contract which.
#[derive(Drop)]
pub struct Frames {
    turns: Vec<Next>,
    times: u64,
    at: usize,
    over: bool,
}

impl Frames {
    /// What comes next, which stays there.
    fn ahead(&mut self) -> Next {
        if self.at >= self.turns.len() {
            self.times = self.times.saturating_sub(1);
            self.at = 0;
        }
        match self.turns.get(self.at) {
            Some(next) if self.times > 0 => *next,
            _ => Next::End,
        }
    }
}

impl FrameSource for Frames {
    ghost given = { λ _. None };

    ghost is_over = { λ s. s.over };

    ghost link_to = { λ _. 0 };

    fn next(&mut self) -> Next {
        let next = self.ahead();
        self.at = self.at.saturating_add(1);
        if next == Next::End {
            self.over = true;
        }
        next
    }

    fn try_next(&mut self) -> Option<Frame> {
        match self.ahead() {
            Next::Frame(frame) => {
                self.at = self.at.saturating_add(1);
                Some(frame)
            }
            Next::Look | Next::End => None,
        }
    }
}

/// `frames NAME TIMES FRAME / FRAME ..`: a source that gives these, so many times over. `look` in place of `/` is a look
/// after the frame.
pub fn make_frames<R: Wait + Copy + Drop>(
    alloc: Global,
    objects: &mut Objects<R>,
    words: &mut Words<'_>,
    answer: &mut Answer,
) -> Result<(), Unanswered> {
    let name = word(words)?;
    let times = number(words)?;
    let mut turns = Vec::new(alloc);
    for _ in 0..u64::MAX {
        if words.is_empty() {
            break;
        }
        turns.push(Next::Frame(frame(words)?))?;
        match words.next_word() {
            None | Some(b"/") => {}
            Some(b"look") => turns.push(Next::Look)?,
            Some(_) => return Err(Unanswered::BadLine),
        }
    }
    let frames = Frames {
        turns,
        times,
        at: 0,
        over: false,
    };
    objects.put(name, Object::Frames(frames))?;
    answer.word("ok")
}
