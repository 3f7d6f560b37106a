//! The notes of a site that were not told yet.

use crate::meeting::Meeting;
use crate::note::SiteNote;
use cmh_carriers::Meter;
use cmh_model3::SiteId;
use cmh_node3::Node;
use cmh_station3::SegmentFile;
use cmh_talk3::{IntoState, LinkStates, News, OutState, link_news, states_of};
use std::alloc::{AllocError, Global};

/// How many notes wait to be told, at most.
const MOST_WAITING: usize = 64;

/// A link that was open since the site was started.
#[derive(Clone, Copy, PartialEq, Eq)]
enum Opened {
    Out(SiteId),
    Into(SiteId),
}

/// What a site notes, where somebody wants to know it: how its links change, why it is sealed, and that it has met the others.
///
/// At most 64 notes wait, and at most ten are told in a second. Further ones are counted.
#[derive(Drop)]
pub struct Noting {
    alloc: Global,
    is_on: bool,
    waiting: Vec<SiteNote>,
    meter: Meter,
    /// How the links stood when they were looked at last.
    states: Vec<LinkStates>,
    opened: Vec<Opened>,
    is_sealed: bool,
    has_met: bool,
}

impl Noting {
    /// Nobody wants notes.
    pub fn none(alloc: Global) -> Noting {
        Noting {
            alloc,
            is_on: false,
            waiting: Vec::new(alloc),
            meter: Meter::new(0),
            states: Vec::new(alloc),
            opened: Vec::new(alloc),
            is_sealed: false,
            has_met: true,
        }
    }

    /// Notes are made from now on of a site that has just been opened.
    pub fn of<F: SegmentFile>(
        alloc: Global,
        node: &Node<F>,
        meeting: &Meeting,
    ) -> Result<Noting, AllocError> {
        let mut noting = Noting::none(alloc);
        noting.is_on = true;
        noting.waiting.reserve(MOST_WAITING)?;
        noting.states = states_of(alloc, node)?;
        noting.has_met = meeting.is_over();
        if !noting.has_met {
            noting.put(SiteNote::Waits);
        }
        Ok(noting)
    }

    /// Notes what has changed since it looked last.
    pub fn look<F: SegmentFile>(&mut self, node: &Node<F>, meeting: &Meeting, second: u64) {
        if !self.is_on {
            return;
        }
        let left_out = self.meter.turn(second);
        if left_out > 0 {
            self.put(SiteNote::LeftOut(left_out));
        }
        self.look_at_links(node);
        if let Some(why) = node.sealed() {
            if !self.is_sealed {
                self.is_sealed = true;
                self.put(SiteNote::from(why));
            }
        }
        if !self.has_met && meeting.is_over() {
            self.has_met = true;
            self.put(SiteNote::Met);
        }
    }

    fn look_at_links<F: SegmentFile>(&mut self, node: &Node<F>) {
        let Ok(states) = states_of(self.alloc, node) else {
            return;
        };
        let Ok(news) = link_news(self.alloc, &self.states, &states) else {
            return;
        };
        self.states = states;
        for item in &news {
            match *item {
                News::Out(site, state) => self.note_out(site, state),
                News::Into(site, state) => self.note_into(site, state),
                _ => {}
            }
        }
    }

    fn note_out(&mut self, site: SiteId, state: OutState) {
        let note = match state {
            OutState::Open if self.opens(Opened::Out(site)) => SiteNote::OutOpen(site),
            OutState::Open => SiteNote::OutAgain(site),
            OutState::Down(kept) => SiteNote::OutDown(site, kept),
            OutState::Refused(number) => SiteNote::OutRefused(site, number),
        };
        self.put(note);
    }

    fn note_into(&mut self, site: SiteId, state: IntoState) {
        let note = match state {
            IntoState::Open if self.opens(Opened::Into(site)) => SiteNote::InOpen(site),
            IntoState::Open => SiteNote::InAgain(site),
            IntoState::Resting => SiteNote::InEnded(site),
            IntoState::Closed => SiteNote::InClosed(site),
        };
        self.put(note);
    }

    /// Whether a link that opens opens for the first time. Where memory is refused it is the first time again.
    fn opens(&mut self, link: Opened) -> bool {
        if self.opened.contains(&link) {
            return false;
        }
        let _ = self.opened.push(link);
        true
    }

    fn put(&mut self, note: SiteNote) {
        if self.waiting.len() >= MOST_WAITING {
            self.meter.leave_out(1);
            return;
        }
        if self.waiting.push(note).is_err() {
            self.meter.leave_out(1);
        }
    }

    /// Whether a note waits.
    pub fn has_note(&self) -> bool {
        !self.waiting.is_empty()
    }

    /// The next note that is to be told. One that comes too fast is passed over.
    pub fn next(&mut self) -> Option<SiteNote> {
        for _ in 0..MOST_WAITING {
            if self.waiting.is_empty() {
                return None;
            }
            let note = self.waiting.remove(0);
            if self.meter.admit() {
                return Some(note);
            }
        }
        None
    }
}
