//! What the clients that watch are to be told.

use cmh_controller3::{Controller, Outcome, Refusal as RuleRefusal};
use cmh_journaled::Refusal;
use cmh_model3::{Entry, Event, Message};
use cmh_node3::Node;
use cmh_station3::SegmentFile;
use cmh_talk3::{
    LeftPair, LinkStates, News, left_pairs, link_news, news_of_own, news_of_taken, states_of,
};
use std::alloc::{AllocError, Global};

/// The answer to an event.
pub type Answered = Result<Outcome, Refusal<RuleRefusal>>;

/// The news that was not told yet. While nobody watches none is kept. News for which memory is refused is left out.
#[derive(Drop)]
pub struct Teller {
    alloc: Global,
    news: Vec<News>,
    has_watchers: bool,
    /// How the links stood when they were looked at last.
    states: Vec<LinkStates>,
}

impl Teller {
    /// Nobody watches.
    pub fn new(alloc: Global) -> Teller {
        Teller {
            alloc,
            news: Vec::new(alloc),
            has_watchers: false,
            states: Vec::new(alloc),
        }
    }

    pub fn has_watchers(&self) -> bool {
        self.has_watchers
    }

    pub fn news(&self) -> &[News] {
        &self.news
    }

    /// All of it was told, and somebody watches still or not.
    pub fn told(&mut self, has_watchers: bool) {
        self.news.clear();
        self.has_watchers = has_watchers;
    }

    /// Somebody watches from now on.
    pub fn begin<F: SegmentFile>(&mut self, node: &Node<F>) -> Result<(), AllocError> {
        if !self.has_watchers {
            self.states = states_of(self.alloc, node)?;
            self.has_watchers = true;
        }
        Ok(())
    }

    /// What events of the site's own processes tell that were just answered.
    pub fn tell_own(&mut self, controller: &Controller, events: &[Event], answers: &[Answered]) {
        if self.has_watchers {
            if let Ok(more) = news_of_own(self.alloc, controller, events, answers) {
                self.put(&more);
            }
        }
    }

    /// Which waits that were given up messages end that are about to be taken.
    pub fn left_by(
        &self,
        controller: &Controller,
        messages: &[Message],
    ) -> Result<Vec<LeftPair>, AllocError> {
        left_pairs(self.alloc, controller, messages)
    }

    /// What these messages tell, as far as they were just taken.
    pub fn tell_taken<F: SegmentFile>(
        &mut self,
        node: &Node<F>,
        left: &[LeftPair],
        messages: &[Message],
    ) {
        if !are_of(node.last(), messages) {
            return;
        }
        if let Ok(more) = news_of_taken(self.alloc, node.controller(), left, node.last()) {
            self.put(&more);
        }
    }

    /// How the links have changed since they were looked at last.
    pub fn tell_links<F: SegmentFile>(&mut self, node: &Node<F>) {
        if !self.has_watchers {
            return;
        }
        let Ok(states) = states_of(self.alloc, node) else {
            return;
        };
        if let Ok(more) = link_news(self.alloc, &self.states, &states) {
            self.put(&more);
            self.states = states;
        }
    }

    fn put(&mut self, more: &[News]) {
        let _ = self.news.extend_from_slice(more);
    }
}

/// Whether entries are of the first of these messages, and no older ones.
fn are_of(entries: &[Entry<Event, Message>], messages: &[Message]) -> bool {
    if entries.len() > messages.len() {
        return false;
    }
    for at in 0..entries.len() {
        if !is_of(&entries[at].event, &messages[at]) {
            return false;
        }
    }
    true
}

fn is_of(event: &Event, message: &Message) -> bool {
    match event {
        Event::Got { clock, frame, .. } => *clock == message.clock && *frame == message.frame,
        _ => false,
    }
}
