//! The site with what its clients have for it.

ghost use Rattle.std.specs.Prelude.{◌≡◌, ◌⊎◌, []};
ghost use Rattle.cmh_clients3.specs.Replies.{Replied};

use crate::batch::Batch;
use crate::meeting::Meeting;
use crate::noting::Noting;
use crate::replying::step_all;
use crate::tail_text::{NoTail, tail_of};
use crate::telling::Teller;
use cmh_disk3::{JournalFolder, SegmentReader, Tail};
use cmh_model3::{Event, ProcId, Targets};
use cmh_node3::Node;
use cmh_talk3::{EventReply, Figures, Question, Reply, answer_question};
use std::alloc::{AllocError, Global};

/// A site, the events that it is given next, and what its clients and its operator were not told yet.
#[derive(Drop)]
pub struct Site<D: JournalFolder> {
    pub alloc: Global,
    pub node: Node<D::File>,
    /// The folder of its journal.
    pub folder: D,
    /// The file of its newest segment, to look at; none where it could not be opened.
    pub reader: Option<SegmentReader>,
    pub batch: Batch,
    pub replies: Vec<EventReply>,
    pub teller: Teller,
    pub meeting: Meeting,
    pub noting: Noting,
}

impl<D: JournalFolder> Site<D> {
    /// Gives the events of the batch to the site, and keeps the reply to each, in their order. Where memory for the replies is
    /// refused there is none, and the site was given no event.
    pub fn step(&mut self)
        ensures replied { Replied D.File.told D.File.has_failed self.old.node self.old.batch.events self.new.replies.items self.new.node
            ⊎ ((self.new.replies.items ≡ []) × (self.new.node ≡ self.old.node)) }
        ensures batch { self.new.batch ≡ self.old.batch }
    {
        match step_all(
            self.alloc,
            &mut self.node,
            self.batch.events(),
            &mut self.teller,
        ) {
            Ok(replies) => self.replies = replies,
            Err(_) => self.replies.clear(),
        }
    }

    /// The event by which a process gives up all its waits.
    pub fn withdrawal_of(&self, process: ProcId) -> Result<Event, AllocError> {
        let waits = self.node.controller().waits_of(self.alloc, process)?;
        Ok(Event::Withdraw {
            asker: process,
            targets: Targets::new(waits),
        })
    }

    /// Whether events are refused until each link has answered. A site that has stopped refuses them for that.
    pub fn is_waiting(&self) -> bool {
        !self.meeting.is_over() && self.node.sealed().is_none()
    }

    /// The answer to a question, but for one about the last entries.
    pub fn answer(&self, question: &Question, figures: &Figures) -> Result<Reply, AllocError> {
        answer_question(self.alloc, &self.node, question, figures)
    }

    /// The last so many entries of its newest segment.
    pub fn tail(&mut self, count: usize) -> Result<Tail, NoTail> {
        match &mut self.reader {
            Some(reader) => tail_of(self.alloc, reader, count),
            None => Err(NoTail::Disk),
        }
    }

    /// Looks how its links stand, for those who wait for that.
    pub fn look(&mut self, second: u64) {
        self.meeting.look(&self.node);
        self.noting.look(&self.node, &self.meeting, second);
        self.teller.tell_links(&self.node);
    }
}
