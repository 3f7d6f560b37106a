//! A client of the site, whatever carries its bytes.

ghost use Rattle.cmh_client.specs.Lines.{HasFeed};

use crate::stepping::Site;
use crate::tail_text::{NoTail, TailText};
use crate::turning::number_of;
use cmh_client::{Client, Next, Wish};
use cmh_disk3::JournalFolder;
use cmh_talk3::{
    Deed, EventReply, Figures, Lines, News, Question, Reply, declared_before, reply_while_waiting,
};
use std::alloc::Global;
use std::fmt;

/// How many lines of a client are looked at in a turn, at most.
const MOST_LINES: usize = 64;

/// How many of the last entries a client is told at once, at most.
const MOST_TAIL: u16 = 1000;

/// A client: what it said, and what is to be said to it. An event of it waits for the next batch, and a question is answered at
/// once, but in the order of the lines.
#[derive(Drop)]
pub struct Talker {
    client: Client,
    lines: Lines,
    /// Memory was refused for what it says or is to be told.
    is_broken: bool,
}

impl Talker {
    /// One that has said nothing.
    pub fn new(alloc: Global) -> Talker {
        Talker {
            client: Client::new(alloc),
            lines: Lines::new(alloc),
            is_broken: false,
        }
    }

    pub fn is_broken(&self) -> bool {
        self.is_broken || self.client.is_closed()
    }

    /// Whether more bytes of it may be read.
    pub fn has_room(&self) -> bool {
        self.client.has_room()
    }

    /// Takes bytes that it sent.
    pub fn hear(&mut self, bytes: &[u8]) {
        self.is_broken |= self.client.hear(bytes).is_err();
    }

    /// Whether it has said more than was taken.
    pub fn has_lines(&self) -> bool {
        !self.is_broken && self.client.next() != Next::Nothing
    }

    /// Whether it said its last.
    pub fn is_leaving(&self) -> bool {
        self.client.is_leaving()
    }

    /// Whether all its lines were answered.
    pub fn is_answered(&self) -> bool {
        self.client.waiting() == 0
    }

    /// Takes lines of it: at most so many events wait for the next batch then, and other lines are answered. `place` is where
    /// the reply to an event goes.
    pub fn take_lines<D: JournalFolder>(
        &mut self,
        place: usize,
        most: usize,
        site: &mut Site<D>,
        figures: &Figures,
    ) {
        for _ in 0..MOST_LINES {
            if self.client.waiting() >= most || site.batch.is_full() || self.is_broken() {
                return;
            }
            if !self.take_line(place, site, figures) {
                return;
            }
        }
    }

    /// Takes a line, if there is one and it can be taken now.
    fn take_line<D: JournalFolder>(
        &mut self,
        place: usize,
        site: &mut Site<D>,
        figures: &Figures,
    ) -> bool {
        match self.client.wish(&mut self.lines) {
            Ok(Wish::Silence) => true,
            Ok(Wish::Question(Question::Tail(count))) => self.answer_tail(site, count),
            Ok(Wish::Question(Question::Turn)) => self.answer_turn(site),
            Ok(Wish::Question(question)) => self.answer_question(site, &question, figures),
            Ok(Wish::Event(deed)) => self.take_deed(place, site, deed),
            Ok(Wish::Nothing) => false,
            Err(_) => self.break_off(),
        }
    }

    fn break_off(&mut self) -> bool {
        self.is_broken = true;
        false
    }

    /// Has an event of it wait for the next batch, if there is room. Which waits a process gives up that gives up all is known
    /// only before other events are under way.
    fn take_deed<D: JournalFolder>(&mut self, place: usize, site: &mut Site<D>, deed: Deed) -> bool
        requires { HasFeed self.old.client.unread }
    {
        if site.is_waiting() {
            return self.reply(reply_while_waiting());
        }
        let event = match deed {
            Deed::Event(event) => Ok(event),
            Deed::WithdrawAll(process) => {
                if !site.batch.is_empty() {
                    return false;
                }
                site.withdrawal_of(process)
            }
        };
        let Ok(event) = event else {
            return self.break_off();
        };
        if self.client.waiting() >= MOST_LINES
            || self.client.make_room().is_err()
            || site.batch.take(place, event).is_err()
        {
            return self.break_off();
        }
        self.client.take();
        true
    }

    /// Answers a line at once.
    fn reply<T: fmt::Display + Drop>(&mut self, text: T) -> bool
        requires { HasFeed self.old.client.unread }
    {
        if self.client.reply(text).is_err() {
            return self.break_off();
        }
        true
    }

    /// Tells it the last so many entries, as the file of the journal has them, also behind what the site knows of.
    fn answer_tail<D: JournalFolder>(&mut self, site: &mut Site<D>, count: u16) -> bool
        requires { HasFeed self.old.client.unread }
    {
        if count > MOST_TAIL {
            return self.reply(Reply::BadLine);
        }
        match site.tail(usize::from(count)) {
            Ok(tail) => self.reply(TailText { tail: &tail }),
            Err(NoTail::Disk) => self.reply(EventReply::Refused(10)),
            Err(NoTail::Memory) => self.reply(EventReply::Refused(11)),
        }
    }

    /// Has the site begin its next epoch.
    fn answer_turn<D: JournalFolder>(&mut self, site: &mut Site<D>) -> bool
        requires { HasFeed self.old.client.unread }
    {
        match site.turn() {
            Ok(epoch) => self.reply(Reply::Turned(epoch)),
            Err(why) => self.reply(EventReply::Refused(number_of(why))),
        }
    }

    fn answer_question<D: JournalFolder>(
        &mut self,
        site: &mut Site<D>,
        question: &Question,
        figures: &Figures,
    ) -> bool
        requires { HasFeed self.old.client.unread }
    {
        let Ok(reply) = site.answer(question, figures) else {
            return self.break_off();
        };
        if self.client.reply(reply).is_err() {
            return self.break_off();
        }
        if let Question::Watch = question {
            self.watch(site);
        }
        true
    }

    /// From now on it is told news. First those that are declared now.
    fn watch<D: JournalFolder>(&mut self, site: &mut Site<D>) {
        self.client.watch();
        if site.teller.begin(&site.node).is_err() {
            self.is_broken = true;
        }
        match declared_before(site.alloc, site.node.controller()) {
            Ok(first) => self.tell(&first),
            Err(_) => self.is_broken = true,
        }
    }

    /// Answers the first of its events that wait.
    pub fn answer(&mut self, reply: EventReply) {
        if self.client.waiting() == 0 || self.client.answer(reply).is_err() {
            self.is_broken = true;
        }
    }

    /// Memory for a reply to it was refused: it is closed, so that no later reply stands in that place.
    pub fn give_up(&mut self) {
        self.is_broken = true;
    }

    pub fn watches(&self) -> bool {
        self.client.watches()
    }

    /// Tells it news, if it watches.
    pub fn tell(&mut self, news: &[News]) {
        if self.client.announce(&self.lines, news).is_err() {
            self.is_broken = true;
        }
    }

    /// What is to be sent to it.
    pub fn to_say(&self) -> &[u8] {
        self.client.to_say()
    }

    /// So many of these bytes were sent.
    pub fn said(&mut self, count: usize) {
        self.client.said(count);
    }
}
