//! What lines of clients mean to a running site, and how its news reads.

ghost use Rattle.std.specs.Prelude.{◌≡◌, true, IfOk};
ghost use Rattle.cmh_client.specs.Http.{speaks_http};
ghost use Rattle.cmh_talk3.specs.Answers.{AnswersDeed, AnswersQuestion};
ghost use Rattle.cmh_talk3.specs.Said as spec;
ghost use Rattle.cmh_talk3.specs.Said.{MeansHere, WasSaid, line_in};
ghost use Rattle.cmh_talk3.specs.Texts.{news_text};

use crate::deed::{Deed, Question};
use crate::news::News;
use crate::said::{Said, parse, said_by};
use cmh_client::{Language, Meaning, Telling, speaks_http};
use cmh_console::Input;
use cmh_model3::{Event, ProcId};
use cmh_script3::read_line;
use std::alloc::{AllocError, Global};
use std::io::Write;

/// How a running site reads the lines of a client, and what it tells it.
#[derive(Drop)]
pub struct Lines {
    alloc: Global,
    buffer: Vec<u8>,
}

impl Lines {
    pub fn new(alloc: Global) -> Lines {
        Lines {
            alloc,
            buffer: Vec::new(alloc),
        }
    }
}

impl Language<Deed, Question> for Lines {
    ghost Means = { MeansHere };

    ghost Answers = { AnswersDeed };

    ghost Replies = { AnswersQuestion };

    fn same_event(&self, deed: &Deed, other: &Deed) -> bool {
        is_same(deed, other)
    }

    fn read(&mut self, line: &[u8]) -> Result<Meaning<Deed, Question>, AllocError> {
        let said = said_in(self.alloc, line, &mut self.buffer)?;
        Ok(meaning_of(said, line))
    }
}

impl Telling<News> for Lines {
    ghost line = { news_text };

    fn same_item(&self, item: &News, other: &News) -> bool {
        item == other
    }

    fn tell(&self, item: &News, text: &mut Vec<u8>) -> Result<(), AllocError> {
        match text.write_fmt(*item) {
            Ok(()) => Ok(()),
            Err(_) => Err(AllocError),
        }
    }
}

/// What a line says, its end left out; one that is too long is a bad one.
fn said_in(alloc: Global, line: &[u8], buffer: &mut Vec<u8>) -> Result<Said, AllocError>
    ensures { IfOk result (WasSaid (line_in line.now)) }
{
    let mut input = Input::new(line);
    let Ok(next) = read_line(&mut input, buffer) else {
        return Err(AllocError);
    };
    if next.is_end() {
        return parse(alloc, &[]);
    }
    said_by(alloc, next)
}

/// What a line means that says this. One of HTTP ends the connection, unless it says something else.
fn meaning_of(said: Said, line: &[u8]) -> Meaning<Deed, Question>
    ensures { result ≡ spec.meaning_of (speaks_http line.now) said }
{
    match said {
        Said::Silent => Meaning::Silence,
        Said::Deed(deed) => Meaning::Event(deed),
        Said::Question(Question::Bad) => {
            if speaks_http(line) {
                Meaning::Last
            } else {
                Meaning::Question(Question::Bad)
            }
        }
        Said::Question(question) => Meaning::Question(question),
        Said::Quit => Meaning::Last,
    }
}

/// Whether a deed of a client is the same as another one.
fn is_same(deed: &Deed, other: &Deed) -> bool
    ensures { result ≡ true → deed.now ≡ other.now }
{
    match deed {
        Deed::Event(event) => match other {
            Deed::Event(its) => is_same_event(event, its),
            Deed::WithdrawAll(_) => false,
        },
        Deed::WithdrawAll(process) => match other {
            Deed::WithdrawAll(its) => process == its,
            Deed::Event(_) => false,
        },
    }
}

/// The same of events. No line says that a message came, or that the clock is set forward.
fn is_same_event(event: &Event, other: &Event) -> bool
    ensures { result ≡ true → event.now ≡ other.now }
{
    match event {
        Event::Ask { asker, targets } => match other {
            Event::Ask {
                asker: its_asker,
                targets: its_targets,
            } => asker == its_asker && are_same(targets.as_slice(), its_targets.as_slice()),
            _ => false,
        },
        Event::Reply { holder, asker } => match other {
            Event::Reply {
                holder: its_holder,
                asker: its_asker,
            } => holder == its_holder && asker == its_asker,
            _ => false,
        },
        Event::Withdraw { asker, targets } => match other {
            Event::Withdraw {
                asker: its_asker,
                targets: its_targets,
            } => asker == its_asker && are_same(targets.as_slice(), its_targets.as_slice()),
            _ => false,
        },
        Event::Got { .. } => false,
        Event::Turn { .. } => false,
    }
}

fn are_same(some: &[ProcId], others: &[ProcId]) -> bool
    ensures { result ≡ true → some.now ≡ others.now }
{
    if some.len() != others.len() {
        return false;
    }
    for at in 0..some.len() {
        if some[at] != others[at] {
            return false;
        }
    }
    true
}
