//! What lines of clients mean to a service, and how its news reads.

ghost use Rattle.std.specs.Prelude.{◌≡◌, true, IfOk, Some};
ghost use Rattle.cmh_client.specs.Http.{speaks_http};
ghost use Rattle.cmh_console.specs.Dialogue.{line_in};
ghost use Rattle.cmh_talk.specs.Means.{MeansHere, meaning_of};
ghost use Rattle.cmh_talk.specs.Replies.{AnswersEvent, AnswersQuestion};
ghost use Rattle.cmh_talk.specs.Said.{WasSaid};
ghost use Rattle.cmh_talk.specs.Texts.{declaration_text};

use crate::said::{Said, parse_for_service, said_by};
use cmh_client::{Language, Meaning, Telling, speaks_http};
use cmh_console::{Command, Input, Line, read_line};
use cmh_frames::{Event, ProcId};
use std::alloc::{AllocError, Global};
use std::fmt;
use std::io::Write;

/// How a service reads the lines of a client, and what it tells it.
#[derive(Drop)]
pub struct Lines {
    alloc: Global,
    buffer: Vec<u8>,
}

impl Lines {
    pub fn new(alloc: Global) -> Lines {
        Lines {
            alloc,
            buffer: Vec::new(alloc),
        }
    }
}

impl Language<Event, Said> for Lines {
    ghost Means = { MeansHere };

    ghost Answers = { AnswersEvent };

    ghost Replies = { AnswersQuestion };

    fn same_event(&self, event: &Event, other: &Event) -> bool {
        is_same(event, other)
    }

    fn read(&mut self, line: &[u8]) -> Result<Meaning<Event, Said>, AllocError> {
        let said = said_in(self.alloc, line, &mut self.buffer)?;
        Ok(meaning_of(said, line))
    }
}

impl Telling<ProcId> for Lines {
    ghost line = { declaration_text };

    fn same_item(&self, item: &ProcId, other: &ProcId) -> bool {
        item == other
    }

    fn tell(&self, item: &ProcId, text: &mut Vec<u8>) -> Result<(), AllocError> {
        match text.write_fmt(Declaration { process: *item }) {
            Ok(()) => Ok(()),
            Err(_) => Err(AllocError),
        }
    }
}

/// What a line says, its end left out; one that is too long is a bad one.
fn said_in(alloc: Global, line: &[u8], buffer: &mut Vec<u8>) -> Result<Said, AllocError>
    ensures { IfOk result (WasSaid (line_in line.now)) }
{
    let mut input = Input::new(line);
    let Ok(next) = read_line(&mut input, buffer) else {
        return Err(AllocError);
    };
    if next.is_end() {
        return parse_for_service(alloc, &[]);
    }
    said_by(alloc, next)
}

/// What a line means that says this. One of HTTP ends the connection, unless it says something else.
fn meaning_of(said: Said, line: &[u8]) -> Meaning<Event, Said>
    ensures { result ≡ meaning_of (speaks_http line.now) said }
{
    match said {
        Said::Event(Line::Silent) => Meaning::Silence,
        Said::Event(Line::Command(Command::Act { process: _, event })) => Meaning::Event(event),
        Said::Event(bad) => {
            if speaks_http(line) {
                Meaning::Last
            } else {
                Meaning::Question(Said::Event(bad))
            }
        }
        Said::Quit => Meaning::Last,
        said => Meaning::Question(said),
    }
}

/// Whether an event of a client is the same as another one. No line says that a frame came.
fn is_same(event: &Event, other: &Event) -> bool
    ensures { result ≡ true → event.now ≡ other.now }
{
    match event {
        Event::Ask { asker, targets } => match other {
            Event::Ask {
                asker: its_asker,
                targets: its_targets,
            } => asker == its_asker && are_same(targets.as_slice(), its_targets.as_slice()),
            _ => false,
        },
        Event::Reply { holder, asker } => match other {
            Event::Reply {
                holder: its_holder,
                asker: its_asker,
            } => holder == its_holder && asker == its_asker,
            _ => false,
        },
        Event::Start { of } => match other {
            Event::Start { of: its } => of == its,
            _ => false,
        },
        Event::Got { from: _, frame: _ } => false,
    }
}

fn are_same(some: &[ProcId], others: &[ProcId]) -> bool
    ensures { result ≡ true → some.now ≡ others.now }
{
    if some.len() != others.len() {
        return false;
    }
    for at in 0..some.len() {
        if some[at] != others[at] {
            return false;
        }
    }
    true
}

/// A declaration, as it is told to whoever watches.
#[derive(Drop)]
struct Declaration {
    process: ProcId,
}

impl fmt::Display for Declaration {
    ghost output = { λ d. Some (declaration_text d.process) };

    fn fmt<W: fmt::Write>(&self, f: &mut fmt::Formatter<W>) -> fmt::Result {
        let process = self.process;
        write!(f, "! declared {process}\n")
    }
}
