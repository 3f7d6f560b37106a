//! What the lines say that clients of a service send.

ghost use Rattle.std.specs.Prelude.{◌≡◌, ◌↔◌, ◌∷◌, [], ℕ, IfOk, IsTrue, MatchOption};
ghost use Rattle.cmh_console.specs.Words.{words_of};
ghost use Rattle.cmh_console.specs.Dialogue.{line_of};
ghost use Rattle.cmh_talk.specs.Said.{AsksNoService, AsksService, NamesProcess, SaysToService, WasSaid};

use cmh_console::{Line, NextLine, Words};
use cmh_frames::ProcId;
use cmh_setting::{Order, SiteLine, parse_for_site};
use std::alloc::{AllocError, Global};

/// What a line of a client says.
#[derive(Drop)]
pub enum Said {
    Event(Line),
    /// The processes that the site declared.
    Declared,
    /// The states of its links.
    Links,
    /// For whom a process waits.
    Waits(ProcId),
    /// Whose requests a process has not answered.
    Owed(ProcId),
    /// Each declaration, from now on.
    Watch,
    /// The figures of the site.
    Status,
    /// The end of the connection.
    Quit,
}

/// What a line says; one that is too long is a bad one.
pub(crate) fn said_by(alloc: Global, next: NextLine<'_>) -> Result<Said, AllocError>
    ensures { IfOk result (WasSaid (line_of next.entry)) }
{
    match next {
        NextLine::Line(line) => parse_for_service(alloc, line),
        NextLine::TooLong | NextLine::End => Ok(Said::Event(Line::Bad)),
    }
}

/// What a line says to a service.
pub fn parse_for_service(alloc: Global, line: &[u8]) -> Result<Said, AllocError>
    ensures { IfOk result (SaysToService line.now) }
{
    if let Some(said) = question_of(line) {
        return Ok(said);
    }
    match parse_for_site(alloc, line)? {
        SiteLine::Event(event) => Ok(Said::Event(event)),
        SiteLine::Order(Order::Declared) => Ok(Said::Declared),
        SiteLine::Order(Order::Links) => Ok(Said::Links),
        SiteLine::Order(Order::Quit) => Ok(Said::Quit),
        SiteLine::Order(Order::Connect) => Ok(Said::Event(Line::Bad)),
    }
}

/// The question that only a service answers.
#[tactic(auto, using(crate::proofs::NoQuestions::asks_nothing))]
fn question_of(line: &[u8]) -> Option<Said>
    ensures { MatchOption result (AsksNoService (words_of line.now)) (AsksService (words_of line.now)) }
{
    if is_word(line, b"watch") {
        return Some(Said::Watch);
    }
    if is_word(line, b"status") {
        return Some(Said::Status);
    }
    if let Some(process) = process_behind(line, b"waits") {
        return Some(Said::Waits(process));
    }
    if let Some(process) = process_behind(line, b"owed") {
        return Some(Said::Owed(process));
    }
    None
}

/// Whether a line is this one word.
fn is_word(line: &[u8], word: &[u8]) -> bool
    ensures { IsTrue result ↔ words_of line.now ≡ word.now ∷ [] }
{
    let mut words = Words::new(line);
    match words.next_word() {
        Some(first) => first == word && words.is_empty(),
        None => false,
    }
}

/// The process that a line names after this word.
fn process_behind(line: &[u8], name: &[u8]) -> Option<ProcId>
    ensures { MatchOption result ((process : ℕ) → NamesProcess name.now (words_of line.now) process → ⊥)
        (NamesProcess name.now (words_of line.now)) }
{
    let mut words = Words::new(line);
    let first = words.next_word()?;
    let Some(process) = words.process() else {
        return None;
    };
    if first == name && words.is_empty() {
        Some(process)
    } else {
        None
    }
}
