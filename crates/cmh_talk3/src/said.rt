//! What the lines say that clients of a running site send.

ghost use Rattle.std.specs.Prelude.{◌≡◌, ◌≢◌, ◌∷◌, [], ℕ, IfOk, MatchOption};
ghost use Rattle.cmh_console.specs.Words.{words_of};
ghost use Rattle.cmh_script3.specs.Script.{Says};
ghost use Rattle.cmh_talk3.specs.Said as spec;
ghost use Rattle.cmh_talk3.specs.Said.{AsksNothing, AsksSomething, NamesNumber, SaysToSite, WasSaid, word_of};
ghost use Rattle.cmh_talk3.specs.declared.said.Word as words;

use crate::deed::{Deed, Question};
use cmh_console::{NextLine, Words};
use cmh_model3::ProcId;
use cmh_script3::{Command, Line};
use std::alloc::{AllocError, Global};

/// What a line of a client says.
#[derive(Drop)]
pub enum Said {
    /// Nothing: it is empty or a comment.
    Silent,
    Deed(Deed),
    Question(Question),
    /// The end of the connection.
    Quit,
}

/// The lines of one word.
#[derive(Clone, Copy)]
enum Word {
    Declared,
    Links,
    Status,
    Watch,
    Turn,
    Quit,
}

/// What a line says; one that is too long is a bad one.
pub(crate) fn said_by(alloc: Global, next: NextLine<'_>) -> Result<Said, AllocError>
    ensures { IfOk result (WasSaid (spec.line_of next.entry)) }
{
    match next {
        NextLine::Line(line) => parse(alloc, line),
        NextLine::TooLong | NextLine::End => Ok(Said::Question(Question::Bad)),
    }
}

/// What a line says to a running site: what a script of edition 3 says of events, and what the site is asked.
pub fn parse(alloc: Global, line: &[u8]) -> Result<Said, AllocError>
    ensures { IfOk result (SaysToSite line.now) }
{
    if let Some(said) = asked_by(line) {
        return Ok(said);
    }
    Ok(said_as(cmh_script3::parse(alloc, line)?))
}

/// What a line of a script says to a running site.
fn said_as(line: Line) -> Said
    ensures { result ≡ spec.said_as line }
{
    match line {
        Line::Silent => Said::Silent,
        Line::Command(command) => said_by_command(command),
        Line::Bad | Line::Edition | Line::Site(_) => Said::Question(Question::Bad),
    }
}

fn said_by_command(command: Command) -> Said
    ensures { result ≡ spec.said_by_command command }
{
    match command {
        Command::Act { process, event } => {
            let _number = process.get();
            Said::Deed(Deed::Event(event))
        }
        Command::WithdrawAll { process } => Said::Deed(Deed::WithdrawAll(process)),
        Command::Deliver { .. } => Said::Question(Question::Bad),
        Command::Cut { .. } => Said::Question(Question::Bad),
        Command::Report => Said::Question(Question::Bad),
    }
}

/// What a line says that no script says.
#[tactic(auto, using(crate::proofs::Questions::asks_nothing))]
fn asked_by(line: &[u8]) -> Option<Said>
    ensures { MatchOption result (AsksNothing (words_of line.now)) (AsksSomething (words_of line.now)) }
{
    if let Some(word) = word_in(line) {
        return Some(said_by_word(word));
    }
    if let Some(process) = process_behind(line, b"waits") {
        return Some(Said::Question(Question::Waits(process)));
    }
    if let Some(process) = process_behind(line, b"owed") {
        return Some(Said::Question(Question::Owed(process)));
    }
    if let Some(process) = process_behind(line, b"leaving") {
        return Some(Said::Question(Question::Leaving(process)));
    }
    if let Some(count) = number_behind(line, b"tail") {
        return Some(Said::Question(Question::Tail(count)));
    }
    None
}

/// The word that a line is, with nothing behind it.
fn word_in(line: &[u8]) -> Option<Word>
    ensures { MatchOption result ((word : words.Word) → words_of line.now ≢ word_of word ∷ [])
        (λ word. words_of line.now ≡ word_of word ∷ []) }
{
    let mut words = Words::new(line);
    let first = words.next_word()?;
    if words.next_word().is_some() {
        return None;
    }
    word_named(first)
}

fn word_named(name: &[u8]) -> Option<Word>
    ensures { MatchOption result ((word : words.Word) → name.now ≢ word_of word) (λ word. name.now ≡ word_of word) }
{
    match name {
        b"declared" => Some(Word::Declared),
        b"links" => Some(Word::Links),
        b"status" => Some(Word::Status),
        b"watch" => Some(Word::Watch),
        b"turn" => Some(Word::Turn),
        b"quit" => Some(Word::Quit),
        _ => None,
    }
}

fn said_by_word(word: Word) -> Said
    ensures { result ≡ spec.said_by_word word }
{
    match word {
        Word::Declared => Said::Question(Question::Declared),
        Word::Links => Said::Question(Question::Links),
        Word::Status => Said::Question(Question::Status),
        Word::Watch => Said::Question(Question::Watch),
        Word::Turn => Said::Question(Question::Turn),
        Word::Quit => Said::Quit,
    }
}

/// The process that a line names behind this word.
fn process_behind(line: &[u8], name: &[u8]) -> Option<ProcId>
    ensures { MatchOption result ((process : ℕ) → NamesNumber name.now (words_of line.now) process → ⊥)
        (NamesNumber name.now (words_of line.now)) }
{
    let mut words = Words::new(line);
    let first = words.next_word()?;
    let Some(process) = words.process() else {
        return None;
    };
    if first == name && words.is_empty() {
        Some(process)
    } else {
        None
    }
}

/// The number that a line has behind this word.
fn number_behind(line: &[u8], name: &[u8]) -> Option<u16>
    ensures { MatchOption result ((number : ℕ) → NamesNumber name.now (words_of line.now) number → ⊥)
        (NamesNumber name.now (words_of line.now)) }
{
    let mut words = Words::new(line);
    let first = words.next_word()?;
    let Some(number) = words.number() else {
        return None;
    };
    if first == name && words.is_empty() {
        Some(number)
    } else {
        None
    }
}
