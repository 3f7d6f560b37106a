//! What the lines of a script of edition 3 say.

ghost use Rattle.std.specs.Prelude.{◌≡◌, ◌≢◌, ℕ, List, None, [], ◌∷◌, IfOk, MatchOption};
ghost use Rattle.cmh_console.specs.Forms.{ReadsAll, SpellNumbers, is_comment};
ghost use Rattle.cmh_console.specs.Words.{words_of};
ghost use Rattle.cmh_script3.specs.declared.script.Form as declared_form;
ghost use Rattle.cmh_script3.specs.Forms.{Fits, IsFormOf, name_of};
ghost use Rattle.cmh_script3.specs.Script.{Says};

use cmh_console::Words;
use cmh_frames::SiteRow;
use cmh_model3::{Event, ProcId, SiteId, Targets};
use std::alloc::{AllocError, Global};

/// A line of a script.
#[derive(Drop)]
pub enum Line {
    /// An empty line or a comment, which has no answer.
    Silent,
    /// A line that fits no form.
    Bad,
    /// The line `edition 3`.
    Edition,
    Site(SiteRow),
    Command(Command),
}

/// A line that acts on the world.
#[derive(Drop)]
pub enum Command {
    /// An event for the controller of the process's home. A `start` is an ask of nobody.
    Act { process: ProcId, event: Event },
    /// Gives up all waits of a process.
    WithdrawAll { process: ProcId },
    /// Hands over the next frame of a link.
    Deliver { from: SiteId, to: SiteId },
    /// Cuts a link.
    Cut { from: SiteId, to: SiteId },
    /// Reports on the world as it stands.
    Report,
}

/// The forms of lines, by their names.
#[derive(Clone, Copy)]
enum Form {
    Edition,
    Site,
    Ask,
    Reply,
    Start,
    Withdraw,
    Deliver,
    Cut,
    Report,
}

/// What a line of a script says.
pub fn parse(alloc: Global, line: &[u8]) -> Result<Line, AllocError>
    ensures { IfOk result (Says line.now) }
{
    let Some((form, words)) = front(line) else {
        return Ok(said_without_form(line));
    };
    match line_of(alloc, form, words)? {
        Some(line) => Ok(line),
        None => Ok(Line::Bad),
    }
}

/// The form that the first word of a line names, and the words after it.
fn front(line: &[u8]) -> Option<(Form, Words<'_>)>
    ensures { IsFormOf (words_of line.now) result }
{
    let mut words = Words::new(line);
    let form = form_of(words.next_word()?)?;
    Some((form, words))
}

/// What a line says whose first word names no form: nothing, if it has no word or is a comment.
fn said_without_form(line: &[u8]) -> Line
    requires { IsFormOf (words_of line.now) None }
    ensures { Says line.now result }
{
    match Words::new(line).next_word() {
        Some(name) if !is_comment(name) => Line::Bad,
        _ => Line::Silent,
    }
}

/// Whether a line whose first word this is is a comment.
fn is_comment(word: &[u8]) -> bool
    ensures { result ≡ is_comment word.now }
{
    match word {
        [byte, ..] => *byte == b'#',
        [] => false,
    }
}

/// The form of this name.
fn form_of(name: &[u8]) -> Option<Form>
    ensures { MatchOption result ((form : declared_form.Form) → name.now ≢ name_of form)
        (λ form. name.now ≡ name_of form) }
{
    match name {
        b"edition" => Some(Form::Edition),
        b"site" => Some(Form::Site),
        b"ask" => Some(Form::Ask),
        b"reply" => Some(Form::Reply),
        b"start" => Some(Form::Start),
        b"withdraw" => Some(Form::Withdraw),
        b"deliver" => Some(Form::Deliver),
        b"cut" => Some(Form::Cut),
        b"report" => Some(Form::Report),
        _ => None,
    }
}

/// The line of this form with the numbers that the words spell.
fn line_of(alloc: Global, form: Form, words: Words<'_>) -> Result<Option<Line>, AllocError>
    ensures { IfOk result (ReadsAll (Fits form) words.entry) }
{
    match form {
        Form::Edition => Ok(edition(words)),
        Form::Site => site(alloc, words),
        Form::Ask => ask(alloc, words),
        Form::Reply => Ok(reply(words)),
        Form::Start => Ok(start(alloc, words)),
        Form::Withdraw => withdraw(alloc, words),
        Form::Deliver => Ok(deliver(words)),
        Form::Cut => Ok(cut(words)),
        Form::Report => Ok(report(words)),
    }
}

/// No other edition is named in such a script.
fn edition(mut words: Words<'_>) -> Option<Line>
    ensures { ReadsAll (Fits Form.Edition) words.entry result }
{
    let edition = words.number()?;
    words.end()?;
    if edition == 3 {
        Some(Line::Edition)
    } else {
        None
    }
}

fn site(alloc: Global, mut words: Words<'_>) -> Result<Option<Line>, AllocError>
    ensures { IfOk result (ReadsAll (Fits Form.Site) words.entry) }
{
    let Some(site) = words.number() else {
        return Ok(None);
    };
    let Some(processes) = numbers(alloc, words)? else {
        return Ok(None);
    };
    Ok(Some(Line::Site(SiteRow { site, processes })))
}

/// The numbers that the words spell, if each of them spells one.
fn numbers(alloc: Global, mut words: Words<'_>) -> Result<Option<Vec<u16>>, AllocError>
    ensures { IfOk result (λ numbers. MatchOption numbers ((ns : List ℕ) → SpellNumbers words.entry ns → ⊥)
        (λ numbers. SpellNumbers words.entry numbers.items)) }
{
    let mut numbers = Vec::new(alloc);
    while !words.is_empty() {
        let Some(number) = words.number() else {
            return Ok(None);
        };
        numbers.push(number)?;
    }
    Ok(Some(numbers))
}

/// An ask names at least one target.
fn ask(alloc: Global, mut words: Words<'_>) -> Result<Option<Line>, AllocError>
    ensures { IfOk result (ReadsAll (Fits Form.Ask) words.entry) }
{
    let Some(asker) = words.process() else {
        return Ok(None);
    };
    if words.is_empty() {
        return Ok(None);
    }
    let Some(targets) = targets(alloc, words)? else {
        return Ok(None);
    };
    Ok(Some(Line::Command(Command::Act {
        process: asker,
        event: Event::Ask { asker, targets },
    })))
}

/// The processes that the words name, if each of them names one.
fn targets(alloc: Global, mut words: Words<'_>) -> Result<Option<Targets>, AllocError>
    ensures { IfOk result (λ targets. MatchOption targets ((ns : List ℕ) → SpellNumbers words.entry ns → ⊥)
        (λ targets. SpellNumbers words.entry targets)) }
{
    let mut processes = Vec::new(alloc);
    while !words.is_empty() {
        let Some(process) = words.process() else {
            return Ok(None);
        };
        processes.push(process)?;
    }
    Ok(Some(Targets::new(processes)))
}

fn reply(mut words: Words<'_>) -> Option<Line>
    ensures { ReadsAll (Fits Form.Reply) words.entry result }
{
    let holder = words.process()?;
    let asker = words.process()?;
    words.end()?;
    Some(Line::Command(Command::Act {
        process: holder,
        event: Event::Reply { holder, asker },
    }))
}

fn start(alloc: Global, mut words: Words<'_>) -> Option<Line>
    ensures { ReadsAll (Fits Form.Start) words.entry result }
{
    let asker = words.process()?;
    words.end()?;
    Some(Line::Command(Command::Act {
        process: asker,
        event: Event::Ask {
            asker,
            targets: Targets::new(Vec::new(alloc)),
        },
    }))
}

/// A withdrawal that names nobody is one from all.
fn withdraw(alloc: Global, mut words: Words<'_>) -> Result<Option<Line>, AllocError>
    ensures { IfOk result (ReadsAll (Fits Form.Withdraw) words.entry) }
{
    let Some(asker) = words.process() else {
        return Ok(None);
    };
    if words.is_empty() {
        return Ok(Some(Line::Command(Command::WithdrawAll { process: asker })));
    }
    let Some(targets) = targets(alloc, words)? else {
        return Ok(None);
    };
    Ok(Some(Line::Command(Command::Act {
        process: asker,
        event: Event::Withdraw { asker, targets },
    })))
}

fn deliver(words: Words<'_>) -> Option<Line>
    ensures { ReadsAll (Fits Form.Deliver) words.entry result }
{
    let (from, to) = link(words)?;
    Some(Line::Command(Command::Deliver { from, to }))
}

fn cut(words: Words<'_>) -> Option<Line>
    ensures { ReadsAll (Fits Form.Cut) words.entry result }
{
    let (from, to) = link(words)?;
    Some(Line::Command(Command::Cut { from, to }))
}

/// It stands alone on its line.
fn report(words: Words<'_>) -> Option<Line>
    ensures { ReadsAll (Fits Form.Report) words.entry result }
{
    words.end()?;
    Some(Line::Command(Command::Report))
}

/// The sites that a link goes from and to.
fn link(mut words: Words<'_>) -> Option<(SiteId, SiteId)>
    ensures { ReadsAll (λ ns (ends : ℕ × ℕ). ns ≡ ends.0 ∷ ends.1 ∷ []) words.entry result }
{
    let from = words.site()?;
    let to = words.site()?;
    words.end()?;
    Some((from, to))
}
