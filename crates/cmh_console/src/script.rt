//! What the lines of a script of `play` say.

ghost use Rattle.std.specs.Prelude.{◌≡◌, ◌≢◌, ℕ, List, None, [], ◌∷◌, IfOk, IfSome, MatchOption};
ghost use Rattle.cmh_console.specs.declared.script.Form as declared_form;
ghost use Rattle.cmh_console.specs.Words.{words_of};
ghost use Rattle.cmh_console.specs.Forms.{Fits, IsFormOf, ReadsAll, SpellNumbers, is_comment, name_of};
ghost use Rattle.cmh_console.specs.Script.{Says};

use crate::words::Words;
use cmh_frames::{Edition, Event, ProcId, SiteId, SiteRow, Targets};
use std::alloc::{AllocError, Global};
use std::mem::replace;

/// A line of a script.
#[derive(Drop)]
pub enum Line {
    /// An empty line or a comment, which has no answer.
    Silent,
    /// A line that fits no form.
    Bad,
    Edition(Edition),
    Site(SiteRow),
    Command(Command),
}

/// A line that acts on the world.
#[derive(Drop)]
pub enum Command {
    /// An event for the controller of the process's home.
    Act { process: ProcId, event: Event },
    /// Hands over the next frame of a link.
    Deliver { from: SiteId, to: SiteId },
    /// Cuts a link.
    Cut { from: SiteId, to: SiteId },
    /// Audits the journals as they stand.
    Report,
}

/// The forms of lines, by their names.
#[derive(Clone, Copy)]
enum Form {
    Edition,
    Site,
    Ask,
    Reply,
    Start,
    Deliver,
    Cut,
    Report,
}

/// What a line of a script says.
pub fn parse(alloc: Global, line: &[u8]) -> Result<Line, AllocError>
    ensures { IfOk result (Says line.now) }
{
    let mut spare = Vec::new(alloc);
    parse_into(alloc, line, &mut spare)
}

/// The same. The targets of an ask take the memory of `spare`, in place of what stands there, and leave it without any.
/// It is inlined with all that it calls: a line that a call hands back is copied part by part.
#[inline(always)]
pub fn parse_into(alloc: Global, line: &[u8], spare: &mut Vec<ProcId>) -> Result<Line, AllocError>
    ensures { IfOk result (Says line.now) }
{
    let Some((form, words)) = front(line) else {
        return Ok(said_without_form(line));
    };
    match line_of(alloc, form, words, spare)? {
        Some(line) => Ok(line),
        None => Ok(Line::Bad),
    }
}

/// The form that the first word of a line names, and the words after it.
#[inline(always)]
fn front(line: &[u8]) -> Option<(Form, Words<'_>)>
    ensures { IsFormOf (words_of line.now) result }
{
    match form_in_front(line) {
        Some((form, behind)) => Some((form, Words::new(behind))),
        None => front_word(line),
    }
}

/// The form whose name and a space begin a line, and what stands after them: so most lines are told without a search
/// for the end of their first word. The rarer forms are left to `front_word`.
#[inline(always)]
fn form_in_front(line: &[u8]) -> Option<(Form, &[u8])>
    ensures { IfSome result (λ front. words_of line.now ≡ name_of front.0 ∷ words_of front.1.now) }
{
    match line {
        [b'd', b'e', b'l', b'i', b'v', b'e', b'r', b' ', behind @ ..] => {
            Some((Form::Deliver, behind))
        }
        [b'r', b'e', b'p', b'l', b'y', b' ', behind @ ..] => Some((Form::Reply, behind)),
        [b'a', b's', b'k', b' ', behind @ ..] => Some((Form::Ask, behind)),
        [b's', b't', b'a', b'r', b't', b' ', behind @ ..] => Some((Form::Start, behind)),
        _ => None,
    }
}

/// The same by the words of a line.
#[inline(always)]
fn front_word(line: &[u8]) -> Option<(Form, Words<'_>)>
    ensures { IsFormOf (words_of line.now) result }
{
    let mut words = Words::new(line);
    let form = form_of(words.next_word()?)?;
    Some((form, words))
}

/// What a line says whose first word names no form: nothing, if it has no word or is a comment.
#[inline(always)]
fn said_without_form(line: &[u8]) -> Line
    requires { IsFormOf (words_of line.now) None }
    ensures { Says line.now result }
{
    match Words::new(line).next_word() {
        Some(name) if !is_comment(name) => Line::Bad,
        _ => Line::Silent,
    }
}

/// Whether a line whose first word this is is a comment.
fn is_comment(word: &[u8]) -> bool
    ensures { result ≡ is_comment word.now }
{
    match word {
        [byte, ..] => *byte == b'#',
        [] => false,
    }
}

/// The form of this name.
fn form_of(name: &[u8]) -> Option<Form>
    ensures { MatchOption result ((form : declared_form.Form) → name.now ≢ name_of form)
        (λ form. name.now ≡ name_of form) }
{
    match name {
        b"edition" => Some(Form::Edition),
        b"site" => Some(Form::Site),
        b"ask" => Some(Form::Ask),
        b"reply" => Some(Form::Reply),
        b"start" => Some(Form::Start),
        b"deliver" => Some(Form::Deliver),
        b"cut" => Some(Form::Cut),
        b"report" => Some(Form::Report),
        _ => None,
    }
}

/// The line of this form with the numbers that the words spell.
#[inline(always)]
fn line_of(
    alloc: Global,
    form: Form,
    words: Words<'_>,
    spare: &mut Vec<ProcId>,
) -> Result<Option<Line>, AllocError>
    ensures { IfOk result (ReadsAll (Fits form) words.entry) }
{
    match form {
        Form::Edition => Ok(edition(words)),
        Form::Site => site(alloc, words),
        Form::Ask => ask(alloc, words, spare),
        Form::Reply => Ok(reply(words)),
        Form::Start => Ok(start(words)),
        Form::Deliver => Ok(deliver(words)),
        Form::Cut => Ok(cut(words)),
        Form::Report => Ok(report(words)),
    }
}

#[inline(always)]
fn edition(mut words: Words<'_>) -> Option<Line>
    ensures { ReadsAll (Fits Form.Edition) words.entry result }
{
    let edition = Edition::of_number(u8::try_from(words.number()?).ok()?)?;
    words.end()?;
    Some(Line::Edition(edition))
}

#[inline(always)]
fn site(alloc: Global, mut words: Words<'_>) -> Result<Option<Line>, AllocError>
    ensures { IfOk result (ReadsAll (Fits Form.Site) words.entry) }
{
    let Some(site) = words.number() else {
        return Ok(None);
    };
    let Some(processes) = numbers(alloc, words)? else {
        return Ok(None);
    };
    Ok(Some(Line::Site(SiteRow { site, processes })))
}

/// The numbers that the words spell, if each of them spells one.
fn numbers(alloc: Global, mut words: Words<'_>) -> Result<Option<Vec<u16>>, AllocError>
    ensures { IfOk result (λ numbers. MatchOption numbers ((ns : List ℕ) → SpellNumbers words.entry ns → ⊥)
        (λ numbers. SpellNumbers words.entry numbers.items)) }
{
    let mut numbers = Vec::new(alloc);
    while !words.is_empty() {
        let Some(number) = words.number() else {
            return Ok(None);
        };
        numbers.push(number)?;
    }
    Ok(Some(numbers))
}

/// An ask names at least one target.
#[inline(always)]
fn ask(
    alloc: Global,
    mut words: Words<'_>,
    spare: &mut Vec<ProcId>,
) -> Result<Option<Line>, AllocError>
    ensures { IfOk result (ReadsAll (Fits Form.Ask) words.entry) }
{
    let Some(asker) = words.process() else {
        return Ok(None);
    };
    if words.is_empty() {
        return Ok(None);
    }
    let Some(targets) = targets(alloc, words, spare)? else {
        return Ok(None);
    };
    Ok(Some(Line::Command(Command::Act {
        process: asker,
        event: Event::Ask { asker, targets },
    })))
}

/// The processes that the words name, if each of them names one.
#[inline(always)]
fn targets(
    alloc: Global,
    mut words: Words<'_>,
    spare: &mut Vec<ProcId>,
) -> Result<Option<Targets>, AllocError>
    ensures { IfOk result (λ targets. MatchOption targets ((ns : List ℕ) → SpellNumbers words.entry ns → ⊥)
        (λ targets. SpellNumbers words.entry targets)) }
{
    let mut processes = replace(spare, Vec::new(alloc));
    processes.clear();
    while !words.is_empty() {
        let Some(process) = words.process() else {
            return Ok(None);
        };
        processes.push(process)?;
    }
    Ok(Some(Targets::new(processes)))
}

#[inline(always)]
fn reply(mut words: Words<'_>) -> Option<Line>
    ensures { ReadsAll (Fits Form.Reply) words.entry result }
{
    let holder = words.process()?;
    let asker = words.process()?;
    words.end()?;
    Some(Line::Command(Command::Act {
        process: holder,
        event: Event::Reply { holder, asker },
    }))
}

#[inline(always)]
fn start(mut words: Words<'_>) -> Option<Line>
    ensures { ReadsAll (Fits Form.Start) words.entry result }
{
    let of = words.process()?;
    words.end()?;
    Some(Line::Command(Command::Act {
        process: of,
        event: Event::Start { of },
    }))
}

#[inline(always)]
fn deliver(words: Words<'_>) -> Option<Line>
    ensures { ReadsAll (Fits Form.Deliver) words.entry result }
{
    let (from, to) = link(words)?;
    Some(Line::Command(Command::Deliver { from, to }))
}

#[inline(always)]
fn cut(words: Words<'_>) -> Option<Line>
    ensures { ReadsAll (Fits Form.Cut) words.entry result }
{
    let (from, to) = link(words)?;
    Some(Line::Command(Command::Cut { from, to }))
}

/// It stands alone on its line.
#[inline(always)]
fn report(words: Words<'_>) -> Option<Line>
    ensures { ReadsAll (Fits Form.Report) words.entry result }
{
    words.end()?;
    Some(Line::Command(Command::Report))
}

/// The sites that a link goes from and to.
#[inline(always)]
fn link(mut words: Words<'_>) -> Option<(SiteId, SiteId)>
    ensures { ReadsAll (λ ns (ends : ℕ × ℕ). ns ≡ ends.0 ∷ ends.1 ∷ []) words.entry result }
{
    let from = words.site()?;
    let to = words.site()?;
    words.end()?;
    Some((from, to))
}
