//! What is news, of what was just added to the journal.

ghost use Rattle.std.specs.Prelude.{◌≡◌, [], map, IfOk, OnOk};
ghost use Rattle.std.specs.List.{list_any};
ghost use Rattle.cmh_controller3.specs.Controller.{state_of};
ghost use Rattle.cmh_model3.specs.Lists.{in_list};
ghost use Rattle.cmh_model3.specs.State.{is_blocked};
ghost use Rattle.cmh_talk3.specs.News as spec;
ghost use Rattle.cmh_talk3.specs.News.{TellsDeclared, left_of, link_changes, own_news, taken_news};

use crate::link_state::{IntoState, LinkStates, OutState};
use crate::news::News;
use cmh_controller3::{Controller, Outcome, Refusal as RuleRefusal};
use cmh_journaled::Refusal;
use cmh_model3::{Entry, Event, Frame, Message, ProcId, Stamp};
use std::alloc::{AllocError, Global};

/// The answer to an event.
type Answered = Result<Outcome, Refusal<RuleRefusal>>;

/// A process that has given up its wait for another one of another site, whose site has not answered yet.
#[derive(Clone, Copy)]
pub struct LeftPair {
    pub asker: ProcId,
    pub holder: ProcId,
}

/// What a client that begins to watch is told first: who is declared. A controller does not keep the stops.
pub fn declared_before(alloc: Global, controller: &Controller) -> Result<Vec<News>, AllocError>
    ensures { IfOk result (λ news. TellsDeclared controller.now news.items) }
{
    let processes = controller.declared(alloc)?;
    declared_news(alloc, &processes)
}

fn declared_news(alloc: Global, processes: &[ProcId]) -> Result<Vec<News>, AllocError>
    ensures { IfOk result (λ news. news.items ≡ map spec.declared_once processes.now) }
{
    let mut news = Vec::with_capacity(alloc, processes.len())?;
    for process in processes {
        news.push(News::WasDeclared(*process))?;
    }
    Ok(news)
}

/// Of the replies among messages that are about to be taken those to processes that have given the wait up. It is asked
/// before they are taken: afterwards nobody knows.
pub fn left_pairs(
    alloc: Global,
    controller: &Controller,
    messages: &[Message],
) -> Result<Vec<LeftPair>, AllocError>
    ensures { IfOk result (λ pairs. pairs.items ≡ left_of controller.now [] messages.now) }
{
    let mut pairs = Vec::new(alloc);
    for message in messages {
        put_left(alloc, controller, &mut pairs, message.frame)?;
    }
    Ok(pairs)
}

/// What events of the site's own processes tell, by what `Node::step_all` answered to each. The controller is that of
/// afterwards: who is told to be active waits for nobody then, and is told once.
pub fn news_of_own(
    alloc: Global,
    controller: &Controller,
    events: &[Event],
    answers: &[Answered],
) -> Result<Vec<News>, AllocError>
    ensures { IfOk result (λ news. news.items ≡ own_news controller.now [] events.now answers.now) }
{
    let mut news = Vec::new(alloc);
    let count = events.len().min(answers.len());
    for at in 0..count {
        put_answered(alloc, controller, &mut news, &events[at], &answers[at])?;
    }
    Ok(news)
}

/// What messages tell that were taken, by the entries that `Node::take` added, and by the replies among them to processes
/// that had given the wait up. The controller is that of afterwards.
pub fn news_of_taken(
    alloc: Global,
    controller: &Controller,
    left: &[LeftPair],
    entries: &[Entry<Event, Message>],
) -> Result<Vec<News>, AllocError>
    ensures { IfOk result (λ news. news.items ≡ taken_news controller.now left.now [] entries.now) }
{
    let mut news = Vec::new(alloc);
    for entry in entries {
        put_taken(alloc, controller, left, &mut news, entry)?;
    }
    Ok(news)
}

/// How the links stand otherwise than before. Messages that a link keeps while it is down are no news.
pub fn link_news(
    alloc: Global,
    before: &[LinkStates],
    after: &[LinkStates],
) -> Result<Vec<News>, AllocError>
    ensures { IfOk result (λ news. news.items ≡ link_changes [] before.now after.now) }
{
    let mut news = Vec::new(alloc);
    let count = before.len().min(after.len());
    for at in 0..count {
        put_link(&mut news, &before[at], &after[at])?;
    }
    Ok(news)
}

/// What an event tells by its answer: nothing where it was refused.
fn put_answered(
    alloc: Global,
    controller: &Controller,
    news: &mut Vec<News>,
    event: &Event,
    answer: &Answered,
) -> Result<(), AllocError>
    ensures { OnOk result (news.new.items ≡ spec.answered_with controller.now news.old.items event.now answer.now) }
{
    match answer {
        Ok(outcome) => put_own(alloc, controller, news, event, outcome),
        Err(_) => Ok(()),
    }
}

/// The pair of a reply to a process that has given the wait up.
fn put_left(
    alloc: Global,
    controller: &Controller,
    pairs: &mut Vec<LeftPair>,
    frame: Frame,
) -> Result<(), AllocError>
    ensures { OnOk result (pairs.new.items ≡ spec.with_left controller.now pairs.old.items frame) }
{
    match frame {
        Frame::Reply { holder, asker } => {
            if is_leaving(alloc, controller, asker, holder)? {
                pairs.push(LeftPair { asker, holder })?;
            }
        }
        _ => {}
    }
    Ok(())
}

/// What an event tells that was accepted.
fn put_own(
    alloc: Global,
    controller: &Controller,
    news: &mut Vec<News>,
    event: &Event,
    outcome: &Outcome,
) -> Result<(), AllocError>
    ensures { OnOk result (news.new.items ≡ spec.own_with controller.now news.old.items event.now outcome.now) }
{
    match event {
        Event::Ask { asker, targets } => {
            put_asked(controller, news, *asker, targets.as_slice())?;
            put_declared(news, outcome)
        }
        Event::Reply { holder: _, asker } => {
            if is_here(controller, *asker) {
                put_active(alloc, controller, news, *asker)
            } else {
                Ok(())
            }
        }
        Event::Withdraw { asker, targets } => put_free(
            controller,
            news,
            *asker,
            targets.as_slice(),
        ),
        Event::Got { .. } => Ok(()),
        Event::Turn { .. } => Ok(()),
    }
}

/// What a message tells that was taken.
fn put_taken(
    alloc: Global,
    controller: &Controller,
    left: &[LeftPair],
    news: &mut Vec<News>,
    entry: &Entry<Event, Message>,
) -> Result<(), AllocError>
    ensures { OnOk result (news.new.items ≡ spec.taken_with controller.now left.now news.old.items entry.now) }
{
    let Event::Got { frame, .. } = &entry.event else {
        return Ok(());
    };
    match *frame {
        Frame::Request { asker, holder } => {
            news.push(News::Asked { holder, asker })?;
            Ok(())
        }
        Frame::Reply { holder, asker } => {
            if was_left(left, asker, holder) {
                news.push(News::Free { asker, holder })?;
                Ok(())
            } else {
                put_active(alloc, controller, news, asker)
            }
        }
        Frame::Withdraw { .. } => Ok(()),
        Frame::Probe { stamp, .. } => put_found(news, entry.declared, stamp),
    }
}

/// The requests of an ask for processes of this site.
fn put_asked(
    controller: &Controller,
    news: &mut Vec<News>,
    asker: ProcId,
    holders: &[ProcId],
) -> Result<(), AllocError>
    ensures { OnOk result (news.new.items ≡ spec.with_asked controller.now news.old.items asker holders.now) }
{
    for holder in holders {
        if is_here(controller, *holder) {
            news.push(News::Asked {
                holder: *holder,
                asker,
            })?;
        }
    }
    Ok(())
}

/// The processes of this site whom a process has given up, and may ask again at once.
fn put_free(
    controller: &Controller,
    news: &mut Vec<News>,
    asker: ProcId,
    holders: &[ProcId],
) -> Result<(), AllocError>
    ensures { OnOk result (news.new.items ≡ spec.with_free controller.now news.old.items asker holders.now) }
{
    for holder in holders {
        if is_here(controller, *holder) {
            news.push(News::Free {
                asker,
                holder: *holder,
            })?;
        }
    }
    Ok(())
}

/// Whom an ask declared.
fn put_declared(news: &mut Vec<News>, outcome: &Outcome) -> Result<(), AllocError>
    ensures { OnOk result (news.new.items ≡ spec.with_declared news.old.items outcome.now.declared) }
{
    if let Some(declaration) = outcome.declared {
        news.push(News::Declared {
            process: declaration.process,
            stop: declaration.stop,
        })?;
    }
    Ok(())
}

/// Whom a probe of an ask with this stamp declared.
fn put_found(news: &mut Vec<News>, declared: Option<ProcId>, stamp: Stamp) -> Result<(), AllocError>
    ensures { OnOk result (news.new.items ≡ spec.with_found news.old.items declared stamp) }
{
    if let Some(process) = declared {
        news.push(News::Declared {
            process,
            stop: stamp,
        })?;
    }
    Ok(())
}

/// That a process is active, where it is and was not told to be.
fn put_active(
    alloc: Global,
    controller: &Controller,
    news: &mut Vec<News>,
    process: ProcId,
) -> Result<(), AllocError>
    ensures { OnOk result (news.new.items ≡ spec.with_active controller.now news.old.items process) }
{
    if is_blocked(alloc, controller, process)? || was_told(news, process) {
        return Ok(());
    }
    news.push(News::Active(process))?;
    Ok(())
}

/// What is new of the links with one site.
fn put_link(news: &mut Vec<News>, old: &LinkStates, new: &LinkStates) -> Result<(), AllocError>
    ensures { OnOk result (news.new.items ≡ spec.with_link news.old.items old.now new.now) }
{
    put_out(news, old, new)?;
    if is_same_into(old.into, new.into) {
        return Ok(());
    }
    news.push(News::Into(new.site, new.into))?;
    Ok(())
}

fn put_out(news: &mut Vec<News>, old: &LinkStates, new: &LinkStates) -> Result<(), AllocError>
    ensures { OnOk result (news.new.items ≡ spec.with_out news.old.items old.now new.now) }
{
    if is_same_out(old.out, new.out) {
        return Ok(());
    }
    news.push(News::Out(new.site, new.out))?;
    Ok(())
}

fn is_same_out(old: OutState, new: OutState) -> bool
    ensures { result ≡ spec.same_out old new }
{
    match (old, new) {
        (OutState::Open, OutState::Open) => true,
        (OutState::Down(_), OutState::Down(_)) => true,
        (OutState::Refused(number), OutState::Refused(now)) => number == now,
        _ => false,
    }
}

fn is_same_into(old: IntoState, new: IntoState) -> bool
    ensures { result ≡ spec.same_into old new }
{
    match (old, new) {
        (IntoState::Open, IntoState::Open) => true,
        (IntoState::Resting, IntoState::Resting) => true,
        (IntoState::Closed, IntoState::Closed) => true,
        _ => false,
    }
}

fn is_here(controller: &Controller, process: ProcId) -> bool
    ensures { result ≡ spec.is_here controller.now process }
{
    controller.topology().is_at(process, controller.site())
}

fn is_blocked(alloc: Global, controller: &Controller, process: ProcId) -> Result<bool, AllocError>
    ensures { IfOk result (λ blocked. blocked ≡ is_blocked (state_of controller.now) process) }
{
    let holders = controller.waits_of(alloc, process)?;
    Ok(!holders.is_empty())
}

fn is_leaving(
    alloc: Global,
    controller: &Controller,
    asker: ProcId,
    holder: ProcId,
) -> Result<bool, AllocError>
    ensures { IfOk result (λ leaving. leaving ≡ (state_of controller.now).leaving asker holder) }
{
    let holders = controller.leaving_of(alloc, asker)?;
    Ok(is_in(&holders, holder))
}

fn is_in(processes: &[ProcId], process: ProcId) -> bool
    ensures { result ≡ in_list processes.now process }
{
    for other in processes {
        if *other == process {
            return true;
        }
    }
    false
}

fn is_active(news: &News, process: ProcId) -> bool
    ensures { result ≡ spec.is_active process news.now }
{
    match news {
        News::Active(told) => *told == process,
        _ => false,
    }
}

/// Whether this process was told to be active.
fn was_told(news: &[News], process: ProcId) -> bool
    ensures { result ≡ list_any (spec.is_active process) news.now }
{
    for item in news {
        if is_active(item, process) {
            return true;
        }
    }
    false
}

fn was_left(pairs: &[LeftPair], asker: ProcId, holder: ProcId) -> bool
    ensures { result ≡ list_any (spec.is_pair asker holder) pairs.now }
{
    for pair in pairs {
        if pair.asker == asker && pair.holder == holder {
            return true;
        }
    }
    false
}
