//! What a running site answers to questions, by its state.

ghost use Rattle.std.specs.Prelude.{◌≡◌, IfOk, MatchOption, map};
ghost use Rattle.cmh_controller3.specs.Controller.{home_of};
ghost use Rattle.cmh_talk3.specs.Answers as spec;
ghost use Rattle.cmh_talk3.specs.Answers.{Answers, AnswersLeaving, AnswersOwed, AnswersWaits, IsStatus, RefusesProcess, kept_after, open_into, open_out, standing_of};
ghost use Rattle.cmh_talk3.specs.Links.{states_of};

use crate::deed::Question;
use crate::link_state::{IntoState, LinkStates, OutState, into_state, out_state};
use crate::reply::{Figures, Reply, Status};
use cmh_controller3::{Controller, Refusal};
use cmh_model3::ProcId;
use cmh_node3::{Node, Peer};
use cmh_station3::SegmentFile;
use std::alloc::{AllocError, Global};

/// The answer to a question, by how the site stands. `Tail` and `Turn` are answered by whoever has the segments: here as a bad
/// line.
pub fn answer_question<F: SegmentFile>(
    alloc: Global,
    node: &Node<F>,
    question: &Question,
    figures: &Figures,
) -> Result<Reply, AllocError>
    ensures { IfOk result (Answers (standing_of node.now figures.now) question.now) }
{
    let controller = node.controller();
    match question {
        Question::Declared => Ok(Reply::Declared(controller.site(), controller.declared(alloc)?)),
        Question::Waits(process) => waits_of(alloc, controller, *process),
        Question::Owed(process) => owed_by(alloc, controller, *process),
        Question::Leaving(process) => leaving_of(alloc, controller, *process),
        Question::Links => Ok(Reply::Links(states_of(alloc, node)?)),
        Question::Status => Ok(Reply::Status(status_of(alloc, node, figures)?)),
        Question::Watch => Ok(Reply::Ok),
        Question::Tail(_) | Question::Turn | Question::Bad => Ok(Reply::BadLine),
    }
}

/// How the links with each other site stand, ascending.
pub fn states_of<F: SegmentFile>(
    alloc: Global,
    node: &Node<F>,
) -> Result<Vec<LinkStates>, AllocError>
    ensures { IfOk result (λ states. states.items ≡ map states_of node.now.peers) }
{
    let peers = node.peers();
    states_of_peers(alloc, peers)
}

fn states_of_peers(alloc: Global, peers: &[Peer]) -> Result<Vec<LinkStates>, AllocError>
    ensures { IfOk result (λ states. states.items ≡ map states_of peers.now) }
{
    let mut states = Vec::with_capacity(alloc, peers.len())?;
    for peer in peers {
        states.push(states_with(peer))?;
    }
    Ok(states)
}

fn states_with(peer: &Peer) -> LinkStates
    ensures { result ≡ states_of peer.now }
{
    LinkStates {
        site: peer.site,
        out: out_state(&peer.out),
        into: into_state(&peer.into),
    }
}

fn waits_of(alloc: Global, controller: &Controller, process: ProcId) -> Result<Reply, AllocError>
    ensures { IfOk result (AnswersWaits controller.now process) }
{
    if let Some(refusal) = refusal_of(controller, process) {
        return Ok(Reply::Refused(refusal));
    }
    Ok(Reply::Waits(process, controller.waits_of(alloc, process)?))
}

fn owed_by(alloc: Global, controller: &Controller, process: ProcId) -> Result<Reply, AllocError>
    ensures { IfOk result (AnswersOwed controller.now process) }
{
    if let Some(refusal) = refusal_of(controller, process) {
        return Ok(Reply::Refused(refusal));
    }
    Ok(Reply::Owed(process, controller.owed_by(alloc, process)?))
}

fn leaving_of(alloc: Global, controller: &Controller, process: ProcId) -> Result<Reply, AllocError>
    ensures { IfOk result (AnswersLeaving controller.now process) }
{
    if let Some(refusal) = refusal_of(controller, process) {
        return Ok(Reply::Refused(refusal));
    }
    Ok(Reply::Leaving(process, controller.leaving_of(alloc, process)?))
}

/// Why a question about a process is refused: it is unknown, or at another site.
fn refusal_of(controller: &Controller, process: ProcId) -> Option<Refusal>
    ensures { MatchOption result (home_of controller.now process ≡ controller.now.site)
        (RefusesProcess controller.now process) }
{
    match controller.topology().home(process) {
        Some(home) if home == controller.site() => None,
        Some(_) => Some(Refusal::NotHere),
        None => Some(Refusal::UnknownProcess),
    }
}

fn status_of<F: SegmentFile>(
    alloc: Global,
    node: &Node<F>,
    figures: &Figures,
) -> Result<Status, AllocError>
    ensures { IfOk result (IsStatus (standing_of node.now figures.now)) }
{
    let peers = node.peers();
    let declared = node.controller().declared(alloc)?;
    Ok(Status {
        entries: node.station().kept().count(),
        declared: declared.len(),
        clients: figures.clients,
        open_out: count_open_out(peers),
        open_in: count_open_into(peers),
        kept: count_kept(peers),
        sealed: node.sealed(),
    })
}

fn count_open_out(peers: &[Peer]) -> usize
    ensures { result ≡ open_out peers.now }
{
    let mut count = 0;
    for peer in peers {
        if is_open_out(out_state(&peer.out)) {
            count += 1;
        }
    }
    count
}

fn count_open_into(peers: &[Peer]) -> usize
    ensures { result ≡ open_into peers.now }
{
    let mut count = 0;
    for peer in peers {
        if is_open_into(into_state(&peer.into)) {
            count += 1;
        }
    }
    count
}

fn is_open_out(state: OutState) -> bool
    ensures { result ≡ spec.is_open_out state }
{
    match state {
        OutState::Open => true,
        _ => false,
    }
}

fn is_open_into(state: IntoState) -> bool
    ensures { result ≡ spec.is_open_into state }
{
    match state {
        IntoState::Open => true,
        _ => false,
    }
}

fn count_kept(peers: &[Peer]) -> usize
    ensures { result ≡ kept_after 0 peers.now }
{
    let mut total: usize = 0;
    for peer in peers {
        total = total.saturating_add(peer.out.kept());
    }
    total
}
