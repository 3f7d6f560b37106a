//! What a site does for a line.

ghost use Rattle.std.specs.Prelude.{◌≡◌, IfOk};
ghost use Rattle.cmh_cluster3.specs.Sites.{Acts, IsOwnDeed, Steps};
ghost use Rattle.cmh_cluster3.specs.Turns.{DoesIn};
ghost use Rattle.cmh_controller3.specs.Controller.{state_of};
ghost use Rattle.cmh_model3.specs.declared.event.Event.TheVariants.{Withdraw};
ghost use Rattle.cmh_node3.specs.Steps.{IsOwn};
ghost use Rattle.cmh_talk3.specs.Answers.{Answers, standing_of};

use crate::reply::ClusterReply;
use cmh_model3::{Event, ProcId, Targets};
use cmh_node3::{Node, NotStepped, StepFault};
use cmh_station3::SegmentFile;
use cmh_talk3::{
    Deed, EventReply, Figures, Question, Reply, answer_question, reply_of, reply_of_none,
};
use std::alloc::{AllocError, Global};

/// Nobody is connected to a site of a cluster but the other sites.
const FIGURES: Figures = Figures { clients: 0 };

/// Gives an event to a site, if it runs, and answers what it replied.
pub(crate) fn act<F: SegmentFile>(
    alloc: Global,
    site: &mut Option<Node<F>>,
    deed: Deed,
) -> Result<ClusterReply, AllocError>
    requires { IsOwnDeed deed }
    ensures { IfOk result (λ reply. DoesIn F.told F.has_failed site.old deed reply site.new) }
{
    match site {
        Some(node) => Ok(ClusterReply::Event(give(alloc, node, deed)?)),
        None => Ok(ClusterReply::Down),
    }
}

/// Gives an event to a site that runs.
fn give<F: SegmentFile>(
    alloc: Global,
    node: &mut Node<F>,
    deed: Deed,
) -> Result<EventReply, AllocError>
    requires { IsOwnDeed deed }
    ensures { IfOk result (λ reply. Acts F.told F.has_failed node.old deed reply node.new) }
{
    let event = match deed {
        Deed::Event(event) => event,
        Deed::WithdrawAll(process) => withdrawal_of(alloc, node, process)?,
    };
    step(alloc, node, event)
}

/// The event by which a process gives up all its waits.
fn withdrawal_of<F: SegmentFile>(
    alloc: Global,
    node: &Node<F>,
    process: ProcId,
) -> Result<Event, AllocError>
    ensures { IfOk result (λ event. event ≡ Withdraw process ((state_of node.now.station.machine.controller).waits process)) }
{
    let waits = node.controller().waits_of(alloc, process)?;
    Ok(Event::Withdraw {
        asker: process,
        targets: Targets::new(waits),
    })
}

/// Gives one event to a site.
fn step<F: SegmentFile>(
    alloc: Global,
    node: &mut Node<F>,
    event: Event,
) -> Result<EventReply, AllocError>
    requires { IsOwn event }
    ensures { IfOk result (λ reply. Steps F.told F.has_failed node.old event reply node.new) }
{
    let mut events = Vec::new(alloc);
    events.push(event)?;
    let answers = match node.step_all(&events) {
        Ok(answers) => answers,
        Err(why) => return Ok(reply_of_none(why)),
    };
    match answers.first() {
        Some(answer) => Ok(reply_of(answer)),
        // Never so: each event has an answer.
        None => Ok(reply_of_none(NotStepped::Failed(StepFault::Memory))),
    }
}

/// The answer of a site to a question.
pub(crate) fn tell<F: SegmentFile>(
    alloc: Global,
    node: &Node<F>,
    question: &Question,
) -> Result<Reply, AllocError>
    ensures { IfOk result (Answers (standing_of node.now (record { clients = 0 })) question.now) }
{
    answer_question(alloc, node, question, &FIGURES)
}
