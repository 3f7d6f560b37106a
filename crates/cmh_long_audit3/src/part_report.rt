//! The report on some epochs that are accepted.

ghost use Rattle.std.specs.List.{All};
ghost use Rattle.cmh_history3.specs.Chains.{IsReadEpoch};

use crate::places::events_in;
use cmh_bases3::base_of;
use cmh_controller3::Controller;
use cmh_files3::AuditFault;
use cmh_history3::{EpochVerdict, verdict_on};
use cmh_merge::Queues;
use cmh_model3::{Frame, Message, ProcId, SiteId, Stamp};
use cmh_segment3::{Base, Pair, Rows, Segment, Stamped, StampedPair};
use cmh_topology3::Topology;
use std::alloc::{AllocError, Global};
use std::fmt::Write;

/// How many processes there can be, by their numbers.
const NUMBERS: usize = 65_536;

/// What stands at the end of the last epoch.
#[derive(Drop)]
struct Standing {
    in_transit: usize,
    waits: Vec<(ProcId, ProcId)>,
    leaving: Vec<(ProcId, ProcId)>,
    declared: Vec<(ProcId, Stamp)>,
}

/// The lines of the report on epochs that are accepted, from the bases of the first. Of a declaration it has the stop alone.
pub fn part_report(
    alloc: Global,
    world: &Topology,
    epochs: &[Rows<Segment>],
) -> Result<String, AuditFault>
    requires { All (IsReadEpoch world.now) epochs.now }
{
    let mut text = String::new(alloc);
    let Some(last) = epochs.last() else {
        return Ok(text);
    };
    if let Some(
        EpochVerdict::Accepted {
            controllers,
            under_way,
            ..
        },
    ) = verdict_on(alloc, world, last.as_slice())?
    {
        let stops = stops_in(alloc, epochs)?;
        let standing = standing_at(alloc, world, &controllers, under_way, &stops)?;
        let events = entries_in(epochs);
        write!(text, "accepted\nevents {events}\n")?;
        write_standing(&mut text, &standing)?;
    }
    Ok(text)
}

/// How many entries the epochs have, but for turns.
fn entries_in(epochs: &[Rows<Segment>]) -> usize {
    let mut events = 0usize;
    for epoch in epochs {
        events = events.saturating_add(events_in(epoch.as_slice()));
    }
    events
}

fn write_standing(text: &mut String, standing: &Standing) -> Result<(), AllocError> {
    let messages = standing.in_transit;
    if messages == 0 {
        text.push_str("drained\n")?;
    } else {
        write!(text, "in transit {messages}\n")?;
    }
    for (first, second) in standing.waits.as_slice() {
        write!(text, "wait {first} {second}\n")?;
    }
    for (first, second) in standing.leaving.as_slice() {
        write!(text, "leaving {first} {second}\n")?;
    }
    for (process, stop) in standing.declared.as_slice() {
        write!(text, "declared {process} at {stop}\n")?;
    }
    Ok(())
}

/// The newest stop of each process that is declared in the first bases or by an entry, by the number of the process.
fn stops_in(alloc: Global, epochs: &[Rows<Segment>]) -> Result<Vec<Stamped>, AllocError> {
    let mut stops: Vec<Option<Stamped>> = Vec::from_elem(alloc, None, NUMBERS)?;
    if let Some(first) = epochs.first() {
        for segment in first.as_slice() {
            note_rows(&mut stops, segment.base.declared.as_slice());
        }
    }
    for epoch in epochs {
        for segment in epoch.as_slice() {
            note_entries(&mut stops, segment);
        }
    }
    let mut rows = Vec::new(alloc);
    for stop in stops {
        if let Some(row) = stop {
            rows.push(row)?;
        }
    }
    Ok(rows)
}

fn note_rows(stops: &mut [Option<Stamped>], rows: &[Stamped]) {
    for row in rows {
        note(stops, *row);
    }
}

fn note_entries(stops: &mut [Option<Stamped>], segment: &Segment) {
    for entry in segment.entries.as_slice() {
        if let Some(declaration) = &entry.declared {
            note(
                stops,
                Stamped {
                    process: declaration.process,
                    stamp: declaration.stamp,
                },
            );
        }
    }
}

fn note(stops: &mut [Option<Stamped>], row: Stamped) {
    if let Some(place) = stops.get_mut(row.process.get() as usize) {
        *place = Some(row);
    }
}

/// What stands where these controllers do, with these messages under way.
fn standing_at(
    alloc: Global,
    world: &Topology,
    controllers: &[Controller],
    under_way: Queues<Message>,
    stops: &[Stamped],
) -> Result<Standing, AllocError> {
    let mut replies = Vec::new(alloc);
    let in_transit = take_all(&mut replies, world.sites(), under_way)?;
    replies.sort_unstable();
    let mut standing = Standing {
        in_transit,
        waits: Vec::new(alloc),
        leaving: Vec::new(alloc),
        declared: Vec::new(alloc),
    };
    for controller in controllers {
        let base = base_of(alloc, controller, stops, Rows::new(Vec::new(alloc)))?;
        add_base(&mut standing, &base, &replies)?;
    }
    standing.waits.sort_unstable();
    standing.leaving.sort_unstable();
    standing.declared.sort_unstable();
    Ok(standing)
}

/// Adds what a base says of the processes of its site. A wait whose reply is under way has ended.
fn add_base(
    standing: &mut Standing,
    base: &Base,
    replies: &[(ProcId, ProcId)],
) -> Result<(), AllocError> {
    for StampedPair { first, second, .. } in base.waits.as_slice() {
        if replies.binary_search(&(*first, *second)).is_err() {
            standing.waits.push((*first, *second))?;
        }
    }
    for Pair { first, second } in base.leaving.as_slice() {
        standing.leaving.push((*first, *second))?;
    }
    for Stamped { process, stamp } in base.declared.as_slice() {
        standing.declared.push((*process, *stamp))?;
    }
    Ok(())
}

/// Takes all messages out of the queues. Answers how many there are, and notes who is replied to by whom.
fn take_all(
    replies: &mut Vec<(ProcId, ProcId)>,
    sites: &[SiteId],
    under_way: Queues<Message>,
) -> Result<usize, AllocError> {
    let mut queues = under_way;
    let mut count = 0usize;
    for from in sites {
        for to in sites {
            let left = queues.len(*from, *to);
            count = count.saturating_add(left);
            for _ in 0..left {
                note_reply(replies, queues.receive(*from, *to))?;
            }
        }
    }
    Ok(count)
}

/// Notes who is replied to by whom, if it is a reply.
fn note_reply(
    replies: &mut Vec<(ProcId, ProcId)>,
    message: Option<Message>,
) -> Result<(), AllocError> {
    if let Some(message) = message {
        if let Frame::Reply { holder, asker } = &message.frame {
            replies.push((*asker, *holder))?;
        }
    }
    Ok(())
}
