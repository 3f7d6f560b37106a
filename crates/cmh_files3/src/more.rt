//! What an audit writes after its lines.

ghost use Rattle.std.specs.Prelude.{IfOk, string_bytes};
ghost use Rattle.cmh_topology3.specs.Topology as topologies;
ghost use Rattle.cmh_audit3.specs.Stops.{AreStops};
ghost use Rattle.cmh_audit3.specs.Verdicts.{IsOrderOf};
ghost use Rattle.cmh_report3.specs.Reports.{AreSomeRun};
ghost use Rattle.cmh_files3.specs.DeclarationLines.{TellDeclarations};
ghost use Rattle.cmh_files3.specs.Inner.Runs.{IsMoreOfEvents, IsMoreOfOrder};
ghost use Rattle.cmh_files3.specs.More.{IsMoreOfStops};

use crate::reason_lines::reason_lines;
use crate::run_lines::run_lines;
use cmh_audit3::{Segment, Stop};
use cmh_model3::{Event, Message, SiteId, WorldEvent};
use cmh_report3::{Deadlocks, declarations_of};
use cmh_topology3::Topology;
use std::alloc::{AllocError, Global};
use std::fmt::Write;

/// What an audit writes after its lines.
#[derive(Clone, Copy)]
pub enum More {
    Nothing,
    /// Where the segments come from no run, why each site stops.
    Reasons,
    /// Where they come from a run, the entries of one in its order.
    Run,
    /// Where they come from a run, the declarations of one in its order, with what became of each cycle.
    Declarations,
}

/// What follows the report on segments that come from a run in this order, but for its declarations.
pub fn more_of_order(
    alloc: Global,
    more: More,
    order: &[SiteId],
    segments: &[Segment],
) -> Result<String, AllocError>
    ensures { IfOk result (λ text. (t : topologies.Topology) → IsOrderOf t segments.now order.now
        → IsMoreOfOrder more t segments.now (string_bytes text)) }
{
    match more {
        More::Nothing => Ok(String::new(alloc)),
        More::Reasons => Ok(String::new(alloc)),
        More::Run => run_lines(alloc, order, segments),
        More::Declarations => Ok(String::new(alloc)),
    }
}

/// The same with the declarations of the run, where they are asked for.
pub fn more_of_events(
    alloc: Global,
    more: More,
    listed: String,
    events: &[WorldEvent<Event, Message>],
) -> Result<String, AllocError>
    requires { AreSomeRun events.now }
    ensures { IfOk result (λ text. IsMoreOfEvents more events.now (string_bytes listed) (string_bytes text)) }
{
    match more {
        More::Nothing => Ok(listed),
        More::Reasons => Ok(listed),
        More::Run => Ok(listed),
        More::Declarations => declaration_lines(alloc, events),
    }
}

/// A line for each declaration of a run, in its order.
fn declaration_lines(
    alloc: Global,
    events: &[WorldEvent<Event, Message>],
) -> Result<String, AllocError>
    requires { AreSomeRun events.now }
    ensures { IfOk result (λ text. TellDeclarations events.now (string_bytes text)) }
{
    let told = declarations_of(alloc, events)?;
    let lines = Deadlocks { deadlocks: &told };
    let mut text = String::new(alloc);
    write!(text, "{lines}")?;
    Ok(text)
}

/// What follows the stops of segments that come from none.
pub fn more_of_stops(
    alloc: Global,
    more: More,
    world: &Topology,
    segments: &[Segment],
    stops: &[Stop],
) -> Result<String, AllocError>
    requires { AreStops world.now segments.now stops.now }
    ensures { IfOk result (λ text. IsMoreOfStops more world.now segments.now stops.now (string_bytes text)) }
{
    match more {
        More::Nothing => Ok(String::new(alloc)),
        More::Reasons => reason_lines(alloc, world, segments, stops),
        More::Run => Ok(String::new(alloc)),
        More::Declarations => Ok(String::new(alloc)),
    }
}
