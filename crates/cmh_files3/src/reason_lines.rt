//! The reasons for stops as lines.

ghost use Rattle.std.specs.Prelude.{IfOk, Some, string_bytes};
ghost use Rattle.cmh_audit3.specs.Stops.{AreStops};
ghost use Rattle.cmh_files3.specs.ReasonLines as spec;

use crate::entries::entries_at;
use crate::entry_text::EntryText;
use crate::reason::Reason;
use crate::stop::reason_of;
use cmh_audit3::{Segment, Stop};
use cmh_segment3::Entry;
use cmh_topology3::Topology;
use std::alloc::{AllocError, Global};
use std::fmt;
use std::fmt::Write;

/// A stop with its reason, and the entry at it.
#[derive(Drop)]
struct ReasonLine<'a> {
    stop: Stop,
    reason: Reason,
    entry: &'a Entry,
}

impl<'a> fmt::Display for ReasonLine<'a> {
    ghost output = { λ line. Some (spec.line_text line.stop line.reason line.entry.now) };

    fn fmt<W: fmt::Write>(&self, f: &mut fmt::Formatter<W>) -> fmt::Result {
        let site = self.stop.site;
        let number = self.stop.entry;
        let reason = self.reason;
        let entry = EntryText { entry: self.entry };
        write!(f, "why {site} at {number} {reason} in {entry}\n")
    }
}

/// A line for each of the stops, in their order: its reason, and the entry at it.
///
/// The stops are those of an audit that refused the segments. The only error is out of memory.
pub fn reason_lines(
    alloc: Global,
    topology: &Topology,
    segments: &[Segment],
    stops: &[Stop],
) -> Result<String, AllocError>
    requires { AreStops topology.now segments.now stops.now }
    ensures { IfOk result (λ text. spec.AreReasonLines topology.now segments.now stops.now stops.now
        (string_bytes text)) }
{
    let mut text = String::new(alloc);
    for stop in stops {
        let reason = reason_of(alloc, topology, segments, stops, *stop)?;
        let line = ReasonLine {
            stop: *stop,
            reason,
            entry: &entries_at(segments, stop.site)[stop.entry - 1],
        };
        write!(text, "{line}")?;
    }
    Ok(text)
}
