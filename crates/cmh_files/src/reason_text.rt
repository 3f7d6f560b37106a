//! The reasons for stops as lines.

ghost use Rattle.std.specs.Prelude.{IfOk, Some, string_bytes};
ghost use Rattle.cmh_audit.specs.Stops.{AreStops};
ghost use Rattle.cmh_files.specs.ReasonLines as spec;

use crate::entry_text::EntryText;
use crate::reason::Reason;
use crate::stop::reason_of;
use cmh_audit::entries_at;
use cmh_frames::{Entry, SiteId, Topology};
use cmh_journal::Journal;
use std::alloc::{AllocError, Global};
use std::fmt;
use std::fmt::Write;

/// A stop with its reason, and the entry at it.
#[derive(Drop)]
struct ReasonLine<'a> {
    site: SiteId,
    number: usize,
    reason: Reason,
    entry: &'a Entry,
}

impl<'a> fmt::Display for ReasonLine<'a> {
    ghost output = { λ line. Some (spec.line_text (line.site, line.number) line.reason line.entry.now) };

    fn fmt<W: fmt::Write>(&self, f: &mut fmt::Formatter<W>) -> fmt::Result {
        let site = self.site;
        let number = self.number;
        let reason = self.reason;
        let entry = EntryText { entry: self.entry };
        write!(f, "why {site} at {number} {reason} in {entry}\n")
    }
}

/// A line for each of the stops, in their order: its reason, and the entry at it.
///
/// The stops are those of an audit that refused the journals. The only error is out of memory.
pub fn reason_lines(
    alloc: Global,
    topology: &Topology,
    journals: &[Journal],
    stops: &[(SiteId, usize)],
) -> Result<String, AllocError>
    requires { AreStops topology.now journals.now stops.now }
    ensures { IfOk result (λ text. spec.AreReasonLines topology.now journals.now stops.now stops.now
        (string_bytes text)) }
{
    let mut text = String::new(alloc);
    for stop in stops {
        let (site, number) = *stop;
        let reason = reason_of(alloc, topology, journals, stops, *stop)?;
        let line = ReasonLine {
            site,
            number,
            reason,
            entry: &entries_at(journals, site)[number - 1],
        };
        write!(text, "{line}")?;
    }
    Ok(text)
}
