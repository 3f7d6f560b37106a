//! The entries of a run as lines.

ghost use Rattle.std.specs.Prelude.{◌≡◌, ◌<◌, ◌-◌, IfOk, MatchOption, None, Some, slice_get, string_bytes};
ghost use Rattle.cmh_audit3.specs.Journals.{journal_of};
ghost use Rattle.cmh_files3.specs.RunLines as spec;

use crate::entries::entries_at;
use crate::entry_text::EntryText;
use crate::taken::Taken;
use cmh_audit3::Segment;
use cmh_model3::SiteId;
use cmh_segment3::Entry;
use std::alloc::{AllocError, Global};
use std::fmt;
use std::fmt::Write;

/// An entry of a run, on a line after its site and its number in the journal of that site, from 1.
#[derive(Drop)]
struct RunLine<'a> {
    site: SiteId,
    number: usize,
    entry: &'a Entry,
}

impl<'a> fmt::Display for RunLine<'a> {
    ghost output = { λ line. Some (spec.entry_line line.site line.number (Some line.entry.now)) };

    fn fmt<W: fmt::Write>(&self, f: &mut fmt::Formatter<W>) -> fmt::Result {
        let site = self.site;
        let number = self.number;
        let text = EntryText { entry: self.entry };
        write!(f, "{site} {number} {text}\n")
    }
}

/// A line for each entry of the segments, where the sites take their entries in this order: the site, the entry's number
/// in the site's journal, from 1, and the entry. The only error is out of memory.
pub fn run_lines(
    alloc: Global,
    order: &[SiteId],
    segments: &[Segment],
) -> Result<String, AllocError>
    ensures { IfOk result (λ text. string_bytes text ≡ spec.order_text (journal_of segments.now) order.now) }
{
    let mut taken = Taken::new(alloc);
    let mut text = String::new(alloc);
    for site in order {
        let site = *site;
        let number = taken.take(site)?;
        if let Some(entry) = entry_at(segments, site, number) {
            let line = RunLine {
                site,
                number,
                entry,
            };
            write!(text, "{line}")?;
        }
    }
    Ok(text)
}

/// The entry of this number, from 1, of a site's segment.
fn entry_at(segments: &[Segment], site: SiteId, number: usize) -> Option<&Entry>
    requires { 0 < number }
    ensures { MatchOption result (slice_get (journal_of segments.now site) (number - 1) ≡ None)
        (λ entry. slice_get (journal_of segments.now site) (number - 1) ≡ Some entry.now) }
{
    entries_at(segments, site).get(number - 1)
}
