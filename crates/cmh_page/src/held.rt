//! What a page tells of journals: a run from which they come, or how far they can be taken.

ghost use Rattle.std.specs.Prelude.{◌≡◌, ◌++◌, IfOk, OnOk, length, map};
ghost use Rattle.cmh_frames.specs.Runs.{ComeFromRun};
ghost use Rattle.cmh_files.specs.Reasons.{held_before};
ghost use Rattle.cmh_page.specs.Held as spec;

use crate::fate::Fate;
use crate::fates::fates_of;
use cmh_audit::{Step, Verdict, entries_at};
use cmh_frames::{Entry, SiteId, Topology};
use cmh_journal::Journal;
use std::alloc::{AllocError, Global};

/// The stops of a verdict; none where the journals come from a run.
pub fn stops_in(verdict: &Verdict) -> &[(SiteId, usize)]
    ensures { result.now ≡ spec.stops_in verdict.now }
{
    match verdict {
        Verdict::Accepted(_) => &[],
        Verdict::Refused(stops) => stops.rows(),
    }
}

/// What becomes of the probes of each journal, up to the stop of its site.
pub fn fates_before(
    alloc: Global,
    topology: &Topology,
    stops: &[(SiteId, usize)],
    journals: &[Journal],
) -> Result<Vec<Vec<Option<Fate>>>, AllocError>
    requires { ComeFromRun topology.now (held_before journals.now stops.now) }
    ensures { IfOk result (λ rows. map (λ row. row.items) rows.items
        ≡ spec.fates_before topology.now stops.now journals.now) }
{
    let mut rows = Vec::new(alloc);
    for journal in journals {
        let site = journal.site();
        let entries = entries_before(journals, stops, site);
        rows.push(fates_of(alloc, topology, site, entries)?)?;
    }
    Ok(rows)
}

/// The entries of a site before its stop; all where it has none.
fn entries_before<'a>(
    journals: &'a [Journal],
    stops: &[(SiteId, usize)],
    site: SiteId,
) -> &'a [Entry]
    ensures { result.now ≡ held_before journals.now stops.now site }
{
    let entries = entries_at(journals, site);
    for (stopped, number) in stops {
        if *stopped == site {
            let before = number.saturating_sub(1);
            return if before < entries.len() {
                &entries[..before]
            } else {
                entries
            };
        }
    }
    entries
}

/// The places of all entries before the stops, journal by journal.
pub fn steps_before(
    alloc: Global,
    stops: &[(SiteId, usize)],
    journals: &[Journal],
) -> Result<Vec<Step>, AllocError>
    ensures { IfOk result (λ steps. steps.items ≡ spec.steps_before stops.now journals.now 0 journals.now) }
{
    let mut steps = Vec::new(alloc);
    for (place, journal) in journals.iter().enumerate() {
        let entries = entries_before(journals, stops, journal.site());
        push_steps(&mut steps, place, entries.len())?;
    }
    Ok(steps)
}

/// Adds the places of the first entries of a journal.
fn push_steps(steps: &mut Vec<Step>, journal: usize, count: usize) -> Result<(), AllocError>
    ensures { OnOk result (steps.new.items ≡ steps.old.items ++ spec.first_steps journal count) }
{
    for entry in 0..count {
        steps.push(Step { journal, entry })?;
    }
    Ok(())
}
