//! The auditor's verdict.

ghost use Rattle.std.specs.Prelude.{◌≡◌, ◌↔◌, ◌+◌, ◌*◌, ◌≤◌, List, length, IfErr, IfOk};
ghost use Rattle.cmh_frames.specs.Entries.{WorldEvent};
ghost use Rattle.cmh_frames.specs.Runs.{ComeFromRun, ComesFrom, IsRun};
ghost use Rattle.cmh_audit.specs.Inner.Merging.{AreLawfulLengths};
ghost use Rattle.cmh_audit.specs.Inner.Walks.{cut_all_to};
ghost use Rattle.cmh_audit.specs.Journals.{journal_of, entry_count};
ghost use Rattle.cmh_audit.specs.Reports.{Reports, IsInOrder};
ghost use Rattle.cmh_audit.specs.Set.{IsSet};
ghost use Rattle.cmh_audit.specs.Stops.{AreStops};
ghost use Rattle.cmh_audit.specs.Totals.{AreTotalsOf};
ghost use Rattle.cmh_audit.specs.Verdicts.{IsAccepted, IsVerdictOn, as_result, tries_of, looks_due, looks_caused};

use crate::count::count_entries;
use crate::merge::merge;
use crate::report::Report;
use crate::stops::{Stops, stops_of};
use crate::survey::{Survey, survey_of};
use cmh_frames::Topology;
use cmh_journal::StoredJournal;
use std::alloc::{AllocError, Global};
use thiserror::Error;

/// Memory was refused, so there is no verdict.
#[derive(Clone, Copy, Debug, PartialEq, Eq, Error)]
#[error("there is not enough memory for the audit")]
pub struct AuditMemory;

impl From<AllocError> for AuditMemory {
    fn from(_: AllocError) -> Self {
        AuditMemory
    }
}

/// Whether the journals of all sites come from one run.
#[derive(Drop)]
pub enum Verdict {
    /// They do.
    Accepted(Report),
    /// They don't.
    Refused(Stops),
}

/// Merges the journals of all sites, in whatever order they are given, into one run, or says where they stop.
///
/// The journals are those of one world, as `check_set` tests. The only error is out of memory, after which nothing is
/// said of the journals.
pub fn audit(
    alloc: Global,
    topology: &Topology,
    journals: &[StoredJournal<'_>],
) -> Result<Verdict, AuditMemory>
    requires { IsSet topology.now journals.now }

    // Accepted exactly where the journals come from a run.
    ensures accepted { IfOk result (λ v. IsAccepted v ↔ ComeFromRun topology.now (journal_of journals.now)) }

    // The report holds of every run from which they come.
    ensures report { IfOk result (λ v. IfOk (as_result v) (λ report. (events : List WorldEvent) → IsRun topology.now events
        → ComesFrom (journal_of journals.now) events → Reports topology.now events report)) }
    ensures order { IfOk result (λ v. IfOk (as_result v) IsInOrder) }
    ensures events { IfOk result (λ v. IfOk (as_result v) (λ report. report.events ≡ entry_count journals.now)) }

    // The stops are the furthest that any run of these journals' beginnings gets.
    ensures stops { IfOk result (λ v. IfErr (as_result v) (λ stops. AreStops topology.now journals.now stops.rows)) }
    ensures tries { IfOk result (λ v. tries_of v ≤ (entry_count journals.now + 1) * length journals.now) }

    // Each entry that was taken was looked at, and each at which a site stops.
    ensures looked { IfOk result (λ v. looks_due journals.now v ≤ tries_of v) }

    // And a site is looked at again only for a frame that an entry sent that was taken.
    ensures caused { IfOk result (λ v. tries_of v ≤ looks_caused journals.now v) }
{
    let survey = survey_of(alloc, topology, journals)?;
    audit_surveyed(alloc, topology, journals, &survey)
}

/// The same of journals that were surveyed.
fn audit_surveyed(
    alloc: Global,
    topology: &Topology,
    journals: &[StoredJournal<'_>],
    survey: &Survey,
) -> Result<Verdict, AuditMemory>
    requires set { IsSet topology.now journals.now }
    requires lawful { AreLawfulLengths topology.now journals.now survey.now.limits.items }
    requires totals { AreTotalsOf (cut_all_to journals.now survey.now.limits.items) survey.now.totals }
    ensures verdict { IfOk result (IsVerdictOn topology.now journals.now) }
    ensures looked { IfOk result (λ v. looks_due journals.now v ≤ tries_of v) }
    ensures caused { IfOk result (λ v. tries_of v ≤ looks_caused journals.now v) }
{
    let sites = topology.sites();
    // By its contract the entries are so few that a merge can count its tries.
    let _ = count_entries(journals);
    let merged = merge(alloc, topology, journals, &survey.limits, false)?;
    let rows = stops_of(alloc, sites, journals, &merged.taken)?;
    if rows.is_empty() {
        let report = survey.totals.report(alloc, topology, merged.tries)?;
        Ok(Verdict::Accepted(report))
    } else {
        Ok(Verdict::Refused(Stops::new(rows, merged.tries)))
    }
}
