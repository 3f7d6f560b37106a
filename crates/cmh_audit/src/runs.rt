//! A run from which journals come.

ghost use Rattle.std.specs.Prelude.{IfOk, MatchOption};
ghost use Rattle.cmh_frames.specs.Runs.{ComeFromRun};
ghost use Rattle.cmh_audit.specs.Journals.{journal_of};
ghost use Rattle.cmh_audit.specs.Runs.{IsRunOf};
ghost use Rattle.cmh_audit.specs.Set.{IsSet};

use crate::count::count_entries;
use crate::merge::merge;
use crate::step::Step;
use crate::stops::stops_of;
use crate::survey::survey_of;
use crate::verdict::AuditMemory;
use cmh_frames::Topology;
use cmh_journal::StoredJournal;
use std::alloc::Global;

/// One run from which the journals of all sites come, as the places of its entries: a certificate of an accepted audit,
/// which whoever has the journals can follow. `None` where they come from no run, as `audit` refuses them then.
///
/// The journals are those of one world, as `check_set` tests. They may come from further runs; which one is answered is
/// determined by their order. The only error is out of memory, after which nothing is said of the journals.
pub fn run_of(
    alloc: Global,
    topology: &Topology,
    journals: &[StoredJournal<'_>],
) -> Result<Option<Vec<Step>>, AuditMemory>
    requires { IsSet topology.now journals.now }
    ensures { IfOk result (λ found. MatchOption found (ComeFromRun topology.now (journal_of journals.now) → ⊥)
        (λ steps. IsRunOf topology.now journals.now steps.items)) }
{
    let sites = topology.sites();
    // By its contract the entries are so few that a merge can count its tries.
    let _ = count_entries(journals);
    let survey = survey_of(alloc, topology, journals)?;
    let merged = merge(alloc, topology, journals, &survey.limits, true)?;
    let rows = stops_of(alloc, sites, journals, &merged.taken)?;
    if rows.is_empty() {
        Ok(Some(merged.steps))
    } else {
        Ok(None)
    }
}
