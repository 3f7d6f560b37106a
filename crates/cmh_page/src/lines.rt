//! The lines of a run, in the middle of its page.

ghost use Rattle.std.specs.Prelude.{◌≡◌, IfErr, IfOk, map, string_bytes};
ghost use Rattle.cmh_audit.specs.Set.{IsSet};
ghost use Rattle.cmh_audit.specs.Stops.{AreStops};
ghost use Rattle.cmh_audit.specs.Verdicts.{IsVerdictOn, as_result};
ghost use Rattle.cmh_files.specs.Explains.{AreReasons};
ghost use Rattle.cmh_page.specs.Held.{AreToldSteps};
ghost use Rattle.cmh_page.specs.Pages.{AreLines, IsPageFault, TellsRun};

use crate::held::{fates_before, steps_before, stops_in};
use crate::moment::Moments;
use crate::page_fault::PageFault;
use crate::topology_text::TopologyText;
use cmh_audit::{AuditMemory, Step, Verdict, run_of};
use cmh_files::{AuditFault, Audited, audit_files, reason_lines};
use cmh_journal::{Journal, list_journals};
use std::alloc::{AllocError, Global};

/// How many events a page may tell.
const EVENT_LIMIT: usize = 20_000;

/// The lines of what an audit of the files finds.
pub fn lines_of(alloc: Global, topology: &[u8], files: &[Vec<u8>]) -> Result<String, PageFault>
    ensures tells { IfOk result (λ text. TellsRun topology.now (map (λ file. file.items) files.now) (string_bytes text)) }
    ensures fault { IfErr result (IsPageFault topology.now (map (λ file. file.items) files.now)) }
{
    let audited = audit_files(alloc, topology, files)?;
    let listed = list_journals(alloc, &audited.journals)?;
    let Ok(steps) = told_steps(alloc, &audited, &listed) else {
        return Err(PageFault::Audit(AuditFault::Memory));
    };
    if steps.len() > EVENT_LIMIT {
        return Err(PageFault::TooManyEvents);
    }
    let text = text_of(alloc, &audited, &listed, &steps)?;
    Ok(text)
}

/// The steps of a run of the journals; where they come from none, all before their stops.
#[tactic(auto, using(crate::proofs::HeldLemmas::told_before))]
fn told_steps(
    alloc: Global,
    audited: &Audited<'_>,
    listed: &[Journal],
) -> Result<Vec<Step>, AuditMemory>
    requires set { IsSet audited.now.world audited.now.journals.items }
    requires listed { listed.now ≡ audited.now.journals.items }
    ensures { IfOk result (λ steps.
        AreToldSteps audited.now.world audited.now.journals.items audited.now.verdict steps.items) }
{
    match &audited.verdict {
        Verdict::Accepted(_) => match run_of(alloc, &audited.world, &audited.journals)? {
            Some(steps) => Ok(steps),
            // Never so: they were accepted.
            None => Err(AuditMemory),
        },
        Verdict::Refused(stops) => match steps_before(alloc, stops.rows(), listed) {
            Ok(steps) => Ok(steps),
            Err(_) => Err(AuditMemory),
        },
    }
}

/// The topology, the verdict, the moments of the steps, and the reasons for stops.
fn text_of<'a>(
    alloc: Global,
    audited: &Audited<'_>,
    listed: &'a [Journal],
    steps: &'a [Step],
) -> Result<String, AllocError>
    requires verdict { IsVerdictOn audited.now.world audited.now.journals.items audited.now.verdict }
    requires listed { listed.now ≡ audited.now.journals.items }
    ensures { IfOk result (λ text. AreLines audited.now.world audited.now.journals.items audited.now.cuts.items
        audited.now.verdict steps.now (string_bytes text)) }
{
    let fates = fates_before(alloc, &audited.world, stops_in(&audited.verdict), listed)?;
    let topology = TopologyText {
        topology: &audited.world,
    };
    let verdict = audited.text(alloc)?;
    let moments = Moments {
        journals: listed,
        fates: &fates,
        steps,
    };
    let reasons = reasons_of(alloc, audited, listed)?;
    let text = format!(in alloc; "{topology}{verdict}{moments}{reasons}")?;
    Ok(text)
}

/// The lines of the reasons for stops; none where the journals come from a run.
fn reasons_of(
    alloc: Global,
    audited: &Audited<'_>,
    listed: &[Journal],
) -> Result<String, AllocError>
    requires { IfErr (as_result audited.now.verdict) (λ stops. AreStops audited.now.world listed.now stops.rows) }
    ensures { IfOk result (λ text. AreReasons audited.now.world listed.now audited.now.verdict (string_bytes text)) }
{
    match &audited.verdict {
        Verdict::Accepted(_) => Ok(String::new(alloc)),
        Verdict::Refused(stops) => reason_lines(alloc, &audited.world, listed, stops.rows()),
    }
}
