//! The command `audit --why`: an audit, and where the journals come from no run the reason for which each site stops.

ghost use Rattle.std.specs.Prelude.{◌≡◌, ◌++◌, ℕ, List, true, OnOk, IfOk, IfErr, map, string_bytes};
ghost use Rattle.cmh_audit.specs.Stops.{AreStops};
ghost use Rattle.cmh_audit.specs.Verdicts.{as_result};
ghost use Rattle.cmh_files.specs.AuditTexts.{cuts_text, verdict_text};
ghost use Rattle.cmh_files.specs.Audits.{IsCause};
ghost use Rattle.cmh_files.specs.Explains.{AreReasons, ExplainEnds, WroteExplained};
ghost use Rattle.cmh_console.specs.Status.{IsStatus};

use crate::audit_fault::AuditFault;
use crate::auditing::{Audited, audit_files};
use crate::reason_lines;
use cmh_audit::Verdict;
use cmh_console::{Fault, Output};
use cmh_journal::list_journals;
use std::alloc::{AllocError, Global};
use std::io::Write;

/// Audits journals as `run_audit` does, and where they come from no run writes after the verdict a line for each stop:
/// why that site can't take the entry at it.
///
/// The answer, the faults and the lines of the verdict are those of `run_audit`.
pub fn run_audit_why<W: Write, E: Write>(
    alloc: Global,
    topology: &[u8],
    journals: &[Vec<u8>],
    out: &mut Output<W>,
    err: &mut Output<E>,
) -> u8
    ensures status { IsStatus result }

    // A verdict is written with its reasons, or a fault is named, and nothing else.
    ensures ends { ExplainEnds topology.now (map (λ file. file.items) journals.now) out.old out.new err.old err.new result }
{
    match explain_into(alloc, topology, journals, out) {
        Ok(status) => status,
        Err(fault) => Fault::from(fault).name_on(err),
    }
}

/// Writes what the audit comes to, with the reasons; answers the status.
fn explain_into<W: Write>(
    alloc: Global,
    topology: &[u8],
    journals: &[Vec<u8>],
    out: &mut Output<W>,
) -> Result<u8, AuditFault>
    ensures wrote { IfOk result (WroteExplained topology.now (map (λ file. file.items) journals.now)
        out.old.written out.new.written) }
    ensures flushed { OnOk result (out.new.is_flushed ≡ true) }
    ensures fault { IfErr result (IsCause topology.now (map (λ file. file.items) journals.now)
        out.old.written out.new.written out.new.has_failed) }
{
    let audited = audit_files(alloc, topology, journals)?;
    let text = explained_text(alloc, &audited)?;
    let status = audited.status();
    out.write_text(text.as_str())?;
    out.flush()?;
    Ok(status)
}

/// The lines of the audit, and then those of the reasons.
fn explained_text(alloc: Global, audited: &Audited<'_>) -> Result<String, AllocError>
    requires { IfErr (as_result audited.now.verdict)
        (λ stops. AreStops audited.now.world audited.now.journals.items stops.rows) }
    ensures { IfOk result (λ text. (reasons : List ℕ)
        × AreReasons audited.now.world audited.now.journals.items audited.now.verdict reasons
        × (string_bytes text ≡ cuts_text audited.now.cuts.items ++ verdict_text audited.now.world.edition audited.now.verdict
        ++ reasons)) }
{
    let reasons = reasons_of(alloc, audited)?;
    let mut text = audited.text(alloc)?;
    text.push_str(reasons.as_str())?;
    Ok(text)
}

/// The lines of the reasons; none where the journals come from a run.
fn reasons_of(alloc: Global, audited: &Audited<'_>) -> Result<String, AllocError>
    requires { IfErr (as_result audited.now.verdict)
        (λ stops. AreStops audited.now.world audited.now.journals.items stops.rows) }
    ensures { IfOk result (λ text.
        AreReasons audited.now.world audited.now.journals.items audited.now.verdict (string_bytes text)) }
{
    match &audited.verdict {
        Verdict::Accepted(_) => Ok(String::new(alloc)),
        Verdict::Refused(stops) => {
            let listed = list_journals(alloc, &audited.journals)?;
            reason_lines(alloc, &audited.world, &listed, stops.rows())
        }
    }
}
