//! The command `audit --run`: an audit, and where the journals come from a run the entries of one in its order.

ghost use Rattle.std.specs.Prelude.{◌≡◌, ◌↔◌, true, OnOk, IfOk, IfErr, map};
ghost use Rattle.cmh_audit.specs.Journals.{journal_of};
ghost use Rattle.cmh_audit.specs.Set.{IsSet};
ghost use Rattle.cmh_audit.specs.Verdicts.{IsAccepted};
ghost use Rattle.cmh_frames.specs.Runs.{ComeFromRun};
ghost use Rattle.cmh_files.specs.Audits.{IsCause};
ghost use Rattle.cmh_files.specs.RunAudits.{AreStepsToTell, RunEnds, WroteRun};
ghost use Rattle.cmh_console.specs.Status.{IsStatus};

use crate::audit_fault::AuditFault;
use crate::auditing::{Audited, audit_files};
use crate::run_lines::RunLines;
use cmh_audit::{AuditMemory, Step, Verdict, run_of};
use cmh_console::{Fault, Output};
use cmh_journal::list_journals;
use std::alloc::Global;
use std::io::Write;

/// Audits journals as `run_audit` does, and where they come from a run writes the entries of one after the verdict, in
/// its order: a line each, with its site and its number in that site's journal, from 1.
///
/// The answer, the faults and the lines of the verdict are those of `run_audit`.
pub fn run_audit_run<W: Write, E: Write>(
    alloc: Global,
    topology: &[u8],
    journals: &[Vec<u8>],
    out: &mut Output<W>,
    err: &mut Output<E>,
) -> u8
    ensures status { IsStatus result }

    // A verdict is written with a run, or a fault is named, and nothing else.
    ensures ends { RunEnds topology.now (map (λ file. file.items) journals.now) out.old out.new err.old err.new result }
{
    match tell_into(alloc, topology, journals, out) {
        Ok(status) => status,
        Err(fault) => Fault::from(fault).name_on(err),
    }
}

/// Writes what the audit comes to, with a run; answers the status.
fn tell_into<W: Write>(
    alloc: Global,
    topology: &[u8],
    journals: &[Vec<u8>],
    out: &mut Output<W>,
) -> Result<u8, AuditFault>
    ensures wrote { IfOk result (WroteRun topology.now (map (λ file. file.items) journals.now)
        out.old.written out.new.written) }
    ensures flushed { OnOk result (out.new.is_flushed ≡ true) }
    ensures fault { IfErr result (IsCause topology.now (map (λ file. file.items) journals.now)
        out.old.written out.new.written out.new.has_failed) }
{
    let audited = audit_files(alloc, topology, journals)?;
    let Ok(steps) = steps_of(alloc, &audited) else {
        return Err(AuditFault::Memory);
    };
    let text = audited.text(alloc)?;
    let status = audited.status();
    let listed = list_journals(alloc, &audited.journals)?;
    let lines = RunLines {
        journals: &listed,
        steps: &steps,
    };
    out.write_text(text.as_str())?;
    out.write_text(lines)?;
    out.flush()?;
    Ok(status)
}

/// The steps of a run of the journals; none where they come from no run.
fn steps_of(alloc: Global, audited: &Audited<'_>) -> Result<Vec<Step>, AuditMemory>
    requires set { IsSet audited.now.world audited.now.journals.items }
    requires accepted { IsAccepted audited.now.verdict
        ↔ ComeFromRun audited.now.world (journal_of audited.now.journals.items) }
    ensures { IfOk result (λ steps.
        AreStepsToTell audited.now.world audited.now.journals.items audited.now.verdict steps.items) }
{
    match &audited.verdict {
        Verdict::Accepted(_) => match run_of(alloc, &audited.world, &audited.journals)? {
            Some(steps) => Ok(steps),
            None => Ok(Vec::new(alloc)),
        },
        Verdict::Refused(_) => Ok(Vec::new(alloc)),
    }
}
