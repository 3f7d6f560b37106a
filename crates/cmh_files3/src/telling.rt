//! The command `audit` of edition 3 with more lines after its own: why sites stop, or a run.

ghost use Rattle.std.specs.Prelude.{◌≡◌, true, OnOk, IfOk, IfErr, map, string_bytes};
ghost use Rattle.cmh_console.specs.Status.{IsStatus};
ghost use Rattle.cmh_files3.specs.Audits.{IsAuditFault, IsCause};
ghost use Rattle.cmh_files3.specs.More.{MoreEnds, TellsMore, WroteMore};

use crate::audit_fault::AuditFault;
use crate::auditing::{Audited, World, finding_on, read_world};
use crate::more::More;
use cmh_console::{Fault, Output};
use std::alloc::Global;
use std::io::Write;

/// What an audit comes to, and more lines of it.
#[derive(Drop)]
struct AuditedMore {
    audited: Audited,
    lines: String,
}

/// Audits journals as `run_audit3` does, and writes more after the lines of the audit: where the journals come from no run
/// the reason for which each site stops, or where they come from a run the entries of one in its order.
///
/// The answer, the faults and the lines of the audit are those of `run_audit3`.
pub fn run_audit3_with<W: Write, E: Write>(
    alloc: Global,
    topology: &[u8],
    journals: &[Vec<u8>],
    more: More,
    out: &mut Output<W>,
    err: &mut Output<E>,
) -> u8
    ensures status { IsStatus result }

    // A report is written with more after it, or a fault is named, and nothing else.
    ensures ends { MoreEnds more topology.now (map (λ file. file.items) journals.now) out.old out.new err.old err.new
        result }
{
    match tell_into(alloc, topology, journals, more, out) {
        Ok(status) => status,
        Err(fault) => Fault::from(fault).name_on(err),
    }
}

/// Writes what the audit comes to, with more after it; answers the status.
fn tell_into<W: Write>(
    alloc: Global,
    topology: &[u8],
    journals: &[Vec<u8>],
    more: More,
    out: &mut Output<W>,
) -> Result<u8, AuditFault>
    ensures wrote { IfOk result (WroteMore more topology.now (map (λ file. file.items) journals.now)
        out.old.written out.new.written) }
    ensures flushed { OnOk result (out.new.is_flushed ≡ true) }
    ensures fault { IfErr result (IsCause topology.now (map (λ file. file.items) journals.now)
        out.old.written out.new.written out.new.has_failed) }
{
    let told = audit_with(alloc, topology, journals, more)?;
    let text = told.audited.text(alloc)?;
    let status = told.audited.status();
    out.write_text(text.as_str())?;
    out.write_text(told.lines.as_str())?;
    out.flush()?;
    Ok(status)
}

/// The audit of these files with more lines of it. The first fault is answered, as by `audit_files`.
fn audit_with(
    alloc: Global,
    topology: &[u8],
    files: &[Vec<u8>],
    more: More,
) -> Result<AuditedMore, AuditFault>
    ensures tells { IfOk result (λ told. TellsMore more topology.now (map (λ file. file.items) files.now)
        told.audited.world told.audited.cuts.items told.audited.finding (string_bytes told.lines)) }
    ensures fault { IfErr result (IsAuditFault topology.now (map (λ file. file.items) files.now)) }
{
    let World {
        topology: world,
        segments,
        cuts,
    } = read_world(alloc, topology, files)?;
    let told = finding_on(alloc, &world, segments, more)?;
    Ok(AuditedMore {
        audited: Audited {
            world,
            cuts,
            finding: told.finding,
        },
        lines: told.lines,
    })
}
