//! The command over some epochs alone.

ghost use Rattle.std.specs.Prelude.{◌≡◌, true, IfOk, map};
ghost use Rattle.std.specs.List.{All};
ghost use Rattle.cmh_history3.specs.Chains.{IsReadEpoch};
ghost use Rattle.cmh_console.specs.Status.{IsStatus};
ghost use Rattle.cmh_long_audit3.specs.Parts.{IsPartAccepted};

use crate::auditing::{Told, cuts_text, flawed, of_history};
use crate::journals::journals_of;
use crate::keeping::{Flaw, first_flawed};
use crate::noted::Noted;
use crate::part_report::part_report;
use crate::part_text::{apart_lines, refused_part};
use crate::progress::{ALL_JUDGED, ALL_READ, Progress};
use cmh_console::{Fault, Output, read_topology_file3};
use cmh_files3::AuditFault;
use cmh_history3::{ChainVerdict, Part, audit_part};
use cmh_topology3::Topology;
use cmh_wire3::Epoch;
use std::alloc::Global;
use std::io::{Eprint, Write};
use std::thread::Threads;
use std::time::Clock;

/// Which epochs an audit reads.
#[derive(Clone, Copy)]
pub struct EpochRange {
    /// The first one, from whose bases it begins.
    pub first: Epoch,
    /// The last one, of which it is held against the next bases where they lead; none where all that follow are read.
    pub last: Option<Epoch>,
}

/// Audits some epochs of the journals of all sites of a topology of edition 3, from the bases of the first. Of each journal
/// the files of its segments are given in order, from that on whose base stands for the first epoch. It writes what it finds,
/// as `run_long_audit3` does, but of a declaration its stop alone.
///
/// The answer is the status of the program: 0 where the epochs are accepted, 1 where one is not or memory ran out, 3 at any
/// other fault, which is named on `err`. How far it has come, it says as `run_long_audit3` does.
pub fn run_part_audit3<R, W: Write, E: Write>(
    rt: &R,
    topology: &[u8],
    files: &[Vec<Vec<u8>>],
    range: &EpochRange,
    out: &mut Output<W>,
    err: &mut Output<E>,
) -> u8
where
    R: Threads + AllocGlobal + Clock + Eprint + Sync,
    ensures status { IsStatus result }

    // It ends with 0 only where the epochs are one run from the first bases.
    ensures accepted { result ≡ 0 → IsPartAccepted topology.now range.now
        (map (λ segments. map (λ file. file.items) segments.items) files.now) }
{
    match tell_part(rt, topology, files, *range, out) {
        Ok(status) => status,
        Err(fault) => Fault::from(fault).name_on(err),
    }
}

/// Writes what the audit comes to; answers the status.
fn tell_part<R: Threads + AllocGlobal + Clock + Eprint + Sync, W: Write>(
    rt: &R,
    topology: &[u8],
    files: &[Vec<Vec<u8>>],
    range: EpochRange,
    out: &mut Output<W>,
) -> Result<u8, AuditFault>
    ensures status { IfOk result IsStatus }
    ensures accepted { IfOk result (λ status. status ≡ 0 → IsPartAccepted topology.now range
        (map (λ segments. map (λ file. file.items) segments.items) files.now)) }
{
    let told = audited_part(rt, topology, files, range)?;
    out.write_text(told.text.as_str())?;
    out.flush()?;
    if told.is_accepted { Ok(0) } else { Ok(1) }
}

/// The audit of these files. The first fault is answered: of the topology file, of the topology, of the journals in their
/// order, and of their set.
fn audited_part<R: Threads + AllocGlobal + Clock + Eprint + Sync>(
    rt: &R,
    topology: &[u8],
    files: &[Vec<Vec<u8>>],
    range: EpochRange,
) -> Result<Told, AuditFault>
    ensures { IfOk result (λ told. told.is_accepted ≡ true → IsPartAccepted topology.now range
        (map (λ segments. map (λ file. file.items) segments.items) files.now)) }
{
    let alloc = rt.alloc();
    let file = read_topology_file3(alloc, topology)?;
    let world = Topology::new(alloc, file.world, &file.rows)?;
    let progress = Progress::begin(rt);
    let mut noted = Noted::new(alloc);
    let journals = journals_of(rt, alloc, files, Some(range), &mut noted)?;
    let cuts = noted.cuts(alloc)?;
    progress.tell(rt, ALL_READ);
    let part = match audit_part(rt, alloc, &world, journals) {
        Ok(part) => part,
        Err(fault) => return Err(of_history(fault)),
    };
    progress.tell(rt, ALL_JUDGED);
    let told = told_of_part(alloc, &world, &part, &noted.flaws)?;
    let mut text = cuts_text(alloc, &cuts)?;
    text.push_str(told.text.as_str())?;
    Ok(Told {
        is_accepted: told.is_accepted,
        text,
    })
}

/// What is told of epochs that were audited.
fn told_of_part(
    alloc: Global,
    world: &Topology,
    part: &Part,
    flaws: &[Flaw],
) -> Result<Told, AuditFault>
    requires { All (IsReadEpoch world.now) part.now.epochs.items }
    ensures { IfOk result (λ told. told.is_accepted ≡ true → part.now.verdict ≡ ChainVerdict.Accepted) }
{
    let epochs = part.epochs.as_slice();
    match part.verdict {
        ChainVerdict::Accepted => {
            if let Some(epoch) = first_flawed(flaws) {
                return Ok(flawed(alloc, flaws, epoch)?);
            }
            let text = part_report(alloc, world, epochs)?;
            Ok(Told {
                is_accepted: true,
                text,
            })
        }
        ChainVerdict::Refused(place) => {
            let text = refused_part(alloc, world, epochs, place)?;
            Ok(Told {
                is_accepted: false,
                text,
            })
        }
        ChainVerdict::Apart(place) => {
            let text = apart_lines(alloc, world, epochs, place)?;
            Ok(Told {
                is_accepted: false,
                text,
            })
        }
    }
}
