//! The command `audit` of edition 3: whether the journals of all sites come from one run.

ghost use Rattle.std.specs.Prelude.{◌≡◌, ◌++◌, true, OnOk, IfOk, IfErr, Some, flat_map, map, string_bytes};
ghost use Rattle.cmh_audit3.specs.Set.{IsSet};
ghost use Rattle.cmh_audit3.specs.Verdicts.{IsOrderOf, StandAtEnds};
ghost use Rattle.cmh_files.specs.AuditTexts.{cuts_text};
ghost use Rattle.cmh_files3.specs.Audits as spec;
ghost use Rattle.cmh_files3.specs.Inner.Cuts.{cut_at};
ghost use Rattle.cmh_files3.specs.Audits.{AreRead, AuditEnds, Audits, IsAuditFault, IsCause, IsFaultOfFiles, IsFindingOn, IsWorldOf, WroteAudit};
ghost use Rattle.cmh_files3.specs.More.{AreMore};
ghost use Rattle.cmh_console.specs.Status.{IsStatus};

use crate::audit_fault::AuditFault;
use crate::more::{More, more_of_events, more_of_order, more_of_stops};
use cmh_audit3::{Order, Segment, Stop, Stops, Verdict, audit, check_set, read_file, run_of};
use cmh_console::{Fault, Output, read_topology_file3};
use cmh_controller3::Controller;
use cmh_files::Cuts;
use cmh_model3::SiteId;
use cmh_report3::Report;
use cmh_topology3::Topology;
use std::alloc::{AllocError, Global};
use std::fmt;
use std::io::Write;

/// The journals of a command, in its order.
#[derive(Drop)]
struct Segments {
    segments: Vec<Segment>,
    /// The sites whose journal was cut off, ascending, and how many bytes stand after its last entry.
    cuts: Vec<(SiteId, usize)>,
}

/// The journals of all sites of a world.
#[derive(Drop)]
pub struct World {
    pub topology: Topology,
    pub segments: Vec<Segment>,
    /// The sites whose journal was cut off, ascending, and how many bytes stand after its last entry.
    pub cuts: Vec<(SiteId, usize)>,
}

/// What an audit finds.
#[derive(Drop)]
pub enum Finding {
    /// The journals come from a run, on which this is the report.
    Accepted(Report),
    /// They come from none.
    Refused(Stops),
}

/// What an audit finds, and more lines of it.
#[derive(Drop)]
pub struct Told {
    pub finding: Finding,
    pub lines: String,
}

/// What an audit comes to.
#[derive(Drop)]
pub struct Audited {
    pub world: Topology,
    /// The sites whose journal was cut off, ascending, and how many bytes stand after its last entry.
    pub cuts: Vec<(SiteId, usize)>,
    pub finding: Finding,
}

/// Audits the journals of all sites of a topology of edition 3, whose files are given in any order, and writes which
/// journals were cut off, and what the audit finds.
///
/// The answer is the status of the program: 0 where the journals come from one run, 1 where they don't or memory ran
/// out, 3 at any other fault. A fault is named on `err`, and a write to it that fails is ignored. Nothing is written to
/// `out` before a fault but where writing itself failed.
pub fn run_audit3<W: Write, E: Write>(
    alloc: Global,
    topology: &[u8],
    journals: &[Vec<u8>],
    out: &mut Output<W>,
    err: &mut Output<E>,
) -> u8
    ensures status { IsStatus result }

    // A report is written, or a fault is named, and nothing else.
    ensures ends { AuditEnds topology.now (map (λ file. file.items) journals.now) out.old out.new err.old err.new result }
{
    match audit_into(alloc, topology, journals, out) {
        Ok(status) => status,
        Err(fault) => Fault::from(fault).name_on(err),
    }
}

/// Writes what the audit comes to; answers the status.
fn audit_into<W: Write>(
    alloc: Global,
    topology: &[u8],
    journals: &[Vec<u8>],
    out: &mut Output<W>,
) -> Result<u8, AuditFault>
    ensures wrote { IfOk result (WroteAudit topology.now (map (λ file. file.items) journals.now)
        out.old.written out.new.written) }
    ensures flushed { OnOk result (out.new.is_flushed ≡ true) }
    ensures fault { IfErr result (IsCause topology.now (map (λ file. file.items) journals.now)
        out.old.written out.new.written out.new.has_failed) }
{
    let audited = audit_files(alloc, topology, journals)?;
    let text = audited.text(alloc)?;
    let status = audited.status();
    out.write_text(text.as_str())?;
    out.flush()?;
    Ok(status)
}

impl Audited {
    /// The status with which `cmh audit` ends.
    pub fn status(&self) -> u8
        ensures { result ≡ spec.status_of self.now.finding }
    {
        match &self.finding {
            Finding::Accepted(_) => 0,
            Finding::Refused(_) => 1,
        }
    }

    /// The lines that it writes.
    pub fn text(&self, alloc: Global) -> Result<String, AllocError>
        ensures { IfOk result (λ text. string_bytes text ≡ cuts_text self.now.cuts.items
            ++ spec.finding_text self.now.finding) }
    {
        let cuts = Cuts { cuts: &self.cuts };
        let finding = &self.finding;
        let mut text = String::new(alloc);
        write!(text, "{cuts}{finding}")?;
        Ok(text)
    }
}

impl fmt::Display for Finding {
    ghost output = { λ finding. Some (spec.finding_text finding) };

    fn fmt<W: fmt::Write>(&self, f: &mut fmt::Formatter<W>) -> fmt::Result {
        match self {
            Finding::Accepted(report) => write!(f, "{report}"),
            Finding::Refused(stops) => {
                let lines = StopLines {
                    stops: stops.as_slice(),
                };
                write!(f, "refused\n{lines}")
            }
        }
    }
}

/// Each unfinished site, with the number of its entry that couldn't be taken.
#[derive(Drop)]
struct StopLines<'a> {
    stops: &'a [Stop],
}

impl<'a> fmt::Display for StopLines<'a> {
    ghost output = { λ s. Some (flat_map spec.stop_text s.stops.now) };

    fn fmt<W: fmt::Write>(&self, f: &mut fmt::Formatter<W>) -> fmt::Result {
        for stop in self.stops {
            let site = stop.site;
            let entry = stop.entry;
            write!(f, "stop {site} at {entry}\n")?;
        }
        Ok(())
    }
}

/// The audit of these files. The first fault is answered: of the topology file, of the topology, of the journals in
/// their order, and of their set.
pub fn audit_files(alloc: Global, topology: &[u8], files: &[Vec<u8>]) -> Result<Audited, AuditFault>
    ensures audits { IfOk result (λ audited. Audits topology.now (map (λ file. file.items) files.now)
        audited.world audited.cuts.items audited.finding) }
    ensures fault { IfErr result (IsAuditFault topology.now (map (λ file. file.items) files.now)) }
{
    let World {
        topology: world,
        segments,
        cuts,
    } = read_world(alloc, topology, files)?;
    let told = finding_on(alloc, &world, segments, More::Nothing)?;
    Ok(Audited {
        world,
        cuts,
        finding: told.finding,
    })
}

/// The world of a topology file, and the journals of its sites. The first fault is answered, as by an audit.
pub fn read_world(alloc: Global, topology: &[u8], files: &[Vec<u8>]) -> Result<World, AuditFault>
    ensures read { IfOk result (λ world. IsWorldOf topology.now (map (λ file. file.items) files.now)
        world.topology world.segments.items world.cuts.items) }
    ensures fault { IfErr result (IsAuditFault topology.now (map (λ file. file.items) files.now)) }
{
    let file = read_topology_file3(alloc, topology)?;
    let world = Topology::new(alloc, file.world, &file.rows)?;
    let Segments { segments, cuts } = read_segments(alloc, files)?;
    check_set(&world, &segments)?;
    Ok(World {
        topology: world,
        segments,
        cuts,
    })
}

fn read_segments(alloc: Global, files: &[Vec<u8>]) -> Result<Segments, AuditFault>
    ensures read { IfOk result (λ read. AreRead (map (λ file. file.items) files.now) read.segments.items
        read.cuts.items) }
    ensures fault { IfErr result (IsFaultOfFiles (map (λ file. file.items) files.now)) }
{
    let mut segments = Vec::new(alloc);
    let mut cuts = Vec::new(alloc);
    for (i, bytes) in files.iter().enumerate() {
        match read_file(alloc, bytes) {
            Ok((segment, after)) => {
                note_cut(&mut cuts, site_of(&segment), after)?;
                segments.push(segment)?;
            }
            Err(fault) => return Err(AuditFault::of_file(i + 1, fault)),
        }
    }
    cuts.sort_unstable();
    Ok(Segments { segments, cuts })
}

fn site_of(segment: &Segment) -> SiteId
    ensures { result ≡ segment.now.header.site }
{
    segment.header.site
}

/// Notes how many bytes stand after the last entry of a site's journal, if there are any.
fn note_cut(cuts: &mut Vec<(SiteId, usize)>, site: SiteId, after: usize) -> Result<(), AllocError>
    ensures { OnOk result (cuts.new.items ≡ cuts.old.items ++ cut_at site after) }
{
    if after > 0 {
        cuts.push((site, after))?;
    }
    Ok(())
}

/// What the audit of the journals of a world finds, with more lines of it. The only error is out of memory.
pub fn finding_on(
    alloc: Global,
    world: &Topology,
    segments: Vec<Segment>,
    more: More,
) -> Result<Told, AllocError>
    requires { IsSet world.now segments.items }
    ensures finding { IfOk result (λ told. IsFindingOn world.now segments.items told.finding) }
    ensures more { IfOk result (λ told. AreMore more world.now segments.items told.finding
        (string_bytes told.lines)) }
{
    let Ok(verdict) = audit(alloc, world, &segments) else {
        return Err(AllocError);
    };
    match verdict {
        Verdict::Accepted { order, controllers } => {
            told_of_run(alloc, world, &order, &controllers, segments, more)
        }
        Verdict::Refused(stops) => {
            let lines = more_of_stops(alloc, more, world, &segments, stops.as_slice())?;
            Ok(Told {
                finding: Finding::Refused(stops),
                lines,
            })
        }
    }
}

/// The report on the run in which the sites take their entries in this order, with more lines of it. The controllers are
/// those of the audit.
fn told_of_run(
    alloc: Global,
    world: &Topology,
    order: &Order,
    controllers: &[Controller],
    segments: Vec<Segment>,
    more: More,
) -> Result<Told, AllocError>
    requires set { IsSet world.now segments.items }
    requires order { IsOrderOf world.now segments.items order.now }
    requires stand { StandAtEnds world.now segments.items controllers.now }
    ensures finding { IfOk result (λ told. IsFindingOn world.now segments.items told.finding) }
    ensures more { IfOk result (λ told. AreMore more world.now segments.items told.finding
        (string_bytes told.lines)) }
{
    let listed = more_of_order(alloc, more, order.as_slice(), &segments)?;
    let events = run_of(alloc, order, segments)?;
    let lines = more_of_events(alloc, more, listed, &events)?;
    let report = Report::new(alloc, world, controllers, &events)?;
    Ok(Told {
        finding: Finding::Accepted(report),
        lines,
    })
}
