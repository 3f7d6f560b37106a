//! What an audit prints: the journals that were cut off, and then the auditor's verdict, a fact a line.

ghost use Rattle.std.specs.Prelude.{Some, codes, flat_map};
ghost use Rattle.cmh_audit.specs.Reports.{cycle_of};
ghost use Rattle.cmh_files.specs.AuditTexts as spec;

use cmh_audit::{Report, Verdict};
use cmh_frames::{Edition, ProcId, ProcessesText, SiteId};
use std::io::Write;
use std::{fmt, io};

/// The lines of a verdict on a world of this edition.
#[derive(Drop)]
pub struct VerdictText<'a> {
    pub edition: Edition,
    pub verdict: &'a Verdict,
}

impl<'a> fmt::Display for VerdictText<'a> {
    ghost output = { λ t. Some (spec.verdict_text t.edition t.verdict.now) };

    fn fmt<W: fmt::Write>(&self, f: &mut fmt::Formatter<W>) -> fmt::Result {
        match self.verdict {
            Verdict::Accepted(report) => {
                let events = report.events();
                let transit = Transit {
                    edition: self.edition,
                    frames: report.in_transit(),
                };
                let waits = Waits {
                    waits: report.waits(),
                };
                let deadlocks = Deadlocks { report };
                write!(f, "accepted\nevents {events}\n{transit}{waits}{deadlocks}")
            }
            Verdict::Refused(stops) => {
                let stops = StopLines {
                    stops: stops.rows(),
                };
                write!(f, "refused\n{stops}")
            }
        }
    }
}

/// How many frames are under way, which is told in edition 2 alone.
#[derive(Clone, Copy)]
struct Transit {
    edition: Edition,
    frames: u64,
}

impl fmt::Display for Transit {
    ghost output = { λ t. Some (spec.transit_text t.edition t.frames) };

    fn fmt<W: fmt::Write>(&self, f: &mut fmt::Formatter<W>) -> fmt::Result {
        match (self.edition, self.frames) {
            (Edition::One, _) => Ok(()),
            (Edition::Two, 0) => write!(f, "drained\n"),
            (Edition::Two, frames) => write!(f, "in transit {frames}\n"),
        }
    }
}

/// Each process that waits with each that it waits for.
#[derive(Drop)]
struct Waits<'a> {
    waits: &'a [(ProcId, ProcId)],
}

impl<'a> fmt::Display for Waits<'a> {
    ghost output = { λ w. Some (flat_map (spec.pair_text (codes "wait ") (codes " ")) w.waits.now) };

    fn fmt<W: fmt::Write>(&self, f: &mut fmt::Formatter<W>) -> fmt::Result {
        for (asker, holder) in self.waits {
            write!(f, "wait {asker} {holder}\n")?;
        }
        Ok(())
    }
}

/// Each declared process, with a cycle of waits through it.
#[derive(Drop)]
struct Deadlocks<'a> {
    report: &'a Report,
}

impl<'a> fmt::Display for Deadlocks<'a> {
    ghost output = { λ d. Some (flat_map (λ process. spec.deadlock_text process (cycle_of d.report.now process)) d.report.now.declared) };

    fn fmt<W: fmt::Write>(&self, f: &mut fmt::Formatter<W>) -> fmt::Result {
        for process in self.report.declared() {
            if let Some(members) = self.report.cycle(*process) {
                let cycle = ProcessesText { processes: members };
                write!(f, "declared {process} cycle{cycle}\n")?;
            }
        }
        Ok(())
    }
}

/// Each unfinished site, with the number of its entry that couldn't be taken.
#[derive(Drop)]
struct StopLines<'a> {
    stops: &'a [(SiteId, usize)],
}

impl<'a> fmt::Display for StopLines<'a> {
    ghost output = { λ s. Some (flat_map (spec.pair_text (codes "stop ") (codes " at ")) s.stops.now) };

    fn fmt<W: fmt::Write>(&self, f: &mut fmt::Formatter<W>) -> fmt::Result {
        for (site, entry) in self.stops {
            write!(f, "stop {site} at {entry}\n")?;
        }
        Ok(())
    }
}

/// Each site whose journal was cut off, with how many bytes stand after its last entry.
#[derive(Drop)]
pub struct Cuts<'a> {
    pub cuts: &'a [(SiteId, usize)],
}

impl<'a> fmt::Display for Cuts<'a> {
    ghost output = { λ c. Some (spec.cuts_text c.cuts.now) };

    fn fmt<W: fmt::Write>(&self, f: &mut fmt::Formatter<W>) -> fmt::Result {
        for (site, bytes) in self.cuts {
            write!(f, "cut {site} {bytes}\n")?;
        }
        Ok(())
    }
}
