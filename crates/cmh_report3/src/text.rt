//! How a report is printed.

ghost use Rattle.std.specs.Prelude.{Some, flat_map, codes};
ghost use Rattle.cmh_report3.specs.Texts as spec;

use crate::cycle::{CycleNow, Deadlock};
use crate::report::Report;
use cmh_frames::ProcessesText;
use cmh_model3::ProcId;
use std::fmt;

/// The lines of the report: what was accepted, who waits, who is leaving, and who is declared.
impl fmt::Display for Report {
    ghost output = { λ report. Some (spec.report_text report) };

    fn fmt<W: fmt::Write>(&self, f: &mut fmt::Formatter<W>) -> fmt::Result {
        let events = self.events;
        let transit = Transit {
            messages: self.in_transit,
        };
        let waits = Waits { waits: &self.waits };
        let leaving = Leaving {
            leaving: &self.leaving,
        };
        let deadlocks = Deadlocks {
            deadlocks: &self.declared,
        };
        write!(
            f,
            "accepted\nevents {events}\n{transit}{waits}{leaving}{deadlocks}"
        )
    }
}

/// Each process that waits with each that it waits for.
#[derive(Drop)]
struct Waits<'a> {
    waits: &'a [(ProcId, ProcId)],
}

impl<'a> fmt::Display for Waits<'a> {
    ghost output = { λ w. Some (flat_map (spec.pair_text (codes "wait ")) w.waits.now) };

    fn fmt<W: fmt::Write>(&self, f: &mut fmt::Formatter<W>) -> fmt::Result {
        for (asker, holder) in self.waits {
            write!(f, "wait {asker} {holder}\n")?;
        }
        Ok(())
    }
}

/// Each process with each that it can't ask again yet.
#[derive(Drop)]
struct Leaving<'a> {
    leaving: &'a [(ProcId, ProcId)],
}

impl<'a> fmt::Display for Leaving<'a> {
    ghost output = { λ l. Some (flat_map (spec.pair_text (codes "leaving ")) l.leaving.now) };

    fn fmt<W: fmt::Write>(&self, f: &mut fmt::Formatter<W>) -> fmt::Result {
        for (asker, holder) in self.leaving {
            write!(f, "leaving {asker} {holder}\n")?;
        }
        Ok(())
    }
}

/// Each of these, with what became of its cycle, on a line of its own.
#[derive(Drop)]
pub struct Deadlocks<'a> {
    pub deadlocks: &'a [Deadlock],
}

impl<'a> fmt::Display for Deadlocks<'a> {
    ghost output = { λ d. Some (flat_map spec.deadlock_line d.deadlocks.now) };

    fn fmt<W: fmt::Write>(&self, f: &mut fmt::Formatter<W>) -> fmt::Result {
        for deadlock in self.deadlocks {
            write!(f, "{deadlock}\n")?;
        }
        Ok(())
    }
}

/// How many messages are under way.
#[derive(Clone, Copy)]
struct Transit {
    messages: u64,
}

impl fmt::Display for Transit {
    ghost output = { λ transit. Some (spec.transit_text transit.messages) };

    fn fmt<W: fmt::Write>(&self, f: &mut fmt::Formatter<W>) -> fmt::Result {
        match self.messages {
            0 => write!(f, "drained\n"),
            messages => write!(f, "in transit {messages}\n"),
        }
    }
}

/// The declaration and its cycle, without the end of the line.
impl fmt::Display for Deadlock {
    ghost output = { λ declared. Some (spec.deadlock_text declared) };

    fn fmt<W: fmt::Write>(&self, f: &mut fmt::Formatter<W>) -> fmt::Result {
        let process = self.process;
        let stop = self.stop;
        let cycle = &self.cycle;
        write!(f, "declared {process} at {stop} {cycle}")
    }
}

impl fmt::Display for CycleNow {
    ghost output = { λ cycle. Some (spec.cycle_text cycle) };

    fn fmt<W: fmt::Write>(&self, f: &mut fmt::Formatter<W>) -> fmt::Result {
        match self {
            CycleNow::Stands(members) => {
                let cycle = ProcessesText { processes: members };
                write!(f, "cycle{cycle} stands")
            }
            CycleNow::Left { members, by } => {
                let cycle = ProcessesText { processes: members };
                match by {
                    Some(by) => write!(f, "cycle{cycle} left by {by}"),
                    None => write!(f, "cycle{cycle} left by nobody"),
                }
            }
            CycleNow::None => write!(f, "no cycle"),
        }
    }
}
