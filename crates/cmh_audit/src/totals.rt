//! What entries come to, kept while they are taken.

ghost use Rattle.std.specs.Prelude.{◌≡◌, List, [], IfOk, OnOk};
ghost use Rattle.cmh_frames.specs.Entries.{WorldEvent};
ghost use Rattle.cmh_frames.specs.Runs.{ComesFrom, IsRun};
ghost use Rattle.cmh_journal.specs.Journal as journal;
ghost use Rattle.cmh_audit.specs.Journals.{journal_of, entry_count};
ghost use Rattle.cmh_audit.specs.Reports.{IsInOrder, Reports};
ghost use Rattle.cmh_audit.specs.Totals.{AddsEntry, AreTotalsOf, AreTotalsOfRun, got_by};
ghost use Rattle.cmh_audit.specs.Verdicts.{IsVerdictOn, tries_of};

use crate::declared::declare;
use crate::open_waits::OpenWaits;
use crate::report::{Counts, Report, report_with};
use crate::verdict::{AuditMemory, Verdict};
use crate::waits::turn_event;
use cmh_frames::{Event, Outcome, ProcId, Topology};
use cmh_journal::whole_law;
use cmh_world::{count_law_of_every_run, dark_path_of_every_run};
use std::alloc::{AllocError, Global};
use std::collections::BTreeSet;
use std::marker::Model;

/// What entries that were taken one after the other come to: enough for the report of an audit.
#[derive(Drop)]
pub struct Totals {
    waits: OpenWaits,
    declared: BTreeSet<ProcId>,
    events: u64,

    /// Frames.
    sent: u64,
    got: u64,
}

impl Model for Totals {
    ghost use Rattle.cmh_audit.specs.Totals as spec;

    ghost Value = { spec.Totals };

    ghost view = { λ t. record {
      waits = t.waits;
      declared = t.declared.keys;
      events = t.events;
      sent = t.sent;
      got = t.got;
    } };
}

impl Totals {
    /// Of no entries. Takes no memory.
    pub fn new(alloc: Global) -> Totals
        ensures { AreTotalsOf [] result }
    {
        Totals {
            waits: OpenWaits::new(alloc),
            declared: BTreeSet::new(alloc),
            events: 0,
            sent: 0,
            got: 0,
        }
    }

    /// Takes an entry: an event, and what came of it. After an error nothing is said of the totals.
    #[inline(always)]
    pub fn add(&mut self, event: &Event, outcome: &Outcome) -> Result<(), AllocError>
        ensures { OnOk result (AddsEntry self.old self.new
            (record { event = event.now; sent = outcome.now.sent; declared = outcome.now.declared })) }
    {
        turn_event(&mut self.waits, event)?;
        declare(&mut self.declared, outcome.declared)?;
        let sent = outcome.sent.as_slice().len() as u64;
        self.events = self.events.saturating_add(1);
        self.sent = self.sent.saturating_add(sent);
        self.got = self.got.saturating_add(got_by(event));
        Ok(())
    }

    /// The verdict on the journals of all sites whose totals these are, where they come from a run: it is not looked
    /// for one. The only error is out of memory.
    pub fn verdict(&self, alloc: Global, topology: &Topology) -> Result<Verdict, AuditMemory>
        ensures verdict { IfOk result (λ v. (journals : List journal.Journal)
            → AreTotalsOfRun topology.now journals self.now → IsVerdictOn topology.now journals v) }

        // As if each entry had been looked at once.
        ensures tries { IfOk result (λ v. (journals : List journal.Journal)
            → AreTotalsOfRun topology.now journals self.now → tries_of v ≡ entry_count journals) }
    {
        let report = self.report(alloc, topology, self.events)?;
        Ok(Verdict::Accepted(report))
    }

    /// The report on such journals, after so many tries.
    pub(crate) fn report(
        &self,
        alloc: Global,
        topology: &Topology,
        tries: u64,
    ) -> Result<Report, AllocError>
        ensures reports { IfOk result (λ report. (journals : List journal.Journal)
            → AreTotalsOfRun topology.now journals self.now
            → (events : List WorldEvent) → IsRun topology.now events → ComesFrom (journal_of journals) events
            → Reports topology.now events report) }
        ensures order { IfOk result IsInOrder }
        ensures events { IfOk result (λ report. (journals : List journal.Journal)
            → AreTotalsOfRun topology.now journals self.now → report.events ≡ entry_count journals) }
        ensures as_kept { IfOk result (λ report. report.events ≡ self.now.events) }
        ensures tries { IfOk result (λ report. report.tries ≡ tries) }
    {
        // The laws that the report rests on: no count goes beyond its type, asks and replies take turns, and each
        // declared process lies on a cycle.
        let _ = topology.sites();
        whole_law(topology);
        count_law_of_every_run(topology);
        dark_path_of_every_run(topology);
        let in_transit = self.sent.saturating_sub(self.got);
        let counts = Counts {
            events: self.events,
            in_transit,
            tries,
        };
        report_with(alloc, &self.waits, &self.declared, counts)
    }
}

/// How many frames an event got.
fn got_by(event: &Event) -> u64
    ensures { result ≡ got_by event.now }
{
    match event {
        Event::Got { .. } => 1,
        _ => 0,
    }
}
