//! The lines of a run: each entry, the waits that it begins or ends, and what becomes of the probe that it got.

ghost use Rattle.std.specs.Prelude.{◌≡◌, ◌+◌, MatchOption, None, Some, map};
ghost use Rattle.std.specs.List.{flat_map};
ghost use Rattle.cmh_audit.specs.Runs.{event_at};
ghost use Rattle.cmh_page.specs.Moments as spec;

use crate::fate::Fate;
use cmh_audit::Step;
use cmh_files::RunLine;
use cmh_frames::{Entry, Event, ProcId, SiteId};
use cmh_journal::Journal;
use std::fmt;

/// The entries of a run, in its order, with what each changes.
#[derive(Drop)]
pub struct Moments<'a> {
    pub journals: &'a [Journal],
    /// What becomes of the probes of each journal.
    pub fates: &'a [Vec<Option<Fate>>],
    pub steps: &'a [Step],
}

impl<'a> fmt::Display for Moments<'a> {
    ghost output = { λ m. Some (spec.moments_text m.journals.now (map (λ row. row.items) m.fates.now) m.steps.now) };

    fn fmt<W: fmt::Write>(&self, f: &mut fmt::Formatter<W>) -> fmt::Result {
        for step in self.steps {
            if let Some(moment) = moment_of(self.journals, self.fates, *step) {
                write!(f, "{moment}")?;
            }
        }
        Ok(())
    }
}

/// An entry of a run, with what becomes of the probe that it got.
#[derive(Drop)]
struct Moment<'a> {
    site: SiteId,
    number: usize,
    entry: &'a Entry,
    fate: Option<Fate>,
}

impl<'a> fmt::Display for Moment<'a> {
    ghost output = { λ m. Some (spec.moment_text m.site m.number m.entry.now m.fate) };

    fn fmt<W: fmt::Write>(&self, f: &mut fmt::Formatter<W>) -> fmt::Result {
        let line = RunLine {
            site: self.site,
            number: self.number,
            entry: self.entry,
        };
        let changes = Changes {
            event: &self.entry.event,
        };
        let fate = FateLine { fate: self.fate };
        write!(f, "{line}{changes}{fate}")
    }
}

/// The moment of a step; none where no entry stands at its place.
fn moment_of<'a>(
    journals: &'a [Journal],
    fates: &[Vec<Option<Fate>>],
    step: Step,
) -> Option<Moment<'a>>
    ensures { MatchOption result (event_at journals.now step ≡ None) (λ m. (m.number ≡ step.entry + 1)
        × (event_at journals.now step ≡ Some (record { site = m.site; entry = m.entry.now }))
        × (m.fate ≡ spec.fate_at (map (λ row. row.items) fates.now) step)) }
{
    let journal = journals.get(step.journal)?;
    let entry = journal.entries().get(step.entry)?;
    Some(Moment {
        site: journal.site(),
        number: step.entry + 1,
        entry,
        fate: fate_at(fates, step),
    })
}

/// What became of the probe of a step.
#[tactic(auto, using(crate::proofs::MomentLemmas::no_row, crate::proofs::MomentLemmas::no_fate, crate::proofs::MomentLemmas::found_fate))]
fn fate_at(fates: &[Vec<Option<Fate>>], step: Step) -> Option<Fate>
    ensures { result ≡ spec.fate_at (map (λ row. row.items) fates.now) step }
{
    let row = fates.get(step.journal)?;
    let fate = row.get(step.entry)?;
    *fate
}

/// The waits that an event begins or ends, a line each.
#[derive(Drop)]
struct Changes<'a> {
    event: &'a Event,
}

impl<'a> fmt::Display for Changes<'a> {
    ghost output = { λ changes. Some (spec.changes_text changes.event.now) };

    fn fmt<W: fmt::Write>(&self, f: &mut fmt::Formatter<W>) -> fmt::Result {
        match self.event {
            Event::Ask { asker, targets } => {
                let begun = Begun {
                    asker: *asker,
                    holders: targets.as_slice(),
                };
                write!(f, "{begun}")
            }
            Event::Reply { holder, asker } => write!(f, "ends {asker} {holder}\n"),
            Event::Start { .. } | Event::Got { .. } => Ok(()),
        }
    }
}

/// The waits that an ask begins.
#[derive(Drop)]
struct Begun<'a> {
    asker: ProcId,
    holders: &'a [ProcId],
}

impl<'a> fmt::Display for Begun<'a> {
    ghost output = { λ b. Some (flat_map (spec.begins_text b.asker) b.holders.now) };

    fn fmt<W: fmt::Write>(&self, f: &mut fmt::Formatter<W>) -> fmt::Result {
        let asker = self.asker;
        for holder in self.holders {
            write!(f, "begins {asker} {holder}\n")?;
        }
        Ok(())
    }
}

/// What becomes of a probe, on a line.
#[derive(Clone, Copy)]
struct FateLine {
    fate: Option<Fate>,
}

impl fmt::Display for FateLine {
    ghost output = { λ line. Some (spec.fate_text line.fate) };

    fn fmt<W: fmt::Write>(&self, f: &mut fmt::Formatter<W>) -> fmt::Result {
        match self.fate {
            Some(fate) => write!(f, "probe {fate}\n"),
            None => Ok(()),
        }
    }
}
