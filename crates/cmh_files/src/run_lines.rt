//! The lines of a run.

ghost use Rattle.std.specs.Prelude.{◌≡◌, ◌+◌, MatchOption, None, Some};
ghost use Rattle.cmh_audit.specs.Runs.{event_at};
ghost use Rattle.cmh_files.specs.RunAudits as spec;

use crate::RunLine;
use cmh_audit::Step;
use cmh_journal::Journal;
use std::fmt;

/// The entries of a run, one a line, in its order.
#[derive(Drop)]
pub struct RunLines<'a> {
    pub journals: &'a [Journal],
    pub steps: &'a [Step],
}

impl<'a> fmt::Display for RunLines<'a> {
    ghost output = { λ lines. Some (spec.run_text lines.journals.now lines.steps.now) };

    fn fmt<W: fmt::Write>(&self, f: &mut fmt::Formatter<W>) -> fmt::Result {
        for step in self.steps {
            if let Some(line) = line_of(self.journals, *step) {
                write!(f, "{line}")?;
            }
        }
        Ok(())
    }
}

/// The line of a step; none where no entry stands at its place.
fn line_of(journals: &[Journal], step: Step) -> Option<RunLine<'_>>
    ensures { MatchOption result (event_at journals.now step ≡ None) (λ line. (line.number ≡ step.entry + 1)
        × (event_at journals.now step ≡ Some (record { site = line.site; entry = line.entry.now }))) }
{
    let journal = journals.get(step.journal)?;
    let entry = journal.entries().get(step.entry)?;
    Some(RunLine {
        site: journal.site(),
        number: step.entry + 1,
        entry,
    })
}
