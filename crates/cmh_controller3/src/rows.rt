//! What the second half of a step writes: copies of it that are made before, and that are put back after it.

ghost use Rattle.std.specs.Prelude.{◌≡◌, ◌<◌, true, length, IfOk, IfSome};
ghost use Rattle.cmh_model3.specs.Laws.{JournalFacts};
ghost use Rattle.cmh_waits3.specs.Held.{is_member, since_of, waits_of};
ghost use Rattle.cmh_controller3.specs.Controller.{home_of, state_of};
ghost use Rattle.cmh_controller3.specs.Inner.SecondHalves.{CanEnd, HoldsClock, HoldsLeaving, HoldsOwed, HoldsWaits, PutsBack};
ghost use Rattle.cmh_controller3.specs.Tables.{flags_of, marks_of, pairs_of};
ghost use Rattle.cmh_controller3.specs.WaysBack.{FitsRows, flags_back, marks_back, pairs_back, rows_back, since_back, waits_back};

use crate::changes::is_declared;
use crate::controller::Controller;
use crate::mark_row::MarkRow;
use crate::mark_table::MarkTable;
use crate::pair_table::PairTable;
use cmh_model3::{Event, Frame, ProcId, Stamp};
use cmh_waits::ProcList;
use cmh_waits3::{SiteWaits, WaitRow};
use std::alloc::{AllocError, Global};

/// What a process forgets when it becomes active.
#[derive(Drop)]
pub struct Forgotten {
    pub marks: MarkRow,
    pub declared: bool,
}

/// What stood, before the second half of a step, at the places that it writes: rows of one process, and the clock. A row
/// that is not there was not changed.
#[derive(Drop)]
pub struct Rows {
    pub process: ProcId,
    pub clock: Stamp,
    pub waits: Option<WaitRow>,
    pub forgotten: Option<Forgotten>,
    /// Those whom it is leaving.
    pub leaving: Option<ProcList>,
    /// Those of other sites to whom it owes a reply.
    pub owed: Option<ProcList>,
}

impl Controller {
    // ---- copies

    /// What the second half of the step of an event will write.
    pub(crate) fn rows(&self, alloc: Global, event: &Event) -> Result<Rows, AllocError>
        requires { CanEnd self.now event.now }
        ensures { IfOk result (PutsBack self.now event.now) }
    {
        match event {
            Event::Ask { .. } => Ok(self.no_rows()),
            Event::Reply { holder, asker } => {
                if self.is_here(*asker) {
                    self.waits_row(alloc, *asker, &[*holder])
                } else {
                    self.owed_row(alloc, *holder)
                }
            }
            Event::Withdraw { asker, targets } => self.waits_row(alloc, *asker, targets.as_slice()),
            Event::Got { frame, .. } => match frame {
                Frame::Request { .. } => Ok(self.no_rows()),
                Frame::Reply { holder, asker } => {
                    if self.waits_for(*asker, *holder) {
                        self.waits_row(alloc, *asker, &[*holder])
                    } else {
                        self.leaving_row(alloc, *asker)
                    }
                }
                Frame::Withdraw { holder, .. } => self.owed_row(alloc, *holder),
                Frame::Probe { .. } => Ok(self.no_rows()),
            },
            Event::Turn { .. } => Ok(self.no_rows()),
        }
    }

    /// Nothing but the clock.
    fn no_rows(&self) -> Rows
        ensures { HoldsClock self.now result }
    {
        Rows {
            process: ProcId::of(1),
            clock: self.clock,
            waits: None,
            forgotten: None,
            leaving: None,
            owed: None,
        }
    }

    /// The waits of a process, and what it forgets where none is left without those for these.
    fn waits_row(
        &self,
        alloc: Global,
        asker: ProcId,
        targets: &[ProcId],
    ) -> Result<Rows, AllocError>
        requires { home_of self.now asker ≡ self.now.site }
        ensures { IfOk result (HoldsWaits self.now asker targets.now) }
    {
        let waits = self.waits.row_copy(alloc, asker)?;
        let forgotten = if self.waits.stays_blocked(asker, targets) {
            None
        } else {
            Some(Forgotten {
                marks: self.marks.row_copy(alloc, asker)?,
                declared: is_declared(&self.declared, asker),
            })
        };
        Ok(Rows {
            process: asker,
            clock: self.clock,
            waits: Some(waits),
            forgotten,
            leaving: None,
            owed: None,
        })
    }

    /// Those whom a process is leaving.
    fn leaving_row(&self, alloc: Global, asker: ProcId) -> Result<Rows, AllocError>
        requires { home_of self.now asker ≡ self.now.site }
        ensures { IfOk result (HoldsLeaving self.now asker) }
    {
        Ok(Rows {
            process: asker,
            clock: self.clock,
            waits: None,
            forgotten: None,
            leaving: Some(self.leaving.row_copy(alloc, asker)?),
            owed: None,
        })
    }

    /// Those of other sites to whom a process owes a reply.
    fn owed_row(&self, alloc: Global, holder: ProcId) -> Result<Rows, AllocError>
        requires { home_of self.now holder ≡ self.now.site }
        ensures { IfOk result (HoldsOwed self.now holder) }
    {
        Ok(Rows {
            process: holder,
            clock: self.clock,
            waits: None,
            forgotten: None,
            leaving: None,
            owed: Some(self.owed.row_copy(alloc, holder)?),
        })
    }

    // ---- back

    /// Puts what stood there before back. It takes no memory.
    pub(crate) fn put_rows(&mut self, rows: Rows)
        requires fits { FitsRows (home_of self.old) self.old.site rows }
        requires facts { JournalFacts (home_of self.old) self.old.site
            (rows_back (home_of self.old) self.old.site rows (state_of self.old)) }
        ensures topology { self.new.topology ≡ self.old.topology }
        ensures site { self.new.site ≡ self.old.site }
        ensures state { state_of self.new ≡ rows_back (home_of self.old) self.old.site rows (state_of self.old) }
    {
        let Rows {
            process,
            clock,
            waits,
            forgotten,
            leaving,
            owed,
        } = rows;
        put_waits(&mut self.waits, process, waits);
        put_forgotten(&mut self.marks, &mut self.declared, process, forgotten);
        put_pairs(&mut self.leaving, process, leaving);
        put_pairs(&mut self.owed, process, owed);
        self.clock = clock;
    }
}

/// Puts the waits of a process back, if they were changed.
fn put_waits(waits: &mut SiteWaits, process: ProcId, row: Option<WaitRow>)
    requires { IfSome row (λ row. is_member waits.old process ≡ true) }
    ensures members { waits.new.members ≡ waits.old.members }
    ensures waits { waits_of waits.new ≡ waits_back (waits_of waits.old) process row }
    ensures since { since_of waits.new ≡ since_back (since_of waits.old) process row }
{
    if let Some(row) = row {
        waits.put_row(process, row);
    }
}

/// Puts the marks of a process and its declaration back, if they were forgotten.
fn put_forgotten(
    marks: &mut MarkTable,
    declared: &mut Vec<bool>,
    process: ProcId,
    forgotten: Option<Forgotten>,
)
    requires { IfSome forgotten (λ forgotten. (process < length marks.old) × (process < length declared.old.items)) }
    ensures marks { marks_of marks.new ≡ marks_back (marks_of marks.old) process forgotten }
    ensures declared { flags_of declared.new.items ≡ flags_back (flags_of declared.old.items) process forgotten }
    ensures marks_length { length marks.new ≡ length marks.old }
    ensures declared_length { length declared.new.items ≡ length declared.old.items }
{
    if let Some(forgotten) = forgotten {
        declared[process.get() as usize] = forgotten.declared;
        marks.put_row(process, forgotten.marks);
    }
}

/// Puts the row of a process back, if it was changed.
fn put_pairs(table: &mut PairTable, process: ProcId, row: Option<ProcList>)
    requires { IfSome row (λ row. process < length table.old) }
    ensures pairs { pairs_of table.new ≡ pairs_back (pairs_of table.old) process row }
    ensures room { length table.new ≡ length table.old }
{
    if let Some(row) = row {
        table.put_row(process, row);
    }
}
