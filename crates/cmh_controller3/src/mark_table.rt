//! The marks of a site's processes.

ghost use Rattle.std.specs.Prelude.{◌≡◌, ◌<◌, ℕ, length, IfOk, OnOk, OnErr};
ghost use Rattle.cmh_model3.specs.Lists.{IsAscending, set_at};
ghost use Rattle.cmh_controller3.specs.Inner.Marks.{origins_of};
ghost use Rattle.cmh_controller3.specs.Tables.{marks_of, stamp_in};

use crate::mark_row::{Mark, MarkRow};
use cmh_model3::{ProcId, Stamp};
use std::alloc::{AllocError, Global};
use std::marker::Model;

/// Of each process of the site and each origin the greatest stamp of a probe that went on at it: 0 where there was none.
///
/// A call fails only when memory runs out, and then nothing has changed.
#[derive(Drop)]
pub struct MarkTable {
    /// At the numbers of the site's processes.
    rows: Vec<MarkRow>,
}

impl Model for MarkTable {
    ghost use Rattle.std.specs.Prelude.{List};
    ghost use Rattle.cmh_controller3.specs.declared.mark_row.Mark.{Mark};

    ghost Value = { List (List Mark) };

    ghost view = { λ t. t.rows.items };
}

impl MarkTable {
    /// No mark, with room for processes with a smaller number than this.
    pub fn new(alloc: Global, room: usize) -> Result<Self, AllocError>
        ensures room { IfOk result (λ table. length table ≡ room) }
        ensures none { IfOk result (λ table. marks_of table ≡ (λ k i. 0)) }
    {
        let mut rows = Vec::with_capacity(alloc, room)?;
        for _ in 0..room {
            rows.push(MarkRow::empty(alloc))?;
        }
        Ok(MarkTable { rows })
    }

    pub fn get(&self, process: ProcId, origin: ProcId) -> Stamp
        ensures { result ≡ marks_of self.now process origin }
    {
        match self.rows.get(process.get() as usize) {
            Some(row) => row.get(origin),
            None => Stamp::new(0),
        }
    }

    /// The marks of a process, ascending by their origins.
    pub fn row(&self, process: ProcId) -> &[Mark]
        ensures ascending { IsAscending (origins_of result.now) }
        ensures stamps { (i : ℕ) → stamp_in result.now i ≡ marks_of self.now process i }
    {
        match self.rows.get(process.get() as usize) {
            Some(row) => row.as_slice(),
            None => &[],
        }
    }

    pub fn put(&mut self, process: ProcId, origin: ProcId, stamp: Stamp) -> Result<(), AllocError>
        requires { process < length self.old }
        ensures ok { OnOk result (marks_of self.new
            ≡ set_at (marks_of self.old) process (set_at (marks_of self.old process) origin stamp)) }
        ensures room { length self.new ≡ length self.old }
        ensures err { OnErr result (self.new ≡ self.old) }
    {
        self.rows[process.get() as usize].put(origin, stamp)
    }

    /// Puts a mark that was there before back. It takes no memory.
    pub fn put_back(&mut self, process: ProcId, origin: ProcId, stamp: Stamp)
        requires inside { process < length self.old }
        requires some { marks_of self.old process origin ≡ 0 → stamp ≡ 0 }
        ensures marks { marks_of self.new
            ≡ set_at (marks_of self.old) process (set_at (marks_of self.old process) origin stamp) }
        ensures room { length self.new ≡ length self.old }
    {
        self.rows[process.get() as usize].put_back(origin, stamp);
    }

    /// Forgets the marks of a process.
    pub fn clear(&mut self, process: ProcId)
        requires { process < length self.old }
        ensures marks { marks_of self.new ≡ set_at (marks_of self.old) process (λ i. 0) }
        ensures room { length self.new ≡ length self.old }
    {
        self.rows[process.get() as usize].clear();
    }

    /// A copy of the marks of a process.
    pub fn row_copy(&self, alloc: Global, process: ProcId) -> Result<MarkRow, AllocError>
        requires { process < length self.now }
        ensures { IfOk result (λ row. (i : ℕ) → stamp_in row i ≡ marks_of self.now process i) }
    {
        self.rows[process.get() as usize].copy(alloc)
    }

    /// From now on a process has just these marks. It takes no memory.
    pub fn put_row(&mut self, process: ProcId, row: MarkRow)
        requires { process < length self.old }
        ensures marks { marks_of self.new ≡ set_at (marks_of self.old) process (stamp_in row) }
        ensures room { length self.new ≡ length self.old }
    {
        self.rows[process.get() as usize] = row;
    }
}
