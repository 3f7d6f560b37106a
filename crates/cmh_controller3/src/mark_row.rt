//! The marks of one process.

ghost use Rattle.std.specs.Prelude.{◌≡◌, ℕ, ◌==◌, ◌<◌, ◌≤◌, [], if◌then◌else◌, IfOk, IfErr, OnOk, OnErr, length, slice_index};
ghost use Rattle.cmh_model3.specs.Lists.{IsAscending};
ghost use Rattle.cmh_controller3.specs.Inner.Marks.{IsPlaceFor, origins_of};
ghost use Rattle.cmh_controller3.specs.Tables.{stamp_in};

use cmh_model3::{ProcId, Stamp};
use std::alloc::{AllocError, Global};
use std::marker::Model;

/// That a probe of the origin's ask with this stamp went on at a process.
#[derive(Clone, Copy)]
pub struct Mark {
    pub origin: ProcId,
    pub stamp: Stamp,
}

/// The marks of a process, ascending by their origins.
///
/// So it is as long as there are origins of its marks, and a copy of it can be put back at any time.
#[derive(Drop)]
pub struct MarkRow {
    marks: Vec<Mark>,
}

impl Model for MarkRow {
    ghost use Rattle.std.specs.Prelude.{List};
    ghost use Rattle.cmh_model3.specs.Lists.{IsAscending};
    ghost use Rattle.cmh_controller3.specs.Inner.Marks.{origins_of};
    ghost use Rattle.cmh_controller3.specs.declared.mark_row.Mark.{Mark};

    ghost Value = { List Mark };

    ghost view = { λ r. r.marks.items };

    ghost invariant = { λ r. IsAscending (origins_of r.marks.items) };
}

impl MarkRow {
    /// No mark. Takes no memory.
    pub fn empty(alloc: Global) -> Self
        ensures { result ≡ [] }
    {
        MarkRow {
            marks: Vec::new(alloc),
        }
    }

    /// The marks.
    pub fn as_slice(&self) -> &[Mark]
        ensures value { result.now ≡ self.now }
        ensures ascending { IsAscending (origins_of result.now) }
    {
        &self.marks
    }

    /// The stamp of the origin's mark, and 0 where it has none.
    pub fn get(&self, origin: ProcId) -> Stamp
        ensures { result ≡ stamp_in self.now origin }
    {
        match place_for(&self.marks, origin) {
            Ok(place) => self.marks[place].stamp,
            Err(_) => Stamp::new(0),
        }
    }

    pub fn put(&mut self, origin: ProcId, stamp: Stamp) -> Result<(), AllocError>
        ensures ok { OnOk result ((i : ℕ) → stamp_in self.new i
            ≡ if i == origin then stamp else stamp_in self.old i) }
        ensures err { OnErr result (self.new ≡ self.old) }
    {
        match place_for(&self.marks, origin) {
            Ok(place) => self.marks[place] = Mark { origin, stamp },
            Err(place) => self.marks.insert(place, Mark { origin, stamp })?,
        }
        Ok(())
    }

    /// Puts the stamp of a mark back. It takes no memory: where there is no mark, there was none.
    pub fn put_back(&mut self, origin: ProcId, stamp: Stamp)
        requires { stamp_in self.old origin ≡ 0 → stamp ≡ 0 }
        ensures { (i : ℕ) → stamp_in self.new i ≡ if i == origin then stamp else stamp_in self.old i }
    {
        if let Ok(place) = place_for(&self.marks, origin) {
            self.marks[place] = Mark { origin, stamp };
        }
    }

    pub fn clear(&mut self)
        ensures { self.new ≡ [] }
    {
        self.marks.clear();
    }

    pub fn copy(&self, alloc: Global) -> Result<Self, AllocError>
        ensures { IfOk result (λ other. other ≡ self.now) }
    {
        Ok(MarkRow {
            marks: self.marks.to_vec(alloc)?,
        })
    }
}

/// Where the mark of the origin stands, or where it would.
fn place_for(marks: &[Mark], origin: ProcId) -> Result<usize, usize>
    requires { IsAscending (origins_of marks.now) }
    ensures at { IfOk result (λ place. (place < length marks.now) × (slice_index (origins_of marks.now) place ≡ origin)) }
    ensures before { IfErr result (λ place. (place ≤ length marks.now) × IsPlaceFor origin place marks.now) }
{
    marks.binary_search_by_key(&origin, |mark| mark.origin)
}
