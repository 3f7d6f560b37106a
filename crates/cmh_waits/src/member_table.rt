//! The members of a site, found by their numbers.

ghost use Rattle.std.specs.Prelude.{◌≡◌, ℕ, ◌<◌, ◌≤◌, ◌==◌, false, if◌then◌else◌, IfOk, OnOk, MatchOption, length, slice_index, slice_index_or};
ghost use Rattle.std.specs.List.Sorted.{IsStrictlyIncreasing};
ghost use Rattle.cmh_waits.specs.Rows.{is_in};

use cmh_frames::ProcId;
use std::alloc::{AllocError, Global};
use std::marker::Model;

/// Stands at the numbers of no member. No site has so many members.
const NOWHERE: u8 = 255;

/// The members of a site, each at its place.
#[derive(Drop)]
pub struct MemberTable {
    processes: Vec<ProcId>,
    /// At the number of each member its place.
    places: Vec<u8>,
}

impl Model for MemberTable {
    ghost use Rattle.std.specs.Prelude.{ℕ, List};
    ghost use Rattle.cmh_waits.specs.Places.{ArePlaced};

    ghost Value = { List ℕ };

    ghost view = { λ m. m.processes.items };

    ghost invariant = { λ m. ArePlaced m.processes.items m.places.items };
}

impl MemberTable {
    pub fn new(alloc: Global, processes: &[ProcId]) -> Result<MemberTable, AllocError>
        requires ascending { IsStrictlyIncreasing processes.now }
        requires few { length processes.now ≤ 64 }
        ensures { IfOk result (λ members. members ≡ processes.now) }
    {
        let mut places = Vec::new(alloc);
        for (place, process) in processes.iter().enumerate() {
            put_place(&mut places, *process, place as u8)?;
        }
        Ok(MemberTable {
            processes: processes.to_vec(alloc)?,
            places,
        })
    }

    /// The members at their places.
    pub fn as_slice(&self) -> &[ProcId]
        ensures { result.now ≡ self.now }
    {
        &self.processes
    }

    /// The place of a process, if it is a member.
    pub fn place_of(&self, process: ProcId) -> Option<usize>
        ensures { MatchOption result (is_in self.now process ≡ false)
            (λ place. (place < length self.now) × (slice_index self.now place ≡ process)) }
    {
        let Some(place) = self.places.get(process.get() as usize) else {
            return None;
        };
        let place = *place as usize;
        if place < self.processes.len() && self.processes[place] == process {
            Some(place)
        } else {
            None
        }
    }

    /// The same members once more.
    pub fn copy(&self, alloc: Global) -> Result<MemberTable, AllocError>
        ensures { IfOk result (λ other. other ≡ self.now) }
    {
        Ok(MemberTable {
            processes: self.processes.to_vec(alloc)?,
            places: self.places.to_vec(alloc)?,
        })
    }
}

/// Writes the place of a process at its number.
fn put_place(places: &mut Vec<u8>, process: ProcId, place: u8) -> Result<(), AllocError>
    ensures { OnOk result ((p : ℕ) → slice_index_or places.new.items p 255
        ≡ if process == p then place else slice_index_or places.old.items p 255) }
{
    let number = process.get() as usize;
    if places.len() <= number {
        places.resize(number + 1, NOWHERE)?;
    }
    places[number] = place;
    Ok(())
}
