//! The processes of a site, found by their numbers.

ghost use Rattle.std.specs.Prelude.{◌≡◌, ℕ, ◌<◌, ◌≤◌, ◌==◌, false, if◌then◌else◌, IfOk, OnOk, MatchOption, length, slice_index, slice_index_or};
ghost use Rattle.std.specs.List.Sorted.{IsStrictlyIncreasing};
ghost use Rattle.cmh_model3.specs.Lists.{in_list};

use cmh_model3::ProcId;
use std::alloc::{AllocError, Global};
use std::marker::Model;

/// The processes of a site, each at its place: how many stand before it.
#[derive(Drop)]
pub struct MemberTable {
    processes: Vec<ProcId>,
    /// At the number of each of them its place. At other numbers stands a place too, where another process stands.
    places: Vec<u8>,
}

impl Model for MemberTable {
    ghost use Rattle.std.specs.Prelude.{ℕ, List};
    ghost use Rattle.cmh_waits3.specs.Inner.Places.{ArePlaced};

    ghost Value = { List ℕ };

    ghost view = { λ m. m.processes.items };

    ghost invariant = { λ m. ArePlaced m.processes.items m.places.items };
}

impl MemberTable {
    pub fn new(alloc: Global, processes: &[ProcId]) -> Result<MemberTable, AllocError>
        requires ascending { IsStrictlyIncreasing processes.now }
        requires few { length processes.now ≤ 256 }
        ensures { IfOk result (λ members. members ≡ processes.now) }
    {
        let mut places = Vec::new(alloc);
        for (place, process) in processes.iter().enumerate() {
            put_place(&mut places, *process, place as u8)?;
        }
        Ok(MemberTable {
            processes: processes.to_vec(alloc)?,
            places,
        })
    }

    /// The members at their places.
    pub fn as_slice(&self) -> &[ProcId]
        ensures value { result.now ≡ self.now }
        ensures ascending { IsStrictlyIncreasing result.now }
        ensures few { length result.now ≤ 256 }
    {
        &self.processes
    }

    /// The place of a process, if it is a member.
    #[inline(always)]
    pub fn place_of(&self, process: ProcId) -> Option<usize>
        ensures { MatchOption result (in_list self.now process ≡ false)
            (λ place. (place < length self.now) × (slice_index self.now place ≡ process)) }
    {
        let Some(place) = self.places.get(process.get() as usize) else {
            return None;
        };
        let place = *place as usize;
        if place < self.processes.len() && self.processes[place] == process {
            Some(place)
        } else {
            None
        }
    }
}

/// Writes the place of a process at its number.
fn put_place(places: &mut Vec<u8>, process: ProcId, place: u8) -> Result<(), AllocError>
    ensures at { OnOk result (slice_index_or places.new.items process 0 ≡ place) }
    ensures long { OnOk result (process < length places.new.items) }
    ensures others { OnOk result ((p : ℕ) → p < length places.old.items → (p < length places.new.items)
        × (slice_index_or places.new.items p 0 ≡ if process == p then place else slice_index_or places.old.items p 0)) }
{
    let number = process.get() as usize;
    if places.len() <= number {
        places.resize(number + 1, 0)?;
    }
    places[number] = place;
    Ok(())
}
