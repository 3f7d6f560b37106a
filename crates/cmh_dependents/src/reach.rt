//! Which processes of a site are reached from one of them by waits inside the site.

ghost use Rattle.std.specs.Prelude.{◌≡◌, ◌≢◌, ℕ, ◌<◌, ◌≤◌, ◌↔◌, ◌==◌, ◌&&◌, ◌||◌, not, true, false, length, slice_index};
ghost use Rattle.std.specs.Prelude.{Contains, IfOk, IsTrue};
ghost use Rattle.std.specs.List.Sorted.{IsStrictlyIncreasing};
ghost use Rattle.cmh_frames.specs.Paths.{DependsOnItselfAmong, ReachesAmong};
ghost use Rattle.cmh_waits.specs.Held.{IsMember};
ghost use Rattle.cmh_bits.specs.Bits.{is_set};
ghost use Rattle.cmh_dependents.specs.Marks.{AreLeaving, AreReached, IsMarked, StaysHere};
ghost use Rattle.cmh_dependents.specs.Inner.Bits.{AreAwaited, AreThose};

use cmh_bits::{beyond, either, has_bit, lowest, with_bit, without_bit};
use cmh_frames::ProcId;
use cmh_waits::LocalWaits;
use std::alloc::{AllocError, Global};

/// What a member reaches by waits between members, itself among it, and whether it waits there for itself.
///
/// It takes no memory: a member stands for itself by its number.
#[derive(Clone, Copy)]
pub struct Reach {
    /// The numbers of the members that are reached, as bits.
    pub places: u64,
    /// The numbers of those of them that wait for processes of other sites, as bits.
    pub leaving: u64,
    /// Whether a path of one or more waits between members leads from the member back to it: whether it is locally
    /// dependent upon itself (Chandy, Misra and Haas 1983).
    pub on_cycle: bool,
}

impl Reach {
    /// What the member reaches.
    pub fn new(waits: &LocalWaits, from: ProcId) -> Self
        requires { IsMember waits.now from }
        ensures places { AreReached waits.now from result.places }
        ensures leaving { AreLeaving waits.now result.places result.leaving }
        ensures on_cycle { IsTrue result.on_cycle ↔ DependsOnItselfAmong (λ p. IsMember waits.now p) waits.now.waits from }
    {
        let Some(start) = waits.place(from) else {
            unreachable!();
        };
        let found = reached_from(waits, start);
        Reach {
            places: found.reached,
            leaving: found.leaving,
            on_cycle: has_bit(found.awaited, start),
        }
    }

    /// Whether the member with this number is reached.
    pub fn has(self, place: usize) -> bool
        requires { place < 64 }
        ensures { result ≡ is_set self.places place }
    {
        has_bit(self.places, place)
    }

    /// Whether the process is a member that is reached.
    pub fn contains(self, waits: &LocalWaits, process: ProcId) -> bool
        ensures { IsTrue result ↔ IsMarked waits.now.members self.places process }
    {
        let _ = waits.members();
        match waits.place(process) {
            Some(place) => self.has(place),
            None => false,
        }
    }
}

/// The members that one of them reaches by waits between members, itself among them, ascending.
pub fn local_reach(
    alloc: Global,
    waits: &LocalWaits,
    from: ProcId,
) -> Result<Vec<ProcId>, AllocError>
    requires { IsMember waits.now from }
    ensures ascending { IfOk result (λ reached. IsStrictlyIncreasing reached.items) }
    ensures all { IfOk result (λ reached. (q : ℕ) →
        Contains reached.items q ↔ ReachesAmong (λ p. IsMember waits.now p) waits.now.waits from q) }
{
    members_of(alloc, waits.members(), Reach::new(waits, from).places)
}

/// Whether a path of one or more waits between members leads from the process back to it: whether it is locally
/// dependent upon itself (Chandy, Misra and Haas 1983).
pub fn on_local_cycle(
    _alloc: Global,
    waits: &LocalWaits,
    process: ProcId,
) -> Result<bool, AllocError>
    requires { IsMember waits.now process }
    ensures { IfOk result (λ b. IsTrue b ↔ DependsOnItselfAmong (λ p. IsMember waits.now p) waits.now.waits process) }
{
    Ok(Reach::new(waits, process).on_cycle)
}

/// Numbers of members, as bits.
#[derive(Clone, Copy)]
struct Found {
    /// Those that are reached.
    reached: u64,
    /// Those of them that wait for processes of other sites.
    leaving: u64,
    /// Those for which any of them waits.
    awaited: u64,
}

/// What the member with this number reaches.
fn reached_from(waits: &LocalWaits, start: usize) -> Found
    requires { start < length waits.now.members }
    ensures reached { AreReached waits.now (slice_index waits.now.members start) result.reached }
    ensures leaving { AreLeaving waits.now result.reached result.leaving }
    ensures awaited { AreAwaited waits.now result.reached result.awaited }
{
    let _ = waits.members();
    let mut reached = 1 << start;
    let mut leaving = 0;
    let mut awaited = 0;
    let mut work = reached;
    while work != 0 {
        let place = lowest(work);
        let row = waits.row(place);
        let fresh = beyond(row, reached);
        awaited = either(awaited, row);
        leaving = with_leaving(leaving, waits, place);
        work = either(without_bit(work, place), fresh);
        reached = either(reached, fresh);
    }
    Found {
        reached,
        leaving,
        awaited,
    }
}

/// The row with a 1 at the place too, where the member with this number waits for a process of another site.
fn with_leaving(row: u64, waits: &LocalWaits, place: usize) -> u64
    requires { place < 64 }
    ensures others { (k : ℕ) → k ≢ place → is_set result k ≡ is_set row k }
    ensures here { place < length waits.now.members → is_set result place ≡ false
        → StaysHere waits.now (slice_index waits.now.members place) }
{
    if waits.remote_at(place).is_empty() {
        row
    } else {
        with_bit(row, place)
    }
}

/// The members with a 1 at their place, in their order.
fn members_of(alloc: Global, members: &[ProcId], row: u64) -> Result<Vec<ProcId>, AllocError>
    requires ascending { IsStrictlyIncreasing members.now }
    requires few { length members.now ≤ 64 }
    ensures { IfOk result (λ marked. AreThose members.now row marked.items) }
{
    let mut marked = Vec::new(alloc);
    for (place, member) in members.iter().enumerate() {
        if has_bit(row, place) {
            marked.push(*member)?;
        }
    }
    Ok(marked)
}
