//! The numbers that the functions answer.

ghost use Rattle.std.specs.Prelude.{◌≡◌, ◌≢◌, ◌<◌};
ghost use Rattle.cmh_c.specs.Codes as spec;
ghost use Rattle.cmh_c.specs.Codes3 as spec3;
ghost use Rattle.cmh_c.specs.Inner.Faults.{code_of_call, place_told};

use cmh_frames::TopologyFault;
use cmh_reader::ReadFault;
use cmh_seat::{InletFault, SeatFault};
use cmh_seat3::{EntryFault, RestartFault, SeatFault as SeatFault3};
use std::alloc::{AllocError, AllocFailed};

pub const DONE: u32 = 0;

pub const NO_MEMORY: u32 = 11;

/// What was lent is shorter than the answer.
pub const SHORT: u32 = 21;

/// The handle is not open.
pub const CLOSED: u32 = 22;

/// The handle is open already.
pub const OPEN: u32 = 23;

/// No entry is prepared.
pub const NOT_PREPARED: u32 = 27;

/// Why nothing is opened or told, where no site or reader is asked.
#[derive(Clone, Copy)]
pub enum CallFault {
    /// The number of the edition is not 1 or 2.
    Edition,
    /// The words are not those of rows, or the text is not the JSON of a topology.
    Rows,
    /// The rows make no topology.
    Topology(TopologyFault),
    /// The site is not in the topology.
    Site,
    /// A number is not that of a site.
    Number,
    /// What was lent is shorter than the answer.
    Short,
    /// The bytes are not those of an entry.
    Entry,
    /// The entry sends no frame at the place.
    Sending,
    /// The lengths of the files don't sum to the bytes that there are.
    Files,
    /// The number of the world has not 16 bytes.
    World,
    /// No site is opened on a journal, or nothing is told of its links.
    Restart(RestartFault),
    /// Out of memory.
    Memory,
}

impl CallFault {
    /// The number that C is answered.
    pub fn code(self) -> u32
        ensures value { result ≡ code_of_call self }
        ensures positive { 0 < result }
    {
        match self {
            CallFault::Site => 2,
            CallFault::Memory => NO_MEMORY,
            CallFault::Entry => 20,
            CallFault::Short => SHORT,
            CallFault::Edition => 24,
            CallFault::Rows => 25,
            CallFault::Number => 28,
            CallFault::Sending => 29,
            CallFault::Files => 30,
            CallFault::World => 50,
            CallFault::Topology(fault) => 30 + u32::from(fault.number()),
            CallFault::Restart(fault) => code_of_restart(fault),
        }
    }

    /// Where a journal is at fault: the offset of the damage, or the number of the entry.
    pub fn place(self) -> Option<u64>
        ensures { result ≡ place_told self }
    {
        match self {
            CallFault::Restart(RestartFault::Damaged(offset)) => Some(offset),
            CallFault::Restart(RestartFault::Unlawful(number)) => Some(number),
            _ => None,
        }
    }
}

impl From<AllocError> for CallFault {
    ghost use Rattle.cmh_c.specs.declared.codes.CallFault.TheVariants.{Memory};

    ghost from_gives = { λ _ fault. fault ≡ Memory };

    fn from(_: AllocError) -> CallFault {
        CallFault::Memory
    }
}

impl<T: Drop> From<AllocFailed<T>> for CallFault {
    ghost use Rattle.cmh_c.specs.declared.codes.CallFault.TheVariants.{Memory};

    ghost from_gives = { λ _ fault. fault ≡ Memory };

    fn from(_: AllocFailed<T>) -> CallFault {
        CallFault::Memory
    }
}

pub fn code_of(fault: SeatFault) -> u32
    ensures value { result ≡ spec.code_of fault }
    ensures positive { 0 < result }
{
    match fault {
        SeatFault::Rule(refusal) => u32::from(refusal.number()),
        SeatFault::Starved => NO_MEMORY,
        SeatFault::Full => 12,
        SeatFault::NoEvent => 20,
        SeatFault::Short => SHORT,
        SeatFault::Prepared => 26,
    }
}

pub fn code_of_reading(fault: InletFault) -> u32
    ensures value { result ≡ spec.code_of_reading fault }
    ensures positive { 0 < result }
{
    match fault {
        InletFault::Short => SHORT,
        InletFault::Read(ReadFault::Memory) => NO_MEMORY,
        InletFault::Read(fault) => 40 + u32::from(fault.number()),
    }
}

pub fn code_of3(fault: SeatFault3) -> u32
    ensures value { result ≡ spec3.code_of fault }
    ensures positive { 0 < result }
{
    match fault {
        SeatFault3::Rule(refusal) => u32::from(refusal.number()),
        SeatFault3::Starved => NO_MEMORY,
        SeatFault3::Full => 12,
        SeatFault3::NoEvent => 20,
        SeatFault3::Short(_) => SHORT,
        SeatFault3::Prepared => 26,
    }
}

pub fn code_of_entry3(fault: EntryFault) -> u32
    ensures value { result ≡ spec3.code_of_entry fault }
    ensures positive { 0 < result }
    ensures fits { result ≢ 21 }
{
    match fault {
        EntryFault::NoEntry => 20,
        EntryFault::Memory => NO_MEMORY,
    }
}

fn code_of_restart(fault: RestartFault) -> u32
    ensures value { result ≡ spec3.code_of_restart fault }
    ensures positive { 0 < result }
{
    match fault {
        RestartFault::NotHere => 2,
        RestartFault::Memory => NO_MEMORY,
        RestartFault::Full => 12,
        RestartFault::NoSegment => 51,
        RestartFault::Damaged(_) => 52,
        RestartFault::OtherSegment => 53,
        RestartFault::Unlawful(_) => 54,
        RestartFault::MoreThanSent => 67,
        RestartFault::OtherMessages => 68,
    }
}
