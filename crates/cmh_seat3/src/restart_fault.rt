//! Why nothing is opened or told.

ghost use Rattle.std.specs.Prelude.{◌≡◌, ℕ, List};
ghost use Rattle.cmh_segment3.specs.Segment.{IsFault};
ghost use Rattle.cmh_seat3.specs.Journals.{IsUnread};

use cmh_segment3::SegmentFault;
use std::alloc::AllocError;

/// Why no site is opened on the bytes of a journal, or nothing is told of its links. The first reason that holds is given,
/// but that memory may be refused at any time.
#[derive(Clone, Copy)]
pub enum RestartFault {
    /// No whole head of a segment with its mark begins the bytes.
    NoSegment,
    /// What stands at this offset is no whole entry with its mark, and can't be cut.
    Damaged(u64),
    /// The segment is of another site or world, or does not begin with its world.
    OtherSegment,
    /// The site is not in the topology.
    NotHere,
    /// The entry of this number, counted from 1, is not what comes of its event.
    Unlawful(u64),
    /// There are more than 1,000,000 entries.
    Full,
    /// The other site got more messages than the journal sends.
    MoreThanSent,
    /// It got others than the journal sends.
    OtherMessages,
    /// Out of memory.
    Memory,
}

impl From<AllocError> for RestartFault {
    ghost use Rattle.cmh_seat3.specs.declared.restart_fault.RestartFault.TheVariants.{Memory};

    ghost from_gives = { λ _ fault. fault ≡ Memory };

    fn from(_: AllocError) -> RestartFault {
        RestartFault::Memory
    }
}

/// The fault of bytes that are no segment.
pub(crate) fn fault_of(fault: SegmentFault) -> RestartFault
    ensures { (bytes : List ℕ) → IsFault bytes fault → IsUnread bytes result }
{
    match fault {
        SegmentFault::BadHead => RestartFault::NoSegment,
        SegmentFault::Damaged(offset) => RestartFault::Damaged(offset),
        SegmentFault::Memory => RestartFault::Memory,
    }
}
