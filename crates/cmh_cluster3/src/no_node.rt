//! Why a site was not started on the folder of its journal.

ghost use Rattle.std.specs.Prelude.{Some};
ghost use Rattle.cmh_cluster3.specs.Replies.{fault_text};

use cmh_disk3::{NoFolder, NoSite};
use cmh_node3::Unmet;
use cmh_station3::OpenFault;
use std::alloc::{AllocError, AllocFailed};
use std::fmt;

/// Why a site was not started on the folder of its journal. Printed, it is the fault's line, as `cmh serve` names it.
#[derive(Clone, Copy)]
pub enum NoNode {
    /// The folder can't be read or written, another program has it, or it has no segment.
    Disk,
    /// The newest segment is damaged at this byte, or does not begin as a segment does.
    Damaged(u64),
    /// The newest segment is of another site or another world.
    Other,
    /// The entry of this number, from 1, is not what the rules make of its event; or, with 0, the newest segment begins in a
    /// state that the site can't be in.
    Unlawful(u64),
    /// Memory was refused.
    Memory,
}

impl fmt::Display for NoNode {
    ghost output = { λ why. Some (fault_text why) };

    fn fmt<W: fmt::Write>(&self, f: &mut fmt::Formatter<W>) -> fmt::Result {
        match self {
            NoNode::Disk => write!(f, "fault journal disk"),
            NoNode::Damaged(offset) => write!(f, "fault journal damaged at {offset}"),
            NoNode::Other => write!(f, "fault journal other"),
            NoNode::Unlawful(entry) => write!(f, "fault journal unlawful at {entry}"),
            NoNode::Memory => write!(f, "fault memory"),
        }
    }
}

impl From<NoFolder> for NoNode {
    fn from(fault: NoFolder) -> NoNode {
        match fault {
            NoFolder::Disk => NoNode::Disk,
            NoFolder::Memory => NoNode::Memory,
        }
    }
}

impl<F: Drop> From<NoSite<F>> for NoNode {
    fn from(fault: NoSite<F>) -> NoNode {
        match fault {
            NoSite::Folder | NoSite::HasJournal | NoSite::NoJournal => NoNode::Disk,
            NoSite::Memory => NoNode::Memory,
            NoSite::Segment { epoch: _, not } => fault_of_opening(not.fault),
        }
    }
}

/// The fault of a station that was not opened.
fn fault_of_opening(fault: OpenFault) -> NoNode {
    match fault {
        OpenFault::Disk => NoNode::Disk,
        OpenFault::Memory => NoNode::Memory,
        OpenFault::BadHead => NoNode::Damaged(0),
        OpenFault::Damaged(offset) => NoNode::Damaged(offset),
        OpenFault::OtherSite => NoNode::Other,
        OpenFault::BadBase => NoNode::Unlawful(0),
        OpenFault::Unlawful(entry) => NoNode::Unlawful(entry),
    }
}

impl From<Unmet> for NoNode {
    fn from(fault: Unmet) -> NoNode {
        match fault {
            Unmet::Full => NoNode::Unlawful(0),
            Unmet::Memory => NoNode::Memory,
        }
    }
}

impl From<AllocError> for NoNode {
    fn from(_: AllocError) -> NoNode {
        NoNode::Memory
    }
}

impl<T: Drop> From<AllocFailed<T>> for NoNode {
    fn from(_: AllocFailed<T>) -> NoNode {
        NoNode::Memory
    }
}
