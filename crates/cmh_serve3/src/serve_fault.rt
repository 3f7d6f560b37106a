//! Why a site of edition 3 does not run, or runs no more.

ghost use Rattle.std.specs.Prelude.{◌≢◌};
ghost use Rattle.cmh_console.specs.Status.{IsStatus};

use cmh_console::{Output, TopologyFileFault};
use cmh_disk3::{NoFolder, NoSite};
use cmh_frames::TopologyFault;
use cmh_node3::Unmet;
use cmh_station3::{NotOpened, OpenFault};
use std::alloc::{AllocError, AllocFailed};
use std::fmt;
use std::io::Write;

/// Why a site of edition 3 does not run, or runs no more. Printed, it is the fault's line.
#[derive(Clone, Copy)]
pub enum ServeFault {
    /// What the topology file holds is not the JSON of a topology of edition 3 with ports.
    Json,
    /// The sites of the topology file make no topology.
    Topology(TopologyFault),
    /// The site isn't in the topology.
    Site,
    /// The folder of the journal can't be read or written, or another program has it; `--new`, and it has a journal; or it
    /// has none without `--new`.
    JournalDisk,
    /// The newest segment is damaged at this byte, or does not begin as a segment does.
    JournalDamaged(u64),
    /// The newest segment is of another site or another world.
    JournalOther,
    /// The entry of this number, from 1, is not what the rules make of its event; or, with 0, the newest segment begins in a
    /// state that the site can't be in.
    JournalUnlawful(u64),
    /// A port can't be listened on, or the site can't wait any more.
    Listen,
    /// A line of standard input can't be read.
    Input,
    /// It can't say that it listens, or an answer on standard output.
    Output,
    /// Memory or a thread was refused, and no answer can say so.
    Memory,
}

impl ServeFault {
    /// Names the fault on `err`, a write to which may fail, and answers the status with which the program ends.
    pub fn name_on<E: Write>(self, err: &mut Output<E>) -> u8
        ensures ends { IsStatus result }
        ensures fails { result ≢ 0 }
    {
        let _ = err.write_line(self);
        match self {
            ServeFault::Memory => 1,
            _ => 3,
        }
    }
}

impl fmt::Display for ServeFault {
    fn fmt<W: fmt::Write>(&self, f: &mut fmt::Formatter<W>) -> fmt::Result {
        match self {
            ServeFault::Json => write!(f, "fault json"),
            ServeFault::Topology(fault) => {
                let number = fault.number();
                write!(f, "fault topology {number}")
            }
            ServeFault::Site => write!(f, "fault site"),
            ServeFault::JournalDisk => write!(f, "fault journal disk"),
            ServeFault::JournalDamaged(offset) => write!(f, "fault journal damaged at {offset}"),
            ServeFault::JournalOther => write!(f, "fault journal other"),
            ServeFault::JournalUnlawful(entry) => write!(f, "fault journal unlawful at {entry}"),
            ServeFault::Listen => write!(f, "fault listen"),
            ServeFault::Input => write!(f, "fault input"),
            ServeFault::Output => write!(f, "fault output"),
            ServeFault::Memory => write!(f, "fault memory"),
        }
    }
}

impl From<TopologyFileFault> for ServeFault {
    fn from(fault: TopologyFileFault) -> ServeFault {
        match fault {
            TopologyFileFault::Json => ServeFault::Json,
            TopologyFileFault::Memory => ServeFault::Memory,
        }
    }
}

impl From<TopologyFault> for ServeFault {
    fn from(fault: TopologyFault) -> ServeFault {
        match fault {
            TopologyFault::Memory => ServeFault::Memory,
            _ => ServeFault::Topology(fault),
        }
    }
}

impl From<NoFolder> for ServeFault {
    fn from(fault: NoFolder) -> ServeFault {
        match fault {
            NoFolder::Disk => ServeFault::JournalDisk,
            NoFolder::Memory => ServeFault::Memory,
        }
    }
}

impl<F: Drop> From<NoSite<F>> for ServeFault {
    fn from(fault: NoSite<F>) -> ServeFault {
        match fault {
            NoSite::Folder | NoSite::HasJournal | NoSite::NoJournal => ServeFault::JournalDisk,
            NoSite::Memory => ServeFault::Memory,
            NoSite::Segment { epoch: _, not } => fault_of_opening(not.fault),
        }
    }
}

/// The fault of a station that was not opened.
fn fault_of_opening(fault: OpenFault) -> ServeFault {
    match fault {
        OpenFault::Disk => ServeFault::JournalDisk,
        OpenFault::Memory => ServeFault::Memory,
        OpenFault::BadHead => ServeFault::JournalDamaged(0),
        OpenFault::Damaged(offset) => ServeFault::JournalDamaged(offset),
        OpenFault::OtherSite => ServeFault::JournalOther,
        OpenFault::BadBase => ServeFault::JournalUnlawful(0),
        OpenFault::Unlawful(entry) => ServeFault::JournalUnlawful(entry),
    }
}

impl From<Unmet> for ServeFault {
    fn from(fault: Unmet) -> ServeFault {
        match fault {
            Unmet::Full => ServeFault::JournalUnlawful(0),
            Unmet::Memory => ServeFault::Memory,
        }
    }
}

impl From<AllocError> for ServeFault {
    fn from(_: AllocError) -> ServeFault {
        ServeFault::Memory
    }
}

impl<T: Drop> From<AllocFailed<T>> for ServeFault {
    fn from(_: AllocFailed<T>) -> ServeFault {
        ServeFault::Memory
    }
}
