//! Why a world is not restored.

ghost use Rattle.std.specs.Prelude.{◌≡◌, Some};
ghost use Rattle.cmh_restore3.specs.Restores as spec;
ghost use Rattle.cmh_restore3.specs.declared.fault.RestoreFault.TheVariants.{Memory, Output, Refused};

use crate::checks::NotRestored;
use cmh_audit3::SetFault;
use cmh_console::{Fault, NoFile, TopologyFileFault, WriteFault};
use cmh_history3::Link;
use cmh_journal::{JournalFault, SetFault as OlderSetFault};
use cmh_model3::SiteId;
use cmh_topology3::TopologyFault;
use std::alloc::{AllocError, AllocFailed};
use std::fmt;

/// Why a world is not restored.
#[derive(Clone, Copy)]
pub enum RestoreFault {
    /// What the topology file holds is not the JSON of a topology of edition 3.
    Json,
    /// The sites of the topology file make no topology.
    Topology(TopologyFault),
    /// The newest segment of the journal at this place in the command, from 1, can't be read.
    Unread(usize),
    /// A file of the journal at this place in the command, from 1, does not begin with a segment.
    NoSegment(usize),
    /// A folder lacks the segment that another one says is before it, or that is one of another journal.
    Gap,
    /// What was read is not that of a world that can be restored.
    Refused(NotRestored),
    /// A journal can't be begun.
    Out,
    /// The answer can't be written.
    Output,
    /// Memory was refused.
    Memory,
}

/// Which bases are wrong. Printed, it is the line that an audit has for them.
#[derive(Clone, Copy)]
pub enum WrongBases {
    /// That of this site is of no state.
    Of(SiteId),
    /// Those of the ends of this link do not agree.
    Between(Link),
}

impl fmt::Display for WrongBases {
    ghost output = { λ wrong. Some (spec.wrong_text wrong) };

    fn fmt<W: fmt::Write>(&self, f: &mut fmt::Formatter<W>) -> fmt::Result {
        match self {
            WrongBases::Of(site) => write!(f, "base {site}"),
            WrongBases::Between(Link { from, to }) => write!(f, "link {from} {to}"),
        }
    }
}

/// What the command says of a fault.
#[derive(Clone, Copy)]
pub enum Told {
    /// A line on standard output.
    Wrong(WrongBases),
    /// The line of a fault.
    Fault(Fault),
}

impl RestoreFault {
    /// What the command says of it. A segment that does not stand for the epoch, and a folder that lacks one, are of an epoch
    /// that the command can't begin with.
    pub fn told(self) -> Told
        ensures { result ≡ spec.told_of self }
    {
        match self {
            RestoreFault::Json => Told::Fault(Fault::Json),
            RestoreFault::Topology(fault) => Told::Fault(Fault::Topology(fault)),
            RestoreFault::Unread(place) => Told::Fault(Fault::JournalFile(place)),
            RestoreFault::NoSegment(place) => {
                Told::Fault(Fault::Journal(place, JournalFault::BadHeader))
            }
            RestoreFault::Gap => Told::Fault(Fault::LaterEpoch),
            RestoreFault::Refused(not) => told_of(not),
            RestoreFault::Out => Told::Fault(Fault::OutFile),
            RestoreFault::Output => Told::Fault(Fault::Output),
            RestoreFault::Memory => Told::Fault(Fault::Memory),
        }
    }
}

fn told_of(not: NotRestored) -> Told
    ensures { result ≡ spec.told_of_world not }
{
    match not {
        NotRestored::OtherWorld => Told::Fault(Fault::OtherWorld),
        NotRestored::NotBegun => Told::Fault(Fault::LaterEpoch),
        NotRestored::Set(fault) => Told::Fault(line_of(fault)),
        NotRestored::Base(site) => Told::Wrong(WrongBases::Of(site)),
        NotRestored::Link(link) => Told::Wrong(WrongBases::Between(link)),
        NotRestored::Memory => Told::Fault(Fault::Memory),
    }
}

fn line_of(fault: SetFault) -> Fault
    ensures { result ≡ spec.line_of_set fault }
{
    match fault {
        SetFault::UnknownSite => Fault::Set(OlderSetFault::UnknownSite),
        SetFault::RepeatedSite => Fault::Set(OlderSetFault::RepeatedSite),
        SetFault::MissingSite => Fault::Set(OlderSetFault::MissingSite),
        SetFault::OtherWorld => Fault::OtherWorld,
        SetFault::LaterEpoch => Fault::LaterEpoch,
    }
}

impl From<NotRestored> for RestoreFault {
    ghost from_gives = { λ lower fault. fault ≡ Refused lower };

    fn from(fault: NotRestored) -> RestoreFault {
        RestoreFault::Refused(fault)
    }
}

impl From<TopologyFileFault> for RestoreFault {
    ghost from_gives = { λ lower fault. fault ≡ spec.of_topology_file lower };

    fn from(fault: TopologyFileFault) -> RestoreFault {
        match fault {
            TopologyFileFault::Json => RestoreFault::Json,
            TopologyFileFault::Memory => RestoreFault::Memory,
        }
    }
}

impl From<TopologyFault> for RestoreFault {
    ghost from_gives = { λ lower fault. fault ≡ spec.of_topology lower };

    fn from(fault: TopologyFault) -> RestoreFault {
        match fault {
            TopologyFault::Memory => RestoreFault::Memory,
            _ => RestoreFault::Topology(fault),
        }
    }
}

impl From<NoFile> for RestoreFault {
    ghost from_gives = { λ lower fault. fault ≡ spec.of_file lower };

    fn from(refused: NoFile) -> RestoreFault {
        match refused {
            NoFile::Disk => RestoreFault::Out,
            NoFile::Memory => RestoreFault::Memory,
        }
    }
}

impl From<WriteFault> for RestoreFault {
    ghost from_gives = { λ _ fault. fault ≡ Output };

    fn from(_: WriteFault) -> RestoreFault {
        RestoreFault::Output
    }
}

impl From<AllocError> for RestoreFault {
    ghost from_gives = { λ _ fault. fault ≡ Memory };

    fn from(_: AllocError) -> RestoreFault {
        RestoreFault::Memory
    }
}

impl<T: Drop> From<AllocFailed<T>> for RestoreFault {
    ghost from_gives = { λ _ fault. fault ≡ Memory };

    fn from(_: AllocFailed<T>) -> RestoreFault {
        RestoreFault::Memory
    }
}
