//! The lines with which commands end before their work is done. Each command has an enum of its own faults, and its line is
//! the fault of this table that its own comes to.

ghost use Rattle.std.specs.Prelude.{◌≡◌, ◌≢◌, [], ◌∷◌, ◌++◌, Some};
ghost use Rattle.cmh_console.specs.Device.{Tells};
ghost use Rattle.cmh_console.specs.Faults as spec;
ghost use Rattle.cmh_console.specs.Status.{IsStatus};

use crate::device::Output;
use cmh_frames::TopologyFault;
use cmh_journal::{JournalFault, SetFault};
use std::fmt;
use std::io::Write;

/// Why some command ends before its work is done. Printed, it is the fault's line.
#[derive(Clone, Copy)]
pub enum Fault {
    /// The topology file can't be read.
    TopologyFile,
    /// The file of a script can't be read.
    ScriptFile,
    /// A journal's file can't be made or read back where all sites run in one program.
    OutFile,
    /// The file of a journal can't be read, the one at this place in the command, from 1.
    JournalFile(usize),
    /// What the topology file holds is not the JSON of a topology.
    Json,
    /// The sites of the topology file make no topology.
    Topology(TopologyFault),
    /// What the file at this place in the command holds is no journal.
    Journal(usize, JournalFault),
    /// The journals are not those of one world.
    Set(SetFault),
    /// A journal of edition 3 is of another world than the topology.
    OtherWorld,
    /// A journal of edition 3 does not begin with its world: its segment is of a later epoch.
    LaterEpoch,
    /// The system gives no random bytes.
    Random,
    /// The site isn't in the topology.
    Site,
    /// The journal of a running site can't be made.
    JournalDisk,
    /// A site can't listen on its port.
    Listen,
    /// The script can't be read.
    Input,
    /// The answers can't be written.
    Output,
    /// Memory was refused, and no answer can say so.
    Memory,
}

impl Fault {
    /// The status with which the program ends.
    pub const fn status(self) -> u8
        ensures status { result ≡ spec.status_of self }
        ensures ends { IsStatus result }
        ensures fails { result ≢ 0 }
    {
        match self {
            Fault::Memory => 1,
            _ => 3,
        }
    }

    /// Names the fault on `err`, a write to which may fail, and answers the status with which the program ends.
    pub fn name_on<E: Write>(self, err: &mut Output<E>) -> u8
        ensures status { result ≡ spec.status_of self }
        ensures ends { IsStatus result }
        ensures fails { result ≢ 0 }
        ensures named { Tells err.old.written err.new.written err.new.has_failed
            (spec.fault_text self ++ 10 ∷ []) }
    {
        let _ = err.write_line(self);
        self.status()
    }
}

impl fmt::Display for Fault {
    ghost output = { λ fault. Some (spec.fault_text fault) };

    fn fmt<W: fmt::Write>(&self, f: &mut fmt::Formatter<W>) -> fmt::Result {
        match self {
            Fault::TopologyFile => write!(f, "fault file topology"),
            Fault::ScriptFile => write!(f, "fault file script"),
            Fault::OutFile => write!(f, "fault file out"),
            Fault::JournalFile(place) => write!(f, "fault file {place}"),
            Fault::Json => write!(f, "fault json"),
            Fault::Topology(fault) => {
                let number = fault.number();
                write!(f, "fault topology {number}")
            }
            Fault::Journal(place, JournalFault::BadEntry(offset)) => {
                write!(f, "fault journal {place} 2 at {offset}")
            }
            Fault::Journal(place, fault) => {
                let number = fault.number();
                write!(f, "fault journal {place} {number}")
            }
            Fault::Set(fault) => {
                let number = fault.number();
                write!(f, "fault set {number}")
            }
            Fault::OtherWorld => write!(f, "fault set 5"),
            Fault::LaterEpoch => write!(f, "fault set 6"),
            Fault::Random => write!(f, "fault random"),
            Fault::Site => write!(f, "fault site"),
            Fault::JournalDisk => write!(f, "fault journal disk"),
            Fault::Listen => write!(f, "fault listen"),
            Fault::Input => write!(f, "fault input"),
            Fault::Output => write!(f, "fault output"),
            Fault::Memory => write!(f, "fault memory"),
        }
    }
}
