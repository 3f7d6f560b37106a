//! What commands share: the reader and the writer that they are given; the lines of scripts, what they say, and how
//! they are answered one after the other; the faults with which commands end; the topology file; and the file of a
//! journal that was made in memory.
#![tactic(auto)]

mod device;
mod dialogue;
mod faults;
mod keeping;
mod lines;
mod script;
mod topology_file;
mod topology_file3;
mod words;

pub use crate::device::{Ahead, Input, Output, Piece, WriteFault};
pub use crate::dialogue::{DialogueFault, Flow};
pub use crate::faults::Fault;
pub use crate::keeping::{NoFile, path_in, write_journal};
pub use crate::lines::{LineFault, MAX_LINE, NextLine, read_line};
pub use crate::script::{Command, Line, parse, parse_into};
pub use crate::topology_file::{
    TopologyFile, TopologyFileFault, read_topology_file, read_topology_file_with_ports,
};
pub use crate::topology_file3::{TopologyFile3, read_topology_file3};
pub use crate::words::{Words, number};
