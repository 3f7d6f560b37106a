//! What a running site is given, before it has a station or a link: what its lines mean, where its journal and its ports
//! are, and why it ends before it is told to.
#![tactic(auto)]

mod journal_file;
mod journal_place;
mod journal_write;
mod ports;
mod setting;
mod shelf;
mod site_fault;
mod site_script;

pub use crate::journal_file::{can_be_made, keep_old};
pub use crate::journal_place::{JournalFolder, JournalSink, NewJournal, make_journal};
pub use crate::journal_write::JournalFile;
pub use crate::ports::Ports;
pub use crate::setting::{Setting, SettingFault, read_setting};
pub use crate::shelf::{Disk, NoName, Shelf, Writable};
pub use crate::site_fault::SiteFault;
pub use crate::site_script::{ClusterLine, Order, SiteLine, parse_for_cluster, parse_for_site};
