//! A running site: how it starts, what its station and its links are asked, and what is answered. What it is given, as its
//! lines, its journal and its ports, is in `cmh_setting` and has its names here too.
#![tactic(auto)]

mod start;
mod starting;
mod system;
mod together;

pub use crate::start::{SiteSetup, SiteStart, start_site};
pub use crate::starting::{
    Carriers, FileStation, Opened, Running, RunningSite, SiteHandle, Speakers, closed_in,
    closed_out, ends_of, link_ends, note_seal, open_station, start_threads, step,
};
pub use crate::system::System;
pub use crate::together::{Answer, answer_events, reply_to};
pub use cmh_links::BacklogLimit;
pub use cmh_setting::{
    ClusterLine, Disk, JournalFile, JournalFolder, JournalSink, NewJournal, NoName, Order, Ports,
    Setting, SettingFault, Shelf, SiteFault, SiteLine, Writable, can_be_made, keep_old,
    make_journal, parse_for_cluster, parse_for_site, read_setting,
};
pub use cmh_talk::{ClosedLink, LinkEnds, SiteReply};
