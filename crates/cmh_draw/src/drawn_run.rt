//! A run as it is drawn: each site on a line, each entry in a column.

use crate::columns::Columns;
use cmh_frames::{SiteId, Topology};
use cmh_journal::Journal;

/// The journals of a run, and in which column each entry stands.
#[derive(Clone, Copy)]
pub struct DrawnRun<'a> {
    pub topology: &'a Topology,
    pub journals: &'a [Journal],
    /// Those of each site, in the order of the topology. An entry that has none is in column 0.
    pub columns: &'a [Columns],
}

/// A site and its row, which is its place among those of the topology, from 0.
#[derive(Clone, Copy)]
pub struct Line {
    pub row: u32,
    pub site: SiteId,
}
