//! In which column of a run each entry stands.

ghost use Rattle.std.specs.Prelude.{IfOk};
ghost use Rattle.cmh_draw.specs.Inner.Columns.{AreColumns};
ghost use Rattle.cmh_draw3.specs.Inner.Lengths.{lengths_of};

use crate::arrows::arrows_of;
use crate::newer_run::{NewerRun, entries_at};
use cmh_audit3::Segment;
use cmh_draw::{Columns, checked, search_by};
use cmh_topology3::Topology;
use std::alloc::{AllocError, Global};

/// The columns of the entries of each site: ascending, and as far to the left as they can be with the entry that sent a
/// message on the left of the one that got it. In segments that come from no run a message may go back.
pub fn columns_of(
    alloc: Global,
    topology: &Topology,
    segments: &[Segment],
) -> Result<Vec<Columns>, AllocError>
    ensures { IfOk result (λ columns. AreColumns (lengths_of topology.now segments.now) columns.items) }
{
    let found = search(alloc, topology, segments)?;
    let mut all = Vec::new(alloc);
    for (row, site) in topology.sites().iter().enumerate() {
        let count = entries_at(segments, *site).len();
        let columns = checked(alloc, count, &found, row)?;
        all.push(columns)?;
    }
    Ok(all)
}

/// Looks for the columns, by the arrows between entries that have none yet. Of what it answers nothing is promised.
fn search(
    alloc: Global,
    topology: &Topology,
    segments: &[Segment],
) -> Result<Vec<Columns>, AllocError> {
    let unplaced = NewerRun {
        topology,
        segments,
        columns: &[],
    };
    let arrows = arrows_of(alloc, &unplaced)?;
    let mut lengths = Vec::new(alloc);
    for site in topology.sites() {
        lengths.push(entries_at(segments, *site).len())?;
    }
    search_by(alloc, &lengths, &arrows)
}
