//! A run of edition 3 as it is drawn.

ghost use Rattle.std.specs.Prelude.{◌≡◌};
ghost use Rattle.cmh_audit3.specs.Journals.{journal_of};

use cmh_audit3::Segment;
use cmh_draw::Columns;
use cmh_model3::SiteId;
use cmh_segment3::Entry;
use cmh_topology3::Topology;

/// The segments of a run, and in which column each entry stands.
#[derive(Clone, Copy)]
pub struct NewerRun<'a> {
    pub topology: &'a Topology,
    pub segments: &'a [Segment],
    /// Those of each site, in the order of the topology. An entry that has none is in column 0.
    pub columns: &'a [Columns],
}

/// The entries of a site's segment; none where it has none.
pub fn entries_at(segments: &[Segment], site: SiteId) -> &[Entry]
    ensures { result.now ≡ journal_of segments.now site }
{
    for segment in segments {
        if segment.header.site == site {
            return segment.entries.as_slice();
        }
    }
    &[]
}
