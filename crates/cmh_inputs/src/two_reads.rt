//! Two readings of the files of running sites are enough, as a law.

ghost use Rattle.cmh_inputs.specs.TwoReads.{TwoReadsAreEnough};

use cmh_topology3::Topology;

/// Where a run lies between two readings of the files of all sites, what `segments_kept` keeps of them comes from a run, and
/// an audit accepts it.
///
/// There is such a run, that of the moment between the readings, where sites sync an entry before they send its messages,
/// all first files are read before the second ones, and the disk gives back what was synced; no contract can say so of
/// files.
pub fn two_reads_law(topology: &Topology)
    ensures enough { TwoReadsAreEnough topology.now }
{
    let _ = topology.sites();
}
