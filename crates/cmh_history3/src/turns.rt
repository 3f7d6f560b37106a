//! The law of turns from one epoch to the next.

ghost use Rattle.cmh_history3.specs.Turns.{TurnsLeadOn};

use cmh_topology3::Topology;

/// Where the bases of the next segments say the end of an epoch, each site turned to theirs, the turns are a run from that end
/// to the world of the next bases.
///
/// So with `chain_law` of the epochs, segments of which each epoch is accepted and followed by the next come from one run: that
/// of the entries of the first, the turns, the entries of the second, and so on.
pub fn turn_law(topology: &Topology)
    ensures { TurnsLeadOn topology.now }
{
    let _ = topology.sites();
}
