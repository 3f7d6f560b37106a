//! The laws of restored worlds.

ghost use Rattle.cmh_restore3.specs.Laws.{IsSameWorld, OneStands, RestoredFollowAll, RestoredHaveHistories};

use cmh_epochs3::chain_law;
use cmh_history3::turn_law;
use cmh_topology3::Topology;

/// A restored world goes on with the history of the older one, whose number alone is another.
///
/// Epochs of it that are accepted, and that the bases of the restored epoch follow, are one run, which leads with the turns of
/// all sites to just the restored world; and what comes after is a run from there. So the restored world comes from a run, and
/// all laws of runs hold of what it goes on to.
pub fn restore_law(topology: &Topology)
    // The segment that stands for the epoch is the one that an audit takes for it.
    ensures one { OneStands topology.now }
    ensures same { IsSameWorld topology.now }
    ensures follow { RestoredFollowAll topology.now }
    ensures history { RestoredHaveHistories topology.now }
{
    chain_law();
    turn_law(topology);
}
