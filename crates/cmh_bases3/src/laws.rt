//! The laws of bases.

ghost use Rattle.cmh_bases3.specs.Laws.{BasesAreStates, BasesFollow, NothingIsBase, StatesHaveBases};

use cmh_topology3::Topology;

/// Which bases `controller_of` takes: they say states of the rules, and those with which the epochs of a site begin are among
/// them. These are that of a new journal, and then each that says where a lawful journal led from the one before it.
pub fn bases_law(topology: &Topology)
    ensures are_states { BasesAreStates topology.now }
    ensures of_states { StatesHaveBases topology.now }
    ensures nothing { NothingIsBase topology.now }
    ensures follow { BasesFollow topology.now }
{
    let _ = topology.sites();
}
