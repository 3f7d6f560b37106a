//! The processes that an ask or a withdrawal names.

ghost use Rattle.std.specs.Prelude.{◌↔◌, IsTrue};
ghost use Rattle.cmh_controller3.specs.Refusals.{AreOthers};
ghost use Rattle.cmh_topology3.specs.Topology.{site_of};

use cmh_frames::is_ascending;
use cmh_model3::ProcId;
use cmh_topology3::Topology;

/// Whether these are other known processes than the asker, ascending.
pub fn are_others(topology: &Topology, asker: ProcId, targets: &[ProcId]) -> bool
    ensures { IsTrue result ↔ AreOthers (site_of topology.now) asker targets.now }
{
    if !is_ascending(targets) {
        return false;
    }
    for target in targets {
        if *target == asker || !topology.is_known(*target) {
            return false;
        }
    }
    true
}
