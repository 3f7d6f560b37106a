//! How many descriptors all sites of a topology need in one process, and how many the process may have.

ghost use Rattle.std.specs.Prelude.{◌≡◌, IfOk, IfErr, MatchOption, Some, length};
ghost use Rattle.cmh_console.specs.TopologyFile.{OfTopology};
ghost use Rattle.cmh_frames.specs.Topology.{sites_of};
ghost use Rattle.cmh_setting.specs.Setting.{IsSettingFault};
ghost use Rattle.cmh_cluster.specs.Descriptors.{HasRoom, IsShortage, descriptors_for, shortage_text};

use cmh_host::{SettingFault, read_setting};
use libc::RLIMIT_NOFILE;
use libc::types::rlimit;
use std::alloc::Global;
use std::fmt;

/// More descriptors are needed than the process may have. Printed, it is the line that names it.
#[derive(Clone, Copy)]
pub struct Shortage {
    pub needed: u64,
    pub allowed: u64,
}

impl fmt::Display for Shortage {
    ghost output = { λ shortage. Some (shortage_text shortage) };

    fn fmt<W: fmt::Write>(&self, f: &mut fmt::Formatter<W>) -> fmt::Result {
        let Shortage { needed, allowed } = *self;
        write!(f, "fault descriptors {needed} allowed {allowed}")
    }
}

/// How many descriptors the sites of a topology file need in one process.
#[tactic(auto, using(crate::proofs::Shortages::pairs_fit))]
fn needed_descriptors(alloc: Global, topology: &[u8]) -> Result<u64, SettingFault>
    ensures needed { IfOk result (λ needed. OfTopology topology.now
        (λ world. needed ≡ descriptors_for (length (sites_of world)))) }
    ensures fault { IfErr result (IsSettingFault topology.now) }
{
    let setting = read_setting(alloc, topology)?;
    let sites = setting.world.sites();
    let count = sites.len() as u64;
    let pairs = count * count;
    Ok(2 * pairs + 2 * count + 3)
}

/// What is said where the sites of a topology file need more descriptors than these. A fault is one of the file, or of
/// memory.
pub fn shortage_of(
    alloc: Global,
    topology: &[u8],
    allowed: u64,
) -> Result<Option<Shortage>, SettingFault>
    ensures shortage { IfOk result (λ shortage. MatchOption shortage (HasRoom topology.now allowed)
        (IsShortage topology.now)) }
    ensures fault { IfErr result (IsSettingFault topology.now) }
{
    let needed = needed_descriptors(alloc, topology)?;
    if allowed < needed {
        Ok(Some(Shortage { needed, allowed }))
    } else {
        Ok(None)
    }
}

/// How many descriptors the system lets this process have at once, where it says so.
pub fn allowed_descriptors() -> Option<u64> {
    let mut limit = rlimit {
        rlim_cur: 0,
        rlim_max: 0,
    };
    if libc::getrlimit(RLIMIT_NOFILE, &mut limit) == 0 {
        Some(limit.rlim_cur)
    } else {
        None
    }
}
