//! The topology file of sites that run.

ghost use Rattle.std.specs.Prelude.{◌≡◌, IfOk, IfErr};
ghost use Rattle.cmh_console.specs.TopologyFile.{SaysTopology};
ghost use Rattle.cmh_setting.specs.Setting.{IsSettingFault, of_file, of_topology};
ghost use Rattle.cmh_setting.specs.declared.setting.SettingFault.TheVariants.{Memory};

use crate::ports::Ports;
use cmh_console::{TopologyFileFault, read_topology_file_with_ports};
use cmh_frames::{Topology, TopologyFault};
use std::alloc::{AllocError, Global};

/// The sites of a topology file, and their ports.
#[derive(Drop)]
pub struct Setting {
    pub world: Topology,
    pub ports: Ports,
}

/// Why a topology file is not that of running sites.
#[derive(Clone, Copy)]
pub enum SettingFault {
    /// What the file holds is not the JSON of a topology with ports.
    Json,
    /// The sites of the file make no topology.
    Topology(TopologyFault),
    /// Memory was refused.
    Memory,
}

impl From<TopologyFileFault> for SettingFault {
    ghost from_gives = { λ lower fault. fault ≡ of_file lower };

    fn from(fault: TopologyFileFault) -> SettingFault {
        match fault {
            TopologyFileFault::Json => SettingFault::Json,
            TopologyFileFault::Memory => SettingFault::Memory,
        }
    }
}

impl From<TopologyFault> for SettingFault {
    ghost from_gives = { λ lower fault. fault ≡ of_topology lower };

    fn from(fault: TopologyFault) -> SettingFault {
        match fault {
            TopologyFault::Memory => SettingFault::Memory,
            _ => SettingFault::Topology(fault),
        }
    }
}

impl From<AllocError> for SettingFault {
    ghost from_gives = { λ _ fault. fault ≡ Memory };

    fn from(_: AllocError) -> SettingFault {
        SettingFault::Memory
    }
}

/// Reads a topology file in which each site has a port of its own.
pub fn read_setting(alloc: Global, file: &[u8]) -> Result<Setting, SettingFault>
    ensures world { IfOk result (λ setting. SaysTopology file.now setting.world) }
    ensures fault { IfErr result (IsSettingFault file.now) }
{
    let (file, ports) = read_topology_file_with_ports(alloc, file)?;
    let world = Topology::new(alloc, file.edition, &file.rows)?;
    let ports = Ports::new(alloc, &file.rows, &ports)?;
    Ok(Setting { world, ports })
}
