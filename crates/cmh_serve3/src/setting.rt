//! The topology file of a world of edition 3 whose sites run.

ghost use Rattle.std.specs.Prelude.{◌≡◌, true, false, Ok};
ghost use Rattle.cmh_console.specs.TopologyFile3.{SaysNoWorld};
ghost use Rattle.cmh_serve3.specs.Setting.{IsOfEdition3};

use crate::ports::{Ports, ports_of};
use crate::serve_fault::ServeFault;
use cmh_console::{TopologyFileFault, read_topology_file3};
use cmh_topology3::Topology;
use serde_json::Value;
use std::alloc::{AllocError, Global};

/// The sites of a topology file, and their ports.
#[derive(Drop)]
pub(crate) struct Setting {
    pub topology: Topology,
    pub ports: Ports,
}

/// Whether a topology file is of edition 3 and has the number of a world: then its sites are run by this crate.
pub fn is_of_edition3(alloc: Global, bytes: &[u8]) -> Result<bool, AllocError>
    ensures yes { result ≡ Ok true → IsOfEdition3 bytes.now }
    ensures no { result ≡ Ok false → SaysNoWorld bytes.now }
{
    match read_topology_file3(alloc, bytes) {
        Ok(file) => Ok(true),
        Err(TopologyFileFault::Json) => Ok(false),
        Err(TopologyFileFault::Memory) => Err(AllocError),
    }
}

/// Reads a topology file of edition 3 in which each site has a port of its own.
pub(crate) fn read_setting(alloc: Global, bytes: &[u8]) -> Result<Setting, ServeFault> {
    let file = read_topology_file3(alloc, bytes)?;
    let value = match Value::from_slice(alloc, bytes) {
        Ok(value) => value,
        Err(error) if error.is_memory() => return Err(ServeFault::Memory),
        Err(_) => return Err(ServeFault::Json),
    };
    let Some(ports) = ports_of(alloc, &value)? else {
        return Err(ServeFault::Json);
    };
    let topology = Topology::new(alloc, file.world, &file.rows)?;
    Ok(Setting {
        topology,
        ports: Ports::new(alloc, &file.rows, &ports)?,
    })
}
