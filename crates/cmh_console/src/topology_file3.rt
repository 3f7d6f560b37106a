//! The topology file of edition 3: the number of the world, and which sites there are, with their processes.

ghost use Rattle.std.specs.Prelude.{◌≡◌, Some, IfOk, IfErr};
ghost use Rattle.serde_json.specs.View.{view};
ghost use Rattle.cmh_console.specs.TopologyFile as spec;
ghost use Rattle.cmh_console.specs.TopologyFile3 as spec3;
ghost use Rattle.cmh_console.specs.TopologyParts as parts;

use crate::topology_file::{TopologyFileFault, array_in, json_of, rows_of};
use cmh_frames::SiteRow;
use cmh_topology3::World;
use serde_json::Value;
use std::alloc::Global;

/// What a topology file of edition 3 says: the number of its world, and the rows of a topology, which may be faulty.
#[derive(Drop)]
pub struct TopologyFile3 {
    pub world: World,
    pub rows: Vec<SiteRow>,
}

/// Reads a topology file of edition 3. Ports are not looked at.
///
/// A number of a site or a process that is below 0 or above 65535 is given as 0, which is the number of nothing.
pub fn read_topology_file3(alloc: Global, bytes: &[u8]) -> Result<TopologyFile3, TopologyFileFault>
    ensures says { IfOk result (λ file. spec3.SaysWorld bytes.now file.world file.rows.items) }
    ensures fault { IfErr result (spec.IsFileFault (spec3.SaysNoWorld bytes.now)) }
{
    let value = json_of(alloc, bytes)?;
    world_of(alloc, &value)
}

fn world_of(alloc: Global, value: &Value) -> Result<TopologyFile3, TopologyFileFault>
    ensures says { IfOk result (λ file. parts.world_in (view value.now) ≡ Some (file.world, file.rows.items)) }
    ensures fault { IfErr result (parts.IsFaultOf (parts.world_in (view value.now))) }
{
    let (true, Some(world), Some(sites)) = (
        is_edition3(value),
        number_of_world(value),
        array_in(value, "sites"),
    ) else {
        return Err(TopologyFileFault::Json);
    };
    Ok(TopologyFile3 {
        world,
        rows: rows_of(alloc, sites)?,
    })
}

fn is_edition3(value: &Value) -> bool
    ensures { result ≡ parts.is_edition3 (view value.now) }
{
    match value.get("edition") {
        Some(edition) => edition.as_u64() == Some(3),
        None => false,
    }
}

fn number_of_world(value: &Value) -> Option<World>
    ensures { result ≡ spec3.number_of_world (view value.now) }
{
    value.get("world")?.as_str()?.parse().ok()
}
