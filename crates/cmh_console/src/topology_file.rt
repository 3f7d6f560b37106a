//! The topology file: which sites there are, with their processes and ports.

ghost use Rattle.std.specs.Prelude.{◌≡◌, Some, IfOk, IfErr, codes, option_and_then};
ghost use Rattle.std.specs.Option.{option_map};
ghost use Rattle.serde_json.specs.Find.{as_array, get};
ghost use Rattle.serde_json.specs.View.{view, items_view};
ghost use Rattle.cmh_console.specs.TopologyFile as spec;
ghost use Rattle.cmh_console.specs.TopologyParts as parts;

use cmh_frames::{Edition, SiteRow};
use serde_json::{Error, Value};
use std::alloc::{AllocFailed, Global};

/// What a topology file says: the rows of a topology, which may be faulty.
#[derive(Drop)]
pub struct TopologyFile {
    pub edition: Edition,
    pub rows: Vec<SiteRow>,
}

/// Why a topology file can't be read.
#[derive(Clone, Copy)]
pub enum TopologyFileFault {
    /// It is no JSON, or not the JSON of a topology.
    Json,
    /// Memory was refused.
    Memory,
}

impl<T: Drop> From<AllocFailed<T>> for TopologyFileFault {
    ghost use Rattle.std.specs.Prelude.{◌≡◌};
    ghost use Rattle.cmh_console.specs.declared.topology_file.TopologyFileFault.TheVariants.{Memory};

    ghost from_gives = { λ _ fault. fault ≡ Memory };

    fn from(_: AllocFailed<T>) -> Self {
        TopologyFileFault::Memory
    }
}

/// Reads a topology file. Ports are not looked at.
///
/// A number of a site or a process that is below 0 or above 65535 is given as 0, which is the number of nothing.
pub fn read_topology_file(alloc: Global, bytes: &[u8]) -> Result<TopologyFile, TopologyFileFault>
    ensures says { IfOk result (λ file. spec.Says bytes.now file.edition file.rows.items) }
    ensures fault { IfErr result (spec.IsFileFault (spec.SaysNoRows bytes.now)) }
{
    let value = json_of(alloc, bytes)?;
    topology_of(alloc, &value)
}

/// Reads a topology file in which each site has a port, 1 to 65535, that no other has. The ports come in the order of
/// the rows.
pub fn read_topology_file_with_ports(
    alloc: Global,
    bytes: &[u8],
) -> Result<(TopologyFile, Vec<u16>), TopologyFileFault>
    ensures says { IfOk result (λ read. spec.Says bytes.now read.0.edition read.0.rows.items) }
    ensures ports { IfOk result (λ read. spec.SaysPorts bytes.now read.1.items) }
    ensures fault { IfErr result (spec.IsFileFault (spec.SaysNoPorts bytes.now)) }
{
    let value = json_of(alloc, bytes)?;
    let topology = topology_of(alloc, &value)?;
    let ports = ports_of(alloc, &value)?;
    if has_repeats(&ports) {
        return Err(TopologyFileFault::Json);
    }
    Ok((topology, ports))
}

pub(crate) fn json_of(alloc: Global, bytes: &[u8]) -> Result<Value, TopologyFileFault>
    ensures json { IfOk result (λ value. parts.IsJsonOf bytes.now (view value)) }
    ensures fault { IfErr result (parts.IsFaultOfJson bytes.now) }
{
    match Value::from_slice(alloc, bytes) {
        Ok(value) => Ok(value),
        Err(error) if error.is_memory() => Err(TopologyFileFault::Memory),
        Err(_) => Err(TopologyFileFault::Json),
    }
}

fn topology_of(alloc: Global, value: &Value) -> Result<TopologyFile, TopologyFileFault>
    ensures says { IfOk result (λ file. parts.topology_in (view value.now) ≡ Some (file.edition, file.rows.items)) }
    ensures fault { IfErr result (parts.IsFaultOf (parts.topology_in (view value.now))) }
{
    let (Some(edition), Some(sites)) = (edition_in(value), array_in(value, "sites")) else {
        return Err(TopologyFileFault::Json);
    };
    Ok(TopologyFile {
        edition,
        rows: rows_of(alloc, sites)?,
    })
}

fn ports_of(alloc: Global, value: &Value) -> Result<Vec<u16>, TopologyFileFault>
    ensures ports { IfOk result (λ ports. spec.each_in (codes "sites") spec.port_in (view value.now) ≡ Some ports.items) }
    ensures fault { IfErr result (parts.IsFaultOf (spec.each_in (codes "sites") spec.port_in (view value.now))) }
{
    match array_in(value, "sites") {
        Some(sites) => ports_of_all(alloc, sites),
        None => Err(TopologyFileFault::Json),
    }
}

pub(crate) fn rows_of(alloc: Global, sites: &[Value]) -> Result<Vec<SiteRow>, TopologyFileFault>
    ensures ok { IfOk result (λ rows. spec.each_of spec.row_of (items_view sites.now) ≡ Some rows.items) }
    ensures fault { IfErr result (parts.IsFaultOf (spec.each_of spec.row_of (items_view sites.now))) }
{
    let mut rows = Vec::new(alloc);
    for site in sites {
        rows.push(row_of(alloc, site)?)?;
    }
    Ok(rows)
}

fn row_of(alloc: Global, site: &Value) -> Result<SiteRow, TopologyFileFault>
    ensures ok { IfOk result (λ row. spec.row_of (view site.now) ≡ Some row) }
    ensures fault { IfErr result (parts.IsFaultOf (spec.row_of (view site.now))) }
{
    let (Some(number), Some(processes)) = (number_in(site, "site"), array_in(site, "processes"))
    else {
        return Err(TopologyFileFault::Json);
    };
    Ok(SiteRow {
        site: number,
        processes: whole_numbers(alloc, processes)?,
    })
}

fn whole_numbers(alloc: Global, values: &[Value]) -> Result<Vec<u16>, TopologyFileFault>
    ensures ok { IfOk result (λ numbers. spec.each_of spec.whole_of (items_view values.now) ≡ Some numbers.items) }
    ensures fault { IfErr result (parts.IsFaultOf (spec.each_of spec.whole_of (items_view values.now))) }
{
    let mut numbers = Vec::new(alloc);
    for value in values {
        match whole_number(value) {
            Some(number) => numbers.push(number)?,
            None => return Err(TopologyFileFault::Json),
        }
    }
    Ok(numbers)
}

fn ports_of_all(alloc: Global, sites: &[Value]) -> Result<Vec<u16>, TopologyFileFault>
    ensures ok { IfOk result (λ ports. spec.each_of spec.port_in (items_view sites.now) ≡ Some ports.items) }
    ensures fault { IfErr result (parts.IsFaultOf (spec.each_of spec.port_in (items_view sites.now))) }
{
    let mut ports = Vec::new(alloc);
    for site in sites {
        match port_in(site) {
            Some(port) => ports.push(port)?,
            None => return Err(TopologyFileFault::Json),
        }
    }
    Ok(ports)
}

pub(crate) fn array_in<'a>(value: &'a Value, name: &str) -> Option<&'a [Value]>
    ensures { option_map (λ items. items_view items.now) result ≡ option_and_then as_array (get name.now (view value.now)) }
{
    let items = value.get(name)?.as_array()?;
    Some(items.as_slice())
}

fn number_in(value: &Value, name: &str) -> Option<u16>
    ensures { result ≡ option_and_then spec.whole_of (get name.now (view value.now)) }
{
    whole_number(value.get(name)?)
}

/// A whole number; 0 in place of one below 0 or above 65535.
fn whole_number(value: &Value) -> Option<u16>
    ensures { result ≡ spec.whole_of (view value.now) }
{
    match (value.as_u64(), value.as_i64()) {
        (Some(number), _) => Some(u16::try_from(number).unwrap_or(0)),
        (None, Some(_)) => Some(0),
        (None, None) => None,
    }
}

fn edition_in(value: &Value) -> Option<Edition>
    ensures { result ≡ parts.edition_in (view value.now) }
{
    match value.get("edition")?.as_u64()? {
        1 => Some(Edition::One),
        2 => Some(Edition::Two),
        _ => None,
    }
}

/// A port, 1 to 65535.
fn port_in(site: &Value) -> Option<u16>
    ensures { result ≡ spec.port_in (view site.now) }
{
    match site.get("port")?.as_u64()? {
        0 => None,
        number => u16::try_from(number).ok(),
    }
}

/// Whether a port stands twice.
fn has_repeats(ports: &[u16]) -> bool
    ensures { result ≡ parts.has_repeats ports.now }
{
    for (i, port) in ports.iter().enumerate() {
        if ports[i + 1..].contains(port) {
            return true;
        }
    }
    false
}
