//! What is wrong with a topology file, for people.

use cmh_frames::{Edition, SiteRow, TopologyFault};
use cmh_topology3::World;
use serde_json::Value;
use thiserror::Error;

/// What is wrong with a topology file that is JSON. A site is named by its place among the `sites`, from 1.
#[derive(Clone, Copy, Debug, PartialEq, Eq, Error)]
pub enum Trouble {
    #[error("`edition` is missing, or not 1 or 2")]
    Edition,
    #[error("`world` is missing, or not 32 hexadecimal digits")]
    World,
    #[error("`sites` is missing, or no array")]
    Sites,
    #[error("in place {0} of `sites`, `site` is missing, or no whole number")]
    Site(usize),
    #[error("in place {0} of `sites`, `processes` is missing, or no array")]
    Processes(usize),
    #[error("in place {0} of `sites`, one of the `processes` is no whole number")]
    Process(usize),
    #[error("in place {0} of `sites`, `port` is missing, or no whole number from 1 to 65535")]
    Port(usize),
    #[error("two sites have the port {0}")]
    SamePort(u64),
    #[error("edition {0} has at most {1} sites, {2} processes a site, and {3} processes in all")]
    Limit(u8, usize, usize, usize),
    #[error("site {0} stands twice")]
    SameSite(u16),
    #[error("process {0} stands twice")]
    SameProcess(u16),
    #[error("in place {0} of `sites`, the number of the site or of a process is not from 1 to 9999")]
    Number(usize),
}

/// How much a topology may have of an edition.
#[derive(Clone, Copy)]
pub struct Limits {
    pub edition: u8,
    pub sites: usize,
    pub members: usize,
    pub processes: usize,
}

impl Limits {
    pub const EDITION_3: Limits = Limits {
        edition: 3,
        sites: 64,
        members: 256,
        processes: 4096,
    };

    pub fn of(edition: Edition) -> Limits {
        Limits {
            edition: edition.number(),
            sites: edition.site_limit(),
            members: edition.member_limit(),
            processes: edition.process_limit(),
        }
    }
}

/// The first trouble of the members of a topology file, in the order in which they are read.
pub fn trouble_of_members(value: &Value, has_ports: bool) -> Option<Trouble> {
    if !has_edition(value) {
        return Some(Trouble::Edition);
    }
    trouble_of_sites(value, has_ports)
}

/// The same of a topology file of edition 3.
pub fn trouble_of_world(value: &Value, has_ports: bool) -> Option<Trouble> {
    if !has_world(value) {
        return Some(Trouble::World);
    }
    trouble_of_sites(value, has_ports)
}

fn trouble_of_sites(value: &Value, has_ports: bool) -> Option<Trouble> {
    let Some(sites) = array_in(value, "sites") else {
        return Some(Trouble::Sites);
    };
    for (i, site) in sites.iter().enumerate() {
        if let Some(trouble) = trouble_of_site(site, i + 1) {
            return Some(trouble);
        }
    }
    if has_ports {
        return trouble_of_ports(sites);
    }
    None
}

fn trouble_of_site(site: &Value, place: usize) -> Option<Trouble> {
    match site.get("site") {
        Some(number) if is_whole(number) => {}
        _ => return Some(Trouble::Site(place)),
    }
    let Some(processes) = array_in(site, "processes") else {
        return Some(Trouble::Processes(place));
    };
    for process in processes {
        if !is_whole(process) {
            return Some(Trouble::Process(place));
        }
    }
    None
}

fn trouble_of_ports(sites: &[Value]) -> Option<Trouble> {
    for (i, site) in sites.iter().enumerate() {
        let Some(port) = port_in(site) else {
            return Some(Trouble::Port(i + 1));
        };
        for earlier in &sites[..i] {
            if port_in(earlier) == Some(port) {
                return Some(Trouble::SamePort(port));
            }
        }
    }
    None
}

fn has_edition(value: &Value) -> bool {
    match value.get("edition") {
        Some(edition) => matches!(edition.as_u64(), Some(1 | 2)),
        None => false,
    }
}

/// Whether a topology file is of edition 3, whatever else it says.
pub fn is_edition3(value: &Value) -> bool {
    match value.get("edition") {
        Some(edition) => edition.as_u64() == Some(3),
        None => false,
    }
}

fn has_world(value: &Value) -> bool {
    match world_in(value) {
        Some(text) => text.parse::<World>().is_ok(),
        None => false,
    }
}

fn world_in(value: &Value) -> Option<&str> {
    value.get("world")?.as_str()
}

fn array_in<'a>(value: &'a Value, name: &str) -> Option<&'a [Value]> {
    let items = value.get(name)?.as_array()?;
    Some(items.as_slice())
}

fn is_whole(value: &Value) -> bool {
    value.as_u64().is_some() || value.as_i64().is_some()
}

fn port_in(site: &Value) -> Option<u64> {
    let port = site.get("port")?.as_u64()?;
    if (1..=65535).contains(&port) {
        Some(port)
    } else {
        None
    }
}

/// Where the rows have this fault of a topology.
pub fn trouble_of_rows(limits: Limits, rows: &[SiteRow], fault: TopologyFault) -> Option<Trouble> {
    match fault {
        TopologyFault::Limit => Some(Trouble::Limit(
            limits.edition,
            limits.sites,
            limits.members,
            limits.processes,
        )),
        TopologyFault::RepeatedSite => repeated_site(rows),
        TopologyFault::RepeatedProcess => repeated_process(rows),
        TopologyFault::BadNumber => bad_number(rows),
        TopologyFault::Memory => None,
    }
}

fn repeated_site(rows: &[SiteRow]) -> Option<Trouble> {
    for (i, row) in rows.iter().enumerate() {
        for earlier in &rows[..i] {
            if earlier.site == row.site {
                return Some(Trouble::SameSite(row.site));
            }
        }
    }
    None
}

fn repeated_process(rows: &[SiteRow]) -> Option<Trouble> {
    for (i, row) in rows.iter().enumerate() {
        for (j, process) in row.processes.iter().enumerate() {
            if row.processes[..j].contains(process) || is_named(&rows[..i], *process) {
                return Some(Trouble::SameProcess(*process));
            }
        }
    }
    None
}

fn is_named(rows: &[SiteRow], process: u16) -> bool {
    for row in rows {
        if row.processes.contains(&process) {
            return true;
        }
    }
    false
}

fn bad_number(rows: &[SiteRow]) -> Option<Trouble> {
    for (i, row) in rows.iter().enumerate() {
        if is_bad(row.site) || has_bad(&row.processes) {
            return Some(Trouble::Number(i + 1));
        }
    }
    None
}

fn has_bad(numbers: &[u16]) -> bool {
    for number in numbers {
        if is_bad(*number) {
            return true;
        }
    }
    false
}

const fn is_bad(number: u16) -> bool {
    number == 0 || 9999 < number
}
