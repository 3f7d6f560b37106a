//! The port of each site.

use cmh_frames::SiteRow;
use cmh_runs::SiteId;
use serde_json::Value;
use std::alloc::{AllocError, Global};

/// The ports of 127.0.0.1 on which the sites listen for one another.
#[derive(Drop)]
pub(crate) struct Ports {
    pairs: Vec<(SiteId, u16)>,
}

impl Ports {
    /// The ports stand in the order of the rows.
    pub fn new(alloc: Global, rows: &[SiteRow], ports: &[u16]) -> Result<Ports, AllocError> {
        let mut pairs = Vec::new(alloc);
        for (row, port) in rows.iter().zip(ports) {
            if let Some(site) = SiteId::new(row.site) {
                pairs.push((site, *port))?;
            }
        }
        Ok(Ports { pairs })
    }

    /// The port of a site, if it has one.
    pub fn of(&self, site: SiteId) -> Option<u16> {
        let (_, port) = self.pairs.iter().find(|pair| pair.0 == site)?;
        Some(*port)
    }
}

/// The port of each site of a topology file, in its order: 1 to 65535, and none twice. `None` where one has none.
pub(crate) fn ports_of(alloc: Global, value: &Value) -> Result<Option<Vec<u16>>, AllocError> {
    let Some(sites) = sites_of(value) else {
        return Ok(None);
    };
    let mut ports: Vec<u16> = Vec::new(alloc);
    for site in sites {
        let Some(port) = port_of(site) else {
            return Ok(None);
        };
        if ports.contains(&port) {
            return Ok(None);
        }
        ports.push(port)?;
    }
    Ok(Some(ports))
}

fn sites_of(value: &Value) -> Option<&[Value]> {
    let sites = value.get("sites")?.as_array()?;
    Some(sites.as_slice())
}

fn port_of(site: &Value) -> Option<u16> {
    let port = site.get("port")?.as_u64()?;
    if port == 0 {
        return None;
    }
    u16::try_from(port).ok()
}
