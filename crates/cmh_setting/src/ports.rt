//! The port of each site.

ghost use Rattle.std.specs.Prelude.{◌≡◌, IfOk};
ghost use Rattle.cmh_setting.specs.Ports.{port_in, ported};

use cmh_frames::{SiteId, SiteRow};
use std::alloc::{AllocError, Global};

/// The ports on which the sites listen.
#[derive(Drop)]
pub struct Ports {
    pairs: Vec<(SiteId, u16)>,
}

impl Ports {
    /// The ports stand in the order of the rows.
    pub fn new(alloc: Global, rows: &[SiteRow], ports: &[u16]) -> Result<Ports, AllocError>
        ensures { IfOk result (λ made. made.pairs.items ≡ ported rows.now ports.now) }
    {
        let mut pairs = Vec::new(alloc);
        for (row, port) in rows.iter().zip(ports) {
            if let Some(site) = SiteId::new(row.site) {
                pairs.push((site, *port))?;
            }
        }
        Ok(Ports { pairs })
    }

    /// The port of a site, if it has one.
    pub fn of(&self, site: SiteId) -> Option<u16>
        ensures { result ≡ port_in self.now.pairs.items site }
    {
        let (_, port) = self.pairs.iter().find(|pair| pair.0 == site)?;
        Some(*port)
    }

    /// Each site with its port.
    pub fn pairs(&self, alloc: Global) -> Result<Vec<(SiteId, u16)>, AllocError>
        ensures { IfOk result (λ pairs. pairs.items ≡ self.now.pairs.items) }
    {
        self.pairs.to_vec(alloc)
    }
}
