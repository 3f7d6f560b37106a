//! A topology of edition 3 as lines, in the words of scripts.

ghost use Rattle.std.specs.Prelude.{Some};
ghost use Rattle.std.specs.List.{flat_map};
ghost use Rattle.cmh_topology3.specs.Topology.{sites_of};
ghost use Rattle.cmh_page3.specs.Pages.{site_text, topology_text};

use cmh_frames::ProcessesText;
use cmh_topology3::Topology;
use std::fmt;

/// The edition, and then each site with its processes.
#[derive(Drop)]
pub struct TopologyText<'a> {
    pub topology: &'a Topology,
}

impl<'a> fmt::Display for TopologyText<'a> {
    ghost output = { λ text. Some (topology_text text.topology.now) };

    fn fmt<W: fmt::Write>(&self, f: &mut fmt::Formatter<W>) -> fmt::Result {
        let sites = SitesText {
            topology: self.topology,
        };
        write!(f, "edition 3\n{sites}")
    }
}

/// Each site with its processes.
#[derive(Drop)]
struct SitesText<'a> {
    topology: &'a Topology,
}

impl<'a> fmt::Display for SitesText<'a> {
    ghost output = { λ text. Some (flat_map (site_text text.topology.now) (sites_of text.topology.now)) };

    fn fmt<W: fmt::Write>(&self, f: &mut fmt::Formatter<W>) -> fmt::Result {
        for site in self.topology.sites() {
            let members = ProcessesText {
                processes: self.topology.members(*site),
            };
            write!(f, "site {site}{members}\n")?;
        }
        Ok(())
    }
}
