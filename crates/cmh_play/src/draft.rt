//! The sites of a world as a script names them, before its first command.

ghost use Rattle.std.specs.Prelude.{◌≡◌, ◌==◌, [], ◌∷◌, ◌++◌, length, IfOk, OnOk, OnErr, MatchOption, None};
ghost use Rattle.cmh_frames.specs.Rows.{IsFaultOf, fault_of};
ghost use Rattle.cmh_frames.specs.Topology.{IsTopologyOf};

use cmh_frames::{Edition, SiteRow, Topology, TopologyFault};
use std::alloc::{AllocError, Global};
use std::marker::Model;

/// The sites of a world that is not played yet, in the order in which they were named.
#[derive(Drop)]
pub struct Draft {
    alloc: Global,
    topology: Topology,
    rows: Vec<SiteRow>,
}

impl Model for Draft {
    ghost use Rattle.cmh_frames.specs.Topology.{IsTopologyOf};
    ghost use Rattle.cmh_play.specs.Draft as spec;

    ghost Value = { spec.Draft };

    ghost view = { λ d. record { edition = d.topology.edition; rows = d.rows.items } };

    ghost invariant = { λ d. IsTopologyOf d.topology.edition d.rows.items d.topology };
}

impl Draft {
    /// No sites, of edition 1.
    pub fn new(alloc: Global) -> Result<Draft, AllocError>
        ensures { IfOk result (λ draft. draft ≡ record { edition = Edition.One; rows = [] }) }
    {
        Ok(Draft {
            alloc,
            topology: bare(alloc, Edition::One)?,
            rows: Vec::new(alloc),
        })
    }

    pub fn is_empty(&self) -> bool
        ensures { result ≡ (length self.now.rows == 0) }
    {
        self.rows.is_empty()
    }

    pub fn topology(&self) -> &Topology
        ensures { IsTopologyOf self.now.edition self.now.rows result.now }
    {
        &self.topology
    }

    /// Sets the edition while there are no sites.
    pub fn set_edition(&mut self, edition: Edition) -> Result<(), AllocError>
        requires { self.old.rows ≡ [] }
        ensures ok { OnOk result (self.new ≡ record { edition = edition; rows = [] }) }
        ensures err { OnErr result (self.new ≡ self.old) }
    {
        self.topology = bare(self.alloc, edition)?;
        Ok(())
    }

    /// Adds a site. A row with which the rows are no topology is left out, and its fault answered.
    pub fn add(&mut self, row: SiteRow) -> Result<Option<TopologyFault>, AllocError>
        ensures added { IfOk result (λ fault. MatchOption fault
            ((self.new ≡ record { edition = self.old.edition; rows = self.old.rows ++ row ∷ [] })
            × (fault_of self.old.edition (self.old.rows ++ row ∷ []) ≡ None))
            (λ fault. (self.new ≡ self.old) × IsFaultOf self.old.edition (self.old.rows ++ row ∷ []) fault)) }
        ensures err { OnErr result (self.new ≡ self.old) }
    {
        self.rows.push(row)?;
        match Topology::new(self.alloc, self.topology.edition(), &self.rows) {
            Ok(topology) => {
                self.topology = topology;
                Ok(None)
            }
            Err(fault) => {
                let _ = self.rows.pop();
                Ok(Some(fault))
            }
        }
    }
}

/// The topology without sites.
fn bare(alloc: Global, edition: Edition) -> Result<Topology, AllocError>
    ensures { IfOk result (IsTopologyOf edition []) }
{
    match Topology::new(alloc, edition, &[]) {
        Ok(topology) => Ok(topology),
        Err(_) => Err(AllocError),
    }
}
