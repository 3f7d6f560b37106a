//! The sites of a world as a script names them, before its first command.

ghost use Rattle.std.specs.Prelude.{◌≡◌, ◌==◌, [], ◌∷◌, ◌++◌, length, IfOk, OnErr, MatchOption, None, replicate};
ghost use Rattle.cmh_topology3.specs.Rows.{IsFaultOf, fault_of};
ghost use Rattle.cmh_topology3.specs.Topology.{IsTopologyOf};

use cmh_topology3::{SiteRow, Topology, TopologyFault, World};
use std::alloc::{AllocError, Global};
use std::marker::Model;

/// The sites of a world that is not played yet, in the order in which they were named. A world in memory has the number
/// 0, since it meets no other.
#[derive(Drop)]
pub struct Draft {
    alloc: Global,
    topology: Topology,
    rows: Vec<SiteRow>,
}

impl Model for Draft {
    ghost use Rattle.std.specs.Prelude.{ℕ, List, replicate};
    ghost use Rattle.cmh_topology3.specs.Topology.{IsTopologyOf};

    ghost Value = { List (ℕ × List ℕ) };

    ghost view = { λ d. d.rows.items };

    ghost invariant = { λ d. IsTopologyOf (replicate 16 0) d.rows.items d.topology };
}

impl Draft {
    /// No sites.
    pub fn new(alloc: Global) -> Result<Draft, AllocError>
        ensures { IfOk result (λ draft. draft ≡ []) }
    {
        match Topology::new(alloc, no_world(), &[]) {
            Ok(topology) => Ok(Draft {
                alloc,
                topology,
                rows: Vec::new(alloc),
            }),
            Err(_) => Err(AllocError),
        }
    }

    pub fn is_empty(&self) -> bool
        ensures { result ≡ (length self.now == 0) }
    {
        self.rows.is_empty()
    }

    pub fn topology(&self) -> &Topology
        ensures { IsTopologyOf (replicate 16 0) self.now result.now }
    {
        &self.topology
    }

    /// Adds a site. A row with which the rows are no topology is left out, and its fault answered.
    pub fn add(&mut self, row: SiteRow) -> Result<Option<TopologyFault>, AllocError>
        ensures added { IfOk result (λ fault. MatchOption fault
            ((self.new ≡ self.old ++ row ∷ []) × (fault_of (self.old ++ row ∷ []) ≡ None))
            (λ fault. (self.new ≡ self.old) × IsFaultOf (self.old ++ row ∷ []) fault)) }
        ensures err { OnErr result (self.new ≡ self.old) }
    {
        self.rows.push(row)?;
        match Topology::new(self.alloc, no_world(), &self.rows) {
            Ok(topology) => {
                self.topology = topology;
                Ok(None)
            }
            Err(fault) => {
                let _ = self.rows.pop();
                Ok(Some(fault))
            }
        }
    }
}

/// The number of a world in memory.
fn no_world() -> World
    ensures { result ≡ replicate 16 0 }
{
    World::new([0; World::LEN])
}
