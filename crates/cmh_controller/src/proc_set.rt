//! Sets of processes.

ghost use Rattle.std.specs.Prelude.{◌≡◌, ℕ, true, IfOk, OnOk, OnErr, Contains, ◌↔◌};
ghost use Rattle.std.specs.FinSet as set;
ghost use Rattle.std.specs.List.Sorted.{IsStrictlyIncreasing};

use cmh_frames::ProcId;
use std::alloc::{AllocError, Global};
use std::marker::Model;

/// A set of processes, in the order in which they came.
#[derive(Drop)]
pub struct ProcSet {
    processes: Vec<ProcId>,
}

impl Model for ProcSet {
    ghost use Rattle.std.specs.FinSet as set;
    ghost use Rattle.std.specs.Coded.{coded_ℕ};
    ghost use Rattle.cmh_frames.specs.Relation.{Numbers};

    ghost Value = { Numbers };

    ghost coded = { set.code coded_ℕ };

    ghost view = { λ s. set.from_list s.processes.items };
}

impl ProcSet {
    pub fn new(alloc: Global) -> Self
        ensures { result ≡ set.empty }
    {
        ProcSet {
            processes: Vec::new(alloc),
        }
    }

    pub fn contains(&self, process: ProcId) -> bool
        ensures { result ≡ set.contains self.now process }
    {
        let processes = self.processes.as_slice();
        // Most often nobody is in it.
        !processes.is_empty() && processes.contains(&process)
    }

    pub fn insert(&mut self, process: ProcId) -> Result<(), AllocError>
        ensures ok { OnOk result (self.new ≡ set.insert self.old process) }
        ensures err { OnErr result (self.new ≡ self.old) }
    {
        self.processes.push(process)?;
        Ok(())
    }

    pub fn remove(&mut self, process: ProcId)
        ensures { self.new ≡ set.remove self.old process }
    {
        self.processes.retain(|other| *other != process);
    }

    /// The processes, ascending.
    pub fn in_order(&self, alloc: Global) -> Result<Vec<ProcId>, AllocError>
        ensures ascending { IfOk result (λ processes. IsStrictlyIncreasing processes.items) }
        ensures all { IfOk result (λ processes. (p : ℕ) →
            Contains processes.items p ↔ (set.contains self.now p ≡ true)) }
    {
        let mut processes = self.processes.to_vec(alloc)?;
        processes.sort_unstable();
        processes.dedup();
        Ok(processes)
    }

    /// Another set of the same processes.
    pub fn copy(&self, alloc: Global) -> Result<ProcSet, AllocError>
        ensures { IfOk result (λ other. other ≡ self.now) }
    {
        let processes = self.processes.to_vec(alloc)?;
        Ok(ProcSet { processes })
    }
}
