//! Lists of a bounded length.

ghost use Rattle.std.specs.Prelude.{◌≡◌, ◌≤◌, [], length};
ghost use Rattle.cmh_shared.specs.Lists.{added};

use cmh_runs::ProcId;
use std::marker::Model;

/// The most processes that stand on a board: as many as a site has at most, each of which is declared once.
pub(crate) const MOST: usize = 64;

/// A list of at most 64 processes, in the order in which they were declared.
#[derive(Drop)]
pub struct Declared {
    processes: [ProcId; MOST],
    count: usize,
}

impl Model for Declared {
    ghost use Rattle.std.specs.Prelude.{List, ℕ, ◌≡◌, ◌≤◌, length, take};

    ghost Value = { List ℕ };

    ghost view = { λ d. take d.count d.processes };

    ghost invariant = { λ d. (d.count ≤ 64) × (length d.processes ≡ 64) };
}

impl Declared {
    /// The empty list.
    pub(crate) fn new() -> Declared
        ensures { result ≡ [] }
    {
        // The places after the list hold any process.
        let unused = ProcId::new(1).unwrap();
        Declared {
            processes: [unused; MOST],
            count: 0,
        }
    }

    pub fn len(&self) -> usize
        ensures length { result ≡ length self.now }
        ensures most { result ≤ 64 }
    {
        self.count
    }

    pub fn as_slice(&self) -> &[ProcId]
        ensures { result.now ≡ self.now }
    {
        &self.processes[..self.count]
    }

    /// The same list once more.
    pub(crate) fn again(&self) -> Declared
        ensures { result ≡ self.now }
    {
        Declared {
            processes: self.processes,
            count: self.count,
        }
    }

    /// Adds one, unless the list is full.
    pub(crate) fn add(&mut self, process: ProcId)
        ensures { self.new ≡ added self.old process }
    {
        if self.count < MOST {
            self.processes[self.count] = process;
            self.count += 1;
        }
    }
}
