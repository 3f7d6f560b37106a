//! The state of each link of a site.

ghost use Rattle.std.specs.Prelude.{◌≡◌, ◌≢◌, ℕ, true, IfOk, IsTrue, OnOk, [], ◌∷◌, ◌++◌, ◌↔◌, if◌then◌else◌, ◌==◌, Some, None, map};
ghost use Rattle.cmh_frames.specs.Topology.{sites_of};
ghost use Rattle.cmh_carriers.specs.Table as spec;
ghost use Rattle.cmh_carriers.specs.Table.{claimed, closed_by, state_at, AllFresh, IsPlace};

use cmh_frames::{SiteId, Topology};
use std::alloc::{AllocError, Global};
use std::fmt;
use std::marker::Model;
use std::sync::{Mutex, MutexGuard, Wait};
use thiserror::Error;

/// Why a link is closed.
#[derive(Clone, Copy, Debug, PartialEq, Eq, Error)]
pub enum LinkFault {
    #[error("the other site could not be connected")]
    Connect,
    #[error("a read failed")]
    Read,
    #[error("a write failed")]
    Write,
    #[error("its bytes are no frames, or a frame was unlawful")]
    Bad,
    #[error("the connection ended")]
    Ended,
    #[error("memory or a thread was refused")]
    Memory,
    #[error("the station takes no more steps")]
    Station,
}

/// A link is new, then open, then closed; or new and then closed.
#[derive(Clone, Copy, PartialEq, Eq)]
pub enum LinkState {
    Fresh,
    Running,
    Closed(LinkFault),
}

impl fmt::Display for LinkState {
    ghost output = { λ state. Some (spec.state_text state) };

    fn fmt<W: fmt::Write>(&self, f: &mut fmt::Formatter<W>) -> fmt::Result {
        match self {
            LinkState::Fresh => write!(f, "new"),
            LinkState::Running => write!(f, "open"),
            LinkState::Closed(fault) => {
                let number = fault.number();
                write!(f, "closed {number}")
            }
        }
    }
}

/// The links from and to each other site.
#[derive(Drop)]
pub struct LinkTable {
    into: Vec<(SiteId, LinkState)>,
    out: Vec<(SiteId, LinkState)>,
}

impl Model for LinkTable {
    ghost use Rattle.cmh_carriers.specs.Table as spec;

    ghost Value = { spec.Table };

    ghost view = { λ t. record { into = t.into.items; out = t.out.items } };
}

fn place_of(rows: &[(SiteId, LinkState)], site: SiteId) -> Option<usize>
    ensures { IsPlace rows.now site result }
{
    for i in 0..rows.len() {
        if rows[i].0 == site {
            return Some(i);
        }
    }
    None
}

fn open(rows: &mut Vec<(SiteId, LinkState)>, site: SiteId) -> bool
    ensures opened { IsTrue result ↔ (state_at rows.old.items site ≡ Some LinkState.Fresh) }
    ensures here { state_at rows.new.items site ≡ claimed (state_at rows.old.items site) }
    ensures others { (s : ℕ) → s ≢ site → state_at rows.new.items s ≡ state_at rows.old.items s }
{
    let Some(i) = place_of(rows, site) else {
        return false;
    };
    match rows[i].1 {
        LinkState::Fresh => {
            rows[i] = (site, LinkState::Running);
            true
        }
        LinkState::Running => false,
        LinkState::Closed(_) => false,
    }
}

fn close(rows: &mut Vec<(SiteId, LinkState)>, site: SiteId, fault: LinkFault)
    ensures here { state_at rows.new.items site ≡ closed_by fault (state_at rows.old.items site) }
    ensures others { (s : ℕ) → s ≢ site → state_at rows.new.items s ≡ state_at rows.old.items s }
{
    let Some(i) = place_of(rows, site) else {
        return;
    };
    match rows[i].1 {
        LinkState::Closed(_) => {}
        LinkState::Fresh => rows[i] = (site, LinkState::Closed(fault)),
        LinkState::Running => rows[i] = (site, LinkState::Closed(fault)),
    }
}

fn state_of(rows: &[(SiteId, LinkState)], site: SiteId) -> Option<LinkState>
    ensures { result ≡ state_at rows.now site }
{
    let Some(i) = place_of(rows, site) else {
        return None;
    };
    Some(rows[i].1)
}

fn fresh_rows(
    alloc: Global,
    topology: &Topology,
    site: SiteId,
) -> Result<Vec<(SiteId, LinkState)>, AllocError>
    ensures { IfOk result (λ rows. AllFresh (sites_of topology.now) site rows.items) }
{
    let mut rows = Vec::new(alloc);
    for other in topology.sites() {
        push_fresh(&mut rows, *other, site)?;
    }
    Ok(rows)
}

/// A new link with a site, unless it is the own one.
fn push_fresh(
    rows: &mut Vec<(SiteId, LinkState)>,
    other: SiteId,
    own: SiteId,
) -> Result<(), AllocError>
    ensures { OnOk result (rows.new.items ≡ if other == own then rows.old.items else rows.old.items ++
        (other, LinkState.Fresh) ∷ []) }
{
    if other == own {
        return Ok(());
    }
    rows.push((other, LinkState::Fresh))?;
    Ok(())
}

impl LinkTable {
    /// All links are new.
    pub fn new(alloc: Global, topology: &Topology, site: SiteId) -> Result<LinkTable, AllocError>
        ensures into { IfOk result (λ table. AllFresh (sites_of topology.now) site table.into) }
        ensures out { IfOk result (λ table. AllFresh (sites_of topology.now) site table.out) }
    {
        Ok(LinkTable {
            into: fresh_rows(alloc, topology, site)?,
            out: fresh_rows(alloc, topology, site)?,
        })
    }

    /// Opens the link from a site, if it is new.
    pub fn claim(&mut self, site: SiteId) -> bool
        ensures opened { IsTrue result ↔ (state_at self.old.into site ≡ Some LinkState.Fresh) }
        ensures here { state_at self.new.into site ≡ claimed (state_at self.old.into site) }
        ensures others { (s : ℕ) → s ≢ site → state_at self.new.into s ≡ state_at self.old.into s }
        ensures out { self.new.out ≡ self.old.out }
    {
        open(&mut self.into, site)
    }

    /// Opens the link to a site, if it is new.
    pub fn open_out(&mut self, site: SiteId) -> bool
        ensures opened { IsTrue result ↔ (state_at self.old.out site ≡ Some LinkState.Fresh) }
        ensures here { state_at self.new.out site ≡ claimed (state_at self.old.out site) }
        ensures others { (s : ℕ) → s ≢ site → state_at self.new.out s ≡ state_at self.old.out s }
        ensures into { self.new.into ≡ self.old.into }
    {
        open(&mut self.out, site)
    }

    /// Closes the link from a site, if it is not closed.
    pub fn close_in(&mut self, site: SiteId, fault: LinkFault)
        ensures here { state_at self.new.into site ≡ closed_by fault (state_at self.old.into site) }
        ensures others { (s : ℕ) → s ≢ site → state_at self.new.into s ≡ state_at self.old.into s }
        ensures out { self.new.out ≡ self.old.out }
    {
        close(&mut self.into, site, fault);
    }

    /// Closes the link to a site, if it is not closed.
    pub fn close_out(&mut self, site: SiteId, fault: LinkFault)
        ensures here { state_at self.new.out site ≡ closed_by fault (state_at self.old.out site) }
        ensures others { (s : ℕ) → s ≢ site → state_at self.new.out s ≡ state_at self.old.out s }
        ensures into { self.new.into ≡ self.old.into }
    {
        close(&mut self.out, site, fault);
    }

    /// The state of the link from a site; `None` for an unknown site and for its own.
    pub fn state_in(&self, site: SiteId) -> Option<LinkState>
        ensures { result ≡ state_at self.now.into site }
    {
        state_of(&self.into, site)
    }

    /// The state of the link to a site; `None` for an unknown site and for its own.
    pub fn state_out(&self, site: SiteId) -> Option<LinkState>
        ensures { result ≡ state_at self.now.out site }
    {
        state_of(&self.out, site)
    }
}

impl LinkFault {
    /// The number of the fault, 1 to 7.
    pub const fn number(self) -> u8
        ensures { result ≡ spec.number_of self }
    {
        match self {
            LinkFault::Connect => 1,
            LinkFault::Read => 2,
            LinkFault::Write => 3,
            LinkFault::Bad => 4,
            LinkFault::Ended => 5,
            LinkFault::Memory => 6,
            LinkFault::Station => 7,
        }
    }
}

/// The links of a site, which its threads share.
#[derive(Drop)]
pub struct SharedLinks(Mutex<LinkTable>);

impl SharedLinks {
    pub fn new(table: LinkTable) -> SharedLinks {
        SharedLinks(Mutex::new(table))
    }

    /// Waits until no other thread has the table, and lends it.
    pub fn lock<R: Wait>(&self, rt: &R) -> MutexGuard<'_, LinkTable> {
        self.0.lock(rt)
    }
}
