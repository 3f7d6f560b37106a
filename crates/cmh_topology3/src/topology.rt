//! Which process is at which site.

ghost use Rattle.std.specs.Prelude.{◌≡◌, ◌≢◌, ◌≤◌, ◌↔◌, ◌==◌, ℕ, true, false, None, Some, if◌then◌else◌};
ghost use Rattle.std.specs.Prelude.{[], IfErr, IfOk, IsTrue, OnOk, length, map, slice_index_or};
ghost use Rattle.std.specs.List.{AllByRecursion, list_any};
ghost use Rattle.std.specs.List.Sorted.{IsStrictlyIncreasing};
ghost use Rattle.cmh_frames.specs.Inner.Kept.{AreHomes, AreInOrder, HasMembersOf, is_bad};
ghost use Rattle.cmh_frames.specs.Rows.{has_bad_number};
ghost use Rattle.cmh_frames.specs.Topology.{lookup};
ghost use Rattle.cmh_topology3.specs.Rows.{fault_of, IsFaultOf};
ghost use Rattle.cmh_topology3.specs.Topology.{IsTopologyOf, IsWellFormed, home, is_site, members_of, site_of, sites_of};

use crate::rows::{check_rows, processes_of};
use crate::world::World;
use cmh_frames::{SiteRow, TopologyFault};
use cmh_runs::{ProcId, SiteId};
use std::alloc::{AllocError, Global};
use std::marker::Model;

/// A site with its processes, ascending.
#[derive(Drop)]
struct Row {
    site: SiteId,
    members: Vec<ProcId>,
}

impl Model for Row {
    ghost use Rattle.std.specs.Prelude.{ℕ, List};

    ghost Value = { ℕ × List ℕ };

    ghost view = { λ r. (r.site, r.members.items) };
}

/// The number of a world, and its sites with their processes: at most 64 sites, 256 processes at each, and 4,096 in all.
#[derive(Drop)]
pub struct Topology {
    world: World,

    /// Ascending by site.
    rows: Vec<Row>,

    /// The rows' sites.
    sites: Vec<SiteId>,

    /// The site of each process, at the process's number.
    homes: Vec<Option<SiteId>>,
}

impl Model for Topology {
    ghost use Rattle.std.specs.Prelude.{◌≡◌, map};
    ghost use Rattle.cmh_frames.specs.Inner.Kept.{AreHomes};
    ghost use Rattle.cmh_topology3.specs.Topology as spec;
    ghost use Rattle.cmh_topology3.specs.Inner.Kept.{AreTidy};

    ghost Value = { spec.Topology };

    ghost view = { λ t. record { world = t.world; rows = t.rows.items } };

    ghost invariant = { λ t. AreTidy t.rows.items
        × (t.sites.items ≡ map (λ row. row.0) t.rows.items)
        × AreHomes t.rows.items t.homes.items };
}

impl Topology {
    /// The topology of the rows, which may come in any order. A fault is the first that holds over all rows, in the
    /// order of `TopologyFault`; `Memory` comes only where none does.
    pub fn new(alloc: Global, world: World, rows: &[SiteRow]) -> Result<Topology, TopologyFault>
        ensures ok { IfOk result (IsTopologyOf world rows.now) }
        ensures fault { IfErr result (IsFaultOf rows.now) }
    {
        check_rows(rows)?;
        match Topology::build(alloc, world, rows) {
            Ok(topology) => Ok(topology),
            Err(_) => Err(TopologyFault::Memory),
        }
    }

    fn build(alloc: Global, world: World, given: &[SiteRow]) -> Result<Topology, AllocError>
        requires { fault_of given.now ≡ None }
        ensures { IfOk result (IsTopologyOf world given.now) }
    {
        let sites = sites_in_order(alloc, given)?;
        let rows = rows_of(alloc, &sites, given)?;
        let homes = homes_of(alloc, &rows)?;
        Ok(Topology {
            world,
            rows,
            sites,
            homes,
        })
    }

    pub fn world(&self) -> World
        ensures { result ≡ self.now.world }
    {
        self.world
    }

    /// The site of a process.
    pub fn home(&self, process: ProcId) -> Option<SiteId>
        ensures { result ≡ home self.now process }
    {
        match self.homes.get(process.get() as usize) {
            Some(home) => *home,
            None => None,
        }
    }

    /// The site of a process that is known to be one of the world.
    pub fn home_of_known(&self, process: ProcId) -> SiteId
        requires { site_of self.now process ≢ 0 }
        ensures { result ≡ site_of self.now process }
    {
        self.home(process).unwrap()
    }

    /// Whether the process is one of the world.
    pub fn is_known(&self, process: ProcId) -> bool
        ensures { IsTrue result ↔ (site_of self.now process ≢ 0) }
    {
        self.home(process).is_some()
    }

    /// Whether the process is at the site.
    pub fn is_at(&self, process: ProcId, site: SiteId) -> bool
        ensures { result ≡ (site_of self.now process == site) }
    {
        let number = site.get();
        match self.home(process) {
            Some(home) => home.get() == number,
            None => false,
        }
    }

    pub fn has_site(&self, site: SiteId) -> bool
        ensures { result ≡ is_site self.now site }
    {
        self.sites.contains(&site)
    }

    /// The sites, ascending.
    pub fn sites(&self) -> &[SiteId]
        ensures value { result.now ≡ sites_of self.now }
        ensures ascending { IsStrictlyIncreasing result.now }
        ensures few { length result.now ≤ 64 }
        ensures well_formed { IsWellFormed self.now }
    {
        &self.sites
    }

    /// The processes of a site, ascending. Empty for an unknown site.
    pub fn members(&self, site: SiteId) -> &[ProcId]
        ensures value { result.now ≡ members_of self.now site }
        ensures at_home { (p : ℕ) → list_any (λ q. q == p) result.now ≡ (site_of self.now p == site) }
        ensures ascending { IsStrictlyIncreasing result.now }
        ensures few { length result.now ≤ 256 }
    {
        let _number = site.get();
        members_in(&self.rows, site)
    }

    /// Another topology of the same world and rows.
    pub fn copy(&self, alloc: Global) -> Result<Topology, AllocError>
        ensures { IfOk result (λ other. other ≡ self.now) }
    {
        Ok(Topology {
            world: self.world,
            rows: copy_of(alloc, &self.rows)?,
            sites: self.sites.to_vec(alloc)?,
            homes: self.homes.to_vec(alloc)?,
        })
    }
}

fn members_in(rows: &[Row], site: SiteId) -> &[ProcId]
    ensures { result.now ≡ lookup [] rows.now site }
{
    for row in rows {
        if row.site == site {
            return &row.members;
        }
    }
    &[]
}

fn sites_in_order(alloc: Global, given: &[SiteRow]) -> Result<Vec<SiteId>, AllocError>
    requires { has_bad_number given.now ≡ false }
    ensures { IfOk result (λ sites. AreInOrder (map (λ row. row.0) given.now) sites.items) }
{
    let mut sites = Vec::new(alloc);
    for row in given {
        sites.push(SiteId::of(row.site))?;
    }
    sites.sort_unstable();
    Ok(sites)
}

fn processes_in_order(alloc: Global, numbers: &[u16]) -> Result<Vec<ProcId>, AllocError>
    requires { list_any is_bad numbers.now ≡ false }
    ensures { IfOk result (λ processes. AreInOrder numbers.now processes.items) }
{
    let mut processes = Vec::new(alloc);
    for number in numbers {
        processes.push(ProcId::of(*number))?;
    }
    processes.sort_unstable();
    Ok(processes)
}

/// The row of each of the sites, with the processes that the given rows name.
fn rows_of(alloc: Global, sites: &[SiteId], given: &[SiteRow]) -> Result<Vec<Row>, AllocError>
    requires { has_bad_number given.now ≡ false }
    ensures sites { IfOk result (λ rows. map (λ row. row.0) rows.items ≡ sites.now) }
    ensures members { IfOk result (λ rows. AllByRecursion (HasMembersOf given.now) rows.items) }
{
    let mut rows = Vec::new(alloc);
    for site in sites {
        let members = processes_in_order(alloc, processes_of(given, site.get()))?;
        rows.push(Row {
            site: *site,
            members,
        })?;
    }
    Ok(rows)
}

/// The site of each process, at the process's number.
fn homes_of(alloc: Global, rows: &[Row]) -> Result<Vec<Option<SiteId>>, AllocError>
    ensures { IfOk result (λ homes. AreHomes rows.now homes.items) }
{
    let mut homes = Vec::new(alloc);
    for later in 0..rows.len() {
        let row = &rows[rows.len() - 1 - later];
        put_homes(&mut homes, &row.members, row.site)?;
    }
    Ok(homes)
}

/// Writes the site of each of the processes.
fn put_homes(
    homes: &mut Vec<Option<SiteId>>,
    processes: &[ProcId],
    site: SiteId,
) -> Result<(), AllocError>
    ensures { OnOk result ((p : ℕ) → slice_index_or homes.new.items p None
        ≡ if list_any (λ q. q == p) processes.now then Some site else slice_index_or homes.old.items p None) }
{
    for process in processes {
        put_home(homes, *process, site)?;
    }
    Ok(())
}

/// Writes the site of a process.
fn put_home(
    homes: &mut Vec<Option<SiteId>>,
    process: ProcId,
    site: SiteId,
) -> Result<(), AllocError>
    ensures { OnOk result ((p : ℕ) → slice_index_or homes.new.items p None
        ≡ if process == p then Some site else slice_index_or homes.old.items p None) }
{
    let place = process.get() as usize;
    if homes.len() <= place {
        homes.resize(place + 1, None)?;
    }
    homes[place] = Some(site);
    Ok(())
}

fn copy_of(alloc: Global, rows: &[Row]) -> Result<Vec<Row>, AllocError>
    ensures { IfOk result (λ copies. copies.items ≡ rows.now) }
{
    let mut copies = Vec::new(alloc);
    for row in rows {
        copies.push(Row {
            site: row.site,
            members: row.members.to_vec(alloc)?,
        })?;
    }
    Ok(copies)
}
