//! What a site of edition 3 is opened with.

ghost use Rattle.std.specs.Prelude.{◌≡◌, ◌≢◌, ◌⊎◌, length, IfErr, IfNone, IfOk, IfSome, None};
ghost use Rattle.cmh_c.specs.Inner.Faults.{code_of_call, place_told};
ghost use Rattle.cmh_c.specs.Inner.Places.{IsPlace};
ghost use Rattle.cmh_c.specs.Opening3.{IsNoSite, IsNotOpened, IsNotReopened, IsSiteOf, OfRows, Reopens};

use crate::codes::CallFault;
use crate::rows::rows_of;
use cmh_frames::{SiteRow, TopologyFault};
use cmh_runs::SiteId;
use cmh_seat3::{Opened, Seat, open};
use cmh_topology3::{Topology, World};
use std::alloc::Global;

/// The site of the world with this number and these rows, both given as they come from C.
pub fn seat_of_words(
    alloc: Global,
    world: &[u8],
    words: &[u16],
    number: u16,
) -> Result<Box<Seat, Global>, CallFault>
    ensures made { IfOk result (λ seat. OfRows world.now words.now (IsSiteOf world.now number seat.value)) }
    ensures fault { IfErr result (λ fault. IsNotOpened (code_of_call fault) world.now words.now number) }
{
    let Place { topology, site } = place_of_words(alloc, world, words, number)?;
    let seat = match Seat::new(alloc, &topology, site) {
        Ok(seat) => seat,
        Err(_) => return Err(CallFault::Memory),
    };
    match Box::new(alloc, seat) {
        Ok(seat) => Ok(seat),
        Err(_) => Err(CallFault::Memory),
    }
}

/// A site that was opened on its journal, and how many bytes the journal has.
#[derive(Drop)]
pub struct Reopened {
    pub seat: Box<Seat, Global>,
    pub end: u64,
}

/// The same site, opened on its journal.
pub fn reopened_of_words(
    alloc: Global,
    world: &[u8],
    words: &[u16],
    number: u16,
    journal: &[u8],
) -> Result<Reopened, CallFault>
    ensures made { IfOk result (λ reopened.
        OfRows world.now words.now (Reopens world.now number journal.now reopened.seat.value reopened.end)) }
    ensures fault { IfErr result (λ fault.
        IsNotReopened (code_of_call fault) (place_told fault) world.now words.now number journal.now) }
{
    let Place { topology, site } = match place_of_words(alloc, world, words, number) {
        Ok(place) => place,
        Err(fault) => return Err(fault),
    };
    let Opened { seat, end } = match open(alloc, &topology, site, journal) {
        Ok(opened) => opened,
        Err(fault) => return Err(CallFault::Restart(fault)),
    };
    match Box::new(alloc, seat) {
        Ok(seat) => Ok(Reopened {
            seat,
            end: end as u64,
        }),
        Err(_) => Err(CallFault::Memory),
    }
}

/// A world, and a site in it.
#[derive(Drop)]
struct Place {
    topology: Topology,
    site: SiteId,
}

/// The world with this number and these rows, and the site with this number.
fn place_of_words(
    alloc: Global,
    world: &[u8],
    words: &[u16],
    number: u16,
) -> Result<Place, CallFault>
    ensures made { IfOk result (λ place. OfRows world.now words.now (IsPlace world.now number place.topology place.site)) }
    ensures fault { IfErr result (λ fault. IsNotOpened (code_of_call fault) world.now words.now number) }
    ensures told { IfErr result (λ fault. place_told fault ≡ None) }
{
    let Some(world) = world_of(world) else {
        return Err(CallFault::World);
    };
    match rows_of(alloc, words) {
        Ok(Some(rows)) => place_of(alloc, world, &rows, number),
        Ok(None) => Err(CallFault::Rows),
        Err(_) => Err(CallFault::Memory),
    }
}

/// The number of a world, which has 16 bytes.
fn world_of(bytes: &[u8]) -> Option<World>
    ensures world { IfSome result (λ world. (world ≡ bytes.now) × (length bytes.now ≡ 16)) }
    ensures none { IfNone result (length bytes.now ≢ 16) }
{
    if bytes.len() != World::LEN {
        return None;
    }
    let mut number = [0; World::LEN];
    number.copy_from_slice(bytes);
    Some(World::new(number))
}

fn place_of(alloc: Global, world: World, rows: &[SiteRow], number: u16) -> Result<Place, CallFault>
    ensures made { IfOk result (λ place. IsPlace world number place.topology place.site rows.now) }
    ensures fault { IfErr result (λ fault.
        (code_of_call fault ≡ 11) ⊎ IsNoSite (code_of_call fault) world number rows.now) }
    ensures told { IfErr result (λ fault. place_told fault ≡ None) }
{
    let topology = match Topology::new(alloc, world, rows) {
        Ok(topology) => topology,
        Err(TopologyFault::Memory) => return Err(CallFault::Memory),
        Err(fault) => return Err(CallFault::Topology(fault)),
    };
    let _sites = topology.sites();
    let Some(site) = SiteId::new(number) else {
        return Err(CallFault::Site);
    };
    if !topology.has_site(site) {
        return Err(CallFault::Site);
    }
    Ok(Place { topology, site })
}
