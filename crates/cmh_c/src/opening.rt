//! What a site is opened with.

ghost use Rattle.std.specs.Prelude.{◌≡◌, ◌⊎◌, IfErr, IfOk};
ghost use Rattle.cmh_console.specs.TopologyFile.{Says};
ghost use Rattle.cmh_c.specs.Codes.{NoEditionOr};
ghost use Rattle.cmh_c.specs.Inner.Faults.{code_of_call};
ghost use Rattle.cmh_c.specs.Opening.{IsNoSite, IsNotOpened, IsSiteOf, OfRows, SaysWords};

use crate::codes::CallFault;
use crate::rows::rows_of;
use cmh_console::{TopologyFileFault, read_topology_file};
use cmh_controller::Refusal;
use cmh_frames::{Edition, SiteId, SiteRow, Topology, TopologyFault};
use cmh_seat::Seat;
use std::alloc::Global;

/// The site of the world with these rows, given as words.
pub fn seat_of_words(
    alloc: Global,
    edition: u8,
    words: &[u16],
    number: u16,
) -> Result<Box<Seat, Global>, CallFault>
    ensures made { IfOk result (λ seat. OfRows (SaysWords edition words.now) (IsSiteOf number seat.value)) }
    ensures fault { IfErr result (λ fault. NoEditionOr (code_of_call fault) edition
        (λ _. IsNotOpened (code_of_call fault) number (SaysWords edition words.now))) }
{
    let Some(edition) = Edition::of_number(edition) else {
        return Err(CallFault::Edition);
    };
    match rows_of(alloc, words) {
        Ok(Some(rows)) => seat_of(alloc, edition, &rows, number),
        Ok(None) => Err(CallFault::Rows),
        Err(_) => Err(CallFault::Memory),
    }
}

/// The site of the world that the text of a topology file gives.
pub fn seat_of_json(alloc: Global, json: &[u8], number: u16) -> Result<Box<Seat, Global>, CallFault>
    ensures made { IfOk result (λ seat. OfRows (Says json.now) (IsSiteOf number seat.value)) }
    ensures fault { IfErr result (λ fault. IsNotOpened (code_of_call fault) number (Says json.now)) }
{
    match read_topology_file(alloc, json) {
        Ok(file) => seat_of(alloc, file.edition, &file.rows, number),
        Err(TopologyFileFault::Json) => Err(CallFault::Rows),
        Err(TopologyFileFault::Memory) => Err(CallFault::Memory),
    }
}

fn seat_of(
    alloc: Global,
    edition: Edition,
    rows: &[SiteRow],
    number: u16,
) -> Result<Box<Seat, Global>, CallFault>
    ensures made { IfOk result (λ seat. IsSiteOf number seat.value edition rows.now) }
    ensures fault { IfErr result (λ fault.
        (code_of_call fault ≡ 11) ⊎ IsNoSite (code_of_call fault) number edition rows.now) }
{
    let world = match Topology::new(alloc, edition, rows) {
        Ok(world) => world,
        Err(TopologyFault::Memory) => return Err(CallFault::Memory),
        Err(fault) => return Err(CallFault::Topology(fault)),
    };
    let _sites = world.sites();
    let Some(site) = SiteId::new(number) else {
        return Err(CallFault::Site);
    };
    let seat = match Seat::new(alloc, &world, site) {
        Ok(seat) => seat,
        Err(Refusal::NotHere) => return Err(CallFault::Site),
        Err(_) => return Err(CallFault::Memory),
    };
    match Box::new(alloc, seat) {
        Ok(seat) => Ok(seat),
        Err(_) => Err(CallFault::Memory),
    }
}
