//! Sites.

ghost use Rattle.std.specs.Prelude.{◌≡◌, ◌<◌, ◌++◌, ◌⊎◌, true, false, None, Some, IsSome, MatchOption, length, drop};
ghost use Rattle.std.specs.FinSet as set;
ghost use Rattle.cmh_frames.specs.Relation.{has};
ghost use Rattle.cmh_frames.specs.Entries.{Entry};
ghost use Rattle.cmh_journal.specs.File.{header};
ghost use Rattle.cmh_seat.specs.Seat.{IsNotToldOf, Keeps, NotTook, Wrote};
ghost use Rattle.cmh_console.specs.TopologyFile.{Says};
ghost use Rattle.cmh_c.specs.Codes as codes;
ghost use Rattle.cmh_c.specs.Codes.{Answers, NoEditionOr, Shows};
ghost use Rattle.cmh_c.specs.Opening.{IsNotOpened, IsSiteOf, OfRows, SaysWords};

use crate::codes::{CLOSED, DONE, NOT_PREPARED, OPEN, SHORT, code_of};
use crate::numbers::put_processes;
use crate::opening::{seat_of_json, seat_of_words};
use cmh_seat::{Held, Seat};
use std::alloc::Global;
use std::mem::replace;

/// The number of the interface: a byte each for what is incompatible, what is new and what is mended.
const VERSION: u32 = 0x0001_0000;

/// A site, in memory of the caller. Zeros are one that is closed.
#[repr(C)]
pub struct CmhSite {
    is_open: bool,
    held: Held,
    ghost linked: { is_open ≡ held.is_open },
}

impl CmhSite {
    fn put(seat: Box<Seat, Global>) -> CmhSite
        ensures open { result.is_open ≡ true }
        ensures seat { result.held.seat ≡ seat.value }
    {
        CmhSite {
            is_open: true,
            held: Held::of(seat),
        }
    }

    fn closed(alloc: Global) -> CmhSite
        ensures open { result.is_open ≡ false }
    {
        CmhSite {
            is_open: false,
            held: Held::nothing(alloc),
        }
    }

    /// What an open handle holds, until it is given back. The handle is closed then.
    fn take(&mut self, alloc: Global) -> Option<Box<Seat, Global>>
        ensures taken { MatchOption result (self.old.is_open ≡ false)
            (λ seat. (self.old.is_open ≡ true) × (seat.value ≡ self.old.held.seat)) }
        ensures closed { self.new.is_open ≡ false }
    {
        let CmhSite { is_open, held } = replace(&mut *self, CmhSite::closed(alloc));
        if is_open {
            Some(held.into_box())
        } else {
            drop(held);
            None
        }
    }

    fn give(&mut self, seat: Box<Seat, Global>)
        requires { self.old.is_open ≡ false }
        ensures open { self.new.is_open ≡ true }
        ensures seat { self.new.held.seat ≡ seat.value }
    {
        let CmhSite { is_open: _, held } = replace(&mut *self, CmhSite::put(seat));
        drop(held);
    }
}

/// The version of the library.
#[unsafe(no_mangle)]
pub extern "C" fn cmh_version() -> u32
    ensures { result ≡ 65536 }
{
    VERSION
}

/// Opens a site of the world with these rows. Each row is the words: the site, how many processes it has, and these.
#[unsafe(no_mangle)]
pub extern "C" fn cmh_site_new(
    alloc: Global,
    site: &mut CmhSite,
    edition: u8,
    rows: &[u16],
    number: u16,
) -> u32
    ensures made { result ≡ 0 → (site.new.is_open ≡ true)
        × OfRows (SaysWords edition rows.now) (IsSiteOf number site.new.held.seat) }
    ensures stays { 0 < result → site.new.is_open ≡ site.old.is_open }
    ensures same { 0 < result → site.old.is_open ≡ true → site.new.held.seat ≡ site.old.held.seat }
    ensures open { site.old.is_open ≡ true → result ≡ 23 }
    ensures code { 0 < result → site.old.is_open ≡ false
        → NoEditionOr result edition (λ _. IsNotOpened result number (SaysWords edition rows.now)) }
{
    if site.is_open {
        return OPEN;
    }
    match seat_of_words(alloc, edition, rows, number) {
        Ok(seat) => {
            site.give(seat);
            DONE
        }
        Err(fault) => fault.code(),
    }
}

/// Opens a site of the world that the text of a topology file gives.
#[unsafe(no_mangle)]
pub extern "C" fn cmh_site_new_json(
    alloc: Global,
    site: &mut CmhSite,
    json: &[u8],
    number: u16,
) -> u32
    ensures made { result ≡ 0 → (site.new.is_open ≡ true) × OfRows (Says json.now) (IsSiteOf number site.new.held.seat) }
    ensures stays { 0 < result → site.new.is_open ≡ site.old.is_open }
    ensures same { 0 < result → site.old.is_open ≡ true → site.new.held.seat ≡ site.old.held.seat }
    ensures open { site.old.is_open ≡ true → result ≡ 23 }
    ensures code { 0 < result → site.old.is_open ≡ false → IsNotOpened result number (Says json.now) }
{
    if site.is_open {
        return OPEN;
    }
    match seat_of_json(alloc, json, number) {
        Ok(seat) => {
            site.give(seat);
            DONE
        }
        Err(fault) => fault.code(),
    }
}

/// Writes the seven bytes that the site's journal begins with.
#[unsafe(no_mangle)]
pub extern "C" fn cmh_site_header(alloc: Global, site: &mut CmhSite, out: &mut [u8]) -> u32
    ensures stays { site.new.is_open ≡ site.old.is_open }
    ensures same { site.old.is_open ≡ true → site.new.held.seat ≡ site.old.held.seat }
    ensures header { result ≡ 0 → (site.old.is_open ≡ true) × (out.new ≡
        header site.old.held.seat.topology.edition site.old.held.seat.site ++ drop 7 out.old) }
    ensures out { 0 < result → out.new ≡ out.old }
    ensures closed { site.old.is_open ≡ false → result ≡ 22 }
    ensures short { 0 < result → site.old.is_open ≡ true → (result ≡ 21) × (length out.old < 7) }
{
    let Some(seat) = site.take(alloc) else {
        return CLOSED;
    };
    let bytes = seat.header();
    site.give(seat);
    put_header(&bytes, out)
}

fn put_header(bytes: &[u8; 7], out: &mut [u8]) -> u32
    ensures header { result ≡ 0 → out.new ≡ bytes.now ++ drop 7 out.old }
    ensures out { 0 < result → out.new ≡ out.old }
    ensures short { 0 < result → (result ≡ 21) × (length out.old < 7) }
{
    if out.len() < bytes.len() {
        return SHORT;
    }
    out[..7].copy_from_slice(bytes);
    DONE
}

/// Takes the event with these bytes, if the rules accept it, and writes its entry's bytes to `out`.
#[unsafe(no_mangle)]
pub extern "C" fn cmh_site_step(
    alloc: Global,
    site: &mut CmhSite,
    event: &[u8],
    out: &mut [u8],
    count: &mut usize,
) -> u32
    ensures stays { site.new.is_open ≡ site.old.is_open }
    ensures took { result ≡ 0 → (site.old.is_open ≡ true)
        × Wrote site.old.held.seat event.now out.old out.new count.new (Keeps site.old.held.seat site.new.held.seat) }
    ensures same { 0 < result → site.old.is_open ≡ true → site.new.held.seat ≡ site.old.held.seat }
    ensures out { 0 < result → out.new ≡ out.old }
    ensures count { 0 < result → count.new ≡ count.old }
    ensures closed { site.old.is_open ≡ false → result ≡ 22 }
    ensures code { 0 < result → site.old.is_open ≡ true
        → Answers (NotTook site.old.held.seat event.now (length out.old)) codes.code_of result }
{
    let Some(mut seat) = site.take(alloc) else {
        return CLOSED;
    };
    let code = match seat.step(event, out) {
        Ok(taken) => {
            *count = taken;
            DONE
        }
        Err(fault) => code_of(fault),
    };
    site.give(seat);
    code
}

/// The first half of a step: the entry is written, and waits to be kept or dropped.
#[unsafe(no_mangle)]
pub extern "C" fn cmh_site_prepare(
    alloc: Global,
    site: &mut CmhSite,
    event: &[u8],
    out: &mut [u8],
    count: &mut usize,
) -> u32
    ensures stays { site.new.is_open ≡ site.old.is_open }
    ensures readied { result ≡ 0 → (site.old.is_open ≡ true)
        × Wrote site.old.held.seat event.now out.old out.new count.new
        (λ entry. site.new.held.seat ≡ record site.old.held.seat { pending = Some entry }) }
    ensures same { 0 < result → site.old.is_open ≡ true → site.new.held.seat ≡ site.old.held.seat }
    ensures out { 0 < result → out.new ≡ out.old }
    ensures count { 0 < result → count.new ≡ count.old }
    ensures closed { site.old.is_open ≡ false → result ≡ 22 }
    ensures code { 0 < result → site.old.is_open ≡ true
        → Answers (NotTook site.old.held.seat event.now (length out.old)) codes.code_of result }
{
    let Some(mut seat) = site.take(alloc) else {
        return CLOSED;
    };
    let code = match seat.prepare(event, out) {
        Ok(written) => {
            *count = written;
            DONE
        }
        Err(fault) => code_of(fault),
    };
    site.give(seat);
    code
}

/// The second half of a step: the entry that was prepared is kept.
#[unsafe(no_mangle)]
pub extern "C" fn cmh_site_keep(alloc: Global, site: &mut CmhSite) -> u32
    ensures stays { site.new.is_open ≡ site.old.is_open }
    ensures kept { result ≡ 0 → (site.old.is_open ≡ true) × ((entry : Entry) × (site.old.held.seat.pending ≡ Some entry)
        × Keeps site.old.held.seat site.new.held.seat entry) }
    ensures same { 0 < result → site.old.is_open ≡ true → site.new.held.seat ≡ site.old.held.seat }
    ensures closed { site.old.is_open ≡ false → result ≡ 22 }
    ensures code { 0 < result → site.old.is_open ≡ true → (result ≡ 27) × (site.old.held.seat.pending ≡ None) }
{
    let Some(mut seat) = site.take(alloc) else {
        return CLOSED;
    };
    let code = match seat.keep() {
        Ok(()) => DONE,
        Err(_) => NOT_PREPARED,
    };
    site.give(seat);
    code
}

/// Instead of the second half: the site is as it was before the entry was prepared.
#[unsafe(no_mangle)]
pub extern "C" fn cmh_site_drop(alloc: Global, site: &mut CmhSite) -> u32
    ensures stays { site.new.is_open ≡ site.old.is_open }
    ensures dropped { result ≡ 0 → (site.old.is_open ≡ true) × IsSome site.old.held.seat.pending
        × (site.new.held.seat ≡ record site.old.held.seat { pending = None }) }
    ensures same { 0 < result → site.old.is_open ≡ true → site.new.held.seat ≡ site.old.held.seat }
    ensures closed { site.old.is_open ≡ false → result ≡ 22 }
    ensures code { 0 < result → site.old.is_open ≡ true → (result ≡ 27) × (site.old.held.seat.pending ≡ None) }
{
    let Some(mut seat) = site.take(alloc) else {
        return CLOSED;
    };
    let code = match seat.drop_prepared() {
        Ok(()) => DONE,
        Err(_) => NOT_PREPARED,
    };
    site.give(seat);
    code
}

/// Writes the processes that were declared deadlocked at the site, ascending, and how many they are. Where there is room
/// for fewer, the others are left out.
#[unsafe(no_mangle)]
pub extern "C" fn cmh_site_declared(
    alloc: Global,
    site: &mut CmhSite,
    out: &mut [u16],
    count: &mut usize,
) -> u32
    ensures stays { site.new.is_open ≡ site.old.is_open }
    ensures same { site.old.is_open ≡ true → site.new.held.seat ≡ site.old.held.seat }
    ensures told { result ≡ 0 → (site.old.is_open ≡ true)
        × Shows (λ p. set.contains site.old.held.seat.state.declared p) out.old out.new count.new }
    ensures out { 0 < result → out.new ≡ out.old }
    ensures count { 0 < result → count.new ≡ count.old }
    ensures closed { site.old.is_open ≡ false → result ≡ 22 }
    ensures code { 0 < result → site.old.is_open ≡ true → ((result ≡ 26) × IsSome site.old.held.seat.pending)
        ⊎ ((result ≡ 11) × (site.old.held.seat.pending ≡ None)) }
{
    let Some(seat) = site.take(alloc) else {
        return CLOSED;
    };
    let told = seat.declared();
    site.give(seat);
    match told {
        Ok(processes) => {
            put_processes(&processes, out);
            *count = processes.len();
            DONE
        }
        Err(fault) => code_of(fault),
    }
}

/// Writes the processes that a process of the site waits for, as `cmh_site_declared` does.
#[unsafe(no_mangle)]
pub extern "C" fn cmh_site_waits(
    alloc: Global,
    site: &mut CmhSite,
    process: u16,
    out: &mut [u16],
    count: &mut usize,
) -> u32
    ensures stays { site.new.is_open ≡ site.old.is_open }
    ensures same { site.old.is_open ≡ true → site.new.held.seat ≡ site.old.held.seat }
    ensures told { result ≡ 0 → (site.old.is_open ≡ true)
        × Shows (λ k. has site.old.held.seat.state.waits process k) out.old out.new count.new }
    ensures out { 0 < result → out.new ≡ out.old }
    ensures count { 0 < result → count.new ≡ count.old }
    ensures closed { site.old.is_open ≡ false → result ≡ 22 }
    ensures code { 0 < result → site.old.is_open ≡ true → Answers (IsNotToldOf site.old.held.seat process) codes.code_of result }
{
    let Some(seat) = site.take(alloc) else {
        return CLOSED;
    };
    let told = seat.waits(process);
    site.give(seat);
    match told {
        Ok(processes) => {
            put_processes(&processes, out);
            *count = processes.len();
            DONE
        }
        Err(fault) => code_of(fault),
    }
}

/// Writes the processes whose requests a process of the site has not answered, as `cmh_site_declared` does.
#[unsafe(no_mangle)]
pub extern "C" fn cmh_site_owed(
    alloc: Global,
    site: &mut CmhSite,
    process: u16,
    out: &mut [u16],
    count: &mut usize,
) -> u32
    ensures stays { site.new.is_open ≡ site.old.is_open }
    ensures same { site.old.is_open ≡ true → site.new.held.seat ≡ site.old.held.seat }
    ensures told { result ≡ 0 → (site.old.is_open ≡ true)
        × Shows (λ j. has site.old.held.seat.state.owed process j) out.old out.new count.new }
    ensures out { 0 < result → out.new ≡ out.old }
    ensures count { 0 < result → count.new ≡ count.old }
    ensures closed { site.old.is_open ≡ false → result ≡ 22 }
    ensures code { 0 < result → site.old.is_open ≡ true → Answers (IsNotToldOf site.old.held.seat process) codes.code_of result }
{
    let Some(seat) = site.take(alloc) else {
        return CLOSED;
    };
    let told = seat.owed(process);
    site.give(seat);
    match told {
        Ok(processes) => {
            put_processes(&processes, out);
            *count = processes.len();
            DONE
        }
        Err(fault) => code_of(fault),
    }
}

/// Closes the site, and gives its memory back. A prepared entry is dropped with it.
#[unsafe(no_mangle)]
pub extern "C" fn cmh_site_free(alloc: Global, site: &mut CmhSite)
    ensures { site.new.is_open ≡ false }
{
    drop(site.take(alloc));
}
