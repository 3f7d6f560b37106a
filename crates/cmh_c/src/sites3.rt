//! Sites of edition 3.

ghost use Rattle.std.specs.Prelude.{◌≡◌, ◌≢◌, ◌<◌, ◌++◌, ◌⊎◌, true, false, None, IsSome, MatchOption, length, drop, unwrap_or};
ghost use Rattle.cmh_model3.specs.State.{waits_for};
ghost use Rattle.cmh_controller3.specs.Controller.{state_of};
ghost use Rattle.cmh_segment3.specs.Segment.{longest_entry};
ghost use Rattle.cmh_segment3.specs.declared.entry.Entry.{Entry};
ghost use Rattle.cmh_seat3.specs.Seat as spec;
ghost use Rattle.cmh_seat3.specs.Seat.{IsNotToldOf, IsUnchanged, Keeps, NotTook, Readies, Wrote, head_of};
ghost use Rattle.cmh_c.specs.Codes.{Answers};
ghost use Rattle.cmh_c.specs.Codes3 as codes;
ghost use Rattle.cmh_c.specs.Codes3.{Shows, TellsWhy};
ghost use Rattle.cmh_c.specs.Inner.Faults.{code_of_call, place_told};
ghost use Rattle.cmh_c.specs.Opening3.{IsNotOpened, IsNotReopened, IsSiteOf, OfRows, Reopens};

use crate::codes::{CLOSED, CallFault, DONE, NOT_PREPARED, OPEN, SHORT, code_of3};
use crate::numbers::put_processes;
use crate::opening3::{reopened_of_words, seat_of_words};
use cmh_seat3::{ENTRY_MAX, Held, Seat, SeatFault};
use std::alloc::Global;
use std::mem::replace;

/// A site of edition 3, in memory of the caller. Zeros are one that is closed.
#[repr(C)]
pub struct CmhSite3 {
    is_open: bool,
    held: Held,
    ghost linked: { is_open ≡ held.is_open },
}

impl CmhSite3 {
    fn put(seat: Box<Seat, Global>) -> CmhSite3
        ensures open { result.is_open ≡ true }
        ensures seat { result.held.seat ≡ seat.value }
    {
        CmhSite3 {
            is_open: true,
            held: Held::of(seat),
        }
    }

    fn closed(alloc: Global) -> CmhSite3
        ensures open { result.is_open ≡ false }
    {
        CmhSite3 {
            is_open: false,
            held: Held::nothing(alloc),
        }
    }

    /// What an open handle holds, until it is given back. The handle is closed then.
    fn take(&mut self, alloc: Global) -> Option<Box<Seat, Global>>
        ensures taken { MatchOption result (self.old.is_open ≡ false)
            (λ seat. (self.old.is_open ≡ true) × (seat.value ≡ self.old.held.seat)) }
        ensures closed { self.new.is_open ≡ false }
    {
        let CmhSite3 { is_open, held } = replace(&mut *self, CmhSite3::closed(alloc));
        if is_open {
            Some(held.into_box())
        } else {
            drop(held);
            None
        }
    }

    fn give(&mut self, seat: Box<Seat, Global>)
        requires { self.old.is_open ≡ false }
        ensures open { self.new.is_open ≡ true }
        ensures seat { self.new.held.seat ≡ seat.value }
    {
        let CmhSite3 { is_open: _, held } = replace(&mut *self, CmhSite3::put(seat));
        drop(held);
    }
}

/// How many bytes the longest entry has.
#[unsafe(no_mangle)]
pub extern "C" fn cmh_site3_entry_max() -> usize
    ensures { result ≡ longest_entry }
{
    ENTRY_MAX
}

/// Opens a site of the world with this number and these rows, which are words as those of `cmh_site_new`.
#[unsafe(no_mangle)]
pub extern "C" fn cmh_site3_new(
    alloc: Global,
    site: &mut CmhSite3,
    world: &[u8],
    rows: &[u16],
    number: u16,
) -> u32
    ensures made { result ≡ 0 → (site.new.is_open ≡ true)
        × OfRows world.now rows.now (IsSiteOf world.now number site.new.held.seat) }
    ensures stays { 0 < result → site.new.is_open ≡ site.old.is_open }
    ensures same { 0 < result → site.old.is_open ≡ true → site.new.held.seat ≡ site.old.held.seat }
    ensures open { site.old.is_open ≡ true → result ≡ 23 }
    ensures code { 0 < result → site.old.is_open ≡ false → IsNotOpened result world.now rows.now number }
{
    if site.is_open {
        return OPEN;
    }
    match seat_of_words(alloc, world, rows, number) {
        Ok(seat) => {
            site.give(seat);
            DONE
        }
        Err(fault) => fault.code(),
    }
}

/// Opens a site of the world with this number and these rows on its journal, and tells how many bytes the journal has:
/// those behind them can be cut. Of a journal at fault it tells the offset of the damage, or the number of the entry.
#[unsafe(no_mangle)]
pub extern "C" fn cmh_site3_open(
    alloc: Global,
    site: &mut CmhSite3,
    world: &[u8],
    rows: &[u16],
    number: u16,
    journal: &[u8],
    place: &mut u64,
) -> u32
    ensures made { result ≡ 0 → (site.new.is_open ≡ true)
        × OfRows world.now rows.now (Reopens world.now number journal.now site.new.held.seat place.new) }
    ensures stays { 0 < result → site.new.is_open ≡ site.old.is_open }
    ensures same { 0 < result → site.old.is_open ≡ true → site.new.held.seat ≡ site.old.held.seat }
    ensures open { site.old.is_open ≡ true → (result ≡ 23) × (place.new ≡ place.old) }
    ensures code { 0 < result → site.old.is_open ≡ false
        → TellsWhy (λ told. IsNotReopened result told world.now rows.now number journal.now) place.old place.new }
{
    if site.is_open {
        return OPEN;
    }
    match reopened_of_words(alloc, world, rows, number, journal) {
        Ok(reopened) => {
            site.give(reopened.seat);
            *place = reopened.end;
            DONE
        }
        Err(fault) => code_and_place(fault, place),
    }
}

/// The number of a fault. Where a journal is at fault, it tells the place.
fn code_and_place(fault: CallFault, place: &mut u64) -> u32
    ensures value { result ≡ code_of_call fault }
    ensures positive { 0 < result }
    ensures place { place.new ≡ unwrap_or (place_told fault) place.old }
{
    if let Some(told) = fault.place() {
        *place = told;
    }
    fault.code()
}

/// Writes the 71 bytes that the site's journal begins with.
#[unsafe(no_mangle)]
pub extern "C" fn cmh_site3_head(alloc: Global, site: &mut CmhSite3, out: &mut [u8]) -> u32
    ensures stays { site.new.is_open ≡ site.old.is_open }
    ensures same { site.old.is_open ≡ true → site.new.held.seat ≡ site.old.held.seat }
    ensures head { result ≡ 0 → (site.old.is_open ≡ true) × (out.new ≡
        head_of site.old.held.seat.controller.topology site.old.held.seat.controller.site ++ drop 71 out.old) }
    ensures out { 0 < result → out.new ≡ out.old }
    ensures closed { site.old.is_open ≡ false → result ≡ 22 }
    ensures short { 0 < result → site.old.is_open ≡ true → (result ≡ 21) × (length out.old < 71) }
{
    let Some(seat) = site.take(alloc) else {
        return CLOSED;
    };
    let code = put_head(seat.head(), out);
    site.give(seat);
    code
}

fn put_head(bytes: &[u8], out: &mut [u8]) -> u32
    requires { length bytes.now ≡ 71 }
    ensures head { result ≡ 0 → out.new ≡ bytes.now ++ drop 71 out.old }
    ensures out { 0 < result → out.new ≡ out.old }
    ensures short { 0 < result → (result ≡ 21) × (length out.old < 71) }
{
    if out.len() < bytes.len() {
        return SHORT;
    }
    out[..71].copy_from_slice(bytes);
    DONE
}

/// The number of a fault. Where what was lent is too short, it tells how much is needed.
fn code_and_need(fault: SeatFault, count: &mut usize) -> u32
    ensures value { result ≡ codes.code_of fault }
    ensures positive { 0 < result }
    ensures need { result ≡ 21 → fault ≡ SeatFault.Short count.new }
    ensures same { result ≢ 21 → count.new ≡ count.old }
{
    if let SeatFault::Short(needed) = fault {
        *count = needed;
    }
    code_of3(fault)
}

/// Takes the event with these bytes, if the rules accept it, and writes its entry's bytes to `out`. Where it is too short
/// for them, it tells how many they are.
#[unsafe(no_mangle)]
pub extern "C" fn cmh_site3_step(
    alloc: Global,
    site: &mut CmhSite3,
    event: &[u8],
    out: &mut [u8],
    count: &mut usize,
) -> u32
    ensures stays { site.new.is_open ≡ site.old.is_open }
    ensures took { result ≡ 0 → (site.old.is_open ≡ true)
        × Wrote site.old.held.seat event.now out.old out.new count.new
        (λ entry. Keeps site.old.held.seat entry site.new.held.seat) }
    ensures same { 0 < result → site.old.is_open ≡ true → IsUnchanged site.old.held.seat site.new.held.seat }
    ensures out { 0 < result → out.new ≡ out.old }
    ensures need { result ≡ 21 → NotTook site.old.held.seat event.now (length out.old) (SeatFault.Short count.new) }
    ensures count { 0 < result → result ≢ 21 → count.new ≡ count.old }
    ensures closed { site.old.is_open ≡ false → result ≡ 22 }
    ensures code { 0 < result → site.old.is_open ≡ true
        → Answers (NotTook site.old.held.seat event.now (length out.old)) codes.code_of result }
{
    let Some(mut seat) = site.take(alloc) else {
        return CLOSED;
    };
    let code = match seat.step(event, out) {
        Ok(taken) => {
            *count = taken;
            DONE
        }
        Err(fault) => code_and_need(fault, count),
    };
    site.give(seat);
    code
}

/// The first half of a step: the entry is written, and waits to be kept or dropped.
#[unsafe(no_mangle)]
pub extern "C" fn cmh_site3_prepare(
    alloc: Global,
    site: &mut CmhSite3,
    event: &[u8],
    out: &mut [u8],
    count: &mut usize,
) -> u32
    ensures stays { site.new.is_open ≡ site.old.is_open }
    ensures readied { result ≡ 0 → (site.old.is_open ≡ true)
        × Wrote site.old.held.seat event.now out.old out.new count.new
        (λ entry. Readies site.old.held.seat entry site.new.held.seat) }
    ensures same { 0 < result → site.old.is_open ≡ true → IsUnchanged site.old.held.seat site.new.held.seat }
    ensures out { 0 < result → out.new ≡ out.old }
    ensures need { result ≡ 21 → NotTook site.old.held.seat event.now (length out.old) (SeatFault.Short count.new) }
    ensures count { 0 < result → result ≢ 21 → count.new ≡ count.old }
    ensures closed { site.old.is_open ≡ false → result ≡ 22 }
    ensures code { 0 < result → site.old.is_open ≡ true
        → Answers (NotTook site.old.held.seat event.now (length out.old)) codes.code_of result }
{
    let Some(mut seat) = site.take(alloc) else {
        return CLOSED;
    };
    let code = match seat.prepare(event, out) {
        Ok(written) => {
            *count = written;
            DONE
        }
        Err(fault) => code_and_need(fault, count),
    };
    site.give(seat);
    code
}

/// The second half of a step: the entry that was prepared is kept.
#[unsafe(no_mangle)]
pub extern "C" fn cmh_site3_keep(alloc: Global, site: &mut CmhSite3) -> u32
    ensures stays { site.new.is_open ≡ site.old.is_open }
    ensures kept { result ≡ 0 → (site.old.is_open ≡ true) × IsSome site.old.held.seat.pending
        × ((before : spec.Seat) (entry : Entry) → Readies before entry site.old.held.seat
        → Keeps before entry site.new.held.seat) }
    ensures same { 0 < result → site.old.is_open ≡ true → site.new.held.seat ≡ site.old.held.seat }
    ensures closed { site.old.is_open ≡ false → result ≡ 22 }
    ensures code { 0 < result → site.old.is_open ≡ true → (result ≡ 27) × (site.old.held.seat.pending ≡ None) }
{
    let Some(mut seat) = site.take(alloc) else {
        return CLOSED;
    };
    let code = match seat.keep() {
        Ok(()) => DONE,
        Err(_) => NOT_PREPARED,
    };
    site.give(seat);
    code
}

/// Instead of the second half: the site is as it was before the entry was prepared.
#[unsafe(no_mangle)]
pub extern "C" fn cmh_site3_drop(alloc: Global, site: &mut CmhSite3) -> u32
    ensures stays { site.new.is_open ≡ site.old.is_open }
    ensures dropped { result ≡ 0 → (site.old.is_open ≡ true) × IsSome site.old.held.seat.pending
        × ((before : spec.Seat) (entry : Entry) → Readies before entry site.old.held.seat
        → IsUnchanged before site.new.held.seat) }
    ensures same { 0 < result → site.old.is_open ≡ true → site.new.held.seat ≡ site.old.held.seat }
    ensures closed { site.old.is_open ≡ false → result ≡ 22 }
    ensures code { 0 < result → site.old.is_open ≡ true → (result ≡ 27) × (site.old.held.seat.pending ≡ None) }
{
    let Some(mut seat) = site.take(alloc) else {
        return CLOSED;
    };
    let code = match seat.drop_prepared() {
        Ok(()) => DONE,
        Err(_) => NOT_PREPARED,
    };
    site.give(seat);
    code
}

/// Writes the processes that are declared deadlocked at the site, ascending, and how many they are. Where there is room
/// for fewer, the others are left out.
#[unsafe(no_mangle)]
pub extern "C" fn cmh_site3_declared(
    alloc: Global,
    site: &mut CmhSite3,
    out: &mut [u16],
    count: &mut usize,
) -> u32
    ensures stays { site.new.is_open ≡ site.old.is_open }
    ensures same { site.old.is_open ≡ true → site.new.held.seat ≡ site.old.held.seat }
    ensures told { result ≡ 0 → (site.old.is_open ≡ true)
        × Shows (state_of site.old.held.seat.controller).declared out.old out.new count.new }
    ensures out { 0 < result → out.new ≡ out.old }
    ensures count { 0 < result → count.new ≡ count.old }
    ensures closed { site.old.is_open ≡ false → result ≡ 22 }
    ensures code { 0 < result → site.old.is_open ≡ true → ((result ≡ 26) × IsSome site.old.held.seat.pending)
        ⊎ ((result ≡ 11) × (site.old.held.seat.pending ≡ None)) }
{
    let Some(seat) = site.take(alloc) else {
        return CLOSED;
    };
    let told = seat.declared();
    site.give(seat);
    match told {
        Ok(processes) => {
            put_processes(&processes, out);
            *count = processes.len();
            DONE
        }
        Err(fault) => code_of3(fault),
    }
}

/// Writes the processes that a process of the site waits for, as `cmh_site3_declared` does.
#[unsafe(no_mangle)]
pub extern "C" fn cmh_site3_waits(
    alloc: Global,
    site: &mut CmhSite3,
    process: u16,
    out: &mut [u16],
    count: &mut usize,
) -> u32
    ensures stays { site.new.is_open ≡ site.old.is_open }
    ensures same { site.old.is_open ≡ true → site.new.held.seat ≡ site.old.held.seat }
    ensures told { result ≡ 0 → (site.old.is_open ≡ true)
        × Shows (waits_for (state_of site.old.held.seat.controller) process) out.old out.new count.new }
    ensures out { 0 < result → out.new ≡ out.old }
    ensures count { 0 < result → count.new ≡ count.old }
    ensures closed { site.old.is_open ≡ false → result ≡ 22 }
    ensures code { 0 < result → site.old.is_open ≡ true → Answers (IsNotToldOf site.old.held.seat process) codes.code_of result }
{
    let Some(seat) = site.take(alloc) else {
        return CLOSED;
    };
    let told = seat.waits(process);
    site.give(seat);
    match told {
        Ok(processes) => {
            put_processes(&processes, out);
            *count = processes.len();
            DONE
        }
        Err(fault) => code_of3(fault),
    }
}

/// Writes the processes whose requests a process of the site has not answered, as `cmh_site3_declared` does.
#[unsafe(no_mangle)]
pub extern "C" fn cmh_site3_owed(
    alloc: Global,
    site: &mut CmhSite3,
    process: u16,
    out: &mut [u16],
    count: &mut usize,
) -> u32
    ensures stays { site.new.is_open ≡ site.old.is_open }
    ensures same { site.old.is_open ≡ true → site.new.held.seat ≡ site.old.held.seat }
    ensures told { result ≡ 0 → (site.old.is_open ≡ true)
        × Shows ((state_of site.old.held.seat.controller).owed process) out.old out.new count.new }
    ensures out { 0 < result → out.new ≡ out.old }
    ensures count { 0 < result → count.new ≡ count.old }
    ensures closed { site.old.is_open ≡ false → result ≡ 22 }
    ensures code { 0 < result → site.old.is_open ≡ true → Answers (IsNotToldOf site.old.held.seat process) codes.code_of result }
{
    let Some(seat) = site.take(alloc) else {
        return CLOSED;
    };
    let told = seat.owed(process);
    site.give(seat);
    match told {
        Ok(processes) => {
            put_processes(&processes, out);
            *count = processes.len();
            DONE
        }
        Err(fault) => code_of3(fault),
    }
}

/// Writes the processes of other sites that a process of the site has given up, and cannot ask again before their sites
/// have answered, as `cmh_site3_declared` does.
#[unsafe(no_mangle)]
pub extern "C" fn cmh_site3_leaving(
    alloc: Global,
    site: &mut CmhSite3,
    process: u16,
    out: &mut [u16],
    count: &mut usize,
) -> u32
    ensures stays { site.new.is_open ≡ site.old.is_open }
    ensures same { site.old.is_open ≡ true → site.new.held.seat ≡ site.old.held.seat }
    ensures told { result ≡ 0 → (site.old.is_open ≡ true)
        × Shows ((state_of site.old.held.seat.controller).leaving process) out.old out.new count.new }
    ensures out { 0 < result → out.new ≡ out.old }
    ensures count { 0 < result → count.new ≡ count.old }
    ensures closed { site.old.is_open ≡ false → result ≡ 22 }
    ensures code { 0 < result → site.old.is_open ≡ true → Answers (IsNotToldOf site.old.held.seat process) codes.code_of result }
{
    let Some(seat) = site.take(alloc) else {
        return CLOSED;
    };
    let told = seat.leaving(process);
    site.give(seat);
    match told {
        Ok(processes) => {
            put_processes(&processes, out);
            *count = processes.len();
            DONE
        }
        Err(fault) => code_of3(fault),
    }
}

/// Closes the site, and gives its memory back. A prepared entry is dropped with it.
#[unsafe(no_mangle)]
pub extern "C" fn cmh_site3_free(alloc: Global, site: &mut CmhSite3)
    ensures { site.new.is_open ≡ false }
{
    drop(site.take(alloc));
}
