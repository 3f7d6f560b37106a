//! Readers.

ghost use Rattle.std.specs.Prelude.{◌≡◌, ◌<◌, ◌≤◌, ◌++◌, true, false, IfErr, IfNone, IfOk, IfSome, MatchOption, OnOk, drop, length, unwrap_or};
ghost use Rattle.cmh_frames.specs.Edition.{number_of};
ghost use Rattle.cmh_frames.specs.Wire.{hello};
ghost use Rattle.cmh_reader.specs.Reader.{fresh};
ghost use Rattle.cmh_reader.specs.Stream.{sender_of};
ghost use Rattle.cmh_seat.specs.Inlet.{Gave, GaveNothing};
ghost use Rattle.cmh_c.specs.Codes as codes;
ghost use Rattle.cmh_c.specs.Codes.{Answers, OfEdition};
ghost use Rattle.cmh_c.specs.Inner.Faults.{code_of_call};
ghost use Rattle.cmh_c.specs.Reading.{HasNoSite, IsNoHello, IsNoReader};

use crate::codes::{CLOSED, CallFault, DONE, OPEN, code_of_reading};
use cmh_frames::{Edition, HELLO_LEN, SiteId, encode_hello};
use cmh_seat::{HeldInlet, Inlet};
use std::alloc::{AllocError, Global};
use std::mem::replace;

/// A reader, in memory of the caller. Zeros are one that is closed.
#[repr(C)]
pub struct CmhReader {
    is_open: bool,
    held: HeldInlet,
    ghost linked: { is_open ≡ held.is_open },
}

impl CmhReader {
    fn put(inlet: Box<Inlet, Global>) -> CmhReader
        ensures open { result.is_open ≡ true }
        ensures inlet { result.held.inlet ≡ inlet.value }
    {
        CmhReader {
            is_open: true,
            held: HeldInlet::of(inlet),
        }
    }

    fn closed(alloc: Global) -> CmhReader
        ensures open { result.is_open ≡ false }
    {
        CmhReader {
            is_open: false,
            held: HeldInlet::nothing(alloc),
        }
    }

    /// What an open handle holds, until it is given back. The handle is closed then.
    fn take(&mut self, alloc: Global) -> Option<Box<Inlet, Global>>
        ensures taken { MatchOption result (self.old.is_open ≡ false)
            (λ inlet. (self.old.is_open ≡ true) × (inlet.value ≡ self.old.held.inlet)) }
        ensures closed { self.new.is_open ≡ false }
    {
        let CmhReader { is_open, held } = replace(&mut *self, CmhReader::closed(alloc));
        if is_open {
            Some(held.into_box())
        } else {
            drop(held);
            None
        }
    }

    fn give(&mut self, inlet: Box<Inlet, Global>)
        requires { self.old.is_open ≡ false }
        ensures open { self.new.is_open ≡ true }
        ensures inlet { self.new.held.inlet ≡ inlet.value }
    {
        let CmhReader { is_open: _, held } = replace(&mut *self, CmhReader::put(inlet));
        drop(held);
    }
}

/// A reader of a link from one of these sites.
fn inlet_of(alloc: Global, edition: u8, senders: &[u16]) -> Result<Box<Inlet, Global>, CallFault>
    ensures made { IfOk result (λ inlet. OfEdition edition (λ e. inlet.value ≡ fresh e senders.now)) }
    ensures fault { IfErr result (λ fault. IsNoReader (code_of_call fault) edition senders.now) }
{
    let Some(edition) = Edition::of_number(edition) else {
        return Err(CallFault::Edition);
    };
    let sites = match sites_of(alloc, senders) {
        Ok(Some(sites)) => sites,
        Ok(None) => return Err(CallFault::Number),
        Err(_) => return Err(CallFault::Memory),
    };
    match Box::new(alloc, Inlet::new(alloc, edition, sites)) {
        Ok(inlet) => Ok(inlet),
        Err(_) => Err(CallFault::Memory),
    }
}

/// The sites of these numbers, if each is one.
fn sites_of(alloc: Global, numbers: &[u16]) -> Result<Option<Vec<SiteId>>, AllocError>
    ensures all { IfOk result (λ sites. IfSome sites (λ sites. sites.items ≡ numbers.now)) }
    ensures none { IfOk result (λ sites. IfNone sites (HasNoSite numbers.now)) }
{
    let mut sites = Vec::new(alloc);
    for number in numbers {
        let Some(site) = SiteId::new(*number) else {
            return Ok(None);
        };
        sites.push(site)?;
    }
    Ok(Some(sites))
}

/// The edition and the site of a hello, where there is so much room.
fn parts_of_hello(edition: u8, site: u16, room: usize) -> Result<(Edition, SiteId), CallFault>
    ensures edition { IfOk result (λ parts. edition ≡ number_of parts.0) }
    ensures site { IfOk result (λ parts. site ≡ parts.1) }
    ensures fits { OnOk result (6 ≤ room) }
    ensures fault { IfErr result (λ fault. IsNoHello (code_of_call fault) edition site room) }
{
    let Some(edition) = Edition::of_number(edition) else {
        return Err(CallFault::Edition);
    };
    let Some(site) = SiteId::new(site) else {
        return Err(CallFault::Number);
    };
    if room < HELLO_LEN {
        return Err(CallFault::Short);
    }
    Ok((edition, site))
}

/// Opens a reader of a link from one of these sites.
#[unsafe(no_mangle)]
pub extern "C" fn cmh_reader_new(
    alloc: Global,
    reader: &mut CmhReader,
    edition: u8,
    senders: &[u16],
) -> u32
    ensures made { result ≡ 0 → (reader.new.is_open ≡ true)
        × OfEdition edition (λ e. reader.new.held.inlet ≡ fresh e senders.now) }
    ensures stays { 0 < result → reader.new.is_open ≡ reader.old.is_open }
    ensures same { 0 < result → reader.old.is_open ≡ true → reader.new.held.inlet ≡ reader.old.held.inlet }
    ensures open { reader.old.is_open ≡ true → result ≡ 23 }
    ensures code { 0 < result → reader.old.is_open ≡ false → IsNoReader result edition senders.now }
{
    if reader.is_open {
        return OPEN;
    }
    match inlet_of(alloc, edition, senders) {
        Ok(inlet) => {
            reader.give(inlet);
            DONE
        }
        Err(fault) => fault.code(),
    }
}

/// Takes the next piece of the stream, and writes the frames that are whole by it.
#[unsafe(no_mangle)]
pub extern "C" fn cmh_reader_feed(
    alloc: Global,
    reader: &mut CmhReader,
    piece: &[u8],
    out: &mut [u8],
    count: &mut usize,
) -> u32
    ensures stays { reader.new.is_open ≡ reader.old.is_open }
    ensures gave { result ≡ 0 → (reader.old.is_open ≡ true)
        × Gave reader.old.held.inlet piece.now out.old out.new count.new reader.new.held.inlet }
    ensures out { 0 < result → out.new ≡ out.old }
    ensures count { 0 < result → count.new ≡ count.old }
    ensures closed { reader.old.is_open ≡ false → result ≡ 22 }
    ensures code { 0 < result → reader.old.is_open ≡ true
        → Answers (λ fault. GaveNothing reader.old.held.inlet piece.now (length out.old) fault reader.new.held.inlet)
        codes.code_of_reading result }
{
    let Some(mut inlet) = reader.take(alloc) else {
        return CLOSED;
    };
    let code = match inlet.feed(piece, out) {
        Ok(written) => {
            *count = written;
            DONE
        }
        Err(fault) => code_of_reading(fault),
    };
    reader.give(inlet);
    code
}

/// The site that sends, or 0 before a good hello and of a closed reader.
#[unsafe(no_mangle)]
pub extern "C" fn cmh_reader_sender(alloc: Global, reader: &mut CmhReader) -> u16
    ensures stays { reader.new.is_open ≡ reader.old.is_open }
    ensures same { reader.old.is_open ≡ true → reader.new.held.inlet ≡ reader.old.held.inlet }
    ensures sender { reader.old.is_open ≡ true
        → result ≡ unwrap_or (sender_of reader.old.held.inlet.standing) 0 }
    ensures closed { reader.old.is_open ≡ false → result ≡ 0 }
{
    let Some(inlet) = reader.take(alloc) else {
        return 0;
    };
    let sender = match inlet.sender() {
        Some(site) => site.get(),
        None => 0,
    };
    reader.give(inlet);
    sender
}

/// Closes the reader, and gives its memory back.
#[unsafe(no_mangle)]
pub extern "C" fn cmh_reader_free(alloc: Global, reader: &mut CmhReader)
    ensures { reader.new.is_open ≡ false }
{
    drop(reader.take(alloc));
}

/// Writes the six bytes with which a link from the site begins.
#[unsafe(no_mangle)]
pub extern "C" fn cmh_hello(edition: u8, site: u16, out: &mut [u8]) -> u32
    ensures hello { result ≡ 0 → OfEdition edition (λ e. out.new ≡ hello e site ++ drop 6 out.old) }
    ensures out { 0 < result → out.new ≡ out.old }
    ensures code { 0 < result → IsNoHello result edition site (length out.old) }
{
    match parts_of_hello(edition, site, out.len()) {
        Ok((edition, site)) => {
            out[..6].copy_from_slice(&encode_hello(edition, site));
            DONE
        }
        Err(fault) => fault.code(),
    }
}
