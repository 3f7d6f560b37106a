//! A site of edition 3 whose lines come from clients over connections of their own, or from standard input.

ghost use Rattle.std.specs.Prelude.{◌≢◌};
ghost use Rattle.cmh_console.specs.Status.{IsStatus};

use crate::calls::Call;
use crate::doors::Doors;
use crate::hub::{Hub, Parts, Spare};
use crate::links::call_token;
use crate::opening::open;
use crate::ports::Ports;
use crate::serve_fault::ServeFault;
use crate::setting::{Setting, read_setting};
use crate::voice::SiteVoice;
use cmh_clients3::{Batch, SiteNote};
use cmh_console::{Ahead, Input, Output, WriteFault};
use cmh_disk3::{DiskFolder, Start};
use cmh_runs::SiteId;
use std::alloc::{AllocError, Global};
use std::fs::File;
use std::io::{BufRead, Write};
use std::net::Net;
use std::rt::Files;
use std::sync::Wait;
use std::thread::Threads;
use std::time::Clock;

/// What a site of edition 3 is started with.
#[derive(Clone, Copy)]
pub struct ServeStart<'a> {
    /// What the topology file holds.
    pub topology: &'a [u8],
    pub site: SiteId,
    /// The folder of its journal.
    pub journal: &'a str,
    /// Whether it begins a new journal, or goes on with the one that it has.
    pub start: Start,
    /// Whether events of clients are refused until each link has answered.
    pub waits_for_peers: bool,
}

/// Runs one site of a topology of edition 3 for clients that connect to a port of 127.0.0.1, until the program is ended, and
/// answers the status of the program where it can't go on: 1 where memory ran out, 3 at another fault, which is named on `err`.
/// Notes are told by the voice, where there is one.
///
/// It says `listening` on `out` once both its ports stand, all that its journal had being on the disk for good. Then it
/// connects to the other sites by itself, again and again.
pub fn run_service3<R, W: Write, E: Write, V: SiteVoice>(
    rt: &R,
    start: &ServeStart<'_>,
    port: u16,
    out: &mut Output<W>,
    err: &mut Output<E>,
    voice: Option<V>,
) -> u8
where
    R: Wait
        + Threads
        + Clock
        + Net
        + AllocGlobal
        + Files<File = File>
        + Copy
        + Send
        + Drop
        + 'static,
    V: Drop,
    ensures status { IsStatus result }

    // It ends at a fault alone.
    ensures ends { result ≢ 0 }
{
    let mut none = Input::new(b"".as_slice());
    let lines = Lines {
        input: &mut none,
        out,
    };
    match serve(rt, rt.alloc(), start, Some(port), lines, voice) {
        Ok(()) => ServeFault::Listen.name_on(err),
        Err(fault) => fault.name_on(err),
    }
}

/// Runs one site of a topology of edition 3, whose lines come from `input`, the standard input of the program, until that ends
/// or says `quit`. The answers go to `out`, its standard output, and the last one is `stopped`. It answers the status of the
/// program: 0 then, 1 where memory ran out, 3 at another fault, which is named on `err`. Notes are told by the voice, where
/// there is one.
///
/// It says `listening` once its port stands, all that its journal had being on the disk for good. Then it connects to the
/// other sites by itself, again and again.
pub fn run_site3<R, I: BufRead + Ahead, W: Write, E: Write, V: SiteVoice>(
    rt: &R,
    start: &ServeStart<'_>,
    input: &mut Input<I>,
    out: &mut Output<W>,
    err: &mut Output<E>,
    voice: Option<V>,
) -> u8
where
    R: Wait
        + Threads
        + Clock
        + Net
        + AllocGlobal
        + Files<File = File>
        + Copy
        + Send
        + Drop
        + 'static,
    V: Drop,
    ensures { IsStatus result }
{
    let lines = Lines { input, out };
    match serve(rt, rt.alloc(), start, None, lines, voice) {
        Ok(()) => 0,
        Err(fault) => fault.name_on(err),
    }
}

/// Standard input and standard output.
#[derive(Drop)]
struct Lines<'a, I: BufRead, W: Write> {
    input: &'a mut Input<I>,
    out: &'a mut Output<W>,
}

/// Tells nothing.
#[derive(Clone, Copy, Drop)]
struct NoVoice;

impl SiteVoice for NoVoice {
    fn tell(&self, _note: &SiteNote) {}
}

/// Runs it to its end.
fn serve<R, I: BufRead + Ahead, W: Write, V: SiteVoice + Drop>(
    rt: &R,
    alloc: Global,
    start: &ServeStart<'_>,
    port: Option<u16>,
    lines: Lines<'_, I, W>,
    voice: Option<V>,
) -> Result<(), ServeFault>
where
    R: Wait + Threads + Clock + Net + Files<File = File> + Copy + Send + Drop + 'static,
{
    let mut hub = open_hub(rt, alloc, start, port, voice.is_some())?;
    let Lines { input, out } = lines;
    if port.is_some() {
        hub.clients.helpers.start(rt);
    }
    let ended = run(rt, &mut hub, input, out, voice);
    hub.clients.helpers.end(rt);
    ended
}

/// Runs it from the first word on standard output to the last.
fn run<R, F, I: BufRead + Ahead, W: Write, V: SiteVoice + Drop>(
    rt: &R,
    hub: &mut Hub<DiskFolder<'_, F>>,
    input: &mut Input<I>,
    out: &mut Output<W>,
    voice: Option<V>,
) -> Result<(), ServeFault>
where
    R: Wait + Clock + Net,
    F: Files<File = File>,
{
    if say(out, "listening").is_err() {
        return Err(ServeFault::Output);
    }
    match voice {
        Some(voice) => hub.run(rt, input, out, &voice)?,
        None => hub.run(rt, input, out, &NoVoice)?,
    }
    if say(out, "stopped").is_err() {
        return Err(ServeFault::Output);
    }
    Ok(())
}

/// The site with its ports. They stand before the journal is made, but nobody is answered before it is read.
fn open_hub<'a, R: Net + Files<File = File>>(
    rt: &'a R,
    alloc: Global,
    start: &ServeStart<'_>,
    port: Option<u16>,
    has_notes: bool,
) -> Result<Hub<DiskFolder<'a, R>>, ServeFault> {
    let setting = read_setting(alloc, start.topology)?;
    let Room {
        doors,
        calls,
        spare,
    } = room_of(rt, alloc, &setting, start.site, port)?;
    let batch = Batch::new(alloc)?;
    let site = open(rt, alloc, &setting.topology, start, batch, has_notes)?;
    let parts = Parts {
        site,
        calls,
        spare,
        has_console: port.is_none(),
        has_notes,
    };
    Ok(Hub::new(alloc, doors, parts))
}

/// The ports of a site, its links, and what it works in.
#[derive(Drop)]
struct Room {
    doors: Doors,
    calls: Vec<Call>,
    spare: Spare,
}

fn room_of<R: Net>(
    net: &R,
    alloc: Global,
    setting: &Setting,
    site: SiteId,
    port: Option<u16>,
) -> Result<Room, ServeFault> {
    let Some(own) = own_port(setting, site) else {
        return Err(ServeFault::Site);
    };
    let calls = calls_to(alloc, setting.topology.sites(), site, &setting.ports)?;
    let spare = Spare::new(alloc)?;
    let doors = Doors::open(net, own, port)?;
    Ok(Room {
        doors,
        calls,
        spare,
    })
}

/// The port on which a site of the topology listens for others.
fn own_port(setting: &Setting, site: SiteId) -> Option<u16> {
    if setting.topology.has_site(site) {
        setting.ports.of(site)
    } else {
        None
    }
}

/// The links to the other sites, in their order, which is that of the site's peers.
fn calls_to(
    alloc: Global,
    sites: &[SiteId],
    own: SiteId,
    ports: &Ports,
) -> Result<Vec<Call>, AllocError> {
    let mut calls = Vec::new(alloc);
    for site in sites {
        if *site != own {
            let port = ports.of(*site).unwrap_or(0);
            let place = calls.len();
            calls.push(Call::new(alloc, place, port, call_token(place)))?;
        }
    }
    Ok(calls)
}

fn say<W: Write>(out: &mut Output<W>, word: &'static str) -> Result<(), WriteFault> {
    out.write_line(word)?;
    out.flush()?;
    Ok(())
}
