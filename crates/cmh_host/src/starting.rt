//! A running site: its station over a file, its threads, and what it is asked.

ghost use Rattle.std.specs.Prelude.{◌≡◌, ◌==◌, [], ◌∷◌, ◌++◌, filter, map, not, IfOk, OnOk};
ghost use Rattle.cmh_talk.specs.Ends.{TellsLinks, ends_of, ends_with, others_of};
ghost use Rattle.cmh_links.specs.Threads.{link_sites, site_of};
ghost use Rattle.cmh_host.specs.Opening.{IsNewStation};
ghost use Rattle.cmh_frames.specs.Runs.{IsBeginningOf};
ghost use Rattle.cmh_talk.specs.Steps.{IsDeclared, IsListOf, WasStepped};

use crate::system::System;
use cmh_carriers::{Dial, LinkTable, Note, Speaker, TcpDial, TcpListen};
use cmh_console::NoFile;
use cmh_frames::{Done, Event, SiteId, Topology};
use cmh_journal::Sink;
use cmh_links::{BacklogLimit, LinkFault, LinkState, SharedLinks, SiteParts, SiteThreads};
use cmh_setting::JournalSink;
use cmh_station::{
    BoardReader, Keeper, KeptBoard, LinkTap, Listing, NewestEntries, ParkingTap, SharedStation,
    Station, StationRefusal,
};
use cmh_talk::{LinkEnds, SiteReply};
use std::alloc::{AllocError, Global};
use std::sync::{Arc, Wait};

/// A station whose journal is a file, with the lock round it. The file has its entries, so the newest are enough in
/// memory.
pub type FileStation<R, K = NewestEntries> = SharedStation<JournalSink, KeptBoard<R>, K>;

/// The threads of a site over TCP.
pub type Running<R, K = NewestEntries> = SiteThreads<R, JournalSink, KeptBoard<R>, K, TcpDial<R>>;

/// A station that no thread has yet, the taps of its links, and the reader of its board.
#[derive(Drop)]
pub struct Opened<R: Wait + Drop, K: Keeper = NewestEntries> {
    site: SiteId,
    station: Station<JournalSink, KeptBoard<R>, K>,
    taps: Vec<LinkTap>,
    reader: BoardReader,
}

impl<R: Wait + Drop, K: Keeper> Opened<R, K> {
    pub fn site(&self) -> SiteId
        ensures { result ≡ self.now.site }
    {
        self.site
    }
}

/// Makes the station of a site over its journal.
///
/// # Errors
///
/// The disk refused the journal's header, or memory was refused.
pub fn open_station<R, K>(
    rt: R,
    alloc: Global,
    topology: &Topology,
    site: SiteId,
    sink: JournalSink,
) -> Result<Opened<R, K>, NoFile>
where
    R: Wait + Copy + Drop,
    K: Keeper,
    requires { sink.faults ≡ 0 }
    ensures site { IfOk result (λ opened. opened.site ≡ site) }
    ensures fresh { IfOk result (λ opened. IsNewStation topology.now site opened.station.core) }
    ensures to { IfOk result (λ opened. map site_of opened.taps.items ≡ others_of topology.now site) }
{
    let (station, taps, mut readers) = match Station::new(rt, alloc, topology, site, sink, 1) {
        Ok(opened) => opened,
        Err((StationRefusal::Rule(_), _)) => return Err(NoFile::Memory),
        Err(_) => return Err(NoFile::Disk),
    };
    match readers.pop() {
        Some(reader) => Ok(Opened {
            site,
            station,
            taps,
            reader,
        }),
        None => Err(NoFile::Memory),
    }
}

/// Who tells what a site notices, where somebody listens.
#[derive(Drop)]
pub struct Speakers {
    /// Where it is asked.
    pub handle: Option<Speaker>,
    /// In its threads.
    pub threads: Option<Speaker>,
}

/// What the threads of a station work with besides it.
#[derive(Drop)]
pub struct Carriers<R: System + 'static> {
    pub listen: TcpListen<R>,
    pub dial: TcpDial<R>,
    /// A link for which more frames wait is closed.
    pub backlog: BacklogLimit,
    pub speakers: Speakers,
    /// Whether questions are asked of the station while it keeps entries.
    pub is_asked: bool,
}

/// What a running site is asked by.
#[derive(Drop)]
pub struct SiteHandle<R: Wait + Drop, K: Keeper = NewestEntries> {
    pub site: SiteId,
    pub station: Arc<FileStation<R, K>>,
    pub reader: BoardReader,
    pub speaker: Option<Speaker>,
}

/// A site that runs. It isn't `Drop`: its threads have to be stopped.
pub struct RunningSite<R, K: Keeper = NewestEntries>
where
    R: System + Send + 'static,
    JournalSink: Sink,
    KeptBoard<R>: Listing,
    TcpDial<R>: Dial,
{
    pub handle: SiteHandle<R, K>,
    pub threads: Running<R, K>,
}

/// A station with the lock round it, once for who asks it and once for its threads, and the taps of its links.
#[derive(Drop)]
struct Locked<R: Wait + Drop, K: Keeper> {
    station: Arc<FileStation<R, K>>,
    shared: Arc<FileStation<R, K>>,
    taps: Vec<ParkingTap>,
}

/// It stands apart from the start of the threads, so that a failure here has less to drop.
fn lock_station<R: Wait + Drop, K: Keeper>(
    alloc: Global,
    station: Station<JournalSink, KeptBoard<R>, K>,
    taps: Vec<LinkTap>,
) -> Result<Locked<R, K>, AllocError>
    ensures { IfOk result (λ locked. locked.taps.items ≡ taps.items) }
{
    let Ok((shared, taps)) = SharedStation::new(alloc, station, taps) else {
        return Err(AllocError);
    };
    let station = Arc::new(alloc, shared)?;
    let shared = Arc::try_clone(&station)?;
    Ok(Locked {
        station,
        shared,
        taps,
    })
}

/// Starts the threads of a station, which listen.
///
/// # Errors
///
/// Memory or a thread was refused.
pub fn start_threads<R, K>(
    rt: R,
    alloc: Global,
    topology: &Topology,
    opened: Opened<R, K>,
    carriers: Carriers<R>,
) -> Result<RunningSite<R, K>, AllocError>
where
    R: System + Send + 'static,
    K: Keeper + Send + 'static,
    requires listens { carriers.listen.faults ≡ 0 }
    requires dials { carriers.dial.faults ≡ 0 }
    ensures site { IfOk result (λ running. running.handle.site ≡ opened.site) }
    ensures links { IfOk result (λ running. link_sites running.threads.places.items running.threads.waiting.items
        ≡ map site_of opened.taps.items) }
{
    let Opened {
        site,
        station,
        taps,
        reader,
    } = opened;
    let Carriers {
        listen,
        dial,
        backlog,
        speakers: Speakers {
            handle: speaker,
            threads: theirs,
        },
        is_asked,
    } = carriers;
    let Locked {
        station,
        shared,
        taps,
    } = lock_station(alloc, station, taps)?;
    if is_asked && station.follow(&rt, alloc, topology, site).is_err() {
        return Err(AllocError);
    }
    let parts = SiteParts {
        station: shared,
        taps,
        listen,
        dial,
        backlog,
        speaker: theirs,
    };
    match SiteThreads::start_noting(rt, alloc, topology, site, parts) {
        Ok(threads) => {
            let handle = SiteHandle {
                site,
                station,
                reader,
                speaker,
            };
            Ok(RunningSite { handle, threads })
        }
        Err(_) => Err(AllocError),
    }
}

impl<R, K> RunningSite<R, K>
where
    R: System + Send + 'static,
    K: Keeper + Send + 'static,
{
    /// Ends the threads.
    pub fn stop(self) {
        let RunningSite {
            handle: _handle,
            threads,
        } = self;
        threads.cut_off();
        let _ = threads.stop();
    }
}

impl<R: Wait + Drop, K: Keeper> SiteHandle<R, K> {
    /// Gives an event to the station, and wakes the threads that write what it sent once the lock is given back. Where the
    /// journal can't be written, that is noted.
    pub fn step(&self, rt: &R, event: &Event) -> SiteReply
        ensures { WasStepped event.now result }
    {
        step(rt, &self.station, self.speaker.as_ref(), event)
    }

    /// The processes that the site declared, in their order in time: the board is told under the lock, and read once that
    /// is given back. The only error is out of memory.
    pub fn declared(&mut self, rt: &R) -> Result<SiteReply, AllocError>
        ensures site { IfOk result (IsDeclared self.old.site) }
        // It is the board's list, which goes on from each that was read before.
        ensures list { IfOk result (IsListOf self.new.reader.list) }
        ensures grows { IsBeginningOf self.old.reader.list self.new.reader.list }
        ensures same_site { self.new.site ≡ self.old.site }
    {
        let told = self.station.lock(rt).tell(rt);
        if told.is_err() {
            return Err(AllocError);
        }
        match self.reader.read() {
            Some(processes) => Ok(SiteReply::Declared(self.site, processes)),
            None => Err(AllocError),
        }
    }
}

/// Gives an event to a station, and wakes the threads that write what it sent once the lock is given back. Where the
/// journal can't be written, that is noted.
#[tactic(auto, using(cmh_talk::proofs::Taking::stepped_ok))]
pub fn step<R: Wait + Drop, K: Keeper>(
    rt: &R,
    station: &FileStation<R, K>,
    speaker: Option<&Speaker>,
    event: &Event,
) -> SiteReply
    ensures { WasStepped event.now result }
{
    match station.step(rt, event) {
        Ok(outcome) => SiteReply::Taken(Done {
            sent: outcome.sent.as_slice().len(),
            declared: outcome.declared,
        }),
        Err(refusal) => {
            note_seal(rt, speaker, refusal);
            SiteReply::Refused(refusal)
        }
    }
}

pub fn note_seal<R: Wait>(rt: &R, speaker: Option<&Speaker>, refusal: StationRefusal) {
    if refusal == StationRefusal::Disk {
        if let Some(speaker) = speaker {
            speaker.note(rt, Note::Sealed);
        }
    }
}

/// The links of a site, all of one moment: the lock of the table is taken once.
pub fn link_ends<R: Wait>(
    rt: &R,
    alloc: Global,
    topology: &Topology,
    site: SiteId,
    links: &SharedLinks,
) -> Result<SiteReply, AllocError>
    ensures { IfOk result (TellsLinks topology.now site) }
{
    let table = links.lock(rt);
    Ok(SiteReply::Links(ends_of(alloc, topology, site, &table)?))
}

/// The links of a site as a table has them: a row for each other site, ascending. A link that it doesn't have is new.
pub fn ends_of(
    alloc: Global,
    topology: &Topology,
    site: SiteId,
    table: &LinkTable,
) -> Result<Vec<LinkEnds>, AllocError>
    ensures { IfOk result (λ rows. rows.items ≡ ends_of table.now topology.now site) }
{
    let mut rows = Vec::with_capacity(alloc, topology.sites().len())?;
    for other in topology.sites() {
        push_row(&mut rows, table, *other, site)?;
    }
    Ok(rows)
}

/// A row for a site, unless it is the own one.
fn push_row(
    rows: &mut Vec<LinkEnds>,
    table: &LinkTable,
    other: SiteId,
    own: SiteId,
) -> Result<(), AllocError>
    ensures { OnOk result (rows.new.items ≡ rows.old.items ++
        map (ends_with table.now) (filter (λ s. not (s == own)) (other ∷ []))) }
{
    if other != own {
        rows.push(LinkEnds {
            site: other,
            outgoing: table.state_out(other).unwrap_or(LinkState::Fresh),
            incoming: table.state_in(other).unwrap_or(LinkState::Fresh),
        })?;
    }
    Ok(())
}

/// Why the link to a site is closed, where it is.
pub fn closed_out<R, K>(rt: &R, threads: &Running<R, K>, receiver: SiteId) -> Option<LinkFault>
where
    R: System + Send + 'static,
    K: Keeper + Send + 'static,
{
    why_closed(threads.links().lock(rt).state_out(receiver))
}

/// Why the link from a site is closed, where it is.
pub fn closed_in<R, K>(rt: &R, threads: &Running<R, K>, sender: SiteId) -> Option<LinkFault>
where
    R: System + Send + 'static,
    K: Keeper + Send + 'static,
{
    why_closed(threads.links().lock(rt).state_in(sender))
}

fn why_closed(state: Option<LinkState>) -> Option<LinkFault> {
    match state {
        Some(LinkState::Closed(fault)) => Some(fault),
        _ => None,
    }
}
