//! What the threads of a site share, and the two ways between its links and its station.

ghost use Rattle.std.specs.Prelude.{◌≡◌, ◌≢◌, ◌==◌, ◌≤◌, [], ◌∷◌, ◌++◌, None, Some, filter, length, not, true, IfOk, OnOk, OnErr};
ghost use Rattle.std.specs.Arc.{arc_value};
ghost use Rattle.cmh_frames.specs.Topology.{sites_of};
ghost use Rattle.cmh_links.specs.Writing.{Gave};

use crate::backlog::BacklogLimit;
use crate::seats::Seat;
use crate::{FrameSource, Handover, Next};
use cmh_carriers::{ConnectionHandle, LinkTable, Note, SharedLinks, Speaker};
use cmh_frames::{Edition, Frame, SiteId, Topology};
use cmh_journal::Sink;
use cmh_station::{BATCH_LIMIT, Keeper, Listing, ParkingTap, SharedStation, StationRefusal};
use std::alloc::{AllocError, Global};
use std::sync::atomic::{AtomicBool, AtomicU64, Ordering};
use std::sync::{Arc, Wait};
use std::thread::Parker;

/// What the threads of a site share.
#[derive(Drop)]
pub(crate) struct Shared<S: Sink, B: Listing, K: Keeper> {
    /// Where it takes its memory.
    pub alloc: Global,
    pub station: Arc<SharedStation<S, B, K>>,
    pub links: SharedLinks,
    pub edition: Edition,
    pub site: SiteId,
    /// The other sites.
    pub others: Vec<SiteId>,
    /// Its writing threads end once they have nothing left.
    pub ending: AtomicBool,
    /// Its reading threads end without waiting for their peers, and its writing threads soon.
    pub cutting: AtomicBool,
    /// Its watching thread ends.
    pub is_done: AtomicBool,
    /// What its watching thread sleeps on.
    pub watcher: Parker,
    /// How often its writing threads were to look at their connections.
    pub looks: AtomicU64,
    /// A link for which more frames wait is closed.
    pub backlog: BacklogLimit,
    /// What makes its notes, where they are wanted.
    pub speaker: Option<Speaker>,
}

impl<S: Sink, B: Listing, K: Keeper> Shared<S, B, K> {
    /// All links are new, and nothing ends.
    pub fn open(
        alloc: Global,
        topology: &Topology,
        site: SiteId,
        station: Arc<SharedStation<S, B, K>>,
        backlog: BacklogLimit,
        speaker: Option<Speaker>,
    ) -> Result<Arc<Shared<S, B, K>>, AllocError>
        ensures edition { IfOk result (λ shared. (arc_value shared).edition ≡ topology.now.edition) }
        ensures site { IfOk result (λ shared. (arc_value shared).site ≡ site) }
        ensures others { IfOk result (λ shared. (arc_value shared).others.items ≡
            filter (λ s. not (s == site)) (sites_of topology.now)) }
    {
        let others = others_of(alloc, topology, site)?;
        let table = LinkTable::new(alloc, topology, site)?;
        let shared = Arc::new(
            alloc,
            Shared {
                alloc,
                station,
                links: SharedLinks::new(table),
                edition: topology.edition(),
                site,
                others,
                ending: AtomicBool::new(false),
                cutting: AtomicBool::new(false),
                is_done: AtomicBool::new(false),
                watcher: Parker::new(),
                looks: AtomicU64::new(0),
                backlog,
                speaker,
            },
        )?;
        Ok(shared)
    }

    /// Notes something, where notes are wanted, unless the site is ending.
    pub fn note<R: Wait>(&self, rt: &R, note: Note) {
        if let Some(speaker) = &self.speaker {
            if !self.ending.load(Ordering::SeqCst) {
                speaker.note(rt, note);
            }
        }
    }

    /// Has the writing threads look at their connections. It waits for nobody.
    pub fn look(&self) {
        self.looks.fetch_add(1, Ordering::SeqCst);
        self.station.wake();
    }
}

/// The sites of a topology but for one.
fn others_of(alloc: Global, topology: &Topology, site: SiteId) -> Result<Vec<SiteId>, AllocError>
    ensures { IfOk result (λ sites. sites.items ≡ filter (λ s. not (s == site)) (sites_of topology.now)) }
{
    let mut sites = Vec::new(alloc);
    for other in topology.sites() {
        push_other(&mut sites, *other, site)?;
    }
    Ok(sites)
}

fn push_other(sites: &mut Vec<SiteId>, other: SiteId, site: SiteId) -> Result<(), AllocError>
    ensures { OnOk result (sites.new.items ≡ sites.old.items ++ filter (λ s. not (s == site)) (other ∷ [])) }
{
    if other != site {
        sites.push(other)?;
    }
    Ok(())
}

/// Where a reading thread hands its frames to the station that all share.
#[derive(Drop)]
pub(crate) struct StationHandover<
    'a,
    R: Wait + Drop,
    S: Sink,
    B: Listing,
    K: Keeper,
    L: ConnectionHandle + Drop,
> {
    rt: R,
    shared: &'a Shared<S, B, K>,
    seat: &'a Seat<L>,
    refused: Option<StationRefusal>,
}

impl<
    'a,
    R: Wait + Drop,
    S: Sink,
    B: Listing,
    K: Keeper,
    L: ConnectionHandle + Drop,
> StationHandover<'a, R, S, B, K, L> {
    /// It has refused nothing.
    pub fn new(rt: R, shared: &'a Shared<S, B, K>, seat: &'a Seat<L>) -> Self
        ensures { result.refused ≡ None }
    {
        StationHandover {
            rt,
            shared,
            seat,
            refused: None,
        }
    }

    /// Gives frames to the station, a batch each time that it is locked, up to the first that is refused. No frames take no
    /// lock.
    fn give(&self, from: SiteId, frames: &[Frame]) -> Result<(), StationRefusal>
        ensures { OnErr result (frames.now ≢ []) }
    {
        let mut rest = frames;
        while !rest.is_empty() {
            let (batch, behind) = rest.split_at(rest.len().min(BATCH_LIMIT));
            match self.shared.station.take_frames(&self.rt, from, batch) {
                Ok(()) => {}
                Err(refusal) => return Err(refusal),
            }
            rest = behind;
        }
        Ok(())
    }
}

impl<'a, R: Wait + Drop, S: Sink, B: Listing, K: Keeper, L: ConnectionHandle + Drop> Handover
    for StationHandover<'a, R, S, B, K, L> {
    ghost accepted = { λ _. None };

    ghost refused = { λ s. s.refused };

    fn hand(&mut self, from: SiteId, frame: Frame) -> Result<(), StationRefusal> {
        self.hand_all(from, &[frame])
    }

    /// The station takes the frames, and the threads that write are woken. A link is claimed before, by a good hello.
    #[tactic(auto, using(crate::proofs::Batches::handed_untold))]
    fn hand_all(&mut self, from: SiteId, frames: &[Frame]) -> Result<(), StationRefusal> {
        self.seat.tell();
        match self.give(from, frames) {
            Ok(()) => Ok(()),
            Err(refusal) => {
                if refusal == StationRefusal::Disk {
                    self.shared.note(&self.rt, Note::Sealed);
                }
                self.refused = Some(refusal);
                Err(refusal)
            }
        }
    }
}

/// Where a writing thread takes its frames from the tap of its link.
#[derive(Drop)]
pub(crate) struct TapSource<'a, R: Wait + Drop, S: Sink, B: Listing, K: Keeper> {
    rt: R,
    shared: &'a Shared<S, B, K>,
    tap: ParkingTap,
    /// How many looks it told.
    looks: u64,
    over: bool,
}

impl<'a, R: Wait + Drop, S: Sink, B: Listing, K: Keeper> TapSource<'a, R, S, B, K> {
    pub fn new(rt: R, shared: &'a Shared<S, B, K>, tap: ParkingTap) -> Self
        ensures { result.tap ≡ tap }
    {
        TapSource {
            rt,
            shared,
            tap,
            looks: 0,
            over: false,
        }
    }

    /// The tap comes back.
    pub fn into_tap(self) -> ParkingTap
        ensures { result ≡ self.entry.tap }
    {
        let TapSource {
            rt: _,
            shared: _,
            tap,
            looks: _,
            over: _,
        } = self;
        tap
    }
}

/// The next frame of a link, for which it waits, or a look that wasn't told. The end once the site is ending and the last
/// look at the ring, after one more release of the backlog, showed nothing.
fn next_of<R: Wait, S: Sink, B: Listing, K: Keeper>(
    rt: &R,
    shared: &Shared<S, B, K>,
    tap: &mut ParkingTap,
    looks: &mut u64,
) -> Next
    ensures to { tap.new.to ≡ tap.old.to }
    ensures gave { Gave result (Some tap.old.taken) (Some tap.new.taken) true }
    ensures ring { tap.new.ring ≡ tap.old.ring }
    ensures empty { result ≡ Next.End → tap.new.known ≡ [] }
{
    for _ in rt.forever() {
        if let Some(frame) = tap.take() {
            return Next::Frame(frame);
        }
        // Read before the last look, so that no frame that was there at the end is left.
        let ending = shared.ending.load(Ordering::SeqCst);
        shared.station.lock(rt).release();
        if let Some(frame) = tap.take() {
            return Next::Frame(frame);
        }
        if ending {
            return Next::End;
        }
        let wanted = shared.looks.load(Ordering::SeqCst);
        if wanted != *looks {
            *looks = wanted;
            return Next::Look;
        }
        tap.park(rt);
    }
    unreachable!()
}

impl<'a, R: Wait + Drop, S: Sink, B: Listing, K: Keeper> FrameSource for TapSource<'a, R, S, B, K> {
    ghost given = { λ s. Some s.tap.taken };

    ghost is_over = { λ s. s.over };

    ghost link_to = { λ s. s.tap.to };

    fn next(&mut self) -> Next {
        let next = next_of(&self.rt, self.shared, &mut self.tap, &mut self.looks);
        if next == Next::End {
            self.over = true;
        }
        next
    }

    fn try_next(&mut self) -> Option<Frame> {
        self.tap.take()
    }
}
