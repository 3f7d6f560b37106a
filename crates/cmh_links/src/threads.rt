//! The running threads of a site.

ghost use Rattle.std.specs.Prelude.{◌≡◌, ◌+◌, ◌≤◌, ◌++◌, [], length, map, reverse, vec_len, IfOk, IfErr, IfSome};
ghost use Rattle.std.specs.Vec.{vec_capacity};
ghost use Rattle.cmh_links.specs.Threads.{closed_with, connected_in, failed_in, leads_to, link_sites, site_of};

use crate::accepting::{Accepter, Accepting, start_accepting};
use crate::backlog::BacklogLimit;
use crate::dialler::Dialler;
use crate::opening::{Place, open};
use crate::shared::Shared;
use crate::watching::{start_watching, stop_watching};
use cmh_carriers::{Dial, Listen, SharedLinks, Speaker};
use cmh_frames::{SiteId, Topology};
use cmh_journal::Sink;
use cmh_station::{Keeper, LinkTap, Listing, ParkingTap, SharedStation};
use std::alloc::{AllocError, Global};
use std::sync::atomic::Ordering;
use std::sync::{Arc, Wait};
use std::thread::{JoinHandle, Threads};
use std::time::Clock;

/// What the threads of a site work with.
#[derive(Drop)]
pub struct SiteParts<S: Sink, B: Listing, K: Keeper, L, D> {
    pub station: Arc<SharedStation<S, B, K>>,
    /// The taps of the station's links, ascending.
    pub taps: Vec<ParkingTap>,
    pub listen: L,
    pub dial: D,
    /// A link for which more frames wait is closed.
    pub backlog: BacklogLimit,
    /// What notes what the threads notice, where that is wanted.
    pub speaker: Option<Speaker>,
}

/// The running threads of a site. It isn't `Drop`: whoever starts it has to stop it.
pub struct SiteThreads<R, S: Sink, B: Listing, K: Keeper, D: Dial> {
    rt: R,
    shared: Arc<Shared<S, B, K>>,
    dial: Dialler<D>,
    accepting: Accepting,
    watching: JoinHandle<()>,
    /// The taps of the links that were not opened yet, the next one last.
    waiting: Vec<ParkingTap>,
    /// Those of the others, in their order.
    places: Vec<Place>,
    /// Where the taps go at the end.
    taps: Vec<LinkTap>,
    ghost room: { vec_len places + vec_len waiting ≤ vec_capacity places },
    ghost room_at_end: { vec_len places + vec_len waiting ≤ vec_capacity taps },
    ghost none_back: { taps.items ≡ [] },
    ghost unconnected: { length (closed_with 1 places.items) ≡ dial },
    ghost causes: { failed_in places.items ≡ length (closed_with 1 places.items) + length (closed_with 6 places.items) },
}

/// The threads that a site starts with, and what opens its links.
struct Started<D: Dial> {
    dial: Dialler<D>,
    accepting: Accepting,
    watching: JoinHandle<()>,
}

/// Starts the accepting thread and the watching thread. `None` where memory or a thread was refused.
fn start_threads<R, S, B, K, L, D>(
    rt: R,
    alloc: Global,
    shared: &Arc<Shared<S, B, K>>,
    listen: L,
    dial: D,
) -> Option<Started<D>>
where
    R: Wait + Threads + Clock + Copy + Send + Drop + 'static,
    S: Sink + Send + 'static,
    B: Listing + Send + 'static,
    K: Keeper + Send + 'static,
    L: Listen + Send + Drop + 'static,
    D: Dial + Drop,
    requires { L.failures listen ≡ 0 }
    ensures { IfSome result (λ started. started.dial ≡ D.failures dial) }
{
    let dial = Dialler::new(alloc, dial).ok()?;
    let accepter = Accepter::new(alloc, shared, listen).ok()?;
    let watching = start_watching(rt, shared, accepter.seats(), dial.seats())?;
    match start_accepting(rt, alloc, accepter) {
        Some(accepting) => Some(Started {
            dial,
            accepting,
            watching,
        }),
        None => {
            stop_watching(&rt, shared, watching);
            None
        }
    }
}

/// The states of a site's links, which another thread looks at.
#[derive(Drop)]
pub struct LinkView<S: Sink, B: Listing, K: Keeper> {
    shared: Arc<Shared<S, B, K>>,
}

impl<S: Sink, B: Listing, K: Keeper> LinkView<S, B, K> {
    pub fn links(&self) -> &SharedLinks {
        &self.shared.links
    }
}

impl<R, S, B, K, D> SiteThreads<R, S, B, K, D>
where
    R: Wait + Threads + Clock + Copy + Send + Drop + 'static,
    S: Sink + Send + 'static,
    B: Listing + Send + 'static,
    K: Keeper + Send + 'static,
    D: Dial,
{
    /// Starts the accepting thread and the watching thread. The taps are those of the station's links, ascending; they
    /// come back where memory or a thread is refused.
    pub fn start<L: Listen + Send + Drop + 'static>(
        rt: R,
        alloc: Global,
        topology: &Topology,
        site: SiteId,
        station: Arc<SharedStation<S, B, K>>,
        taps: Vec<ParkingTap>,
        listen: L,
        dial: D,
    ) -> Result<SiteThreads<R, S, B, K, D>, Vec<ParkingTap>>
    where
        D: Drop,
        requires listen { L.failures listen ≡ 0 }
        requires dial { D.failures dial ≡ 0 }
        ensures waiting { IfOk result (λ threads. vec_len threads.waiting ≡ vec_len taps) }
        ensures none_open { IfOk result (λ threads. vec_len threads.places ≡ 0) }
        ensures links { IfOk result (λ threads. link_sites threads.places.items threads.waiting.items
            ≡ map site_of taps.items) }
        ensures back { IfErr result (λ back. back ≡ taps) }
    {
        let parts = SiteParts {
            station,
            taps,
            listen,
            dial,
            backlog: BacklogLimit::default(),
            speaker: None,
        };
        SiteThreads::start_noting(rt, alloc, topology, site, parts)
    }

    /// As `start`, and what the threads notice is noted, where a speaker is given.
    pub fn start_noting<L: Listen + Send + Drop + 'static>(
        rt: R,
        alloc: Global,
        topology: &Topology,
        site: SiteId,
        parts: SiteParts<S, B, K, L, D>,
    ) -> Result<SiteThreads<R, S, B, K, D>, Vec<ParkingTap>>
    where
        D: Drop,
        requires listen { L.failures parts.listen ≡ 0 }
        requires dial { D.failures parts.dial ≡ 0 }
        ensures waiting { IfOk result (λ threads. vec_len threads.waiting ≡ vec_len parts.taps) }
        ensures none_open { IfOk result (λ threads. vec_len threads.places ≡ 0) }
        ensures links { IfOk result (λ threads. link_sites threads.places.items threads.waiting.items
            ≡ map site_of parts.taps.items) }
        ensures back { IfErr result (λ back. back ≡ parts.taps) }
    {
        let SiteParts {
            station,
            taps,
            listen,
            dial,
            backlog,
            speaker,
        } = parts;
        let (Ok(places), Ok(room)) = (
            Vec::with_capacity(alloc, taps.len()),
            Vec::with_capacity(alloc, taps.len()),
        ) else {
            return Err(taps);
        };
        let Ok(shared) = Shared::open(alloc, topology, site, station, backlog, speaker) else {
            return Err(taps);
        };
        let Some(started) = start_threads(rt, alloc, &shared, listen, dial) else {
            return Err(taps);
        };
        let Started {
            dial,
            accepting,
            watching,
        } = started;
        let mut waiting = taps;
        waiting.reverse();
        Ok(SiteThreads {
            rt,
            shared,
            dial,
            accepting,
            watching,
            waiting,
            places,
            taps: room,
        })
    }

    /// The states of the site's links.
    pub fn links(&self) -> &SharedLinks {
        &self.shared.links
    }

    /// The same, for another thread.
    pub fn view(&self) -> Result<LinkView<S, B, K>, AllocError> {
        Ok(LinkView {
            shared: Arc::try_clone(&self.shared)?,
        })
    }

    /// Opens the outgoing links that are new, ascending, and starts a writing thread for each. Says how many have one,
    /// and how many were new and have none: (0, 0) where none is new, as at each later call. A link that has none is
    /// closed: with 1 where its site could not be connected, and with 6 where memory or a thread was refused.
    #[tactic(auto, using(crate::proofs::Places::links_push, crate::proofs::Places::connected_push, crate::proofs::Places::failed_push, crate::proofs::Places::closed_push))]
    pub fn connect(&mut self) -> (usize, usize)
    where
        D::Out: Send + Drop + 'static,
        ensures few { result.0 + result.1 ≤ vec_len self.old.waiting }
        ensures all { vec_len self.new.waiting ≡ 0 }
        ensures connected { connected_in self.new.places.items ≡ connected_in self.old.places.items + result.0 }
        ensures failed { failed_in self.new.places.items ≡ failed_in self.old.places.items + result.1 }
        ensures links { link_sites self.new.places.items self.new.waiting.items
            ≡ link_sites self.old.places.items self.old.waiting.items }

        // As many links are closed with 1 as calls of the dial have failed.
        ensures unconnected { length (closed_with 1 self.new.places.items) ≡ self.new.dial }
        ensures causes { failed_in self.new.places.items
            ≡ length (closed_with 1 self.new.places.items) + length (closed_with 6 self.new.places.items) }
    {
        let mut connected = 0;
        let mut failed = 0;
        while let Some(tap) = self.waiting.pop() {
            let is_new = self.shared.links.lock(&self.rt).open_out(tap.to());
            let place = open(self.rt, &self.shared, &mut self.dial, tap, is_new);
            match &place {
                Place::Idle(_) => {}
                Place::Closed { .. } | Place::Draining { .. } => failed += 1,
                Place::Writing(_) => connected += 1,
            }
            self.places.push_reserved(place);
        }
        (connected, failed)
    }

    /// Lets the writing threads end once they have nothing left. It waits for nobody.
    pub fn end(&self) {
        self.shared.ending.store(true, Ordering::SeqCst);
        self.shared.station.wake();
        self.accepting.wake();
    }

    /// As `end`, and `stop` will not wait for peers that keep their connections open, nor for longer than some seconds for
    /// those that read too slowly. Frames that they sent and nobody read are lost, as are those that were not written then.
    pub fn cut_off(&self) {
        self.shared.cutting.store(true, Ordering::SeqCst);
        self.end();
    }

    /// Ends and joins all threads, and gives the taps back, those of the links that `start` was given, in their order.
    /// It waits for the writing threads of the other sites, and for their reading of what is written here, unless `cut_off`
    /// was called before.
    pub fn stop(self) -> Vec<LinkTap>
    where
        D: Drop,
        ensures { map site_of result.items ≡ link_sites self.places.items self.waiting.items }
    {
        self.end();
        let SiteThreads {
            rt,
            shared,
            dial: _,
            accepting,
            watching,
            waiting,
            places,
            taps,
        } = self;
        let taps = with_waiting(waiting, taps_of(&rt, places, taps));
        accepting.stop(&rt);
        stop_watching(&rt, &shared, watching);
        taps
    }
}

/// The taps of places, in their order, once the threads that have them have ended.
fn taps_of<R: Wait + Threads>(rt: &R, places: Vec<Place>, room: Vec<LinkTap>) -> Vec<LinkTap>
    requires none { room.items ≡ [] }
    requires enough { vec_len places ≤ vec_capacity room }
    ensures count { vec_len result ≡ vec_len places }
    ensures room { vec_capacity result ≡ vec_capacity room }
    ensures sites { map site_of result.items ≡ map leads_to places.items }
{
    let mut taps = room;
    for place in places {
        taps.push_reserved(tap_of(rt, place));
    }
    taps
}

/// The tap of a place, once the thread that has it has ended.
fn tap_of<R: Wait + Threads>(rt: &R, place: Place) -> LinkTap
    ensures { result.to ≡ leads_to place }
{
    match place {
        Place::Idle(tap) => tap,
        Place::Closed { tap, fault: _ } => tap,
        Place::Draining { drain, fault: _ } => drain.join(rt),
        Place::Writing(writer) => writer.join(rt),
    }
}

/// Taps, and behind them those that wait, the last one first.
fn with_waiting(waiting: Vec<ParkingTap>, taps: Vec<LinkTap>) -> Vec<LinkTap>
    requires room { vec_len taps + vec_len waiting ≤ vec_capacity taps }
    ensures { map site_of result.items ≡ map site_of taps.items ++ map site_of (reverse waiting.items) }
{
    let mut waiting = waiting;
    let mut taps = taps;
    while let Some(tap) = waiting.pop() {
        taps.push_reserved(tap.into_tap());
    }
    taps
}
