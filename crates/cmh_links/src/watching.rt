//! The watching thread of a site, which does what needs a clock.

use crate::seats::Seats;
use crate::shared::Shared;
use cmh_carriers::{ConnectionHandle, Note};
use cmh_journal::Sink;
use cmh_station::{Keeper, Listing};
use std::sync::atomic::Ordering;
use std::sync::{Arc, Wait};
use std::thread;
use std::thread::{JoinHandle, Threads};
use std::time::{Clock, Duration};

/// How long it sleeps between its turns.
const TURN_MILLISECONDS: u64 = 100;

/// In how many turns the writing threads look once at their connections.
const LOOK_TURNS: u64 = 10;

/// A connection that told no good hello by then is closed.
const MOST_HELLO_SECONDS: u64 = 30;

/// What a site that doesn't wait for its peers has not written by then is lost.
const MOST_QUIT_SECONDS: u64 = 4;

/// Starts the watching thread over the connections that a site accepted and those that it opened. `None` where memory or a
/// thread was refused.
pub(crate) fn start_watching<R, S, B, K, L, O>(
    rt: R,
    shared: &Arc<Shared<S, B, K>>,
    seats: &Arc<Seats<L>>,
    outs: &Arc<Seats<O>>,
) -> Option<JoinHandle<()>>
where
    R: Wait + Threads + Clock + Copy + Send + Drop + 'static,
    S: Sink + Send + 'static,
    B: Listing + Send + 'static,
    K: Keeper + Send + 'static,
    L: ConnectionHandle + Send + Drop + 'static,
    O: ConnectionHandle + Send + Drop + 'static,
{
    let watched = Watched::new(shared, seats, outs)?;
    thread::spawn(&rt, move || watch(rt, watched)).ok()
}

/// What the watching thread looks at.
#[derive(Drop)]
struct Watched<
    S: Sink,
    B: Listing,
    K: Keeper,
    L: ConnectionHandle + Drop,
    O: ConnectionHandle + Drop,
> {
    shared: Arc<Shared<S, B, K>>,
    /// The connections that the site accepted.
    seats: Arc<Seats<L>>,
    /// Those that it opened.
    outs: Arc<Seats<O>>,
}

impl<
    S: Sink,
    B: Listing,
    K: Keeper,
    L: ConnectionHandle + Drop,
    O: ConnectionHandle + Drop,
> Watched<S, B, K, L, O> {
    fn new(
        shared: &Arc<Shared<S, B, K>>,
        seats: &Arc<Seats<L>>,
        outs: &Arc<Seats<O>>,
    ) -> Option<Watched<S, B, K, L, O>> {
        Some(Watched {
            shared: Arc::try_clone(shared).ok()?,
            seats: Arc::try_clone(seats).ok()?,
            outs: Arc::try_clone(outs).ok()?,
        })
    }
}

/// Ends the watching thread.
pub(crate) fn stop_watching<R: Wait + Threads, S: Sink, B: Listing, K: Keeper>(
    rt: &R,
    shared: &Shared<S, B, K>,
    watching: JoinHandle<()>,
) {
    shared.is_done.store(true, Ordering::SeqCst);
    shared.watcher.unpark();
    watching.join(rt);
}

/// Ends connections that wait for too long, and has the writing threads look at theirs, until the other threads are done.
/// It takes no lock of the station and no memory.
fn watch<R, S, B, K, L, O>(rt: R, watched: Watched<S, B, K, L, O>)
where
    R: Wait + Clock + Drop,
    S: Sink,
    B: Listing,
    K: Keeper,
    L: ConnectionHandle + Drop,
    O: ConnectionHandle + Drop,
{
    let shared = &watched.shared;
    let mut turn = 0;
    let mut cut_at: Option<Duration> = None;
    for _ in rt.forever() {
        if shared.is_done.load(Ordering::SeqCst) {
            break;
        }
        shared
            .watcher
            .park_timeout(&rt, Duration::from_millis(TURN_MILLISECONDS));
        turn = turn % LOOK_TURNS + 1;
        if turn == LOOK_TURNS {
            shared.look();
        }
        let Ok(now) = rt.monotonic() else {
            continue;
        };
        shut_silent(&rt, shared, &watched.seats, now);
        shut_unread(&rt, shared, &watched.outs);
        if shared.cutting.load(Ordering::SeqCst) {
            let since = cut_at.unwrap_or(now);
            cut_at = Some(since);
            shut_late(&rt, &watched.outs, since, now);
        }
    }
}

/// Ends the connections that told no good hello in time.
fn shut_silent<R, S, B, K, L>(rt: &R, shared: &Shared<S, B, K>, seats: &Seats<L>, now: Duration)
where
    R: Wait,
    S: Sink,
    B: Listing,
    K: Keeper,
    L: ConnectionHandle + Drop,
{
    let most = Duration::from_secs(MOST_HELLO_SECONDS);
    for _ in 0..seats.shut_silent(rt, now, most) {
        shared.note(rt, Note::NoHello);
    }
}

/// Ends the connections to other sites, where these had time since then to read what is written.
fn shut_late<R: Wait, O: ConnectionHandle + Drop>(
    rt: &R,
    outs: &Seats<O>,
    since: Duration,
    now: Duration,
) {
    if now.saturating_sub(since) >= Duration::from_secs(MOST_QUIT_SECONDS) {
        outs.shut_all(rt);
    }
}

/// Ends the connections to sites for which more frames wait than may, so that their links close.
fn shut_unread<R, S, B, K, O>(rt: &R, shared: &Shared<S, B, K>, outs: &Seats<O>)
where
    R: Wait,
    S: Sink,
    B: Listing,
    K: Keeper,
    O: ConnectionHandle + Drop,
{
    for _ in 0..shared.others.len() {
        let Some((site, waiting)) = outs.shut_unread(rt, &shared.station, shared.backlog) else {
            return;
        };
        shared.note(rt, Note::Unread(site, waiting));
    }
}
