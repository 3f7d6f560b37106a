//! The accepting thread of a site, and its reading threads.

ghost use Rattle.std.specs.Prelude.{◌≡◌, ◌+◌, ◌<◌, ◌≤◌, [], true, length, vec_len, IfOk, IfSome};
ghost use Rattle.cmh_reader.specs.Reader.{StandsFor, fresh};
ghost use Rattle.cmh_links.specs.TurnedAway.{is_turned_away};

use crate::seats::{Seat, Seats};
use crate::shared::{Shared, StationHandover};
use crate::turned_away::turns_away;
use crate::{ReaderEnd, run_reader};
use cmh_carriers::{ConnectionHandle, Gate, Incoming, Listen, Note};
use cmh_journal::Sink;
use cmh_reader::{FrameReader, ReadFault};
use cmh_station::{Keeper, Listing};
use crossbeam_utils::sync::{Parker, Unparker};
use std::alloc::{AllocError, Global};
use std::sync::atomic::Ordering;
use std::sync::{Arc, Wait};
use std::thread;
use std::thread::{JoinHandle, Threads};
use std::time::{Clock, Duration};

/// A connection that told no hello by then gives its place to another, where as many stand as may.
const SILENT_SECONDS: u64 = 5;

/// A reading thread, and its connection.
type Reading<L> = (JoinHandle<()>, Arc<Seat<L>>);

/// What accepts the connections of a site, and starts their reading threads.
#[derive(Drop)]
pub(crate) struct Accepter<S: Sink, B: Listing, K: Keeper, L: Listen> {
    shared: Arc<Shared<S, B, K>>,
    /// The connections that it accepted.
    seats: Arc<Seats<L::Handle>>,
    listen: L,
    /// What its thread sleeps on once it accepts no more.
    parker: Parker,
}

impl<S: Sink, B: Listing, K: Keeper, L: Listen> Accepter<S, B, K, L> {
    /// It accepted no connection.
    pub fn new(
        alloc: Global,
        shared: &Arc<Shared<S, B, K>>,
        listen: L,
    ) -> Result<Accepter<S, B, K, L>, AllocError>
    where
        L: Drop,
        ensures { IfOk result (λ accepter. L.failures accepter.listen ≡ L.failures listen) }
    {
        let shared = Arc::try_clone(shared)?;
        let seats = Arc::new(alloc, Seats::new(alloc))?;
        let parker = Parker::new(alloc)?;
        Ok(Accepter {
            shared,
            seats,
            listen,
            parker,
        })
    }

    /// The connections that it accepted.
    pub fn seats(&self) -> &Arc<Seats<L::Handle>> {
        &self.seats
    }
}

/// The accepting thread of a site, and what ends it. It isn't `Drop`: whoever starts it has to stop it.
pub(crate) struct Accepting {
    thread: JoinHandle<()>,
    unparker: Unparker,
    gate: Gate,
}

impl Accepting {
    /// Has it look whether the site is ending. It waits for nobody.
    pub fn wake(&self) {
        self.unparker.unpark();
    }

    /// Has it accept no more, and waits for its end, which comes once the site is ending and the reading threads have ended.
    pub fn stop<R: Wait + Threads>(self, rt: &R) {
        let Accepting {
            thread,
            unparker: _,
            gate,
        } = self;
        gate.shut();
        thread.join(rt);
    }
}

/// Starts the accepting thread. `None` where memory or a thread was refused.
pub(crate) fn start_accepting<R, S, B, K, L>(
    rt: R,
    alloc: Global,
    accepter: Accepter<S, B, K, L>,
) -> Option<Accepting>
where
    R: Wait + Threads + Clock + Copy + Send + Drop + 'static,
    S: Sink + Send + 'static,
    B: Listing + Send + 'static,
    K: Keeper + Send + 'static,
    L: Listen + Send + Drop + 'static,
    requires { L.failures accepter.listen ≡ 0 }
{
    let gate = accepter.listen.gate()?;
    let unparker = accepter.parker.unparker().clone().ok()?;
    let thread = spawn_accepter(rt, alloc, accepter)?;
    Some(Accepting {
        thread,
        unparker,
        gate,
    })
}

/// Starts the thread that accepts. It stands apart, so that a failure here has less to drop.
fn spawn_accepter<R, S, B, K, L>(
    rt: R,
    alloc: Global,
    accepter: Accepter<S, B, K, L>,
) -> Option<JoinHandle<()>>
where
    R: Wait + Threads + Clock + Copy + Send + Drop + 'static,
    S: Sink + Send + 'static,
    B: Listing + Send + 'static,
    K: Keeper + Send + 'static,
    L: Listen + Send + Drop + 'static,
    requires { L.failures accepter.listen ≡ 0 }
{
    let accepter = NewAccepter { accepter };
    thread::spawn(&rt, move || run_accepter(rt, alloc, accepter)).ok()
}

/// An accepter of which no call has failed yet. That stands in its type, since the closure of a thread takes no condition
/// over from what it calls.
#[derive(Drop)]
struct NewAccepter<S: Sink, B: Listing, K: Keeper, L: Listen> {
    accepter: Accepter<S, B, K, L>,
    ghost unfailed: { L.failures accepter.listen ≡ 0 },
}

/// Accepts connections and starts a reading thread for each, until accepting fails or the site is ending. Once it is
/// ending it waits for these threads.
fn run_accepter<R, S, B, K, L>(rt: R, alloc: Global, accepter: NewAccepter<S, B, K, L>)
where
    R: Wait + Threads + Clock + Copy + Send + Drop + 'static,
    S: Sink + Send + 'static,
    B: Listing + Send + 'static,
    K: Keeper + Send + 'static,
    L: Listen + Drop,
{
    let NewAccepter { mut accepter } = accepter;
    let mut readers: Vec<Reading<L::Handle>> = Vec::new(alloc);
    accepter.accept_all(rt, alloc, &mut readers);
    accepter.shared.note(&rt, Note::AcceptingEnded);
    let Accepter {
        shared,
        seats: _,
        listen,
        parker,
    } = accepter;
    listen.shut();
    drop(listen);
    await_end(&rt, &shared, &parker);
    join_all(&rt, &shared, readers);
}

/// Waits until the site is ending.
fn await_end<R: Wait, S: Sink, B: Listing, K: Keeper>(
    rt: &R,
    shared: &Shared<S, B, K>,
    parker: &Parker,
) {
    for _ in rt.forever() {
        if shared.ending.load(Ordering::SeqCst) {
            break;
        }
        parker.park(rt);
    }
}

/// Waits for the reading threads. Where the site doesn't wait for its peers, their connections are ended first.
fn join_all<R, S, B, K, L>(rt: &R, shared: &Shared<S, B, K>, readers: Vec<Reading<L>>)
where
    R: Wait + Threads,
    S: Sink,
    B: Listing,
    K: Keeper,
    L: ConnectionHandle + Drop,
{
    for (reader, seat) in readers {
        if shared.cutting.load(Ordering::SeqCst) {
            seat.shut(rt);
        }
        reader.join(rt);
    }
}

impl<S, B, K, L> Accepter<S, B, K, L>
where
    S: Sink + Send + 'static,
    B: Listing + Send + 'static,
    K: Keeper + Send + 'static,
    L: Listen,
{
    /// Accepts connections and starts a reading thread for each, until accepting fails or the site is ending.
    fn accept_all<R>(&mut self, rt: R, alloc: Global, readers: &mut Vec<Reading<L::Handle>>)
    where
        R: Wait + Threads + Clock + Copy + Send + Drop + 'static,
        requires { L.failures self.old.listen ≡ 0 }
    {
        for _ in rt.forever() {
            let Ok(incoming) = self.listen.accept() else {
                break;
            };
            if self.shared.ending.load(Ordering::SeqCst) {
                break;
            }
            give_up(&rt, readers);
            self.make_room(&rt, readers);
            self.admit(rt, alloc, incoming, readers);
        }
    }

    /// Where as many connections stand as may, ends the one that has told no hello for the longest time, if that is long
    /// enough, so that those who say nothing keep nobody away.
    fn make_room<R: Wait + Threads + Clock>(&self, rt: &R, readers: &mut Vec<Reading<L::Handle>>)
        ensures fewer { vec_len readers.new ≤ vec_len readers.old }
    {
        if !turns_away(readers.len()) {
            return;
        }
        let Some(place) = longest_silent(readers) else {
            return;
        };
        if !readers[place]
            .1
            .is_silent_for(rt, Duration::from_secs(SILENT_SECONDS))
        {
            return;
        }
        if readers[place].1.shut_if_silent(rt) {
            let (reader, _) = readers.swap_remove(place);
            reader.join(rt);
            self.shared.note(rt, Note::NoHello);
        }
    }

    /// Starts a reading thread for a connection. One that is turned away, or for which no memory or no thread can be had,
    /// is closed at once.
    fn admit<R>(&self, rt: R, alloc: Global, incoming: L::In, readers: &mut Vec<Reading<L::Handle>>)
    where
        R: Wait + Threads + Clock + Copy + Send + Drop + 'static,
        requires { L.In.failures incoming ≡ 0 }
        ensures turned_away { is_turned_away (vec_len readers.old) ≡ true → readers.new.items ≡ readers.old.items }
        ensures one { vec_len readers.new ≤ vec_len readers.old + 1 }
    {
        if turns_away(readers.len()) {
            self.shared.note(&rt, Note::TurnedAway);
            return;
        }
        if readers.reserve(1).is_ok() {
            if let Some(reading) = self.start_reader(rt, alloc, incoming) {
                let _ = readers.push(reading);
                return;
            }
        }
        self.shared.note(&rt, Note::NoThread);
    }

    /// Starts a reading thread. `None` where no memory or no thread can be had; then the connection is closed.
    fn start_reader<R>(&self, rt: R, alloc: Global, incoming: L::In) -> Option<Reading<L::Handle>>
    where
        R: Wait + Threads + Clock + Copy + Send + Drop + 'static,
        requires { L.In.failures incoming ≡ 0 }
    {
        let theirs = Arc::try_clone(&self.shared).ok()?;
        let seat = self.seats.seat(&rt, self.listen.handle(&incoming)?, None)?;
        let Ok(taken) = Arc::try_clone(&seat) else {
            seat.leave(&rt);
            return None;
        };
        match thread::spawn(&rt, move || serve(rt, alloc, theirs, taken, incoming)) {
            Ok(reader) => Some((reader, seat)),
            Err(_) => {
                seat.leave(&rt);
                None
            }
        }
    }
}

/// Gives up the threads whose connections have ended, so that these count no more.
fn give_up<R: Wait + Threads, L: ConnectionHandle + Drop>(rt: &R, readers: &mut Vec<Reading<L>>)
    ensures fewer { vec_len readers.new ≤ vec_len readers.old }
{
    let mut left = readers.len();
    while left > 0 {
        left -= 1;
        if readers[left].1.is_over() {
            let (reader, _) = readers.swap_remove(left);
            reader.join(rt);
        }
    }
}

/// The place of the connection that has told no hello for the longest time, if there is one without.
fn longest_silent<L: ConnectionHandle + Drop>(readers: &[Reading<L>]) -> Option<usize>
    ensures { IfSome result (λ place. place < length readers.now) }
{
    let mut longest: Option<(usize, Duration)> = None;
    for place in 0..readers.len() {
        let Some(since) = readers[place].1.silent_since() else {
            continue;
        };
        match longest {
            Some((_, before)) if before <= since => {}
            _ => longest = Some((place, since)),
        }
    }
    let (place, _) = longest?;
    Some(place)
}

/// A reader of the bytes that come to a site: it expects the other sites.
fn reader_of<S: Sink, B: Listing, K: Keeper>(
    alloc: Global,
    shared: &Shared<S, B, K>,
) -> Result<FrameReader, AllocError>
    ensures expects { IfOk result (λ reader. reader ≡ fresh shared.now.edition shared.now.others.items) }
    ensures stands { IfOk result (λ reader. StandsFor reader [] []) }
{
    let senders = shared.others.to_vec(alloc)?;
    Ok(FrameReader::new(alloc, shared.edition, senders))
}

/// Reads a connection to its end, and closes it.
fn serve<R, S, B, K, I, L>(
    rt: R,
    alloc: Global,
    shared: Arc<Shared<S, B, K>>,
    seat: Arc<Seat<L>>,
    mut incoming: I,
)
where
    R: Wait + Copy + Drop,
    S: Sink,
    B: Listing,
    K: Keeper,
    I: Incoming + Drop,
    L: ConnectionHandle + Drop,
    requires { I.failures incoming ≡ 0 }
{
    if let Ok(mut reader) = reader_of(alloc, &shared) {
        let mut entrance = StationHandover::new(rt, &shared, &seat);
        let end = run_reader(
            &rt,
            &mut incoming,
            &mut reader,
            &shared.links,
            &mut entrance,
        );
        note_end(&rt, &shared, &mut reader, end);
    }
    // Its seat has another handle of it.
    incoming.shut();
    drop(incoming);
    seat.leave(&rt);
}

/// Notes how reading ended: that a hello was refused, or that the link closed.
fn note_end<R: Wait, S: Sink, B: Listing, K: Keeper>(
    rt: &R,
    shared: &Shared<S, B, K>,
    reader: &mut FrameReader,
    end: ReaderEnd,
) {
    match end {
        ReaderEnd::NoLink => {
            // The reader answers its fault again. A connection that ended within its hello has none.
            if let Err(ReadFault::BadHello | ReadFault::WrongSite) = reader.feed(&[]) {
                shared.note(rt, Note::StrangeHello);
            }
        }
        ReaderEnd::Refused(site) => {
            let state = shared.links.lock(rt).state_in(site);
            if let Some(state) = state {
                shared.note(rt, Note::RefusedHello(site, state));
            }
        }
        ReaderEnd::Closed(site, fault) => shared.note(rt, Note::ClosedIn(site, fault)),
    }
}
