//! A station that threads share.

ghost use Rattle.std.specs.Prelude.{◌≡◌, ◌<◌, ◌≤◌, [], length, take, IfOk, IfErr, OnOk};
ghost use Rattle.std.specs.Vec.{vec_len, vec_capacity};
ghost use Rattle.cmh_station.specs.Arrivals.{TookFrames, TookSome};
ghost use Rattle.cmh_controller.specs.Refusals.{RefusesSite};
ghost use Rattle.cmh_station.specs.Batches.{AreUntilRefused, NotSteppedAll, NotSteppedFromFirst, SteppedAll};
ghost use Rattle.cmh_station.specs.Followers.{AreFiguresOf};
ghost use Rattle.cmh_station.specs.Journaled.{Journaled, batch_limit};
ghost use Rattle.cmh_station.specs.Questions.{Owes, WaitsFor, WasNoQuestion};
ghost use Rattle.cmh_station.specs.Steps.{NotStepped, Stepped};

use crate::follower::{Figures, Follower};
use crate::keeper::Keeper;
use crate::parking_tap::{LinkTap, ParkingTap};
use crate::refusal::StationRefusal;
use crate::station::Station;
use cmh_controller::Refusal;
use cmh_frames::{Event, Frame, Outcome, ProcId, SiteId, Topology};
use cmh_journal::{Journal, Sink};
use cmh_shared::Listing;
use crossbeam_utils::sync::{Parker, Unparker};
use std::alloc::{AllocError, Global};
use std::sync::atomic::{AtomicBool, AtomicUsize, Ordering};
use std::sync::{Arc, Mutex, MutexGuard, OnceLock, Wait};

/// A station under a lock, and what wakes the threads of its taps.
#[derive(Drop)]
pub struct SharedStation<S: Sink, B: Listing, K: Keeper = Journal> {
    station: Mutex<Station<S, B, K>>,
    sleepers: Vec<Sleeper>,
    /// What wakes the thread that tells declarations, where there is one.
    watcher: OnceLock<Unparker>,
    /// What answers questions while the station is locked, where it was asked for and memory was there. It is locked for
    /// moments alone, by whoever has the station's lock or none.
    follower: Mutex<Option<Follower>>,
}

/// What wakes the thread of the link to a site, and how many frames wait for it.
#[derive(Drop)]
struct Sleeper {
    to: SiteId,
    unparker: Unparker,
    waiting: Arc<AtomicUsize>,
    /// It takes frames only to drop them.
    is_dropping: AtomicBool,
}

impl Sleeper {
    /// Whether its thread has something to do now that frames were sent on its link.
    fn has_work(&self) -> bool {
        !self.is_dropping.load(Ordering::Relaxed) || self.waiting.load(Ordering::Relaxed) > 0
    }
}

/// Who has something to do after steps: the threads of links that frames were sent on, and the one that tells
/// declarations. A site has at most 63 links, and each has a bit by its place.
#[derive(Clone, Copy)]
struct News {
    links: u64,
    declares: bool,
}

impl<S: Sink, B: Listing, K: Keeper> SharedStation<S, B, K> {
    /// The station under a lock, and its taps, each with a parker of its own, in their order. Where memory is refused
    /// all comes back.
    pub fn new(
        alloc: Global,
        station: Station<S, B, K>,
        taps: Vec<LinkTap>,
    ) -> Result<(SharedStation<S, B, K>, Vec<ParkingTap>), (Station<S, B, K>, Vec<LinkTap>)>
        ensures taps { IfOk result (λ shared. shared.1.items ≡ taps.items) }
        ensures refused { IfErr result (λ back. (back.0 ≡ station) × (back.1 ≡ taps)) }
    {
        let Ok(parking) = Vec::with_capacity(alloc, taps.len()) else {
            return Err((station, taps));
        };
        let Ok((parkers, sleepers)) = make_parkers(alloc, &taps) else {
            return Err((station, taps));
        };
        let shared = SharedStation {
            station: Mutex::new(station),
            sleepers,
            watcher: OnceLock::new(),
            follower: Mutex::new(None),
        };
        Ok((shared, with_parkers(taps, parkers, parking)))
    }

    /// Has the steps wake one more thread where something was declared. Only the first call counts.
    pub fn watch(&self, watcher: Unparker) {
        let _ = self.watcher.try_set(watcher);
    }

    /// `Station::step`, with the station locked for as long; then those who have something to do after it are woken.
    ///
    /// Which station it was is not told: what comes out of a lock is known by its type alone.
    pub fn step<R: Wait>(&self, rt: &R, event: &Event) -> Result<Outcome, StationRefusal>
        ensures ok { IfOk result (λ outcome. (before : Journaled) × (after : Journaled)
            × Stepped before event.now outcome.sent outcome.declared after) }
        ensures refused { IfErr result (λ refusal. (before : Journaled) × (after : Journaled)
            × NotStepped before event.now refusal after) }
    {
        let mut station = self.station.lock(rt);
        let before = station.count();
        let answer = station.step(rt, event);
        self.give_back(rt, station, before);
        answer
    }

    /// `Station::step_all`, as `step` above.
    pub fn step_all<R: Wait>(
        &self,
        rt: &R,
        events: &[Event],
    ) -> Result<Vec<Result<Outcome, StationRefusal>>, StationRefusal>
        requires { length events.now ≤ batch_limit }
        ensures ok { IfOk result (λ answers. (before : Journaled) × (after : Journaled)
            × SteppedAll before events.now answers.items after) }
        ensures refused { IfErr result (λ refusal. (before : Journaled) × (after : Journaled)
            × NotSteppedAll before events.now refusal after) }
    {
        let mut station = self.station.lock(rt);
        let before = station.count();
        let answers = station.step_all(rt, events);
        self.give_back(rt, station, before);
        answers
    }

    /// `step_all`, if the station can step the first event: so that one is to be refused where the disk fails. Where it
    /// can't, the refusal is that of a step with this event, and nothing was done.
    pub fn step_from_first<R: Wait>(
        &self,
        rt: &R,
        events: &[Event],
    ) -> Result<Vec<Result<Outcome, StationRefusal>>, StationRefusal>
        requires some { 0 < length events.now }
        requires few { length events.now ≤ batch_limit }
        ensures ok { IfOk result (λ answers. (before : Journaled) × (after : Journaled)
            × SteppedAll before events.now answers.items after) }
        ensures refused { IfErr result (λ refusal. (before : Journaled) × (after : Journaled)
            × NotSteppedFromFirst before events.now refusal after) }
    {
        let mut station = self.station.lock(rt);
        let before = station.count();
        let answers = step_from_first(rt, &mut station, events);
        self.give_back(rt, station, before);
        answers
    }

    /// `Station::step_until`, as `step` above.
    pub fn step_until<R: Wait>(
        &self,
        rt: &R,
        events: &[Event],
    ) -> Result<Vec<Result<Outcome, StationRefusal>>, StationRefusal>
        requires { length events.now ≤ batch_limit }
        ensures ok { IfOk result (λ answers. (before : Journaled) × (after : Journaled)
            × SteppedAll before (take (length answers.items) events.now) answers.items after) }
        ensures until { IfOk result (λ answers. AreUntilRefused events.now answers.items) }
        ensures refused { IfErr result (λ refusal. (before : Journaled) × (after : Journaled)
            × NotSteppedAll before events.now refusal after) }
    {
        let mut station = self.station.lock(rt);
        let before = station.count();
        let answers = station.step_until(rt, events);
        self.give_back(rt, station, before);
        answers
    }

    /// `Station::take_frames`, as `step` above.
    pub fn take_frames<R: Wait>(
        &self,
        rt: &R,
        from: SiteId,
        frames: &[Frame],
    ) -> Result<(), StationRefusal>
        ensures ok { OnOk result ((before : Journaled) × (after : Journaled) × TookFrames from frames.now before after) }
        ensures refused { IfErr result (λ refusal. (before : Journaled) × (after : Journaled)
            × TookSome from frames.now refusal before after) }
    {
        let mut station = self.station.lock(rt);
        let before = station.count();
        let answer = station.take_frames(rt, from, frames);
        self.give_back(rt, station, before);
        answer
    }

    /// Gives the lock back, and wakes who has something to do after the entries that the station has made since its journal
    /// had so many. These need not stay in memory.
    fn give_back<R: Wait>(&self, rt: &R, station: MutexGuard<'_, Station<S, B, K>>, before: usize) {
        let mut station = station;
        let news = self.news(&station, before);
        self.lead_on(rt, &station, before);
        station.let_go();
        drop(station);
        self.wake_for(news);
    }

    /// Gives the follower, if there is one, the entries that the station has made since its journal had so many.
    fn lead_on<R: Wait>(&self, rt: &R, station: &Station<S, B, K>, before: usize) {
        let mut guard = self.follower.lock(rt);
        if let Some(follower) = guard.take() {
            *guard = follower.with_events(station.since(before), station.is_sealed());
        }
    }

    /// Has the questions below answered by a second controller from now on, which takes each event once its entry is kept:
    /// then they wait for no sync. They are of the last moment at which the station was not locked. Where the station has
    /// entries already nothing is done.
    ///
    /// Where memory for the second controller is refused later, questions wait for the station again.
    pub fn follow<R: Wait>(
        &self,
        rt: &R,
        alloc: Global,
        topology: &Topology,
        site: SiteId,
    ) -> Result<(), Refusal>
        ensures refused { IfErr result (RefusesSite topology.now site) }
    {
        let station = self.station.lock(rt);
        if station.count() == 0 {
            let follower = Follower::new(alloc, topology, site)?;
            let mut guard = self.follower.lock(rt);
            *guard = Some(follower);
        }
        Ok(())
    }

    /// The follower, if there is one, after all events that it was given.
    fn led_on<R: Wait>(&self, rt: &R) -> MutexGuard<'_, Option<Follower>> {
        let mut guard = self.follower.lock(rt);
        if let Some(follower) = guard.take() {
            *guard = follower.caught_up();
        }
        guard
    }

    /// Has the second controller, if there is one, take the events that wait for it, so that no step and no question has to.
    pub fn catch_up<R: Wait>(&self, rt: &R) {
        drop(self.led_on(rt));
    }

    /// `Station::waits_of`, of some moment.
    pub fn waits_of<R: Wait>(&self, rt: &R, process: ProcId) -> Result<Vec<ProcId>, StationRefusal>
        ensures ok { IfOk result (λ others. WaitsFor process others.items) }
        ensures refused { IfErr result (WasNoQuestion process) }
    {
        {
            let guard = self.led_on(rt);
            if let Some(follower) = &*guard {
                return follower.waits_of(process);
            }
        }
        self.station.lock(rt).waits_of(process)
    }

    /// `Station::owed_by`, of some moment.
    pub fn owed_by<R: Wait>(&self, rt: &R, process: ProcId) -> Result<Vec<ProcId>, StationRefusal>
        ensures ok { IfOk result (λ others. Owes process others.items) }
        ensures refused { IfErr result (WasNoQuestion process) }
    {
        {
            let guard = self.led_on(rt);
            if let Some(follower) = &*guard {
                return follower.owed_by(process);
            }
        }
        self.station.lock(rt).owed_by(process)
    }

    /// The figures of some moment. The only error is out of memory.
    pub fn figures<R: Wait>(&self, rt: &R) -> Result<Figures, AllocError>
        ensures { IfOk result (λ figures. (station : Journaled) × AreFiguresOf station figures) }
    {
        {
            let guard = self.led_on(rt);
            if let Some(follower) = &*guard {
                return Ok(follower.figures());
            }
        }
        let mut station = self.station.lock(rt);
        let declared = match station.tell(rt) {
            Ok(told) => told.len(),
            Err(_) => return Err(AllocError),
        };
        Ok(Figures {
            entries: station.count(),
            declared,
            is_sealed: station.is_sealed(),
        })
    }

    /// The station, lent until the guard is dropped, for a look or another call that makes no entry: after a step through
    /// it nobody would be woken. It waits for whoever holds it; a thread that holds it and asks again waits for ever.
    pub fn lock<R: Wait>(&self, rt: &R) -> MutexGuard<'_, Station<S, B, K>> {
        self.station.lock(rt)
    }

    /// Wakes the threads that sleep in `park`, of all taps. It locks nothing, waits for nobody and takes no memory.
    ///
    /// The steps above wake fewer.
    pub fn wake(&self) {
        for sleeper in &self.sleepers {
            sleeper.unparker.unpark();
        }
    }

    /// Who has something to do after the entries that the station has made since its journal had so many.
    fn news(&self, station: &Station<S, B, K>, before: usize) -> News {
        let mut news = News {
            links: 0,
            declares: false,
        };
        for entry in station.since(before) {
            news.declares |= entry.declared.is_some();
            for (to, _) in entry.sent.as_slice() {
                if let Some(place) = self.sleepers.iter().position(|sleeper| sleeper.to == *to) {
                    news.links |= 1 << (place % 64);
                }
            }
        }
        news
    }

    /// Wakes those threads. It locks nothing, waits for nobody and takes no memory.
    fn wake_for(&self, news: News) {
        for (place, sleeper) in self.sleepers.iter().enumerate() {
            if news.links >> (place % 64) & 1 == 1 && sleeper.has_work() {
                sleeper.unparker.unpark();
            }
        }
        if news.declares {
            if let Some(watcher) = self.watcher.get() {
                watcher.unpark();
            }
        }
    }

    /// The thread of the link to a site takes its frames only to drop them from now on. So a step wakes it only where frames
    /// wait for room in the ring, and most steps wake nobody for it.
    pub fn wake_seldom(&self, to: SiteId) {
        if let Some(sleeper) = self.sleepers.iter().find(|sleeper| sleeper.to == to) {
            sleeper.is_dropping.store(true, Ordering::SeqCst);
        }
    }

    /// How many frames wait for room in the ring of the link to a site, as of the last step or release. It locks nothing,
    /// waits for nobody and takes no memory.
    pub fn waiting(&self, to: SiteId) -> usize {
        match self.sleepers.iter().find(|sleeper| sleeper.to == to) {
            Some(sleeper) => sleeper.waiting.load(Ordering::Relaxed),
            None => 0,
        }
    }

    /// The station, which is no longer shared.
    pub fn into_station(self) -> Station<S, B, K> {
        let SharedStation {
            station,
            sleepers: _sleepers,
            watcher: _watcher,
            follower: _follower,
        } = self;
        station.into_inner()
    }
}

/// A parker for each tap, the last one first, and what wakes each, in the order of the taps.
fn make_parkers(alloc: Global, taps: &[LinkTap]) -> Result<(Vec<Parker>, Vec<Sleeper>), AllocError>
    ensures { IfOk result (λ made. vec_len made.0 ≡ length taps.now) }
{
    let mut parkers = Vec::with_capacity(alloc, taps.len())?;
    let mut sleepers = Vec::with_capacity(alloc, taps.len())?;
    for tap in taps {
        let parker = Parker::new(alloc)?;
        sleepers.push(Sleeper {
            to: tap.to(),
            unparker: parker.unparker().clone()?,
            waiting: tap.waiting()?,
            is_dropping: AtomicBool::new(false),
        })?;
        parkers.push(parker)?;
    }
    parkers.reverse();
    Ok((parkers, sleepers))
}

/// Each tap with a parker, into room that is there.
fn with_parkers(
    taps: Vec<LinkTap>,
    mut parkers: Vec<Parker>,
    mut parking: Vec<ParkingTap>,
) -> Vec<ParkingTap>
    requires parkers { vec_len parkers ≡ vec_len taps }
    requires room { (vec_len taps ≤ vec_capacity parking) × (parking.items ≡ []) }
    ensures { result.items ≡ taps.items }
{
    for tap in taps {
        let Some(parker) = parkers.pop() else {
            unreachable!();
        };
        parking.push_reserved(ParkingTap::new(tap, parker));
    }
    parking
}

/// Steps all events, if the station can step the first one.
fn step_from_first<R: Wait, S: Sink, B: Listing, K: Keeper>(
    rt: &R,
    station: &mut Station<S, B, K>,
    events: &[Event],
) -> Result<Vec<Result<Outcome, StationRefusal>>, StationRefusal>
    requires some { 0 < length events.now }
    requires few { length events.now ≤ batch_limit }
    ensures ok { IfOk result (λ answers. SteppedAll station.old.core events.now answers.items station.new.core) }
    ensures refused { IfErr result (λ refusal. NotSteppedFromFirst station.old.core events.now refusal station.new.core) }
{
    match station.check(&events[0]) {
        Err(refusal) => Err(refusal),
        Ok(()) => match station.step_all(rt, events) {
            Ok(answers) => Ok(answers),
            Err(refusal) => Err(refusal),
        },
    }
}
