//! The connections of a site whose threads run, for those that let these threads go.

use crate::backlog::BacklogLimit;
use cmh_carriers::ConnectionHandle;
use cmh_frames::SiteId;
use cmh_journal::Sink;
use cmh_station::{Keeper, Listing, SharedStation};
use std::alloc::Global;
use std::sync::atomic::{AtomicBool, Ordering};
use std::sync::{Arc, Mutex, Wait};
use std::time::{Clock, Duration};

/// A connection that a thread reads or writes.
#[derive(Drop)]
pub(crate) struct Seat<L: ConnectionHandle + Drop> {
    /// Another handle of it, which goes with the thread, so that its descriptor is given back at once.
    handle: Mutex<Option<L>>,
    /// The site to which it was opened; `None` of one that was accepted.
    to: Option<SiteId>,
    /// When it came, by the clock that never goes back.
    began: Duration,
    /// Whether it is still to tell a good hello.
    is_awaited: AtomicBool,
    /// Whether it was ended because nobody read what waits for it.
    is_unread: AtomicBool,
    /// Whether its thread is done with it.
    is_over: AtomicBool,
}

impl<L: ConnectionHandle + Drop> Seat<L> {
    fn new(handle: L, to: Option<SiteId>, began: Duration) -> Seat<L> {
        Seat {
            handle: Mutex::new(Some(handle)),
            to,
            began,
            is_awaited: AtomicBool::new(true),
            is_unread: AtomicBool::new(false),
            is_over: AtomicBool::new(false),
        }
    }

    /// It told a good hello.
    pub fn tell(&self) {
        self.is_awaited.store(false, Ordering::SeqCst);
    }

    /// Its thread is done with it, and has no handle of it any more.
    pub fn leave<R: Wait>(&self, rt: &R) {
        let mut handle = self.handle.lock(rt);
        *handle = None;
        self.is_over.store(true, Ordering::SeqCst);
    }

    /// Whether its thread is done with it.
    pub fn is_over(&self) -> bool {
        self.is_over.load(Ordering::SeqCst)
    }

    /// Ends it, so that its thread waits for the other end no more.
    pub fn shut<R: Wait>(&self, rt: &R) {
        let guard = self.handle.lock(rt);
        if let Some(handle) = &*guard {
            handle.shut();
        }
    }

    /// When it came, if it is still to tell a good hello.
    pub fn silent_since(&self) -> Option<Duration> {
        if self.is_awaited.load(Ordering::SeqCst) {
            Some(self.began)
        } else {
            None
        }
    }

    /// Whether it has told no good hello for this long.
    pub fn is_silent_for<R: Clock>(&self, rt: &R, least: Duration) -> bool {
        match (self.silent_since(), rt.monotonic()) {
            (Some(since), Ok(now)) => now.saturating_sub(since) >= least,
            _ => false,
        }
    }

    /// Ends it, if it is still to tell a good hello, and says whether it did.
    pub fn shut_if_silent<R: Wait>(&self, rt: &R) -> bool {
        if !self.is_awaited.swap(false, Ordering::SeqCst) {
            return false;
        }
        self.shut(rt);
        true
    }

    /// Ends it, if more frames wait for its site than may, and says how many, once.
    fn shut_if_unread<R: Wait, S: Sink, B: Listing, K: Keeper>(
        &self,
        rt: &R,
        station: &SharedStation<S, B, K>,
        most: BacklogLimit,
    ) -> Option<(SiteId, usize)> {
        let site = self.to?;
        let waiting = station.waiting(site);
        if !most.is_passed_by(waiting) || self.is_over() {
            return None;
        }
        if self.is_unread.swap(true, Ordering::SeqCst) {
            return None;
        }
        self.shut(rt);
        Some((site, waiting))
    }
}

/// The connections of a site, all that it accepted or all that it opened.
#[derive(Drop)]
pub(crate) struct Seats<L: ConnectionHandle + Drop> {
    seats: Mutex<Vec<Arc<Seat<L>>>>,
}

impl<L: ConnectionHandle + Drop> Seats<L> {
    /// Nobody is seated.
    pub fn new(alloc: Global) -> Seats<L> {
        Seats {
            seats: Mutex::new(Vec::new(alloc)),
        }
    }

    /// Seats a connection that came just now, by another handle of it. `None` where memory was refused, or the clock can't
    /// be read.
    pub fn seat<R: Wait + Clock>(
        &self,
        rt: &R,
        handle: L,
        to: Option<SiteId>,
    ) -> Option<Arc<Seat<L>>> {
        let began = rt.monotonic().ok()?;
        let mut guard = self.seats.lock(rt);
        let seats = &mut *guard;
        seats.retain(|seat| !seat.is_over());
        let seat = Arc::new(*seats.allocator(), Seat::new(handle, to, began)).ok()?;
        seats.push(Arc::try_clone(&seat).ok()?).ok()?;
        Some(seat)
    }

    /// Ends all of them.
    pub fn shut_all<R: Wait>(&self, rt: &R) {
        let seats = self.seats.lock(rt);
        for seat in &*seats {
            seat.shut(rt);
        }
    }

    /// Ends those that told no good hello, and came so long before. Answers how many.
    pub fn shut_silent<R: Wait>(&self, rt: &R, now: Duration, most: Duration) -> usize {
        let mut count = 0usize;
        let seats = self.seats.lock(rt);
        for seat in &*seats {
            let is_late = now.saturating_sub(seat.began) >= most;
            if is_late && seat.shut_if_silent(rt) {
                count = count.saturating_add(1);
            }
        }
        count
    }

    /// Ends the first connection for whose site more frames wait than may, and says for which, and how many; each one once.
    pub fn shut_unread<R: Wait, S: Sink, B: Listing, K: Keeper>(
        &self,
        rt: &R,
        station: &SharedStation<S, B, K>,
        most: BacklogLimit,
    ) -> Option<(SiteId, usize)> {
        let seats = self.seats.lock(rt);
        for seat in &*seats {
            if let Some(unread) = seat.shut_if_unread(rt, station, most) {
                return Some(unread);
            }
        }
        None
    }
}
