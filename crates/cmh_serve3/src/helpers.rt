//! Threads that help to write answers.

use crate::clients::may_write;
use crate::guests::{Guest, MOST_CLIENTS};
use std::alloc::{AllocError, Global};
use std::sync::atomic::{AtomicBool, AtomicUsize, Ordering};
use std::sync::{Arc, Mutex, Wait};
use std::thread;
use std::thread::{JoinHandle, Parker, Threads};

/// How many threads help, at most.
const MOST_HELPERS: usize = 2;

/// Clients that are written to by whichever thread comes to them first, each under a lock of its own.
#[derive(Drop)]
struct Table {
    places: Vec<Mutex<Option<Guest>>>,
    /// No place from this one on has a client.
    end: AtomicUsize,
    /// What each helper waits for.
    bells: Vec<Parker>,
    is_over: AtomicBool,
}

impl Table {
    fn new(alloc: Global) -> Result<Table, AllocError> {
        let mut places = Vec::with_capacity(alloc, MOST_CLIENTS)?;
        for _ in 0..MOST_CLIENTS {
            places.push(Mutex::new(None))?;
        }
        let mut bells = Vec::with_capacity(alloc, MOST_HELPERS)?;
        for _ in 0..MOST_HELPERS {
            bells.push(Parker::new())?;
        }
        Ok(Table {
            places,
            end: AtomicUsize::new(0),
            bells,
            is_over: AtomicBool::new(false),
        })
    }

    /// Takes the clients that can be sent something, each at its place.
    fn take<R: Wait>(&self, rt: &R, guests: &mut Vec<Option<Guest>>) {
        for (place, guest) in self.places.iter().zip(guests.iter_mut()) {
            if may_write(guest) {
                *place.lock(rt) = guest.take();
            }
        }
        self.end.store(guests.len(), Ordering::SeqCst);
    }

    fn wake_all(&self) {
        for bell in self.bells.iter() {
            bell.unpark();
        }
    }

    /// Gives them back, the first one first. Those that no helper has come to are written to.
    fn give_back<R: Wait>(&self, rt: &R, guests: &mut Vec<Option<Guest>>) {
        for (place, guest) in self.places.iter().zip(guests.iter_mut()) {
            if guest.is_none() {
                *guest = take_written(rt, place);
            }
        }
    }

    /// Writes to those that were not given back, the last one first.
    fn write_backwards(&self) {
        for at in (0..self.end.load(Ordering::SeqCst)).rev() {
            if let Some(place) = self.places.get(at) {
                write_at(place);
            }
        }
    }
}

/// The client at a place, which has nothing more to be written to it now.
fn take_written<R: Wait>(rt: &R, place: &Mutex<Option<Guest>>) -> Option<Guest> {
    let mut client = place.lock(rt).take()?;
    client.write();
    Some(client)
}

/// Writes to the client at a place, unless another thread does.
fn write_at(place: &Mutex<Option<Guest>>) {
    if let Some(mut guest) = place.try_lock() {
        if let Some(client) = &mut *guest {
            client.write();
        }
    }
}

/// What the helper of this number does.
fn help<R: Wait>(rt: &R, table: &Table, number: usize) {
    let Some(bell) = table.bells.get(number) else {
        return;
    };
    for _ in rt.forever() {
        bell.park(rt);
        if table.is_over.load(Ordering::SeqCst) {
            return;
        }
        table.write_backwards();
    }
}

/// The threads that help.
#[derive(Drop)]
pub(crate) struct Helpers {
    table: Arc<Table>,
    threads: Vec<JoinHandle<()>>,
}

impl Helpers {
    /// None yet, with room for all clients.
    pub fn new(alloc: Global) -> Result<Helpers, AllocError> {
        Ok(Helpers {
            table: Arc::new(alloc, Table::new(alloc)?)?,
            threads: Vec::with_capacity(alloc, MOST_HELPERS)?,
        })
    }

    /// Starts them. Where no thread can be made fewer help.
    pub fn start<R>(&mut self, rt: &R)
    where
        R: Wait + Threads + Copy + Send + Drop + 'static,
    {
        for number in 0..MOST_HELPERS {
            if let Some(thread) = self.start_one(rt, number) {
                let _ = self.threads.push(thread);
            }
        }
    }

    fn start_one<R>(&self, rt: &R, number: usize) -> Option<JoinHandle<()>>
    where
        R: Wait + Threads + Copy + Send + Drop + 'static,
    {
        let Ok(table) = Arc::try_clone(&self.table) else {
            return None;
        };
        let own = *rt;
        match thread::spawn(rt, move || help(&own, &table, number)) {
            Ok(thread) => Some(thread),
            Err(_) => None,
        }
    }

    /// Takes the clients that can be sent something. They begin to write to them.
    pub fn take<R: Wait>(&self, rt: &R, guests: &mut Vec<Option<Guest>>) {
        self.table.take(rt, guests);
        self.table.wake_all();
    }

    /// Gives back all that were taken, once each was sent what it is to be sent, as far as its socket takes it.
    pub fn give_back<R: Wait>(&self, rt: &R, guests: &mut Vec<Option<Guest>>) {
        self.table.give_back(rt, guests);
    }

    /// Ends them.
    pub fn end<R: Threads>(&mut self, rt: &R) {
        self.table.is_over.store(true, Ordering::SeqCst);
        self.table.wake_all();
        for _ in 0..MOST_HELPERS {
            if let Some(thread) = self.threads.pop() {
                thread.join(rt);
            }
        }
    }
}
