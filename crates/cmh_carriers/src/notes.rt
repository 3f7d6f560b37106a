//! The way of notes from the threads that make them to the one that tells them.

ghost use Rattle.std.specs.Prelude.{◌≡◌, ◌+◌, ◌-◌, ◌<◌, ◌^◌, ◌∷◌, IfSome, IfNone, vec_len};

use crate::meter::Meter;
use crate::note::{Note, Noted, Origin};
use std::alloc::{AllocError, Global};
use std::sync::atomic::{AtomicBool, Ordering};
use std::sync::{Arc, Mutex, Wait};
use std::thread;
use std::thread::{Parker, Threads};
use std::time::{Clock, Duration};

/// How many notes wait to be told, at most.
const MOST_WAITING: usize = 64;

/// How long it is waited, at the end, for notes that still are to be told.
const MOST_END_SECONDS: u64 = 1;

/// What tells notes.
pub trait Voice {
    /// Tells a note. It may wait, and nobody waits for it.
    fn tell(&self, noted: &Noted);
}

/// Tells nothing.
#[derive(Clone, Copy, Drop)]
pub struct NoVoice;

impl Voice for NoVoice {
    fn tell(&self, _noted: &Noted) {}
}

/// Notes that wait to be told, the oldest first.
#[derive(Drop)]
struct Queue {
    waiting: Vec<Noted>,
    /// How many found no place.
    missed: u64,
}

impl Queue {
    /// Each note waits or is counted.
    fn put(&mut self, origin: Origin, note: Note)
        ensures counted { self.old.missed < 2 ^ 64 - 1 → vec_len self.new.waiting + self.new.missed
            ≡ vec_len self.old.waiting + self.old.missed + 1 }
    {
        if self.waiting.len() < MOST_WAITING {
            if let Ok(()) = self.waiting.push(Noted { origin, note }) {
                return;
            }
        }
        self.missed = self.missed.saturating_add(1);
    }

    /// The oldest note.
    fn next(&mut self) -> Option<Noted>
        ensures some { IfSome result (λ noted. self.old.waiting.items ≡ noted ∷ self.new.waiting.items) }
        ensures none { IfNone result ((vec_len self.old.waiting ≡ 0) × (vec_len self.new.waiting ≡ 0)) }
        ensures missed { self.new.missed ≡ self.old.missed }
    {
        if self.waiting.is_empty() {
            None
        } else {
            Some(self.waiting.remove(0))
        }
    }

    /// How many found no place since it was asked before.
    fn take_missed(&mut self) -> u64
        ensures told { result ≡ self.old.missed }
        ensures none { self.new.missed ≡ 0 }
        ensures waiting { self.new.waiting ≡ self.old.waiting }
    {
        let missed = self.missed;
        self.missed = 0;
        missed
    }
}

/// Notes on their way.
#[derive(Drop)]
struct Notes {
    queue: Mutex<Queue>,
    /// What the thread that tells them sleeps on.
    teller: Parker,
    /// What whoever waits for its end sleeps on.
    waiter: Parker,
    is_ending: AtomicBool,
    is_told: AtomicBool,
}

impl Notes {
    fn new(alloc: Global) -> Result<Notes, AllocError> {
        let queue = Queue {
            waiting: Vec::with_capacity(alloc, MOST_WAITING)?,
            missed: 0,
        };
        Ok(Notes {
            queue: Mutex::new(queue),
            teller: Parker::new(),
            waiter: Parker::new(),
            is_ending: AtomicBool::new(false),
            is_told: AtomicBool::new(false),
        })
    }
}

/// Where notes go: to nobody, or to a thread that tells them.
#[derive(Drop)]
pub struct Noting {
    notes: Option<Arc<Notes>>,
}

impl Noting {
    /// Starts the thread that tells notes by a voice, where there is one. Nobody waits for what the voice waits for.
    ///
    /// # Errors
    ///
    /// Memory or a thread was refused.
    pub fn start<R, V>(rt: R, alloc: Global, voice: Option<V>) -> Result<Noting, AllocError>
    where
        R: Wait + Threads + Clock + Copy + Send + Drop + 'static,
        V: Voice + Send + Drop + 'static,
    {
        let Some(voice) = voice else {
            return Ok(Noting { notes: None });
        };
        let notes = Arc::new(alloc, Notes::new(alloc)?)?;
        let theirs = Arc::try_clone(&notes)?;
        let _ = thread::spawn(&rt, move || tell_all(rt, theirs, voice))?;
        Ok(Noting { notes: Some(notes) })
    }

    /// What makes the notes of a site; `None` where they go to nobody.
    pub fn speaker(&self, origin: Origin) -> Result<Option<Speaker>, AllocError> {
        let Some(notes) = &self.notes else {
            return Ok(None);
        };
        let notes = Arc::try_clone(notes)?;
        Ok(Some(Speaker { notes, origin }))
    }

    /// Waits for what is still to be told, for a second at most. No note is made any more.
    pub fn end<R: Wait>(&self, rt: &R) {
        let Some(notes) = &self.notes else {
            return;
        };
        notes.is_ending.store(true, Ordering::SeqCst);
        notes.teller.unpark();
        if !notes.is_told.load(Ordering::SeqCst) {
            notes
                .waiter
                .park_timeout(rt, Duration::from_secs(MOST_END_SECONDS));
        }
    }
}

/// What makes the notes of a site.
#[derive(Drop)]
pub struct Speaker {
    notes: Arc<Notes>,
    origin: Origin,
}

impl Speaker {
    /// Notes something. It takes no memory, and doesn't wait for who tells notes.
    pub fn note<R: Wait>(&self, rt: &R, note: Note) {
        self.notes.queue.lock(rt).put(self.origin, note);
        self.notes.teller.unpark();
    }
}

/// Tells notes until none are to come.
fn tell_all<R: Wait + Clock + Drop, V: Voice + Drop>(rt: R, notes: Arc<Notes>, voice: V) {
    let mut meter = Meter::new(second_of(&rt));
    for _ in rt.forever() {
        let is_ending = notes.is_ending.load(Ordering::SeqCst);
        let mut queue = notes.queue.lock(&rt);
        let next = queue.next();
        let missed = queue.take_missed();
        drop(queue);
        let left_out = meter.turn(second_of(&rt));
        tell_left_out(&voice, left_out);
        meter.leave_out(missed);
        match next {
            Some(noted) => {
                if meter.admit() {
                    voice.tell(&noted);
                }
            }
            None if is_ending => break,
            None => sleep(&rt, &notes, meter.left_out()),
        }
    }
    tell_left_out(&voice, meter.left_out());
    notes.is_told.store(true, Ordering::SeqCst);
    notes.waiter.unpark();
}

/// Sleeps until a note comes, or until it is told how many were left out.
fn sleep<R: Wait>(rt: &R, notes: &Notes, left_out: u64) {
    if left_out == 0 {
        notes.teller.park(rt);
    } else {
        notes.teller.park_timeout(rt, Duration::from_secs(1));
    }
}

fn tell_left_out<V: Voice>(voice: &V, count: u64) {
    if count > 0 {
        voice.tell(&Noted {
            origin: Origin::Alone,
            note: Note::LeftOut(count),
        });
    }
}

/// The second that it is, by the clock that never goes back.
fn second_of<R: Clock>(rt: &R) -> u64 {
    match rt.monotonic() {
        Ok(time) => time.as_secs(),
        Err(_) => 0,
    }
}
