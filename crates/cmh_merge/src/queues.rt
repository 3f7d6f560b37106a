//! The frames that are under way between sites, found by the sites' numbers.

ghost use Rattle.std.specs.Prelude.{◌≡◌, ◌++◌, ◌∷◌, [], ℕ, ◌<◌, length, slice_get, OnOk, OnErr};
ghost use Rattle.std.specs.Option.{option_to_list};
ghost use Rattle.cmh_merge.specs.Queues.{SameQueues, if_some_at, only_at, queue_at, waiting};
ghost use Rattle.cmh_merge.specs.Inner.Rows.{SameRow, if_some_to, only_to};

use cmh_runs::SiteId;
use std::alloc::{AllocError, Global};
use std::collections::VecDeque;
use std::marker::Model;

/// The frames from one site to another, the oldest first.
#[derive(Drop)]
struct Queue<F> {
    frames: VecDeque<F>,
}

impl<F> Model for Queue<F> {
    ghost use Rattle.std.specs.Prelude.{List};

    ghost Value = { List F };

    ghost view = { λ q. q.frames.items };
}

impl<F: Copy + Drop> Queue<F> {
    fn new(alloc: Global) -> Self
        ensures { result ≡ [] }
    {
        Queue {
            frames: VecDeque::new(alloc),
        }
    }

    fn front(&self) -> Option<F>
        ensures { result ≡ slice_get self.now 0 }
    {
        self.frames.front().copied()
    }

    fn len(&self) -> usize
        ensures { result ≡ length self.now }
    {
        self.frames.len()
    }

    #[inline(always)]
    fn send(&mut self, frame: F) -> Result<(), AllocError>
        ensures ok { OnOk result (self.new ≡ self.old ++ frame ∷ []) }
        ensures err { OnErr result (self.new ≡ self.old) }
    {
        self.frames.push_back(frame)?;
        Ok(())
    }

    fn receive(&mut self) -> Option<F>
        ensures first { result ≡ slice_get self.old 0 }
        ensures moved { self.old ≡ option_to_list result ++ self.new }
    {
        self.frames.pop_front()
    }
}

/// The queues of one sender, each at its receiver's number.
#[derive(Drop)]
struct Row<F> {
    queues: Vec<Queue<F>>,
}

impl<F> Model for Row<F> {
    ghost use Rattle.std.specs.Prelude.{List};

    ghost Value = { List (List F) };

    ghost view = { λ r. r.queues.items };
}

impl<F: Copy + Drop> Row<F> {
    fn new(alloc: Global) -> Self
        ensures { result ≡ [] }
    {
        Row {
            queues: Vec::new(alloc),
        }
    }

    fn front(&self, to: SiteId) -> Option<F>
        ensures { result ≡ slice_get (queue_at self.now to) 0 }
    {
        match self.queues.get(to.get() as usize) {
            Some(queue) => queue.front(),
            None => None,
        }
    }

    fn len(&self, to: SiteId) -> usize
        ensures { result ≡ length (queue_at self.now to) }
    {
        match self.queues.get(to.get() as usize) {
            Some(queue) => queue.len(),
            None => 0,
        }
    }

    #[inline(always)]
    fn send(&mut self, alloc: Global, to: SiteId, frame: F) -> Result<(), AllocError>
        ensures ok { OnOk result ((b : ℕ) → queue_at self.new b ≡ queue_at self.old b ++ only_to to frame b) }
        ensures err { OnErr result (SameRow self.old self.new) }
    {
        self.lengthen(alloc, to)?;
        self.queues[to.get() as usize].send(frame)
    }

    fn receive(&mut self, to: SiteId) -> Option<F>
        ensures first { result ≡ slice_get (queue_at self.old to) 0 }
        ensures moved { (b : ℕ) → queue_at self.old b ≡ if_some_to to result b ++ queue_at self.new b }
    {
        let at = to.get() as usize;
        if at < self.queues.len() {
            self.queues[at].receive()
        } else {
            None
        }
    }

    /// Adds empty queues, up to that of this site.
    fn lengthen(&mut self, alloc: Global, to: SiteId) -> Result<(), AllocError>
        ensures room { OnOk result (to < length self.new) }
        ensures same { SameRow self.old self.new }
    {
        for _ in self.queues.len()..to.get() as usize + 1 {
            self.queues.push(Queue::new(alloc))?;
        }
        Ok(())
    }
}

/// The frames that were sent and not yet got, of each site to each other.
///
/// It grows as sites send, up to the greatest numbers that were used, and does not shrink.
#[derive(Drop)]
pub struct Queues<F> {
    alloc: Global,

    /// Each at its sender's number.
    rows: Vec<Row<F>>,
}

impl<F> Model for Queues<F> {
    ghost use Rattle.cmh_merge.specs.Queues as spec;

    ghost Value = { spec.Queues F };

    ghost view = { λ q. q.rows.items };
}

impl<F: Copy + Drop> Queues<F> {
    /// Nothing is under way. Takes no memory.
    pub fn new(alloc: Global) -> Self
        ensures { (a b : ℕ) → waiting result a b ≡ [] }
    {
        Queues {
            alloc,
            rows: Vec::new(alloc),
        }
    }

    /// The oldest frame under way from one site to another.
    pub fn front(&self, from: SiteId, to: SiteId) -> Option<F>
        ensures { result ≡ slice_get (waiting self.now from to) 0 }
    {
        match self.rows.get(from.get() as usize) {
            Some(row) => row.front(to),
            None => None,
        }
    }

    /// How many frames are under way from one site to another.
    pub fn len(&self, from: SiteId, to: SiteId) -> usize
        ensures { result ≡ length (waiting self.now from to) }
    {
        match self.rows.get(from.get() as usize) {
            Some(row) => row.len(to),
            None => 0,
        }
    }

    /// Puts a frame after those that are under way. Where memory is refused, all stay as they were.
    #[inline(always)]
    pub fn send(&mut self, from: SiteId, to: SiteId, frame: F) -> Result<(), AllocError>
        ensures ok { OnOk result ((a b : ℕ) → waiting self.new a b
            ≡ waiting self.old a b ++ only_at from to frame a b) }
        ensures err { OnErr result (SameQueues self.old self.new) }
    {
        let alloc = self.alloc;
        self.lengthen(from)?;
        self.rows[from.get() as usize].send(alloc, to, frame)
    }

    /// Takes the oldest frame, if there is one.
    pub fn receive(&mut self, from: SiteId, to: SiteId) -> Option<F>
        ensures first { result ≡ slice_get (waiting self.old from to) 0 }
        ensures moved { (a b : ℕ) → waiting self.old a b ≡ if_some_at from to result a b ++ waiting self.new a b }
    {
        let at = from.get() as usize;
        if at < self.rows.len() {
            self.rows[at].receive(to)
        } else {
            None
        }
    }

    /// Adds rows without queues, up to that of this site.
    fn lengthen(&mut self, from: SiteId) -> Result<(), AllocError>
        ensures room { OnOk result (from < length self.new) }
        ensures same { SameQueues self.old self.new }
    {
        for _ in self.rows.len()..from.get() as usize + 1 {
            self.rows.push(Row::new(self.alloc))?;
        }
        Ok(())
    }
}
