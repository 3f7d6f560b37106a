//! The frames that are under way between the sites of a world, found by the sites' numbers.

ghost use Rattle.std.specs.Prelude.{◌≡◌, ◌≢◌, ◌++◌, ◌∷◌, [], ℕ, ◌<◌, length, slice_get, OnOk, OnErr, MatchBool, Some};
ghost use Rattle.std.specs.Option.{option_to_list};
ghost use Rattle.cmh_world.specs.Links.{SameQueues, SameRow, if_some_at, if_some_to, only_at, only_to, queue_at, waiting, without_at, without_to};

use cmh_frames::{Frame, SiteId};
use std::alloc::{AllocError, Global};
use std::collections::VecDeque;
use std::marker::Model;

/// The frames from one site to another, the oldest first.
#[derive(Drop)]
struct Queue {
    frames: VecDeque<Frame>,
}

impl Model for Queue {
    ghost use Rattle.std.specs.Prelude.{List};
    ghost use Rattle.cmh_frames.specs.declared.frame.Frame.{Frame};

    ghost Value = { List Frame };

    ghost view = { λ q. q.frames.items };
}

impl Queue {
    fn new(alloc: Global) -> Self
        ensures { result ≡ [] }
    {
        Queue {
            frames: VecDeque::new(alloc),
        }
    }

    fn front(&self) -> Option<Frame>
        ensures { result ≡ slice_get self.now 0 }
    {
        self.frames.front().copied()
    }

    fn len(&self) -> usize
        ensures { result ≡ length self.now }
    {
        self.frames.len()
    }

    #[inline(always)]
    fn send(&mut self, frame: Frame) -> Result<(), AllocError>
        ensures ok { OnOk result (self.new ≡ self.old ++ frame ∷ []) }
        ensures err { OnErr result (self.new ≡ self.old) }
    {
        self.frames.push_back(frame)?;
        Ok(())
    }

    fn receive(&mut self) -> Option<Frame>
        ensures first { result ≡ slice_get self.old 0 }
        ensures moved { self.old ≡ option_to_list result ++ self.new }
    {
        self.frames.pop_front()
    }

    #[inline(always)]
    fn receive_this(&mut self, frame: &Frame) -> bool
        ensures { MatchBool result (self.old ≡ frame.now ∷ self.new)
            ((self.new ≡ self.old) × (slice_get self.old 0 ≢ Some frame.now)) }
    {
        match self.frames.front() {
            Some(first) if first == frame => {}
            _ => return false,
        }
        let _ = self.frames.pop_front();
        true
    }

    fn clear(&mut self)
        ensures { self.new ≡ [] }
    {
        self.frames.clear();
    }
}

/// The queues of one sender, each at its receiver's number.
#[derive(Drop)]
struct Row {
    queues: Vec<Queue>,
}

impl Model for Row {
    ghost use Rattle.std.specs.Prelude.{List};
    ghost use Rattle.cmh_frames.specs.declared.frame.Frame.{Frame};

    ghost Value = { List (List Frame) };

    ghost view = { λ r. r.queues.items };
}

impl Row {
    fn new(alloc: Global) -> Self
        ensures { result ≡ [] }
    {
        Row {
            queues: Vec::new(alloc),
        }
    }

    fn front(&self, to: SiteId) -> Option<Frame>
        ensures { result ≡ slice_get (queue_at self.now to) 0 }
    {
        match self.queues.get(to.get() as usize) {
            Some(queue) => queue.front(),
            None => None,
        }
    }

    fn len(&self, to: SiteId) -> usize
        ensures { result ≡ length (queue_at self.now to) }
    {
        match self.queues.get(to.get() as usize) {
            Some(queue) => queue.len(),
            None => 0,
        }
    }

    #[inline(always)]
    fn send(&mut self, alloc: Global, to: SiteId, frame: Frame) -> Result<(), AllocError>
        ensures ok { OnOk result ((b : ℕ) → queue_at self.new b ≡ queue_at self.old b ++ only_to to frame b) }
        ensures err { OnErr result (SameRow self.old self.new) }
    {
        self.lengthen(alloc, to)?;
        self.queues[to.get() as usize].send(frame)
    }

    fn receive(&mut self, to: SiteId) -> Option<Frame>
        ensures first { result ≡ slice_get (queue_at self.old to) 0 }
        ensures moved { (b : ℕ) → queue_at self.old b ≡ if_some_to to result b ++ queue_at self.new b }
    {
        let at = to.get() as usize;
        if at < self.queues.len() {
            self.queues[at].receive()
        } else {
            None
        }
    }

    #[inline(always)]
    fn receive_this(&mut self, to: SiteId, frame: &Frame) -> bool
        ensures { MatchBool result
            ((b : ℕ) → queue_at self.old b ≡ only_to to frame.now b ++ queue_at self.new b)
            ((self.new ≡ self.old) × (slice_get (queue_at self.old to) 0 ≢ Some frame.now)) }
    {
        let at = to.get() as usize;
        if at < self.queues.len() {
            self.queues[at].receive_this(frame)
        } else {
            false
        }
    }

    fn clear(&mut self, to: SiteId)
        ensures { (b : ℕ) → queue_at self.new b ≡ without_to to (queue_at self.old b) b }
    {
        let at = to.get() as usize;
        if at < self.queues.len() {
            self.queues[at].clear();
        }
    }

    /// Adds empty queues, up to that of this site.
    fn lengthen(&mut self, alloc: Global, to: SiteId) -> Result<(), AllocError>
        ensures room { OnOk result (to < length self.new) }
        ensures same { SameRow self.old self.new }
    {
        for _ in self.queues.len()..to.get() as usize + 1 {
            self.queues.push(Queue::new(alloc))?;
        }
        Ok(())
    }
}

/// The frames that were sent and not yet got, of each site to each other.
///
/// It grows as sites send, up to the greatest numbers that were used, and does not shrink.
#[derive(Drop)]
pub struct Links {
    alloc: Global,

    /// Each at its sender's number.
    rows: Vec<Row>,
}

impl Model for Links {
    ghost use Rattle.cmh_world.specs.Links as spec;

    ghost Value = { spec.Links };

    ghost view = { λ l. l.rows.items };
}

impl Links {
    /// Nothing is under way. Takes no memory.
    pub fn new(alloc: Global) -> Self
        ensures { (a b : ℕ) → waiting result a b ≡ [] }
    {
        Links {
            alloc,
            rows: Vec::new(alloc),
        }
    }

    /// The oldest frame under way from one site to another.
    pub fn front(&self, from: SiteId, to: SiteId) -> Option<Frame>
        ensures { result ≡ slice_get (waiting self.now from to) 0 }
    {
        match self.rows.get(from.get() as usize) {
            Some(row) => row.front(to),
            None => None,
        }
    }

    /// How many frames are under way from one site to another.
    pub fn len(&self, from: SiteId, to: SiteId) -> usize
        ensures { result ≡ length (waiting self.now from to) }
    {
        match self.rows.get(from.get() as usize) {
            Some(row) => row.len(to),
            None => 0,
        }
    }

    /// Puts a frame after those that are under way. Where memory is refused, all stay as they were.
    #[inline(always)]
    pub fn send(&mut self, from: SiteId, to: SiteId, frame: Frame) -> Result<(), AllocError>
        ensures ok { OnOk result ((a b : ℕ) → waiting self.new a b
            ≡ waiting self.old a b ++ only_at from to frame a b) }
        ensures err { OnErr result (SameQueues self.old self.new) }
    {
        let alloc = self.alloc;
        self.lengthen(from)?;
        self.rows[from.get() as usize].send(alloc, to, frame)
    }

    /// Takes the oldest frame, if there is one.
    pub fn receive(&mut self, from: SiteId, to: SiteId) -> Option<Frame>
        ensures first { result ≡ slice_get (waiting self.old from to) 0 }
        ensures moved { (a b : ℕ) → waiting self.old a b ≡ if_some_at from to result a b ++ waiting self.new a b }
    {
        let at = from.get() as usize;
        if at < self.rows.len() {
            self.rows[at].receive(to)
        } else {
            None
        }
    }

    /// Takes the oldest frame, if it is this one.
    #[inline(always)]
    pub fn receive_this(&mut self, from: SiteId, to: SiteId, frame: &Frame) -> bool
        ensures { MatchBool result
            ((a b : ℕ) → waiting self.old a b ≡ only_at from to frame.now a b ++ waiting self.new a b)
            ((self.new ≡ self.old) × (slice_get (waiting self.old from to) 0 ≢ Some frame.now)) }
    {
        let at = from.get() as usize;
        if at < self.rows.len() {
            self.rows[at].receive_this(to, frame)
        } else {
            false
        }
    }

    /// Takes all frames that are under way from one site to another.
    pub fn clear(&mut self, from: SiteId, to: SiteId)
        ensures { (a b : ℕ) → waiting self.new a b ≡ without_at from to (waiting self.old a b) a b }
    {
        let at = from.get() as usize;
        if at < self.rows.len() {
            self.rows[at].clear(to);
        }
    }

    /// Adds rows without queues, up to that of this site.
    fn lengthen(&mut self, from: SiteId) -> Result<(), AllocError>
        ensures room { OnOk result (from < length self.new) }
        ensures same { SameQueues self.old self.new }
    {
        for _ in self.rows.len()..from.get() as usize + 1 {
            self.rows.push(Row::new(self.alloc))?;
        }
        Ok(())
    }
}
