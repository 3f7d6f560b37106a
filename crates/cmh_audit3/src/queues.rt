//! The entries of each site that are not in a run yet.

ghost use Rattle.std.specs.Prelude.{◌≡◌, ◌++◌, ◌==◌, ◌<◌, ℕ, [], if◌then◌else◌, length, slice_get, IfOk, OnOk};
ghost use Rattle.std.specs.Option.{option_to_list};
ghost use Rattle.cmh_audit3.specs.Inner.Queues.{SameQueues, if_some_at, queue_at};
ghost use Rattle.cmh_audit3.specs.Journals.{journal_of};

use cmh_model3::SiteId;
use cmh_segment3::{Entry, Segment};
use std::alloc::{AllocError, Global};
use std::marker::Model;

/// The entries of a site.
#[derive(Drop)]
struct Queue {
    /// The first one last, where it can be taken.
    entries: Vec<Entry>,
}

impl Model for Queue {
    ghost use Rattle.std.specs.Prelude.{List, reverse};
    ghost use Rattle.cmh_segment3.specs.declared.entry.Entry as entry;

    ghost Value = { List entry.Entry };

    ghost view = { λ q. reverse q.entries.items };
}

impl Queue {
    /// No entries. Takes no memory.
    fn new(alloc: Global) -> Self
        ensures { result ≡ [] }
    {
        Queue {
            entries: Vec::new(alloc),
        }
    }

    fn of(entries: Vec<Entry>) -> Self
        ensures { result ≡ entries.items }
    {
        let mut entries = entries;
        entries.reverse();
        Queue { entries }
    }

    fn take(&mut self) -> Option<Entry>
        ensures first { result ≡ slice_get self.old 0 }
        ensures moved { self.old ≡ option_to_list result ++ self.new }
    {
        self.entries.pop()
    }
}

/// The entries of each site that are not in a run yet.
#[derive(Drop)]
pub struct Queues {
    alloc: Global,

    /// Each at its site's number.
    rows: Vec<Queue>,
}

impl Model for Queues {
    ghost use Rattle.cmh_audit3.specs.Inner.Queues as spec;

    ghost Value = { spec.Queues };

    ghost view = { λ q. q.rows.items };
}

impl Queues {
    /// The entries of the segments. Of two of one site it has those of the first.
    pub fn of(alloc: Global, segments: Vec<Segment>) -> Result<Self, AllocError>
        ensures { IfOk result (λ queues. (s : ℕ) → queue_at queues s ≡ journal_of segments.items s) }
    {
        let mut left = segments;
        let mut queues = Queues {
            alloc,
            rows: Vec::new(alloc),
        };
        while let Some(segment) = left.pop() {
            queues.put(segment.header.site, segment.entries.into_rows())?;
        }
        Ok(queues)
    }

    /// Puts the entries of a site in place of those that it has.
    fn put(&mut self, site: SiteId, entries: Vec<Entry>) -> Result<(), AllocError>
        ensures { OnOk result ((s : ℕ) → queue_at self.new s
            ≡ if site == s then entries.items else queue_at self.old s) }
    {
        self.lengthen(site)?;
        self.rows[site.get() as usize] = Queue::of(entries);
        Ok(())
    }

    /// Takes the first entry of a site, if it has one.
    pub fn take(&mut self, site: SiteId) -> Option<Entry>
        ensures first { result ≡ slice_get (queue_at self.old site) 0 }
        ensures moved { (s : ℕ) → queue_at self.old s ≡ if_some_at site result s ++ queue_at self.new s }
    {
        let at = site.get() as usize;
        if at < self.rows.len() {
            self.rows[at].take()
        } else {
            None
        }
    }

    /// Adds empty queues, up to that of this site.
    fn lengthen(&mut self, site: SiteId) -> Result<(), AllocError>
        ensures room { OnOk result (site < length self.new) }
        ensures same { SameQueues self.old self.new }
    {
        for _ in self.rows.len()..site.get() as usize + 1 {
            self.rows.push(Queue::new(self.alloc))?;
        }
        Ok(())
    }
}
