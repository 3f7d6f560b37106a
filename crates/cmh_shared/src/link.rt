//! The site's end of one link.

ghost use Rattle.std.specs.Prelude.{◌==◌, ◌≡◌, ◌+◌, ℕ, length, flat_map, IfOk, OnOk};

use crate::tap::LinkTap;
use cmh_runs::{Entry, SiteId};
use rtrb::{Producer, RingBuffer};
use std::alloc::{AllocError, Global};
use std::collections::VecDeque;
use std::sync::Arc;
use std::sync::atomic::{AtomicUsize, Ordering};

/// How many frames a ring holds.
const PLACES: usize = 64;

/// An empty backlog with room for more frames gives it back.
const MOST_KEPT_ROOM: usize = 8192;

/// The ring's producer, and the frames that are not in the ring yet.
#[derive(Drop)]
pub(crate) struct Link<F> {
    to: SiteId,
    pub(crate) producer: Producer<F>,
    backlog: VecDeque<F>,
    /// How many frames the backlog has, for those who look at it from other threads.
    waiting: Arc<AtomicUsize>,
}

fn is_same(a: SiteId, b: SiteId) -> bool
    ensures { result ≡ (a == b) }
{
    a == b
}

impl<F: Copy + Drop> Link<F> {
    ghost use Rattle.cmh_shared.specs.Backlogs.{HasRoom, seen};
    ghost use Rattle.cmh_shared.specs.Links.{AreFresh, Released, queued};

    /// A link to a site, and its tap.
    pub fn open(alloc: Global, to: SiteId) -> Result<(Link<F>, LinkTap<F>), AllocError>
        ensures to { IfOk result (λ opened. (seen opened.0).to ≡ to) }
        ensures fresh { IfOk result (λ opened. AreFresh (seen opened.0) opened.1) }
    {
        let (producer, consumer) = RingBuffer::new(alloc, PLACES)?;
        let waiting = Arc::new(alloc, AtomicUsize::new(0))?;
        let tap = LinkTap::new(to, consumer, Arc::try_clone(&waiting)?);
        let link = Link {
            to,
            producer,
            backlog: VecDeque::new(alloc),
            waiting,
        };
        Ok((link, tap))
    }

    /// Makes room in the backlog for so many more frames.
    pub fn reserve(&mut self, count: usize) -> Result<(), AllocError>
        ensures same { seen self.new ≡ seen self.old }
        ensures room { OnOk result (HasRoom count self.new) }
    {
        self.backlog.reserve(count)
    }

    /// The frames of entries for the link's site go to the end of the backlog, in their order. It takes no memory.
    pub fn queue_all<E>(&mut self, entries: &[Entry<E, F>])
        requires { HasRoom (length (flat_map (λ entry. entry.sent) entries.now)) self.old }
        ensures { seen self.new ≡ queued (flat_map (λ entry. entry.sent) entries.now) (seen self.old) }
    {
        for entry in entries {
            self.queue(entry.sent.as_slice());
        }
        self.show_waiting();
    }

    /// The same of one entry; what room it does not take is left.
    #[tactic(auto, using(crate::proofs::Sites::frames_to_here, crate::proofs::Sites::frames_to_other))]
    fn queue(&mut self, sent: &[(SiteId, F)])
        requires { HasRoom (length sent.now) self.old }
        ensures backlog { seen self.new ≡ queued sent.now (seen self.old) }
        ensures room { (more : ℕ) → HasRoom (length sent.now + more) self.old → HasRoom more self.new }
    {
        for (to, frame) in sent {
            if is_same(*to, self.to) {
                self.backlog.push_back_reserved(*frame);
            }
        }
    }

    /// Moves frames from the backlog into the ring while the producer knows of a free place. It takes no memory, and gives
    /// back that of a backlog which had many and is empty now.
    pub fn release(&mut self)
        ensures { Released (seen self.old) (seen self.new) }
    {
        self.refill();
        if self.backlog.is_empty() && self.backlog.capacity() > MOST_KEPT_ROOM {
            self.backlog.shrink_to_fit();
        }
        self.show_waiting();
    }

    fn refill(&mut self)
        ensures { Released (seen self.old) (seen self.new) }
    {
        while self.backlog.len() > 0 {
            if self.producer.is_full() {
                return;
            }
            let Some(frame) = self.backlog.pop_front() else {
                unreachable!();
            };
            self.producer.push_reserved(frame);
        }
    }

    fn show_waiting(&self) {
        self.waiting.store(self.backlog.len(), Ordering::Relaxed);
    }
}
