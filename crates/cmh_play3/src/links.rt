//! The links of a world that is played, and the messages under way on them.

ghost use Rattle.std.specs.Prelude.{◌≡◌, [], ℕ, ◌==◌, ◌&&◌, ◌||◌, ◌++◌, ◌∷◌, drop, length, false, true, slice_get, if◌then◌else◌, OnOk, OnErr};
ghost use Rattle.cmh_play3.specs.Links.{is_cut, under_way};

use cmh_merge::Queues;
use cmh_model3::{Message, SiteId};
use std::alloc::{AllocError, Global};
use std::collections::BTreeSet;
use std::marker::Model;

/// The sites that a link goes from and to.
#[derive(Clone, Copy, PartialEq, Eq, PartialOrd, Ord)]
struct Ends {
    from: SiteId,
    to: SiteId,
}

/// The links of a world, each with the messages under way on it. A link that was never used is open and empty. What is
/// sent on a link that is cut stays under way for ever: nobody takes it off.
#[derive(Drop)]
pub struct Links {
    queues: Queues<Message>,
    cut: BTreeSet<Ends>,
}

impl Model for Links {
    ghost use Rattle.cmh_play3.specs.Links as spec;

    ghost Value = { spec.Links };

    ghost view = { λ l. (l.queues, l.cut.keys) };
}

impl Links {
    /// All links, open and empty. Takes no memory.
    pub fn new(alloc: Global) -> Self
        ensures empty { (a b : ℕ) → under_way result a b ≡ [] }
        ensures open_all { (a b : ℕ) → is_cut result a b ≡ false }
    {
        Links {
            queues: Queues::new(alloc),
            cut: BTreeSet::new(alloc),
        }
    }

    pub fn is_cut(&self, from: SiteId, to: SiteId) -> bool
        ensures { result ≡ is_cut self.now from to }
    {
        self.cut.contains(&Ends { from, to })
    }

    /// The oldest message under way.
    pub fn front(&self, from: SiteId, to: SiteId) -> Option<Message>
        ensures { result ≡ slice_get (under_way self.now from to) 0 }
    {
        self.queues.front(from, to)
    }

    /// How many messages are under way.
    pub fn len(&self, from: SiteId, to: SiteId) -> usize
        ensures { result ≡ length (under_way self.now from to) }
    {
        self.queues.len(from, to)
    }

    /// Puts a message after those under way.
    pub fn send(&mut self, from: SiteId, to: SiteId, message: Message) -> Result<(), AllocError>
        ensures sent { OnOk result ((a b : ℕ) → under_way self.new a b
            ≡ under_way self.old a b ++ (if (from == a) && (to == b) then message ∷ [] else [])) }
        ensures cuts { (a b : ℕ) → is_cut self.new a b ≡ is_cut self.old a b }
    {
        self.queues.send(from, to, message)
    }

    /// Takes the oldest message off the link, if there is one.
    pub fn drop_front(&mut self, from: SiteId, to: SiteId)
        ensures taken { (a b : ℕ) → under_way self.new a b
            ≡ (if (from == a) && (to == b) then drop 1 (under_way self.old a b) else under_way self.old a b) }
        ensures cuts { (a b : ℕ) → is_cut self.new a b ≡ is_cut self.old a b }
    {
        let _ = self.queues.receive(from, to);
    }

    /// Cuts a link.
    pub fn cut(&mut self, from: SiteId, to: SiteId) -> Result<(), AllocError>
        ensures cut { OnOk result ((a b : ℕ) → is_cut self.new a b ≡ (((from == a) && (to == b)) || is_cut self.old a b)) }
        ensures same { (a b : ℕ) → under_way self.new a b ≡ under_way self.old a b }
    {
        self.cut.insert(Ends { from, to })?;
        Ok(())
    }
}
