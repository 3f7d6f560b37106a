//! The links of a world that is played, and the frames under way on them.

ghost use Rattle.std.specs.Prelude.{◌≡◌, [], ℕ, length, Some, None, OnOk, OnErr, MatchOption};
ghost use Rattle.cmh_play.specs.Links.{is_cut, link_of, next_of, with_last, without_first, ChangesLink, SameLinks};

use cmh_frames::{Frame, SiteId};
use std::alloc::{AllocError, Global};
use std::collections::BTreeSet;
use std::marker::Model;

/// The sites that a link goes from and to.
#[derive(Clone, Copy, PartialEq, Eq, PartialOrd, Ord)]
struct Ends {
    from: SiteId,
    to: SiteId,
}

/// The links of a world, each with the frames under way on it. A link that was never used is open and empty.
#[derive(Drop)]
pub struct Links {
    under_way: cmh_world::Links,

    /// The links that are cut, for good: nothing is under way on them.
    cut: BTreeSet<Ends>,
}

impl Model for Links {
    ghost use Rattle.cmh_play.specs.Links as spec;

    ghost Value = { spec.Links };

    ghost view = { λ l. (l.under_way, l.cut.keys) };
}

impl Links {
    /// All links, open and empty. Takes no memory.
    pub fn new(alloc: Global) -> Self
        ensures { (a b : ℕ) → link_of result a b ≡ Some [] }
    {
        Links {
            under_way: cmh_world::Links::new(alloc),
            cut: BTreeSet::new(alloc),
        }
    }

    pub fn is_cut(&self, from: SiteId, to: SiteId) -> bool
        ensures { result ≡ is_cut (link_of self.now from to) }
    {
        self.cut.contains(&Ends { from, to })
    }

    /// The oldest frame under way.
    pub fn front(&self, from: SiteId, to: SiteId) -> Option<Frame>
        ensures { result ≡ next_of (link_of self.now from to) }
    {
        if self.cut.contains(&Ends { from, to }) {
            return None;
        }
        self.under_way.front(from, to)
    }

    /// How many frames are under way.
    pub fn len(&self, from: SiteId, to: SiteId) -> usize
        ensures { MatchOption (link_of self.now from to) (result ≡ 0) (λ frames. result ≡ length frames) }
    {
        if self.cut.contains(&Ends { from, to }) {
            return 0;
        }
        self.under_way.len(from, to)
    }

    /// Puts a frame after those under way; a cut link loses it.
    pub fn send(&mut self, from: SiteId, to: SiteId, frame: Frame) -> Result<(), AllocError>
        ensures ok { OnOk result (ChangesLink self.old self.new from to
            (with_last (link_of self.old from to) frame)) }
        ensures err { OnErr result (SameLinks self.old self.new) }
    {
        if self.cut.contains(&Ends { from, to }) {
            return Ok(());
        }
        self.under_way.send(from, to, frame)
    }

    /// Takes the oldest frame off the link, if there is one.
    pub fn drop_front(&mut self, from: SiteId, to: SiteId)
        ensures { ChangesLink self.old self.new from to
            (without_first (link_of self.old from to)) }
    {
        if !self.cut.contains(&Ends { from, to }) {
            let _ = self.under_way.receive(from, to);
        }
    }

    /// Cuts a link, and loses what is under way on it.
    pub fn cut(&mut self, from: SiteId, to: SiteId) -> Result<(), AllocError>
        ensures ok { OnOk result (ChangesLink self.old self.new from to None) }
        ensures err { OnErr result (SameLinks self.old self.new) }
    {
        self.cut.insert(Ends { from, to })?;
        self.under_way.clear(from, to);
        Ok(())
    }
}
