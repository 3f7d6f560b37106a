//! What a merge reads of a journal.

ghost use Rattle.std.specs.Prelude.{◌≡◌, ◌≢◌, ◌∷◌, MatchBool, List, OnOk};
ghost use Rattle.cmh_runs.specs.declared.entry.Entry.{Entry};
ghost use Rattle.cmh_merge.specs.Walks.{GotFrom, IsNext};

use cmh_runs::SiteId;
use std::alloc::AllocError;

/// What is told of the next entry of a journal.
#[derive(Clone, Copy, PartialEq, Eq)]
pub enum Next {
    /// There is none.
    End,
    /// It got no frame.
    Own,
    /// It got a frame of this site.
    Got { from: SiteId },
}

/// A walk through the entries of a journal.
pub trait Walk<E, F>: Drop {
    ghost use Rattle.std.specs.Prelude.{List, ℕ};
    ghost use Rattle.cmh_runs.specs.declared.entry.Entry.{Entry};

    /// What an event got from a site.
    ghost got: { ℕ → E → List F };

    /// The entries that are left.
    ghost left: { Self → List (Entry E F) };

    /// What is told of the next entry.
    fn next(&self) -> Next
        ensures { IsNext got (left self.now) result };

    /// Whether the next entry, which got a frame of this site, got this one.
    fn got_this(&self, from: SiteId, frame: &F) -> bool
        ensures { (e : Entry E F) (es : List (Entry E F)) (got_frame : F) → left self.now ≡ e ∷ es
            → GotFrom got e.event from got_frame → MatchBool result (got_frame ≡ frame.now) (got_frame ≢ frame.now) };

    /// Goes past the next entry. What it sent is put into the list, in place of what stands there. After an error nothing
    /// is said of the walk.
    fn take(&mut self, sent: &mut Vec<(SiteId, F)>) -> Result<(), AllocError>
        ensures left { OnOk result ((e : Entry E F) (es : List (Entry E F)) → left self.old ≡ e ∷ es
            → left self.new ≡ es) }
        ensures sent { OnOk result ((e : Entry E F) (es : List (Entry E F)) → left self.old ≡ e ∷ es
            → sent.new.items ≡ e.sent) };
}

/// A site, and a walk through its journal.
#[derive(Drop)]
pub struct SiteWalk<W> {
    pub site: SiteId,
    pub walk: W,
}
