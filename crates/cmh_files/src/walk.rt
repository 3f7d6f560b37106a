//! Walks through the entries of journals, which count their frames.

ghost use Rattle.std.specs.Prelude.{◌≡◌, ◌≤◌, ◌+◌, ℕ, [], length, IfOk, OnOk, MatchBool};
ghost use Rattle.cmh_frames.specs.Journals.{frame_from, frames_to};
ghost use Rattle.cmh_files.specs.Inner.Counts.{count_at};
ghost use Rattle.cmh_files.specs.Inner.Steps.{Goes, StandsAt};

use crate::counts::Counts;
use cmh_frames::SiteId;
use cmh_journal::{Entries, StoredEntry, StoredJournal};
use std::alloc::{AllocError, Global};

/// A place after some of the first entries of a journal, and how many frames they sent to each site and got from it.
#[derive(Drop)]
pub struct Walk<'a> {
    pub site: SiteId,
    pub left: Entries<'a>,
    pub sent: Counts,
    pub got: Counts,
}

impl<'a> Walk<'a> {
    /// After so many entries of the journal.
    pub fn to(
        alloc: Global,
        journal: &StoredJournal<'a>,
        taken: usize,
    ) -> Result<Walk<'a>, AllocError>
        requires { taken ≤ length journal.now.entries }
        ensures { IfOk result (StandsAt journal.now taken) }
    {
        let mut walk = Walk {
            site: journal.site(),
            left: journal.entries(),
            sent: Counts::new(alloc),
            got: Counts::new(alloc),
        };
        for _ in 0..taken {
            let _ = walk.step()?;
        }
        Ok(walk)
    }

    /// Goes past the next entry, and counts its frames; false where none is left. After an error nothing is said of the
    /// walk.
    pub fn step(&mut self) -> Result<bool, AllocError>
        ensures { IfOk result (λ went. MatchBool went (Goes self.old self.new)
            ((self.old.left ≡ []) × (self.new ≡ self.old))) }
    {
        let Some(entry) = self.left.next_entry() else {
            return Ok(false);
        };
        count_got(&mut self.got, &entry)?;
        count_sent(&mut self.sent, &entry)?;
        Ok(true)
    }
}

/// Counts the frame that the entry got, if it got one.
fn count_got(got: &mut Counts, entry: &StoredEntry<'_>) -> Result<(), AllocError>
    ensures { OnOk result ((s : ℕ) → count_at got.new s ≡ count_at got.old s + length (frame_from s entry.now.event)) }
{
    match entry.received() {
        Some((from, _)) => got.add(from),
        None => Ok(()),
    }
}

/// Counts the frames that the entry sent.
fn count_sent(sent: &mut Counts, entry: &StoredEntry<'_>) -> Result<(), AllocError>
    ensures { OnOk result ((s : ℕ) → count_at sent.new s ≡ count_at sent.old s + length (frames_to s entry.now.sent)) }
{
    let mut left = entry.outcome();
    while let Some((to, _)) = left.next_sent() {
        sent.add(to)?;
    }
    Ok(())
}
