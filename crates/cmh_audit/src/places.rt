//! The places of journals, found by their sites' numbers.

ghost use Rattle.std.specs.Prelude.{◌≡◌, ◌<◌, length, IfOk, MatchOption, All};
ghost use Rattle.std.specs.List.{HoldsAt};
ghost use Rattle.cmh_journal.specs.Journal as journal;
ghost use Rattle.cmh_audit.specs.Journals.{NoneAt};

use cmh_frames::SiteId;
use cmh_journal::StoredJournal;
use std::alloc::{AllocError, Global};
use std::marker::Model;

/// Journals with the place of each, so that finding one of a site takes no search.
#[derive(Drop)]
pub struct Places<'a, 'b> {
    journals: &'a [StoredJournal<'b>],

    /// At a site's number, the place of its journal.
    by_site: Vec<Option<usize>>,
}

impl<'a, 'b> Model for Places<'a, 'b> {
    ghost use Rattle.std.specs.Prelude.{List};
    ghost use Rattle.cmh_journal.specs.Journal as journal;
    ghost use Rattle.cmh_audit.specs.Inner.Places.{ArePlacesOf};

    ghost Value = { List journal.Journal };

    ghost view = { λ p. p.journals.now };

    ghost invariant = { λ p. ArePlacesOf p.journals.now p.by_site.items };
}

impl<'a, 'b> Places<'a, 'b> {
    pub fn new(
        alloc: Global,
        journals: &'a [StoredJournal<'b>],
    ) -> Result<Places<'a, 'b>, AllocError>
        ensures { IfOk result (λ places. places ≡ journals.now) }
    {
        let mut by_site: Vec<Option<usize>> = vec![in alloc; None; room_for(journals)]?;
        for (i, journal) in journals.iter().enumerate() {
            let number = journal.site().get();
            by_site[number as usize] = Some(i);
        }
        Ok(Places { journals, by_site })
    }

    /// The place of a site's journal, if it has one.
    #[inline(always)]
    pub fn find(&self, site: SiteId) -> Option<usize>
        ensures { MatchOption result (NoneAt site self.now)
            (λ i. (i < length self.now) × HoldsAt (λ (j : journal.Journal). j.site ≡ site) self.now i) }
    {
        match self.by_site.get(site.get() as usize) {
            Some(place) => *place,
            None => None,
        }
    }
}

/// A number above those of the journals' sites.
fn room_for(journals: &[StoredJournal<'_>]) -> usize
    ensures { All (λ (j : journal.Journal). j.site < result) journals.now }
{
    let mut room = 0;
    for journal in journals {
        let number = journal.site().get() as usize;
        if room <= number {
            room = number + 1;
        }
    }
    room
}
