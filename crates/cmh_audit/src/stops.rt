//! Where a merge stopped.

ghost use Rattle.std.specs.Prelude.{◌≡◌, length, IfOk};
ghost use Rattle.cmh_audit.specs.Inner.Places.{OneEach};
ghost use Rattle.cmh_audit.specs.Inner.FoundStops.{stops_at};

use crate::set::place_of;
use cmh_frames::SiteId;
use cmh_journal::StoredJournal;
use std::alloc::{AllocError, Global};
use std::marker::Model;

/// Where the journals stop: the entries before the stops come from a run, and there is no run with more of them.
#[derive(Drop)]
pub struct Stops {
    rows: Vec<(SiteId, usize)>,
    tries: u64,
}

impl Model for Stops {
    ghost use Rattle.cmh_audit.specs.Stops as spec;

    ghost Value = { spec.Stops };

    ghost view = { λ s. record { rows = s.rows.items; tries = s.tries } };
}

impl Stops {
    pub(crate) fn new(rows: Vec<(SiteId, usize)>, tries: u64) -> Self
        ensures rows { result.rows ≡ rows.items }
        ensures tries { result.tries ≡ tries }
    {
        Stops { rows, tries }
    }

    /// Each unfinished site, ascending, with the number, from 1, of its entry that couldn't be taken.
    pub fn rows(&self) -> &[(SiteId, usize)]
        ensures { result.now ≡ self.now.rows }
    {
        &self.rows
    }

    /// How often it was looked whether a site's next entry can be taken.
    pub fn tries(&self) -> u64
        ensures { result ≡ self.now.tries }
    {
        self.tries
    }
}

/// The stop of each of these sites that has one, in their order.
pub fn stops_of(
    alloc: Global,
    sites: &[SiteId],
    journals: &[StoredJournal<'_>],
    taken: &[usize],
) -> Result<Vec<(SiteId, usize)>, AllocError>
    requires once { OneEach journals.now }
    requires each { length taken.now ≡ length journals.now }
    ensures { IfOk result (λ rows. rows.items ≡ stops_at sites.now journals.now taken.now) }
{
    let mut rows = Vec::new(alloc);
    for site in sites {
        if let Some(i) = place_of(journals, *site) {
            let done = taken[i];
            if done < journals[i].len() {
                rows.push((*site, done + 1))?;
            }
        }
    }
    Ok(rows)
}
