//! The journals of sites, as lists of their entries.

ghost use Rattle.std.specs.Prelude.{◌≡◌, ◌≤◌, length};
ghost use Rattle.cmh_journal.specs.Journal.{entry_limit};
ghost use Rattle.cmh_audit.specs.Journals.{journal_of};

use cmh_frames::{Entry, SiteId};
use cmh_journal::Journal;

/// The entries of a site's journal; none where it has none.
pub fn entries_at(journals: &[Journal], site: SiteId) -> &[Entry]
    ensures value { result.now ≡ journal_of journals.now site }
    ensures few { length result.now ≤ entry_limit }
{
    for journal in journals {
        if journal.site() == site {
            return journal.entries();
        }
    }
    &[]
}
