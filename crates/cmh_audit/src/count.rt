//! Counts over journals.

ghost use Rattle.std.specs.Prelude.{◌≡◌, ◌*◌, ◌≤◌, length};
ghost use Rattle.cmh_audit.specs.Journals.{entry_count};
ghost use Rattle.cmh_audit.specs.Totals.{AreWithinLimit};

use cmh_journal::StoredJournal;

/// How many entries the journals have together.
pub fn count_entries(journals: &[StoredJournal<'_>]) -> u64
    requires { length journals.now ≤ 9999 }
    ensures value { result ≡ entry_count journals.now }
    ensures limited { result ≤ length journals.now * 1000000 }
    ensures within { AreWithinLimit journals.now }
{
    let mut count = 0;
    for journal in journals {
        count += journal.len() as u64;
    }
    count
}
