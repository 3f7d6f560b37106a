//! The rows of a topology as words.

ghost use Rattle.std.specs.Prelude.{◌≡◌, ◌≢◌, List, IfOk, MatchOption};
ghost use Rattle.cmh_frames.specs.Rows.{Row};
ghost use Rattle.cmh_c.specs.Opening.{words_of};

use cmh_frames::SiteRow;
use std::alloc::{AllocError, Global};

/// The rows with these words: of each the site, how many processes it has, and these.
pub fn rows_of(alloc: Global, words: &[u16]) -> Result<Option<Vec<SiteRow>>, AllocError>
    ensures { IfOk result (λ rows. MatchOption rows ((rows : List Row) → words.now ≢ words_of rows)
        (λ rows. words.now ≡ words_of rows.items)) }
{
    let mut rows = Vec::new(alloc);
    let mut rest = words;
    while let [site, count, after @ ..] = rest {
        let count = usize::from(*count);
        if after.len() < count {
            return Ok(None);
        }
        let (processes, after) = after.split_at(count);
        rows.push(SiteRow {
            site: *site,
            processes: processes.to_vec(alloc)?,
        })?;
        rest = after;
    }
    if rest.is_empty() {
        Ok(Some(rows))
    } else {
        Ok(None)
    }
}
