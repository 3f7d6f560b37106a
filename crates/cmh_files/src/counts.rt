//! Counts of frames, one for each site.

ghost use Rattle.std.specs.Prelude.{◌≡◌, ◌+◌, ◌<◌, ℕ, length, OnOk};
ghost use Rattle.cmh_files.specs.Inner.Counts.{SameCounts, count_at, one_at};

use cmh_frames::SiteId;
use std::alloc::{AllocError, Global};
use std::marker::Model;

/// How many frames were counted of each site.
///
/// It grows up to the greatest number of a site that was counted.
#[derive(Drop)]
pub struct Counts {
    /// Each at its site's number.
    counts: Vec<u64>,
}

impl Model for Counts {
    ghost use Rattle.std.specs.Prelude.{ℕ, List};

    ghost Value = { List ℕ };

    ghost view = { λ c. c.counts.items };
}

impl Counts {
    /// Nothing was counted. Takes no memory.
    pub fn new(alloc: Global) -> Self
        ensures { (s : ℕ) → count_at result s ≡ 0 }
    {
        Counts {
            counts: Vec::new(alloc),
        }
    }

    #[inline(always)]
    pub fn of(&self, site: SiteId) -> u64
        ensures { result ≡ count_at self.now site }
    {
        match self.counts.get(site.get() as usize) {
            Some(count) => *count,
            None => 0,
        }
    }

    /// Counts a frame of the site. A count that doesn't fit is out of memory, too: no file has so many frames.
    #[inline(always)]
    pub fn add(&mut self, site: SiteId) -> Result<(), AllocError>
        ensures { OnOk result ((s : ℕ) → count_at self.new s ≡ count_at self.old s + one_at site s) }
    {
        self.lengthen(site)?;
        let at = site.get() as usize;
        let Some(count) = self.counts[at].checked_add(1) else {
            return Err(AllocError);
        };
        self.counts[at] = count;
        Ok(())
    }

    /// Adds counts of 0, up to that of this site.
    fn lengthen(&mut self, site: SiteId) -> Result<(), AllocError>
        ensures room { OnOk result (site < length self.new) }
        ensures same { SameCounts self.old self.new }
    {
        for _ in self.counts.len()..site.get() as usize + 1 {
            self.counts.push(0)?;
        }
        Ok(())
    }
}
