//! How many entries of each site were taken.

ghost use Rattle.std.specs.Prelude.{◌≡◌, ◌+◌, ◌<◌, ℕ, length, IfOk, OnOk};
ghost use Rattle.cmh_files3.specs.Inner.Taken.{SameTaken, one_at, taken_at};

use cmh_model3::SiteId;
use std::alloc::{AllocError, Global};
use std::marker::Model;

/// How many entries of each site were taken.
///
/// It grows up to the greatest number of a site that took one.
#[derive(Drop)]
pub struct Taken {
    /// Each at its site's number.
    counts: Vec<usize>,
}

impl Model for Taken {
    ghost use Rattle.std.specs.Prelude.{ℕ, List};

    ghost Value = { List ℕ };

    ghost view = { λ t. t.counts.items };
}

impl Taken {
    /// No entry was taken. Takes no memory.
    pub fn new(alloc: Global) -> Self
        ensures { (s : ℕ) → taken_at result s ≡ 0 }
    {
        Taken {
            counts: Vec::new(alloc),
        }
    }

    /// Counts an entry of the site; answers its number, from 1. A number that doesn't fit is out of memory, too: no
    /// journal has so many entries.
    pub fn take(&mut self, site: SiteId) -> Result<usize, AllocError>
        ensures number { IfOk result (λ number. number ≡ taken_at self.old site + 1) }
        ensures counts { OnOk result ((s : ℕ) → taken_at self.new s ≡ taken_at self.old s + one_at site s) }
    {
        self.lengthen(site)?;
        let at = site.get() as usize;
        let Some(number) = self.counts[at].checked_add(1) else {
            return Err(AllocError);
        };
        self.counts[at] = number;
        Ok(number)
    }

    /// Adds counts of 0, up to that of this site.
    fn lengthen(&mut self, site: SiteId) -> Result<(), AllocError>
        ensures room { OnOk result (site < length self.new) }
        ensures same { SameTaken self.old self.new }
    {
        for _ in self.counts.len()..site.get() as usize + 1 {
            self.counts.push(0)?;
        }
        Ok(())
    }
}
