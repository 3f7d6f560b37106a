//! What is noted of the files of journals while they are read.

ghost use Rattle.std.specs.Prelude.{IfErr};
ghost use Rattle.cmh_long_audit3.specs.Wholes.{IsOfJournals};

use crate::keeping::Flaw;
use cmh_files3::AuditFault;
use cmh_model3::SiteId;
use cmh_segment3::Segment;
use std::alloc::{AllocError, Global};

/// What is noted of the files of journals while they are read, beside the segments in them.
#[derive(Drop)]
pub struct Noted {
    /// Of each journal that has one, the first base that says something else than the entries before it.
    pub flaws: Vec<Flaw>,
    /// That of each file, in the order in which they are given, with the place of its journal in the command.
    tails: Vec<(usize, Tail)>,
}

/// What stands behind the last entry of a segment.
#[derive(Clone, Copy)]
pub struct Tail {
    pub site: SiteId,
    /// How many bytes; none where the segment is whole.
    pub length: usize,
    /// Where they begin in the file.
    pub at: u64,
}

impl Tail {
    /// That of a segment, behind whose last entry so many bytes are left of a file of this length.
    pub fn behind(segment: &Segment, left: usize, length: usize) -> Tail {
        Tail {
            site: segment.header.site,
            length: left,
            at: length.saturating_sub(left) as u64,
        }
    }
}

impl Noted {
    pub fn new(alloc: Global) -> Noted {
        Noted {
            flaws: Vec::new(alloc),
            tails: Vec::new(alloc),
        }
    }

    /// Notes what stands behind the last entry of a segment of the journal at a place in the command.
    pub fn note_tail(&mut self, place: usize, tail: Tail) -> Result<(), AllocError> {
        self.tails.push((place, tail))?;
        Ok(())
    }

    /// Notes what was noted of files that are given later.
    pub fn append(&mut self, later: Noted) -> Result<(), AllocError> {
        let mut later = later;
        self.flaws.append(&mut later.flaws)?;
        self.tails.append(&mut later.tails)
    }

    /// The sites whose newest segment was cut off, ascending, and how many bytes stand after its last entry. It is a fault
    /// where some stand behind another segment of a journal.
    pub fn cuts(&self, alloc: Global) -> Result<Vec<(SiteId, usize)>, AuditFault>
        ensures { IfErr result IsOfJournals }
    {
        let mut cuts = Vec::new(alloc);
        for (i, (place, tail)) in self.tails.iter().enumerate() {
            if tail.length == 0 {
                continue;
            }
            match self.tails.get(i + 1) {
                Some((next, _)) if next == place => {
                    return Err(AuditFault::Damaged(*place, tail.at));
                }
                _ => cuts.push((tail.site, tail.length))?,
            }
        }
        cuts.sort_unstable();
        Ok(cuts)
    }
}
