//! What is kept of segments that were read.

ghost use Rattle.std.specs.Prelude.{◌≡◌, ◌++◌, ℕ, List, IfErr, IfOk};
ghost use Rattle.byteorder.specs.Endian.{big_bytes};
ghost use Rattle.cmh_audit3.specs.Files.{IsFaultOfFile};
ghost use Rattle.cmh_segment3.specs.Segment.{IsSegmentOf};
ghost use Rattle.cmh_wire3.specs.Wire.{IsLong};
ghost use Rattle.cmh_archive3.specs.Summaries.{IsSummaryOf};

use cmh_audit3::{FileFault, Segment, read_file};
use cmh_segment3::Header;
use cmh_wire3::{Cursor, Mark};
use std::alloc::Global;

/// What is kept of a segment that was read.
#[derive(Clone, Copy)]
pub struct Summary {
    pub header: Header,
    /// How many entries it has.
    pub entries: usize,
    /// How many bytes its file has.
    pub bytes: usize,
    /// How many of them stand behind the last entry.
    pub tail: usize,
    /// The mark behind the last entry; that of the head where there is none.
    pub mark: Mark,
}

/// A segment that was read, and whether a record beside it says that an audit accepted it as it is.
#[derive(Clone, Copy)]
pub struct Listed {
    pub summary: Summary,
    pub is_audited: bool,
}

/// The segments in the folder of a site's journal.
#[derive(Drop)]
pub struct Folder {
    pub newest: Listed,
    /// Those before it, as far as they are there, the last one first.
    pub earlier: Vec<Listed>,
}

/// What is kept of the segment whose file has these bytes.
pub fn summary_of(alloc: Global, bytes: &[u8]) -> Result<Summary, FileFault>
    ensures ok { IfOk result (λ summary. IsSummaryOf summary bytes.now) }
    ensures fault { IfErr result (λ fault. IsFaultOfFile bytes.now fault) }
{
    match read_file(alloc, bytes) {
        Ok((segment, tail)) => Ok(summary_with(&segment, tail, bytes)),
        Err(fault) => Err(fault),
    }
}

/// The summary of the segment that was read of these bytes, of which so many stand behind its entries.
fn summary_with(segment: &Segment, tail: usize, bytes: &[u8]) -> Summary
    ensures { IsSegmentOf segment.now tail bytes.now → IsSummaryOf result bytes.now }
{
    let (whole, _) = bytes.split_at(bytes.len().saturating_sub(tail));
    Summary {
        header: segment.header,
        entries: segment.entries.as_slice().len(),
        bytes: bytes.len(),
        tail,
        mark: mark_at_end(whole),
    }
}

/// The mark with which bytes end.
#[tactic(auto, using(crate::proofs::Ends::mark_read, crate::proofs::Ends::mark_not_read))]
fn mark_at_end(bytes: &[u8]) -> Mark
    ensures { (front : List ℕ) (mark : ℕ) → IsLong mark → bytes.now ≡ front ++ big_bytes 8 mark → result ≡ mark }
{
    let (_, last) = bytes.split_at(bytes.len().saturating_sub(8));
    match Cursor::new(last).u64() {
        Some(mark) => Mark::new(mark),
        None => Mark::first(),
    }
}
