//! What two readings of the same files come to.

ghost use Rattle.std.specs.Prelude.{◌≡◌, ℕ, List, map, IfOk, MatchOption};
ghost use Rattle.cmh_segment3.specs.Segment.{IsSegmentOf};
ghost use Rattle.cmh_segment3.specs.declared.segment.Segment as segment;
ghost use Rattle.cmh_inputs.specs.BetweenReads.{AreReadTwice, IsReadTwice};

use cmh_audit3::check_set;
use cmh_segment3::{Segment, SegmentFault, read_segment};
use cmh_topology3::Topology;
use std::alloc::{AllocError, Global};

/// The segments of files that were read twice.
#[derive(Drop)]
pub struct Readings {
    /// How many entries each had when it was read first.
    pub before: Vec<usize>,
    /// The segments, as they were read second.
    pub segments: Vec<Segment>,
}

/// The segment of a file that was read twice.
#[derive(Drop)]
struct Reading {
    before: usize,
    segment: Segment,
}

/// The segments of these files; `None` where one is no segment's, or did not grow from the first reading to the second, or
/// where they are not those of all sites of the world. The only error is out of memory.
pub fn read_twice(
    alloc: Global,
    topology: &Topology,
    first: &[Vec<u8>],
    second: &[Vec<u8>],
) -> Result<Option<Readings>, AllocError>
    ensures { IfOk result (λ found. MatchOption found
        ((before : List ℕ) (segments : List segment.Segment)
        → AreReadTwice topology.now (map (λ file. file.items) first.now) (map (λ file. file.items) second.now) before segments → ⊥)
        (λ read. AreReadTwice topology.now (map (λ file. file.items) first.now) (map (λ file. file.items) second.now)
        read.before.items read.segments.items)) }
{
    if first.len() != second.len() {
        return Ok(None);
    }
    let mut before = Vec::new(alloc);
    let mut segments = Vec::new(alloc);
    for (i, file) in second.iter().enumerate() {
        let Some(reading) = reading_of(alloc, &first[i], file)? else {
            return Ok(None);
        };
        before.push(reading.before)?;
        segments.push(reading.segment)?;
    }
    match check_set(topology, &segments) {
        Ok(()) => Ok(Some(Readings { before, segments })),
        Err(_) => Ok(None),
    }
}

/// The segment of a file, of which this was read first and this second.
fn reading_of(alloc: Global, first: &[u8], second: &[u8]) -> Result<Option<Reading>, AllocError>
    ensures { IfOk result (λ found. MatchOption found
        ((before : ℕ) (segment : segment.Segment) → IsReadTwice first.now second.now before segment → ⊥)
        (λ reading. IsReadTwice first.now second.now reading.before reading.segment)) }
{
    let Some((earlier, tail)) = segment_of(alloc, first)? else {
        return Ok(None);
    };
    let before = earlier.entries.as_slice().len();
    let (front, _) = first.split_at(first.len() - tail);
    if !second.starts_with(front) {
        return Ok(None);
    }
    let Some((segment, _)) = segment_of(alloc, second)? else {
        return Ok(None);
    };
    Ok(Some(Reading { before, segment }))
}

/// The segment that a file holds, and how many bytes stand behind its last entry; `None` where it is no segment's.
fn segment_of(alloc: Global, bytes: &[u8]) -> Result<Option<(Segment, usize)>, AllocError>
    ensures { IfOk result (λ found. MatchOption found
        ((segment : segment.Segment) (left : ℕ) → IsSegmentOf segment left bytes.now → ⊥)
        (λ read. IsSegmentOf read.0 read.1 bytes.now)) }
{
    match read_segment(alloc, bytes) {
        Ok(read) => Ok(Some(read)),
        Err(SegmentFault::BadHead) => Ok(None),
        Err(SegmentFault::Damaged(_)) => Ok(None),
        Err(SegmentFault::Memory) => Err(AllocError),
    }
}
