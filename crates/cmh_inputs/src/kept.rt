//! What is kept of files that were read twice.

ghost use Rattle.std.specs.Prelude.{◌≡◌, ◌<◌, ℕ, length, map, IfOk};
ghost use Rattle.cmh_segment3.specs.Segment.{IsSegmentOf};
ghost use Rattle.cmh_inputs.specs.Furthest.{AreKeptOf};
ghost use Rattle.cmh_files.specs.Readings.{file_at};
ghost use Rattle.cmh_inputs.specs.BetweenReads.{segment_at};
ghost use Rattle.cmh_inputs.specs.Inner.Taken.{AreCutTo};

use crate::between_reads::read_twice;
use crate::span::taken_between;
use cmh_play3::segment_file;
use cmh_segment3::Segment;
use cmh_topology3::Topology;
use std::alloc::{AllocError, Global};

/// What is kept of the files of the journals of running sites, which were all read first and then all read a second time:
/// the entries of the furthest run that has all that was read first, and nothing that was not read second. Where there is
/// no such run, what was read first.
///
/// If each site syncs an entry before it sends the messages of it, there is one: that of the moment between the two
/// readings. The only error is out of memory.
pub fn segments_kept(
    alloc: Global,
    topology: &Topology,
    first: Vec<Vec<u8>>,
    second: Vec<Vec<u8>>,
) -> Result<Vec<Vec<u8>>, AllocError>
    ensures { IfOk result (λ kept. AreKeptOf topology.now (map (λ file. file.items) first.items)
        (map (λ file. file.items) second.items) (map (λ file. file.items) kept.items)) }
{
    let Some(read) = read_twice(alloc, topology, &first, &second)? else {
        return Ok(first);
    };
    let Some(taken) = taken_between(alloc, topology, &read)? else {
        return Ok(first);
    };
    cut(alloc, second, &read.segments, &taken)
}

/// So many entries of each segment: its file as it is, where these are all.
fn cut(
    alloc: Global,
    files: Vec<Vec<u8>>,
    segments: &[Segment],
    taken: &[usize],
) -> Result<Vec<Vec<u8>>, AllocError>
    requires files { (i : ℕ) → i < length files.items
        → (left : ℕ) × IsSegmentOf (segment_at segments.now i) left (file_at (map (λ file. file.items) files.items) i) }
    requires segments { length segments.now ≡ length files.items }
    requires taken { length taken.now ≡ length files.items }
    ensures { IfOk result (λ kept. AreCutTo segments.now taken.now (map (λ file. file.items) files.items)
        (map (λ file. file.items) kept.items)) }
{
    let mut kept = files;
    for (i, segment) in segments.iter().enumerate() {
        let entries = segment.entries.as_slice();
        if taken[i] < entries.len() {
            let (front, _) = entries.split_at(taken[i]);
            kept[i] = segment_file(alloc, &segment.header, &segment.base, front)?;
        }
    }
    Ok(kept)
}
