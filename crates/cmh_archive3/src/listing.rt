//! The command `segments`.

ghost use Rattle.std.specs.Prelude.{◌≡◌, IfOk, OnOk, map};
ghost use Rattle.cmh_audit3.specs.Set.{AreOfWorld};
ghost use Rattle.cmh_console.specs.Status.{IsStatus};
ghost use Rattle.cmh_archive3.specs.Listing as spec;
ghost use Rattle.cmh_archive3.specs.Listing.{AreLinesOf, ListsSegments, SaysTopologyAt, newest_segments};

use crate::lines::{LinesText, SegmentLine, lines_of};
use crate::list_fault::ListFault;
use crate::reading::read_folders;
use crate::summary::Folder;
use cmh_audit3::{Segment, check_world};
use cmh_console::{Fault, Output, read_topology_file3};
use cmh_inputs::{Inputs, read_topology};
use cmh_segment3::{Base, Header, Rows};
use cmh_topology3::Topology;
use std::alloc::Global;
use std::io::Write;

/// Writes a line for each segment in the folders of the journals of all sites of a topology of edition 3: sites ascending, and
/// epochs ascending within a site. It reads one segment at a time and keeps a summary of it.
///
/// The answer is the status of the program: 0 where all lines are written, 1 where memory ran out, 3 at any other fault. A
/// fault is named on `err`, and a write to it that fails is ignored.
///
/// Files that change while they are read are not told. A site that turns meanwhile may still have its newest segment of before,
/// and its lines say what is so since then too: a closed segment stays as it is, and stays closed.
pub fn run_segments<N: Inputs, W: Write, E: Write>(
    alloc: Global,
    inputs: &N,
    topology: &str,
    folders: &[&str],
    out: &mut Output<W>,
    err: &mut Output<E>,
) -> u8
    ensures status { IsStatus result }

    // At status 0 the lines are those of segments that were read; where the files are told, of those in the folders.
    ensures lists { result ≡ 0 → ListsSegments (N.holds inputs.now) topology.now (map (λ path. path.now) folders.now)
        out.old.written out.new.written }
{
    match list_into(alloc, inputs, topology, folders, out) {
        Ok(()) => 0,
        Err(fault) => Fault::from(fault).name_on(err),
    }
}

/// Writes the lines.
fn list_into<N: Inputs, W: Write>(
    alloc: Global,
    inputs: &N,
    topology: &str,
    folders: &[&str],
    out: &mut Output<W>,
) -> Result<(), ListFault>
    ensures { OnOk result (ListsSegments (N.holds inputs.now) topology.now (map (λ path. path.now) folders.now)
        out.old.written out.new.written) }
{
    let lines = read_lines(alloc, inputs, topology, folders)?;
    let text = LinesText { lines: &lines };
    out.write_text(text)?;
    out.flush()?;
    Ok(())
}

/// The lines of the segments in these folders, which are to be those of all sites of the world.
fn read_lines<N: Inputs>(
    alloc: Global,
    inputs: &N,
    topology: &str,
    paths: &[&str],
) -> Result<Vec<SegmentLine>, ListFault>
    ensures { IfOk result (λ lines. AreLinesOf (N.holds inputs.now) topology.now (map (λ path. path.now) paths.now)
        lines.items) }
{
    let world = read_world(alloc, inputs, topology)?;
    let folders = read_folders(alloc, inputs, paths)?;
    check_folders(alloc, &world, &folders)?;
    Ok(lines_of(alloc, world.sites(), &folders)?)
}

/// The world that the topology file says.
fn read_world<N: Inputs>(alloc: Global, inputs: &N, path: &str) -> Result<Topology, ListFault>
    ensures { IfOk result (SaysTopologyAt (N.holds inputs.now) path.now) }
{
    let bytes = read_topology(alloc, inputs, path)?;
    let file = read_topology_file3(alloc, &bytes)?;
    Ok(Topology::new(alloc, file.world, &file.rows)?)
}

/// Whether these are the folders of all sites of the world, one of each.
fn check_folders(alloc: Global, world: &Topology, folders: &[Folder]) -> Result<(), ListFault>
    ensures { OnOk result (AreOfWorld world.now (newest_segments folders.now)) }
{
    let mut segments = Vec::new(alloc);
    for folder in folders {
        segments.push(segment_with(alloc, folder.newest.summary.header))?;
    }
    check_world(world, &segments)?;
    Ok(())
}

/// A segment with this header, and nothing else.
fn segment_with(alloc: Global, header: Header) -> Segment
    ensures { result ≡ spec.segment_with header }
{
    Segment {
        header,
        base: Base::empty(alloc),
        entries: Rows::new(Vec::new(alloc)),
    }
}
