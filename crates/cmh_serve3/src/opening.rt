//! The site as its journal has it.

use crate::serve_fault::ServeFault;
use crate::serving::ServeStart;
use cmh_clients3::{Batch, Meeting, Noting, Site, Teller};
use cmh_disk3::{DiskFile, DiskFolder, JournalFolder, SegmentReader, open_site};
use cmh_node3::Node;
use cmh_topology3::Topology;
use std::alloc::{AllocError, Global};
use std::fs::File;
use std::rt::Files;

/// How long the file of a segment may get, in bytes.
const MOST_BYTES: u64 = 1 << 40;

/// Opens a site on the folder of its journal. Nothing is said to anyone before all that was read is on the disk for good.
pub(crate) fn open<'a, R: Files<File = File>>(
    rt: &'a R,
    alloc: Global,
    topology: &Topology,
    start: &ServeStart<'_>,
    batch: Batch,
    has_notes: bool,
) -> Result<Site<DiskFolder<'a, R>>, ServeFault> {
    let opened = open_node(rt, alloc, topology, start)?;
    let looks = look_at(alloc, &opened.node, start.waits_for_peers, has_notes)?;
    let Opened {
        node,
        folder,
        reader,
    } = opened;
    let Looks { meeting, noting } = looks;
    Ok(Site {
        alloc,
        node,
        folder,
        reader: Some(reader),
        batch,
        replies: Vec::new(alloc),
        teller: Teller::new(alloc),
        meeting,
        noting,
    })
}

/// A site, the folder of its journal, and the file of its newest segment to look at.
#[derive(Drop)]
struct Opened<'a, R: Files<File = File>> {
    node: Node<DiskFile>,
    folder: DiskFolder<'a, R>,
    reader: SegmentReader,
}

fn open_node<'a, R: Files<File = File>>(
    rt: &'a R,
    alloc: Global,
    topology: &Topology,
    start: &ServeStart<'_>,
) -> Result<Opened<'a, R>, ServeFault> {
    let mut folder = DiskFolder::lock(rt, alloc, start.journal, MOST_BYTES, start.start)?;
    let station = open_site(alloc, topology, start.site, &mut folder, start.start)?;
    let node = Node::new(alloc, topology, start.site, station)?;
    let reader = folder.reader(alloc)?;
    Ok(Opened {
        node,
        folder,
        reader,
    })
}

/// What a site is looked at for.
#[derive(Drop)]
struct Looks {
    meeting: Meeting,
    noting: Noting,
}

fn look_at(
    alloc: Global,
    node: &Node<DiskFile>,
    waits_for_peers: bool,
    has_notes: bool,
) -> Result<Looks, AllocError> {
    let meeting = meeting_of(alloc, node, waits_for_peers)?;
    let noting = noting_of(alloc, node, &meeting, has_notes)?;
    Ok(Looks { meeting, noting })
}

/// Which links its clients' events wait for.
fn meeting_of(
    alloc: Global,
    node: &Node<DiskFile>,
    waits_for_peers: bool,
) -> Result<Meeting, AllocError> {
    if !waits_for_peers {
        return Ok(Meeting::none(alloc));
    }
    Meeting::with(alloc, node.peers().len())
}

/// What is noted of it, if anybody wants notes.
fn noting_of(
    alloc: Global,
    node: &Node<DiskFile>,
    meeting: &Meeting,
    has_notes: bool,
) -> Result<Noting, AllocError> {
    if !has_notes {
        return Ok(Noting::none(alloc));
    }
    Noting::of(alloc, node, meeting)
}
