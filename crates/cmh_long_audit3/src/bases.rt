//! Which bases do not say the end of the epoch before them.

use crate::journals::{count_until, journals_until, segments_of};
use cmh_audit3::{AuditMemory, Verdict, audit, check_set};
use cmh_bases3::base_of;
use cmh_controller3::Controller;
use cmh_files3::AuditFault;
use cmh_history3::{Link, disagreement, messages_between, whole_journals};
use cmh_model3::{Event, Message, SiteId};
use cmh_segment3::{Base, Rows, Segment};
use cmh_topology3::Topology;
use cmh_wire3::Epoch;
use std::alloc::{AllocError, Global};
use std::fmt::Write;

/// A line for each site whose base of this epoch does not say where the entries before it lead, and one for each link of which
/// the bases do not say what is under way there. What comes before the epoch comes from a run.
pub fn base_lines(
    alloc: Global,
    world: &Topology,
    files: &[Vec<Vec<u8>>],
    epoch: Epoch,
) -> Result<String, AuditFault> {
    let before = whole_journals(alloc, journals_until(alloc, files, epoch, false)?)?;
    check_set(world, &before)?;
    let next = next_segments(alloc, files, epoch)?;
    let mut text = String::new(alloc);
    if let Verdict::Accepted { controllers, .. } = audit(alloc, world, &before)? {
        write_sites(alloc, &mut text, &controllers, &next)?;
        write_links(alloc, &mut text, world, &before, &next)?;
    }
    Ok(text)
}

/// A line for the first link on which the bases of an epoch do not agree, if there is one.
pub fn link_lines(
    alloc: Global,
    world: &Topology,
    files: &[Vec<Vec<u8>>],
    epoch: Epoch,
) -> Result<String, AuditFault> {
    let next = next_segments(alloc, files, epoch)?;
    let mut text = String::new(alloc);
    if let Some(Link { from, to }) = disagreement(world.sites(), &next) {
        write!(text, "link {from} {to}\n")?;
    }
    Ok(text)
}

/// Of each journal the segment whose base stands for the epoch.
fn next_segments(
    alloc: Global,
    files: &[Vec<Vec<u8>>],
    epoch: Epoch,
) -> Result<Vec<Segment>, AuditFault> {
    let mut next = Vec::new(alloc);
    for (i, files) in files.iter().enumerate() {
        let mut segments = segments_of(alloc, files, i + 1)?;
        let count = count_until(&segments, epoch, false);
        if count < segments.len() {
            next.push(segments.remove(count))?;
        }
    }
    Ok(next)
}

/// A line for each controller whose next base does not say where it stands.
pub(crate) fn write_sites(
    alloc: Global,
    text: &mut String,
    controllers: &[Controller],
    next: &[Segment],
) -> Result<(), AllocError> {
    for controller in controllers {
        for segment in next {
            let site = segment.header.site;
            if site == controller.site() && !is_base_of(alloc, controller, &segment.base)? {
                write!(text, "base {site}\n")?;
            }
        }
    }
    Ok(())
}

/// Whether a base is that of the state in which a controller stands, whatever it says of stops and links.
fn is_base_of(alloc: Global, controller: &Controller, base: &Base) -> Result<bool, AllocError> {
    let no_links = Rows::new(Vec::new(alloc));
    let own = base_of(alloc, controller, base.declared.as_slice(), no_links)?;
    Ok(
        own.waits.as_slice() == base.waits.as_slice()
            && own.leaving.as_slice() == base.leaving.as_slice()
            && own.owed.as_slice() == base.owed.as_slice()
            && own.dependents.as_slice() == base.dependents.as_slice()
            && own.declared.as_slice() == base.declared.as_slice()
            && own.stamps.as_slice() == base.stamps.as_slice(),
    )
}

fn write_links(
    alloc: Global,
    text: &mut String,
    world: &Topology,
    before: &[Segment],
    next: &[Segment],
) -> Result<(), AllocError> {
    for from in world.sites() {
        for to in world.sites() {
            let left = left_between(alloc, before, *from, *to)?;
            if left.as_slice() != messages_between(next, *from, *to) {
                write!(text, "link {from} {to}\n")?;
            }
        }
    }
    Ok(())
}

/// The messages that one site sent to another by the entries of whole journals, but for as many as that one got.
fn left_between(
    alloc: Global,
    wholes: &[Segment],
    from: SiteId,
    to: SiteId,
) -> Result<Vec<Message>, AllocError> {
    let mut got = count_got(wholes, from, to);
    let mut left = Vec::new(alloc);
    for whole in wholes {
        if whole.header.site == from {
            for entry in whole.entries.as_slice() {
                for (receiver, message) in entry.sent.as_slice() {
                    if *receiver == to && got == 0 {
                        left.push(*message)?;
                    } else if *receiver == to {
                        got = got.saturating_sub(1);
                    }
                }
            }
        }
    }
    Ok(left)
}

/// How many messages of one site another one got.
fn count_got(wholes: &[Segment], from: SiteId, to: SiteId) -> usize {
    let mut count = 0usize;
    for whole in wholes {
        if whole.header.site == to {
            for entry in whole.entries.as_slice() {
                match &entry.event {
                    Event::Got { from: sender, .. } if *sender == from => {
                        count = count.saturating_add(1);
                    }
                    _ => {}
                }
            }
        }
    }
    count
}
