//! Segments that stand for those that a site did not write.

ghost use Rattle.std.specs.Prelude.{◌≡◌, IfOk};
ghost use Rattle.cmh_history3.specs.Epochs as spec;
ghost use Rattle.cmh_history3.specs.Parts as parts;

use cmh_model3::{Event, Sendings, Stamp};
use cmh_segment3::{Base, Entry, Header, LinkState, Outgoing, Rows, Segment};
use cmh_wire3::Epoch;
use std::alloc::{AllocError, Global};

/// A segment of this epoch without entries, which begins as the next one of its site. So it is where the site jumped over the
/// epoch: its next base stands for it.
pub fn without_entries(alloc: Global, epoch: Epoch, next: &Segment) -> Result<Segment, AllocError>
    ensures { IfOk result (λ segment. segment ≡ spec.without_entries epoch next.now) }
{
    let header = Header {
        site: next.header.site,
        world: next.header.world,
        epoch,
        before: next.header.before,
    };
    Ok(Segment {
        header,
        base: copy_of(alloc, &next.base)?,
        entries: Rows::new(Vec::new(alloc)),
    })
}

/// A segment without its entries.
pub fn bare(alloc: Global, segment: Segment) -> Segment
    ensures { result ≡ parts.bare segment }
{
    Segment {
        header: segment.header,
        base: segment.base,
        entries: Rows::new(Vec::new(alloc)),
    }
}

/// The same base once more.
fn copy_of(alloc: Global, base: &Base) -> Result<Base, AllocError>
    ensures { IfOk result (λ copy. copy ≡ base.now) }
{
    Ok(Base {
        waits: Rows::new(base.waits.as_slice().to_vec(alloc)?),
        leaving: Rows::new(base.leaving.as_slice().to_vec(alloc)?),
        owed: Rows::new(base.owed.as_slice().to_vec(alloc)?),
        dependents: Rows::new(base.dependents.as_slice().to_vec(alloc)?),
        declared: Rows::new(base.declared.as_slice().to_vec(alloc)?),
        stamps: Rows::new(base.stamps.as_slice().to_vec(alloc)?),
        links: Rows::new(copy_links(alloc, base.links.as_slice())?),
    })
}

fn copy_links(alloc: Global, links: &[LinkState]) -> Result<Vec<LinkState>, AllocError>
    ensures { IfOk result (λ copies. copies.items ≡ links.now) }
{
    let mut copies = Vec::new(alloc);
    for link in links {
        copies.push(copy_link(alloc, link)?)?;
    }
    Ok(copies)
}

fn copy_link(alloc: Global, link: &LinkState) -> Result<LinkState, AllocError>
    ensures { IfOk result (λ copy. copy ≡ link.now) }
{
    let out = Outgoing {
        acked: link.out.acked,
        mark: link.out.mark,
        kept: Rows::new(link.out.kept.as_slice().to_vec(alloc)?),
    };
    Ok(LinkState {
        site: link.site,
        out,
        into: link.into,
    })
}

/// The entry of a site's turn to an epoch, which no segment has: it is the head of the next one.
pub fn turn_to(alloc: Global, epoch: Epoch) -> Entry
    ensures { result ≡ spec.turn_to epoch }
{
    let clock = Stamp::new(u64::from(epoch.get()) * 0x1_0000_0000);
    Entry {
        event: Event::Turn { clock },
        sent: Sendings::new(Vec::new(alloc)),
        declared: None,
    }
}
