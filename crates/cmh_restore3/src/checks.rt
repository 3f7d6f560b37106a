//! The first segments of a restored world, and whether its sites can begin with them.

ghost use Rattle.std.specs.Prelude.{◌≡◌, ◌↔◌, Contains, IfErr, IfOk, IfSome, IsTrue, None, OnOk, Some, map};
ghost use Rattle.std.specs.List.{All};
ghost use Rattle.cmh_bases3.specs.Bases.{IsBaseOf};
ghost use Rattle.cmh_segment3.specs.Base.{IsBase};
ghost use Rattle.cmh_restore3.specs.Restored as spec;
ghost use Rattle.cmh_restore3.specs.Restored.{AreOfOther, BeginLawfully, CanBeRestored, HasNoState, IsWhyNot, StandsFor};

use cmh_audit3::{SetFault, check_world};
use cmh_bases3::controller_of;
use cmh_controller3::Refusal;
use cmh_history3::{Link, disagreement};
use cmh_model3::SiteId;
use cmh_segment3::{Head, Header, Rows, Segment};
use cmh_topology3::{Topology, World};
use cmh_wire3::Epoch;
use std::alloc::{AllocError, Global};
use thiserror::Error;

/// Why a world can't be restored.
#[derive(Clone, Copy, Debug, PartialEq, Eq, Error)]
pub enum NotRestored {
    /// A segment is of the world that is to be begun, or two are of different ones.
    #[error("the journals are not those of one other world")]
    OtherWorld,
    /// A segment does not stand for the epoch: its site has not begun it.
    #[error("a site has not begun the epoch")]
    NotBegun,
    /// The segments are not those of the sites of the topology.
    #[error("{0}")]
    Set(SetFault),
    /// The base of this site is of no state of the rules.
    #[error("the base of site {0} is of no state")]
    Base(SiteId),
    /// The bases do not agree on this link.
    #[error("the bases of two sites do not agree")]
    Link(Link),
    /// Memory was refused.
    #[error("out of memory")]
    Memory,
}

impl From<AllocError> for NotRestored {
    ghost use Rattle.cmh_restore3.specs.declared.checks.NotRestored.TheVariants.{Memory};

    ghost from_gives = { λ _ fault. fault ≡ Memory };

    fn from(_: AllocError) -> NotRestored {
        NotRestored::Memory
    }
}

/// The first segments of a restored world, in the order of those that stand for the epoch. Without memory nothing is said.
///
/// Where the world can't be restored, the first of these is answered: another world, an epoch that was not begun, the set of
/// the sites, a base, a link.
pub fn restored_world(
    alloc: Global,
    topology: &Topology,
    epoch: Epoch,
    heads: Vec<Head>,
) -> Result<Vec<Segment>, NotRestored>
    requires { All (λ head. IsBase head.base) heads.items }
    ensures restored { IfOk result (λ segments. segments.items ≡ spec.restored_all topology.now epoch heads.items) }
    ensures can { OnOk result (CanBeRestored topology.now epoch heads.items) }
    ensures fault { IfErr result (IsWhyNot topology.now epoch heads.items) }
{
    if !are_of_other(topology.world(), &heads) {
        return Err(NotRestored::OtherWorld);
    }
    if !have_begun(epoch, &heads) {
        return Err(NotRestored::NotBegun);
    }
    let segments = restored_all(alloc, topology, epoch, heads)?;
    if let Err(fault) = check_world(topology, &segments) {
        return Err(NotRestored::Set(fault));
    }
    if let Some(fault) = fault_of_base(alloc, topology, &segments) {
        return Err(fault);
    }
    if let Some(link) = disagreement(topology.sites(), &segments) {
        return Err(NotRestored::Link(link));
    }
    Ok(segments)
}

/// Whether the segments are of one world, and that is not this one.
fn are_of_other(world: World, heads: &[Head]) -> bool
    ensures { IsTrue result ↔ AreOfOther world heads.now }
{
    let Some(first) = heads.first() else {
        return true;
    };
    let old = first.header.world;
    if is_same(old, world) {
        return false;
    }
    for head in heads {
        if !is_same(head.header.world, old) {
            return false;
        }
    }
    true
}

fn is_same(one: World, two: World) -> bool
    ensures { IsTrue result ↔ (one ≡ two) }
{
    one == two
}

/// Whether each segment stands for the epoch.
fn have_begun(epoch: Epoch, heads: &[Head]) -> bool
    ensures { IsTrue result ↔ All (StandsFor epoch) heads.now }
{
    for head in heads {
        if !stands_for(epoch, head) {
            return false;
        }
    }
    true
}

/// Whether a segment stands for an epoch.
pub fn stands_for(epoch: Epoch, head: &Head) -> bool
    ensures { IsTrue result ↔ StandsFor epoch head.now }
{
    head.header.before < epoch && epoch <= head.header.epoch
}

/// What is made of these segments. The only error is out of memory.
fn restored_all(
    alloc: Global,
    topology: &Topology,
    epoch: Epoch,
    heads: Vec<Head>,
) -> Result<Vec<Segment>, AllocError>
    ensures { IfOk result (λ segments. segments.items ≡ spec.restored_all topology.now epoch heads.items) }
{
    let mut segments = Vec::new(alloc);
    for head in heads {
        segments.push(restored(alloc, topology, epoch, head))?;
    }
    Ok(segments)
}

fn restored(alloc: Global, topology: &Topology, epoch: Epoch, head: Head) -> Segment
    ensures { result ≡ spec.restored topology.now epoch head }
{
    let header = Header {
        site: head.header.site,
        world: topology.world(),
        epoch,
        before: Epoch::new(0),
    };
    Segment {
        header,
        base: head.base,
        entries: Rows::new(Vec::new(alloc)),
    }
}

/// The first site whose segment begins with no state of the rules, or that memory was refused.
fn fault_of_base(alloc: Global, topology: &Topology, segments: &[Segment]) -> Option<NotRestored>
    requires { All (λ g. IsBase g.base) segments.now }
    ensures none { result ≡ None → BeginLawfully topology.now segments.now }
    ensures fault { IfSome result (spec.IsFaultOfBase topology.now segments.now) }
{
    for segment in segments {
        let header = &segment.header;
        let site = header.site;
        match controller_of(alloc, topology, site, header.epoch, &segment.base) {
            Ok(_) => {}
            Err(Refusal::Memory) => return Some(NotRestored::Memory),
            Err(_) => return Some(NotRestored::Base(site)),
        }
    }
    None
}
