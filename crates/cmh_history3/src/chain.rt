//! The audit of epochs, one after the other.

ghost use Rattle.std.specs.Prelude.{◌≡◌, ◌∷◌, IfNone, IfOk, IfSome, List};
ghost use Rattle.std.specs.List.{All, AllZip};
ghost use Rattle.std.specs.Vec.Iter.{into_iter_items, into_iter_len};
ghost use Rattle.cmh_segment3.specs.Base.{IsBase};
ghost use Rattle.cmh_history3.specs.Chains as spec;
ghost use Rattle.cmh_history3.specs.Chains.{IsReadEpoch};
ghost use Rattle.cmh_history3.specs.Findings.{CanBegin, Finds};
ghost use Rattle.cmh_history3.specs.Inner.Ends.{AreEndsOf, EndsAs};
ghost use Rattle.cmh_history3.specs.Inner.Leading.{AreRestored};
ghost use Rattle.cmh_segment3.specs.declared.segment.Segment as segment;
ghost use Rattle.cmh_topology3.specs.Topology as topology;

use crate::epoch_verdict::{EpochVerdict, audit_epoch};
use crate::next::follows;
use crate::turns::turn_law;
use cmh_audit3::AuditMemory;
use cmh_bases3::controller_of;
use cmh_controller3::{Controller, Refusal};
use cmh_epochs3::chain_law;
use cmh_merge::Queues;
use cmh_model3::Message;
use cmh_segment3::{Rows, Segment};
use cmh_topology3::Topology;
use cmh_wire3::Epoch;
use rayon::prelude::*;
use std::alloc::Global;
use std::thread::Threads;
use std::vec::IntoIter;

/// Whether epochs come one after the other.
#[derive(Clone, Copy)]
pub enum ChainVerdict {
    /// They do.
    Accepted,
    /// The epoch at this place is the first that is no epoch from its bases: `controller_of` refuses one of them, or
    /// `audit_epoch` does not accept it. Those before it are accepted, and follow one another.
    Refused(usize),
    /// The epoch at this place is the first whose bases do not say the end of the one before it, which is accepted.
    Apart(usize),
}

/// Audits epochs in their order: whether each is one from its bases, and the bases of each but the first say the end of the
/// one before it. The only error is out of memory, after which nothing is said of them.
///
/// The epochs are judged side by side, in as many threads as there are processors, and then compared in their order.
pub fn audit_chain<R: Threads + Sync>(
    rt: &R,
    alloc: Global,
    topology: &Topology,
    epochs: &[Rows<Segment>],
) -> Result<ChainVerdict, AuditMemory>
    requires { All (IsReadEpoch topology.now) epochs.now }

    // Where all are accepted, all their entries and the turns between them come from one run from the first bases. Else those
    // before the place that is named do, and the epoch there is none from its bases, or these do not say where that run ends.
    ensures { IfOk result (Finds topology.now epochs.now) }
{
    chain_law();
    turn_law(topology);
    let Some((_first, more)) = epochs.split_first() else {
        return Ok(ChainVerdict::Accepted);
    };
    let mut ends = ends_of(rt, alloc, topology, epochs)?.into_iter();
    for (place, next) in more.iter().enumerate() {
        let next = next.as_slice();
        let Some(end) = next_end(&mut ends) else {
            return Ok(ChainVerdict::Refused(place));
        };
        let End {
            controllers,
            under_way,
        } = end;
        if !follows(
            alloc,
            topology,
            &controllers,
            under_way,
            epoch_of(next),
            next,
        )? {
            return Ok(ChainVerdict::Apart(place + 1));
        }
    }
    let Some(_end) = next_end(&mut ends) else {
        return Ok(ChainVerdict::Refused(more.len()));
    };
    Ok(ChainVerdict::Accepted)
}

/// Where each of these epochs ends, from as many threads as there are processors; none for one that is not accepted.
fn ends_of<R: Threads + Sync>(
    rt: &R,
    alloc: Global,
    topology: &Topology,
    epochs: &[Rows<Segment>],
) -> Result<Vec<Option<End>>, AuditMemory>
    requires { All (IsReadEpoch topology.now) epochs.now }
    ensures { IfOk result (λ ends. AllZip (EndsAs topology.now) epochs.now ends.items) }
{
    let ends = epochs
        .par_iter()
        .with_min_len(1)
        .map(
            |epoch: &Rows<Segment>| -> Result<Option<End>, AuditMemory>
                requires { IsReadEpoch topology.now epoch.now }
                ensures { IfOk result (EndsAs topology.entry.now epoch.now) }
            { end_of(alloc, topology, epoch.as_slice()) },
        )
        .collect::<Result<Vec<_>, AuditMemory>>(rt, alloc);
    match ends {
        Ok(ends) => ends,
        Err(_) => Err(AuditMemory),
    }
}

/// The end of the next epoch; none where it is not accepted.
fn next_end(ends: &mut IntoIter<Option<End>>) -> Option<End>
    ensures { (t : topology.Topology) (segments : List segment.Segment) (later : List (List segment.Segment))
        → AreEndsOf t (segments ∷ later) (into_iter_items ends.old) (into_iter_len ends.old)
        → EndsAs t segments result × AreEndsOf t later (into_iter_items ends.new) (into_iter_len ends.new) }
{
    match ends.next() {
        Some(end) => end,
        None => None,
    }
}

/// The epoch of segments; 0 where there are none.
fn epoch_of(segments: &[Segment]) -> Epoch
    ensures { result ≡ spec.epoch_of segments.now }
{
    match segments.first() {
        Some(segment) => segment.header.epoch,
        None => Epoch::new(0),
    }
}

/// Where an epoch ends.
#[derive(Drop)]
struct End {
    /// The controller of each segment's site.
    controllers: Vec<Controller>,
    /// The messages that are under way.
    under_way: Queues<Message>,
}

/// Where the epoch of these segments ends; none where they are not accepted.
fn end_of(
    alloc: Global,
    topology: &Topology,
    segments: &[Segment],
) -> Result<Option<End>, AuditMemory>
    requires { IsReadEpoch topology.now segments.now }
    ensures { IfOk result (EndsAs topology.now segments.now) }
{
    let Some(controllers) = controllers_of(alloc, topology, segments)? else {
        return Ok(None);
    };
    match audit_epoch(alloc, topology, segments, controllers)? {
        EpochVerdict::Accepted {
            controllers,
            under_way,
            ..
        } => Ok(Some(End {
            controllers,
            under_way,
        })),
        EpochVerdict::Disagreed(_) | EpochVerdict::Refused(_) => Ok(None),
    }
}

/// The controllers of the segments' bases; none where one of these is of no state of the rules.
pub(crate) fn controllers_of(
    alloc: Global,
    topology: &Topology,
    segments: &[Segment],
) -> Result<Option<Vec<Controller>>, AuditMemory>
    requires { All (λ g. IsBase g.base) segments.now }
    ensures restored { IfOk result (λ found. IfSome found (λ controllers.
        AreRestored topology.now segments.now controllers.items)) }
    ensures none { IfOk result (λ found. IfNone found (¬ CanBegin topology.now segments.now)) }
{
    let mut controllers = Vec::new(alloc);
    for segment in segments {
        let header = &segment.header;
        let site = header.site;
        let controller = match controller_of(alloc, topology, site, header.epoch, &segment.base) {
            Ok(controller) => controller,
            Err(Refusal::Memory) => return Err(AuditMemory),
            Err(_) => return Ok(None),
        };
        let Ok(()) = controllers.push(controller) else {
            return Err(AuditMemory);
        };
    }
    Ok(Some(controllers))
}
