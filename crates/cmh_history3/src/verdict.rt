//! The verdict on all epochs of a world.

ghost use Rattle.std.specs.Prelude.{◌≡◌, IfOk, List, Some, slice_get};
ghost use Rattle.std.specs.List.{All, AllByRecursion};
ghost use Rattle.cmh_history3.specs.Chains as chain;
ghost use Rattle.cmh_history3.specs.EpochSet.{IsEpochSet};
ghost use Rattle.cmh_segment3.specs.declared.segment.Segment as segment;
ghost use Rattle.cmh_history3.specs.Histories.{AreReadBases, FindsIn};
ghost use Rattle.cmh_history3.specs.Inner.Sets.{BeginWorld};

use crate::chain::{ChainVerdict, audit_chain};
use crate::epoch_set::are_of_epoch;
use crate::epochs::epochs_of;
use crate::journal::Journal;
use cmh_audit3::{AuditMemory, SetFault, check_set, check_world};
use cmh_epochs3::first_law;
use cmh_segment3::{Rows, Segment};
use cmh_topology3::Topology;
use cmh_wire3::Epoch;
use std::alloc::{AllocError, Global};
use std::thread::Threads;
use thiserror::Error;

/// Whether the epochs of journals come one after the other.
#[derive(Clone, Copy)]
pub enum HistoryVerdict {
    /// They do.
    Accepted,
    /// This is the first that is no epoch from its bases. Those before it are accepted, and follow one another. It may be the
    /// open one, with all that follows.
    Refused(Epoch),
    /// This is the first whose bases do not say the end of the one before it, which is accepted.
    Apart(Epoch),
}

/// Why there is no verdict.
#[derive(Clone, Copy, Debug, PartialEq, Eq, Error)]
pub enum HistoryFault {
    /// The journals are not those of all sites of one world.
    #[error("{0}")]
    Set(SetFault),
    /// Memory was refused.
    #[error("there is not enough memory for the audit")]
    Memory,
}

impl From<SetFault> for HistoryFault {
    fn from(fault: SetFault) -> HistoryFault {
        HistoryFault::Set(fault)
    }
}

impl From<AuditMemory> for HistoryFault {
    fn from(_: AuditMemory) -> HistoryFault {
        HistoryFault::Memory
    }
}

impl From<AllocError> for HistoryFault {
    fn from(_: AllocError) -> HistoryFault {
        HistoryFault::Memory
    }
}

/// Audits the epochs of journals in their order, the open one with all that follows as one epoch. A site that has begun a
/// later epoch there turns to it between its entries; whether its base says where it stands then is not looked at.
pub fn audit_history<R: Threads + Sync>(
    rt: &R,
    alloc: Global,
    topology: &Topology,
    journals: Vec<Journal>,
) -> Result<HistoryVerdict, HistoryFault>
    requires { AllByRecursion AreReadBases journals.items }

    // Where all are accepted, all entries and the turns between them come from one run. Else those before the epoch that is
    // named do, and this is none from its bases, or these do not say where that run ends.
    ensures { IfOk result (FindsIn topology.now journals.items) }
{
    first_law();
    let epochs = epochs_of(alloc, journals)?;
    check_epochs(topology, &epochs)?;
    match audit_chain(rt, alloc, topology, &epochs)? {
        ChainVerdict::Accepted => Ok(HistoryVerdict::Accepted),
        ChainVerdict::Refused(place) => Ok(HistoryVerdict::Refused(epoch_at(&epochs, place))),
        ChainVerdict::Apart(place) => Ok(HistoryVerdict::Apart(epoch_at(&epochs, place))),
    }
}

/// Whether the segments of each epoch are those of one epoch of the world, and the first ones begin it.
fn check_epochs(topology: &Topology, epochs: &[Rows<Segment>]) -> Result<(), SetFault>
    ensures sets { IfOk result (λ _. All (IsEpochSet topology.now) epochs.now) }
    ensures first { IfOk result (λ _. BeginWorld topology.now epochs.now) }
{
    if let Some(first) = epochs.first() {
        check_set(topology, first.as_slice())?;
    }
    for epoch in epochs {
        check_epoch(topology, epoch.as_slice())?;
    }
    Ok(())
}

/// Whether segments are those of one epoch of the world.
pub(crate) fn check_epoch(topology: &Topology, segments: &[Segment]) -> Result<(), SetFault>
    ensures { IfOk result (λ _. IsEpochSet topology.now segments.now) }
{
    check_world(topology, segments)?;
    if !are_of_epoch(segments, epoch_of(segments)) {
        return Err(SetFault::LaterEpoch);
    }
    Ok(())
}

/// The epoch at this place; 0 where there is none.
fn epoch_at(epochs: &[Rows<Segment>], place: usize) -> Epoch
    ensures { (segments : List segment.Segment) → slice_get epochs.now place ≡ Some segments
        → result ≡ chain.epoch_of segments }
{
    match epochs.get(place) {
        Some(epoch) => epoch_of(epoch.as_slice()),
        None => Epoch::new(0),
    }
}

/// The epoch of segments; 0 where there are none.
fn epoch_of(segments: &[Segment]) -> Epoch
    ensures { result ≡ chain.epoch_of segments.now }
{
    match segments.first() {
        Some(segment) => segment.header.epoch,
        None => Epoch::new(0),
    }
}
