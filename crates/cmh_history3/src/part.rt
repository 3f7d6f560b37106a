//! The verdict on the epochs of a world from one of them on.

ghost use Rattle.std.specs.Prelude.{◌↔◌, IfOk, IsTrue};
ghost use Rattle.std.specs.List.{All, AllByRecursion};
ghost use Rattle.cmh_history3.specs.Chains.{IsReadEpoch};
ghost use Rattle.cmh_history3.specs.Findings.{Finds};
ghost use Rattle.cmh_history3.specs.EpochSet.{IsEpochSet};
ghost use Rattle.cmh_history3.specs.Epochs.{AreEpochs};
ghost use Rattle.cmh_history3.specs.Histories.{AreReadBases};
ghost use Rattle.cmh_history3.specs.Parts.{BeginsWith};

use crate::chain::{ChainVerdict, audit_chain};
use crate::epochs::epochs_of;
use crate::journal::Journal;
use crate::verdict::{HistoryFault, check_epoch};
use cmh_audit3::SetFault;
use cmh_segment3::{Rows, Segment};
use cmh_topology3::Topology;
use cmh_wire3::Epoch;
use std::alloc::Global;
use std::thread::Threads;

/// What an audit of some epochs finds.
#[derive(Drop)]
pub struct Part {
    /// The epochs, in order. The last one is open, and has all that follows.
    pub epochs: Vec<Rows<Segment>>,
    /// Whether they come one after the other. A place is that of an epoch among them.
    pub verdict: ChainVerdict,
}

/// Audits the epochs of journals in their order from the bases of the first one, as `audit_history` does from where nothing
/// has happened. What led to these bases is not looked at.
pub fn audit_part<R: Threads + Sync>(
    rt: &R,
    alloc: Global,
    topology: &Topology,
    journals: Vec<Journal>,
) -> Result<Part, HistoryFault>
    requires { AllByRecursion AreReadBases journals.items }

    // The epochs can be audited once more, each by itself.
    ensures read { IfOk result (λ part. All (IsReadEpoch topology.now) part.epochs.items) }

    ensures epochs { IfOk result (λ part. AreEpochs journals.items part.epochs.items) }

    // Where all are accepted, all entries and the turns between them come from one run from the first bases. Else those before
    // the place that is named do, and the epoch there is none from its bases, or these do not say where that run ends.
    ensures found { IfOk result (λ part. Finds topology.now part.epochs.items part.verdict) }
{
    let epochs = epochs_of(alloc, journals)?;
    check_sets(topology, &epochs)?;
    let verdict = audit_chain(rt, alloc, topology, &epochs)?;
    Ok(Part { epochs, verdict })
}

/// Whether the segments of each epoch are those of one epoch of the world.
fn check_sets(topology: &Topology, epochs: &[Rows<Segment>]) -> Result<(), SetFault>
    ensures { IfOk result (λ _. All (IsEpochSet topology.now) epochs.now) }
{
    for epoch in epochs {
        check_epoch(topology, epoch.as_slice())?;
    }
    Ok(())
}

/// Whether the base of a segment stands for this epoch, where nothing is said of the segment before it but its epoch: the
/// segment is of this epoch, or its site jumped over it.
pub fn begins_with(segment: &Segment, epoch: Epoch) -> bool
    ensures { IsTrue result ↔ BeginsWith epoch segment.now.header }
{
    let header = &segment.header;
    header.epoch == epoch || (header.epoch > epoch && header.before < epoch)
}
