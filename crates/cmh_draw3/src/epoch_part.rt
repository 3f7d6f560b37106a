//! In which columns of a run the entries of an epoch stand.

ghost use Rattle.std.specs.Prelude.{◌≡◌, ◌++◌, IfOk, OnOk, map};
ghost use Rattle.cmh_audit3.specs.Journals.{journal_of};
ghost use Rattle.cmh_draw3.specs.EpochParts as spec;
ghost use Rattle.cmh_draw3.specs.EpochParts.{IsPartOver, columns_in, epochs_at};

use crate::newer_run::entries_at;
use cmh_audit3::Segment;
use cmh_draw::{EntrySpot, Mark};
use cmh_long_audit3::epoch_in;
use cmh_model3::{Event, SiteId};
use cmh_picture::Part;
use cmh_topology3::Topology;
use cmh_wire3::Epoch;
use std::alloc::{AllocError, Global};

/// The part of a run from the first to the last column in which an entry of an epoch stands, by the marks of the run's picture;
/// no column where none does. A turn is an entry of the epoch to which it leads.
pub fn part_of_epoch(
    alloc: Global,
    epoch: Epoch,
    world: &Topology,
    wholes: &[Segment],
    marks: &[Mark],
) -> Result<Part, AllocError>
    ensures { IfOk result (IsPartOver (columns_in epoch (epochs_at world.now wholes.now) marks.now)) }
{
    let epochs = epochs_of(alloc, world, wholes)?;
    let mut columns = columns_of_epoch(alloc, epoch, &epochs, marks)?;
    columns.sort_unstable();
    Ok(part_over(&columns))
}

/// From the first to the last of these columns, which ascend.
fn part_over(columns: &[u32]) -> Part
    ensures { result ≡ spec.part_over columns.now }
{
    match (columns.first(), columns.last()) {
        (Some(first), Some(last)) => Part {
            first: first.saturating_add(1),
            last: last.saturating_add(1),
        },
        _ => Part { first: 1, last: 0 },
    }
}

/// The columns of the entries of an epoch, one for each, in the order of their marks.
fn columns_of_epoch(
    alloc: Global,
    epoch: Epoch,
    epochs: &[Vec<Epoch>],
    marks: &[Mark],
) -> Result<Vec<u32>, AllocError>
    ensures { IfOk result (λ columns. columns.items ≡ columns_in epoch (map (λ row. row.items) epochs.now) marks.now) }
{
    let mut columns = Vec::new(alloc);
    for mark in marks {
        add_column(epoch, epochs, mark, &mut columns)?;
    }
    Ok(columns)
}

/// Adds the column of a mark, if it is that of an entry of the epoch.
fn add_column(
    epoch: Epoch,
    epochs: &[Vec<Epoch>],
    mark: &Mark,
    columns: &mut Vec<u32>,
) -> Result<(), AllocError>
    ensures { OnOk result (columns.new.items ≡ columns.old.items ++ spec.column_in epoch (map (λ row. row.items) epochs.now) mark.now) }
{
    match mark {
        Mark::Entry(entry) if is_of(epoch, epochs, &entry.at) => {
            columns.push(entry.at.spot.column)?;
            Ok(())
        }
        _ => Ok(()),
    }
}

/// Whether an entry is of this epoch.
fn is_of(epoch: Epoch, epochs: &[Vec<Epoch>], at: &EntrySpot) -> bool
    ensures { result ≡ spec.is_of epoch (map (λ row. row.items) epochs.now) at.now }
{
    match epochs.get(at.spot.row as usize) {
        Some(site) => is_at(epoch, site, at.number),
        None => false,
    }
}

/// Whether the entry of a number is of this epoch, by those of all entries of its site.
fn is_at(epoch: Epoch, epochs: &[Epoch], number: usize) -> bool
    ensures { result ≡ spec.is_at epoch epochs.now number }
{
    match epochs.get(number.saturating_sub(1)) {
        Some(own) => *own == epoch,
        None => false,
    }
}

/// The epochs of the entries of each site.
fn epochs_of(
    alloc: Global,
    world: &Topology,
    wholes: &[Segment],
) -> Result<Vec<Vec<Epoch>>, AllocError>
    ensures { IfOk result (λ epochs. map (λ row. row.items) epochs.items ≡ epochs_at world.now wholes.now) }
{
    let mut epochs = Vec::new(alloc);
    for site in world.sites() {
        epochs.push(epochs_of_site(alloc, wholes, *site)?)?;
    }
    Ok(epochs)
}

fn epochs_of_site(alloc: Global, wholes: &[Segment], site: SiteId) -> Result<Vec<Epoch>, AllocError>
    ensures { IfOk result (λ epochs. epochs.items ≡ spec.epochs_from 0 (journal_of wholes.now site)) }
{
    let mut epochs = Vec::new(alloc);
    let mut epoch = Epoch::new(0);
    let entries = entries_at(wholes, site);
    for entry in entries {
        epoch = epoch_behind(epoch, &entry.event);
        epochs.push(epoch)?;
    }
    Ok(epochs)
}

/// The epoch of an entry with this event behind one of an epoch.
fn epoch_behind(epoch: Epoch, event: &Event) -> Epoch
    ensures { result ≡ spec.epoch_behind epoch event.now }
{
    match event {
        Event::Turn { clock } => epoch_in(clock.get()),
        _ => epoch,
    }
}
