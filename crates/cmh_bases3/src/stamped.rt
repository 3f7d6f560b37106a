//! The rows of a base that have stamps.

ghost use Rattle.std.specs.Prelude.{◌≡◌, ◌≢◌, ◌++◌, ℕ, IfOk, OnOk};
ghost use Rattle.cmh_runs.specs.Number.{IsNumber};
ghost use Rattle.cmh_controller3.specs.Controller.{state_of};
ghost use Rattle.cmh_segment3.specs.States.{all_numbers, stamp_of, stamped_pairs, stamped_where};
ghost use Rattle.cmh_bases3.specs.Inner.Rows.{has_asked, marked_by, marks_from, waits_from};

use cmh_controller3::Controller;
use cmh_model3::{ProcId, Stamp};
use cmh_segment3::{Rows, Stamped, StampedPair};
use std::alloc::{AllocError, Global};

/// Who waits for whom, since the ask with which stamp.
pub(crate) fn wait_rows(
    alloc: Global,
    controller: &Controller,
) -> Result<Rows<StampedPair>, AllocError>
    ensures { IfOk result (λ rows. rows
        ≡ stamped_pairs (state_of controller.now).waits (state_of controller.now).since all_numbers) }
{
    let mut rows = Vec::new(alloc);
    for asker in controller.members() {
        push_waits(&mut rows, controller, *asker)?;
    }
    Ok(Rows::new(rows))
}

/// Adds the waits of a process.
fn push_waits(
    rows: &mut Vec<StampedPair>,
    controller: &Controller,
    asker: ProcId,
) -> Result<(), AllocError>
    ensures { OnOk result (rows.new.items ≡ rows.old.items ++ waits_from (state_of controller.now) asker) }
{
    for wait in controller.stamped_waits(asker) {
        rows.push(StampedPair {
            first: asker,
            second: wait.target,
            stamp: wait.since,
        })?;
    }
    Ok(())
}

/// At whom a probe of whom went on, with the greatest stamp of those.
pub(crate) fn mark_rows(
    alloc: Global,
    controller: &Controller,
) -> Result<Rows<StampedPair>, AllocError>
    ensures rows { IfOk result (λ rows. rows
        ≡ stamped_pairs (marked_by (state_of controller.now)) (state_of controller.now).marks all_numbers) }
    ensures numbers { OnOk result ((k i : ℕ) → (state_of controller.now).marks k i ≢ 0 → IsNumber i) }
{
    let mut rows = Vec::new(alloc);
    for process in controller.members() {
        push_marks(&mut rows, controller, *process)?;
    }
    Ok(Rows::new(rows))
}

/// Adds the marks of a process. A mark whose stamp is 0 is none.
fn push_marks(
    rows: &mut Vec<StampedPair>,
    controller: &Controller,
    process: ProcId,
) -> Result<(), AllocError>
    ensures rows { OnOk result (rows.new.items ≡ rows.old.items ++ marks_from (state_of controller.now) process) }
    ensures numbers { OnOk result ((i : ℕ) → (state_of controller.now).marks process i ≢ 0 → IsNumber i) }
{
    for mark in controller.marks_of(process) {
        let _number = mark.origin.get();
        if mark.stamp.get() != 0 {
            rows.push(StampedPair {
                first: process,
                second: mark.origin,
                stamp: mark.stamp,
            })?;
        }
    }
    Ok(())
}

/// Who is declared deadlocked, and at which stop.
pub(crate) fn declared_rows(
    alloc: Global,
    controller: &Controller,
    stops: &[Stamped],
) -> Result<Rows<Stamped>, AllocError>
    ensures { IfOk result (λ rows. rows
        ≡ stamped_where (state_of controller.now).declared (stamp_of stops.now) all_numbers) }
{
    let mut rows = Vec::new(alloc);
    let processes = controller.declared(alloc)?;
    for process in processes.as_slice() {
        let _number = process.get();
        rows.push(Stamped {
            process: *process,
            stamp: stop_of(stops, *process),
        })?;
    }
    Ok(Rows::new(rows))
}

/// The stop of a process in the first row of it, and 0 where it has none.
fn stop_of(stops: &[Stamped], process: ProcId) -> Stamp
    ensures { result ≡ stamp_of stops.now process }
{
    for row in stops {
        if row.process == process {
            return row.stamp;
        }
    }
    Stamp::new(0)
}

/// The stamp of the newest ask of each process that has asked.
pub(crate) fn stamp_rows(
    alloc: Global,
    controller: &Controller,
) -> Result<Rows<Stamped>, AllocError>
    ensures { IfOk result (λ rows. rows
        ≡ stamped_where (has_asked (state_of controller.now)) (state_of controller.now).stamp all_numbers) }
{
    let mut rows = Vec::new(alloc);
    for process in controller.members() {
        let stamp = controller.stamp_of(*process);
        if stamp.get() != 0 {
            rows.push(Stamped {
                process: *process,
                stamp,
            })?;
        }
    }
    Ok(Rows::new(rows))
}
