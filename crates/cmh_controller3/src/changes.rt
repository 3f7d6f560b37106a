//! What a step changes in the tables of a site.

ghost use Rattle.std.specs.Prelude.{◌≡◌, ◌==◌, ◌&&◌, ◌||◌, ◌<◌, ℕ, true, false, not, if◌then◌else◌, length, max, IfOk, None, Some};
ghost use Rattle.cmh_model3.specs.Lists.{in_list, set_at};
ghost use Rattle.cmh_controller3.specs.Tables.{flags_of, marks_of, stamps_of};
ghost use Rattle.cmh_controller3.specs.declared.outcome.Declaration as spec;
ghost use Rattle.cmh_topology3.specs.Topology.{site_of};
ghost use Rattle.cmh_waits3.specs.Held.{is_member, waits_of};

use crate::mark_table::MarkTable;
use crate::outcome::{Declaration, Outcome};
use cmh_model3::{Message, ProcId, Sendings, SiteId, Stamp};
use cmh_topology3::Topology;
use cmh_waits::ProcList;
use cmh_waits3::SiteWaits;
use std::alloc::AllocError;

/// A number above those of the processes.
pub fn room_for(processes: &[ProcId]) -> usize
    ensures { (p : ℕ) → in_list processes.now p ≡ true → p < result }
{
    let mut room = 0;
    for process in processes {
        let number = process.get() as usize;
        if room <= number {
            room = number + 1;
        }
    }
    room
}

/// The targets at other sites, besides those in the row.
pub fn with_those_away(
    row: ProcList,
    topology: &Topology,
    site: SiteId,
    targets: &[ProcId],
) -> Result<ProcList, AllocError>
    ensures { IfOk result (λ more. (k : ℕ) → in_list more k
        ≡ ((not (site_of topology.now k == site) && in_list targets.now k) || in_list row k)) }
{
    let mut row = row;
    for target in targets {
        if !topology.is_at(*target, site) {
            row.insert(*target)?;
        }
    }
    Ok(row)
}

/// The processes of the site that wait for the holder, besides those in the row.
pub fn with_waiters(
    row: ProcList,
    waits: &SiteWaits,
    holder: ProcId,
) -> Result<ProcList, AllocError>
    ensures { IfOk result (λ more. (j : ℕ) → in_list more j
        ≡ ((in_list (waits_of waits.now j) holder && is_member waits.now j) || in_list row j)) }
{
    let mut row = row;
    for asker in waits.members() {
        if waits.waits_for(*asker, holder) {
            row.insert(*asker)?;
        }
    }
    Ok(row)
}

/// Where a process has become active, its marks and its declaration are forgotten.
pub fn forget(marks: &mut MarkTable, declared: &mut Vec<bool>, process: ProcId, blocked: bool)
    requires marks_room { process < length marks.old }
    requires declared_room { process < length declared.old.items }
    ensures marks { marks_of marks.new
        ≡ if blocked then marks_of marks.old else set_at (marks_of marks.old) process (λ i. 0) }
    ensures declared { flags_of declared.new.items
        ≡ if blocked then flags_of declared.old.items else set_at (flags_of declared.old.items) process false }
    ensures marks_length { length marks.new ≡ length marks.old }
    ensures declared_length { length declared.new.items ≡ length declared.old.items }
{
    if !blocked {
        marks.clear(process);
        declared[process.get() as usize] = false;
    }
}

/// Declares a process, if it is deadlocked. It answers whether that is new.
pub fn declare(declared: &mut Vec<bool>, process: ProcId, deadlocked: bool) -> bool
    requires room { deadlocked ≡ true → process < length declared.old.items }
    ensures new { result ≡ (deadlocked && not (flags_of declared.old.items process)) }
    ensures flags { flags_of declared.new.items
        ≡ if deadlocked then set_at (flags_of declared.old.items) process true else flags_of declared.old.items }
    ensures length { length declared.new.items ≡ length declared.old.items }
{
    if !deadlocked {
        return false;
    }
    let place = process.get() as usize;
    let new = !declared[place];
    declared[place] = true;
    new
}

/// Takes back a declaration, if there is one.
pub fn undeclare(declared: &mut Vec<bool>, declaration: Option<Declaration>)
    ensures none { declaration ≡ None → flags_of declared.new.items ≡ flags_of declared.old.items }
    ensures some { (d : spec.Declaration) → declaration ≡ Some d
        → flags_of declared.new.items ≡ set_at (flags_of declared.old.items) d.process false }
    ensures length { length declared.new.items ≡ length declared.old.items }
{
    if let Some(declaration) = declaration {
        undeclare_one(declared, declaration.process);
    }
}

fn undeclare_one(declared: &mut Vec<bool>, process: ProcId)
    ensures flags { flags_of declared.new.items ≡ set_at (flags_of declared.old.items) process false }
    ensures length { length declared.new.items ≡ length declared.old.items }
{
    if let Some(flag) = declared.get_mut(process.get() as usize) {
        *flag = false;
    }
}

/// Whether the process is declared.
pub fn is_declared(declared: &[bool], process: ProcId) -> bool
    ensures { result ≡ flags_of declared.now process }
{
    match declared.get(process.get() as usize) {
        Some(flag) => *flag,
        None => false,
    }
}

/// The stamp of the newest ask of the process.
pub fn stamp_at(stamps: &[Stamp], process: ProcId) -> Stamp
    ensures { result ≡ stamps_of stamps.now process }
{
    match stamps.get(process.get() as usize) {
        Some(stamp) => *stamp,
        None => Stamp::new(0),
    }
}

/// The later of two clocks.
pub fn later(left: Stamp, right: Stamp) -> Stamp
    ensures { result ≡ max left right }
{
    if left < right { right } else { left }
}

/// What comes of a step that declares nothing.
pub fn said(sent: Vec<(SiteId, Message)>) -> Outcome
    ensures sent { result.sent ≡ sent.items }
    ensures declared { result.declared ≡ None }
{
    Outcome {
        sent: Sendings::new(sent),
        declared: None,
    }
}

/// That a process is declared, if it is.
pub fn declaration(declared: bool, process: ProcId, stop: Stamp) -> Option<Declaration>
    ensures { result ≡ if declared then Some (record { process = process; stop = stop }) else None }
{
    if declared {
        Some(Declaration { process, stop })
    } else {
        None
    }
}
