//! A board takes in what a journal declares.

ghost use Rattle.std.specs.Prelude.{◌≡◌, ◌+◌, ◌<◌, ◌≤◌, ◌^◌, length, true, false, OnOk, OnErr};
ghost use Rattle.cmh_frames.specs.Declarations.{declarations};
ghost use Rattle.cmh_station.specs.Stations.{IsFed, KeepsUp, TookIn};

use crate::journaled::JournaledController;
use crate::keeper::Keeper;
use cmh_frames::Entry;
use cmh_journal::Sink;
use cmh_shared::Listing;
use std::alloc::AllocError;
use std::sync::Wait;

/// Lists what these entries declare, which were not taken in yet. An entry is taken in once its declaration is listed,
/// so that nothing is lost or listed twice where memory is refused.
fn feed<B: Listing>(board: &mut B, entries: &[Entry], fed: &mut usize) -> Result<(), AllocError>
    requires few { length (B.listed board.old).list + length (declarations entries.now) ≤ 64 }
    requires countable { fed.old + length entries.now < 2 ^ 64 }
    ensures took { TookIn entries.now fed.old fed.new (B.listed board.old) (B.listed board.new) }
    ensures ok { OnOk result (fed.new ≡ fed.old + length entries.now) }
    ensures memory { OnErr result ((B.listed board.new).out_of_memory ≡ true) }
{
    for entry in entries {
        if let Some(process) = entry.declared {
            match board.add(process) {
                Ok(()) => {}
                Err(_) => return Err(AllocError),
            }
        }
        *fed += 1;
    }
    Ok(())
}

/// Lists what the journal declares that was not taken in yet, and publishes what is listed. It may wait for a `read`
/// that is under way.
pub(crate) fn show<R: Wait, S: Sink, B: Listing, K: Keeper>(
    rt: &R,
    board: &mut B,
    core: &JournaledController<S, K>,
    fed: &mut usize,
) -> Result<(), AllocError>
    requires fed { IsFed core.now.core.entries fed.old (B.listed board.old) }
    requires in_memory { core.now.gone ≤ fed.old }
    ensures keeps_up { KeepsUp core.now.core.entries fed.new (B.listed board.old) (B.listed board.new) }
    ensures grew { fed.old ≤ fed.new }
    ensures ok { OnOk result ((B.listed board.new).shown ≡ declarations core.now.core.entries) }
    ensures had_memory { OnOk result ((B.listed board.new).out_of_memory ≡ false) }
    ensures had_none { OnErr result ((B.listed board.new).out_of_memory ≡ true) }
{
    match feed(board, core.since(*fed), fed) {
        Ok(()) => {}
        Err(_) => return Err(AllocError),
    }
    match board.publish(rt) {
        Ok(()) => Ok(()),
        Err(_) => Err(AllocError),
    }
}
