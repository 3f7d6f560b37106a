//! The command `play --edition 3 --journals`.

ghost use Rattle.std.specs.Prelude.{◌≡◌, List, IfSome, OnOk};
ghost use Rattle.cmh_console.specs.Status.{IsStatus};
ghost use Rattle.cmh_play3.specs.Inner.Ends.{IsKept};
ghost use Rattle.cmh_play3.specs.Plays as spec;
ghost use Rattle.cmh_play3.specs.Plays.{KeepsWorld, PlaysAndKeeps, PlaysInto};
ghost use Rattle.cmh_model3.specs.Entries as model;
ghost use Rattle.cmh_play3.specs.Held.{IsShown, shown};
ghost use Rattle.cmh_play3.specs.Inner.Shown.{IsHeld};

use crate::folders::{Folders, Keeper, keep_each};
use crate::play::{PlayState, fault_of, play_script};
use cmh_console::{Ahead, Fault, Input, NoFile, Output};
use std::alloc::Global;
use std::fs::File;
use std::io::{BufRead, Write};
use std::rt::Files;

/// Plays a script of edition 3, and at its end, once all answers are flushed, keeps the journal of each site S in the folder
/// `site-S` of a folder.
///
/// The answer is the status of the program: 0 at the script's end, 1 where memory ran out, 3 where the folder isn't there
/// or a journal can't be kept in it, the script can't be read or the answers can't be written. A fault is named on `err`,
/// and a write to it that fails is ignored.
pub fn run_play3_into<R: AllocGlobal + Files<File = File>, I: BufRead + Ahead, W: Write, E: Write>(
    rt: &R,
    path: &str,
    input: &mut Input<I>,
    out: &mut Output<W>,
    err: &mut Output<E>,
) -> u8
    ensures status { IsStatus result }
    ensures plays { PlaysInto input.old input.new out.old out.new err.old err.new result }
{
    match Folders::open(rt, path) {
        Ok(mut folders) => run_play3_keeping(rt.alloc(), input, out, err, &mut folders),
        Err(refused) => fault_of_file(refused).name_on(err),
    }
}

/// The same, where a keeper keeps the journals. One that fails ends the command with its fault, after all answers.
pub fn run_play3_keeping<I: BufRead + Ahead, W: Write, E: Write, K: Keeper>(
    alloc: Global,
    input: &mut Input<I>,
    out: &mut Output<W>,
    err: &mut Output<E>,
    keeper: &mut K,
) -> u8
    ensures status { IsStatus result }
    ensures plays { PlaysInto input.old input.new out.old out.new err.old err.new result }

    // At status 0 the keeper has the journal of each site, of the world to which the script leads.
    ensures kept { result ≡ 0 → IfSome input.old.left (λ bytes. PlaysAndKeeps K.keeps bytes
        out.old.written out.new.written keeper.old keeper.new) }
{
    match play_script(alloc, input, out) {
        Ok(state) => keep(alloc, state, err, keeper),
        Err(fault) => fault_of(fault).name_on(err),
    }
}

/// Keeps the journals of the world of a script that was played; answers the status.
fn keep<E: Write, K: Keeper>(
    alloc: Global,
    state: PlayState,
    err: &mut Output<E>,
    keeper: &mut K,
) -> u8
    requires { IsHeld state }
    ensures status { IsStatus result }
    ensures named { IsKept err.old err.new result }
    ensures kept { result ≡ 0 → (events : List model.WorldEvent) → IsShown events state
        → KeepsWorld K.keeps (shown state events) keeper.old keeper.new }
{
    match keep_state(alloc, state, keeper) {
        Ok(()) => 0,
        Err(refused) => fault_of_file(refused).name_on(err),
    }
}

fn keep_state<K: Keeper>(alloc: Global, state: PlayState, keeper: &mut K) -> Result<(), NoFile>
    requires { IsHeld state }
    ensures { OnOk result ((events : List model.WorldEvent) → IsShown events state
        → KeepsWorld K.keeps (shown state events) keeper.old keeper.new) }
{
    let world = state.into_world(alloc)?;
    keep_each(alloc, &world, keeper)
}

/// The fault of journals that are not kept.
fn fault_of_file(refused: NoFile) -> Fault
    ensures { result ≡ spec.fault_of_file refused }
{
    match refused {
        NoFile::Disk => Fault::OutFile,
        NoFile::Memory => Fault::Memory,
    }
}
