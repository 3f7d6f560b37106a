//! The command `play`, where its journals are kept.

ghost use Rattle.cmh_console.specs.Status.{IsStatus};
ghost use Rattle.cmh_commands.specs.Playing.{PlaysScript};

use cmh_console::{Ahead, Fault, Input, Output};
use cmh_play::{Folder, PlayFault, run_play_keeping};
use std::fs::File;
use std::io::{BufRead, Write};
use std::rt::Files;

/// Plays a script, and keeps its journals in a folder.
pub fn play_into<R: AllocGlobal + Files<File = File>, I: BufRead + Ahead, W: Write, E: Write>(
    rt: &R,
    path: &str,
    input: &mut Input<I>,
    out: &mut Output<W>,
    err: &mut Output<E>,
) -> u8
    ensures status { IsStatus result }
    ensures plays { PlaysScript input.old input.new out.old out.new err.old err.new result }
{
    let alloc = rt.alloc();
    match Folder::open(rt, path) {
        Ok(mut folder) => run_play_keeping(alloc, input, out, err, &mut folder),
        Err(refused) => {
            let fault = PlayFault::from(refused);
            Fault::from(fault).name_on(err)
        }
    }
}
