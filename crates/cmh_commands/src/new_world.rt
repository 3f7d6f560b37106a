//! The command `new-world`: the number of a new world, drawn at random.

ghost use Rattle.std.specs.Prelude.{◌≡◌, [], ◌∷◌, ◌++◌, true, length, IfOk, IfErr, OnOk, OnErr};
ghost use Rattle.cmh_console.specs.Status.{IsStatus};
ghost use Rattle.cmh_commands.specs.NewWorld as spec;

use cmh_console::{Fault, Output};
use cmh_topology3::World;
use std::fs;
use std::io::{self, Error, ErrorKind, Read, Write};
use std::rt::Files;

/// Where the system gives random bytes.
const RANDOM: &str = "/dev/urandom";

/// Writes the number of a new world as a line: 16 bytes that the system draws, as 32 hexadecimal digits. Answers the
/// status.
///
/// The fault is `fault random` where the system gives no random bytes.
pub fn run_new_world<R: AllocGlobal + Files, W: Write, E: Write>(
    rt: &R,
    out: &mut Output<W>,
    err: &mut Output<E>,
) -> u8
    ensures status { IsStatus result }
    ensures ends { spec.WorldEnds out.old out.new err.old err.new result }
{
    match tell_world(rt, out) {
        Ok(()) => 0,
        Err(fault) => fault.name_on(err),
    }
}

fn tell_world<R: AllocGlobal + Files, W: Write>(rt: &R, out: &mut Output<W>) -> Result<(), Fault>
    ensures told { OnOk result (spec.TellsWorld out.old.written out.new.written) }
    ensures flushed { OnOk result (out.new.is_flushed ≡ true) }
    ensures fault { IfErr result (spec.IsWorldFault out.old out.new) }
{
    let world = draw_world(rt)?;
    if out.write_line(world).is_err() || out.flush().is_err() {
        return Err(Fault::Output);
    }
    Ok(())
}

/// A number that the system draws.
fn draw_world<R: AllocGlobal + Files>(rt: &R) -> Result<World, Fault>
    ensures world { IfOk result (λ world. length world ≡ World.LEN) }
    ensures fault { IfErr result spec.IsUndrawn }
{
    match random_bytes(rt) {
        Ok(bytes) => Ok(World::new(bytes)),
        Err(error) if error.kind() == ErrorKind::OutOfMemory => Err(Fault::Memory),
        Err(_) => Err(Fault::Random),
    }
}

fn random_bytes<R: AllocGlobal + Files>(rt: &R) -> io::Result<[u8; World::LEN]> {
    let mut file = fs::open(rt, RANDOM)?;
    let mut bytes = [0; World::LEN];
    file.read_exact(&mut bytes)?;
    Ok(bytes)
}
