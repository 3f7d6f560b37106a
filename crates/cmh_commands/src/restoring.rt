//! The command `restore`.

ghost use Rattle.std.specs.Prelude.{◌≡◌, ℕ, List};
ghost use Rattle.clap.specs.Matches.{found_of};
ghost use Rattle.cmh_console.specs.Status.{IsStatus};
ghost use Rattle.cmh_restore3.specs.Restores.{Restores};
ghost use Rattle.cmh_commands.specs.Paths.{journal_paths};

use crate::files::topology_in;
use clap::ArgMatches;
use cmh_console::{Fault, Output};
use cmh_inputs::{Inputs, read_topology};
use cmh_options::{EPOCH, JOURNALS};
use cmh_restore3::{NewJournals, RestoreStart, run_restore};
use cmh_wire3::Epoch;
use std::alloc::Global;
use std::io::Write;

/// Begins the journals of the world that the words ask for with the keeper, as `run_restore` does.
pub fn restore<N: Inputs, K: NewJournals, W: Write, E: Write>(
    alloc: Global,
    inputs: &N,
    words: &ArgMatches<'_>,
    keeper: &mut K,
    out: &mut Output<W>,
    err: &mut Output<E>,
) -> u8
    ensures status { IsStatus result }

    // At status 0 all sites of a world are set back to an epoch of the journals that the words name.
    ensures restored { result ≡ 0 → (topology : List ℕ) × (epoch : ℕ) × Restores (N.holds inputs.now) K.lacks K.begins topology epoch
        (journal_paths (found_of words.now)) keeper.old keeper.new }
{
    let topology = match read_topology(alloc, inputs, topology_in(words)) {
        Ok(bytes) => bytes,
        Err(fault) => return Fault::from(fault).name_on(err),
    };
    let epoch = Epoch::new(words.get_one(EPOCH).unwrap_or(0));
    let Some(folders) = words.get_strs(JOURNALS) else {
        // Never so: the command line takes no `restore` without them.
        return Fault::JournalFile(1).name_on(err);
    };
    let start = RestoreStart {
        topology: &topology,
        epoch,
        folders,
    };
    run_restore(alloc, inputs, &start, keeper, out, err)
}
