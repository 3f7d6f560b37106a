//! The command `segments`.

ghost use Rattle.std.specs.Prelude.{◌≡◌};
ghost use Rattle.clap.specs.Matches.{found_of};
ghost use Rattle.cmh_archive3.specs.Listing.{ListsSegments};
ghost use Rattle.cmh_console.specs.Status.{IsStatus};
ghost use Rattle.cmh_commands.specs.Paths.{journal_paths, topology_path};

use crate::files::topology_in;
use clap::ArgMatches;
use cmh_archive3::run_segments;
use cmh_console::Output;
use cmh_inputs::Inputs;
use cmh_options::JOURNALS;
use std::alloc::Global;
use std::io::Write;

/// Lists the segments in the folders that the words name, as `run_segments` does.
pub fn segments<N: Inputs, W: Write, E: Write>(
    alloc: Global,
    inputs: &N,
    words: &ArgMatches<'_>,
    out: &mut Output<W>,
    err: &mut Output<E>,
) -> u8
    ensures status { IsStatus result }
    ensures lists { result ≡ 0 → ListsSegments (N.holds inputs.now) (topology_path (found_of words.now))
        (journal_paths (found_of words.now)) out.old.written out.new.written }
{
    let topology = topology_in(words);
    match words.get_strs(JOURNALS) {
        Some(folders) => run_segments(alloc, inputs, topology, folders, out, err),
        None => run_segments(alloc, inputs, topology, &[], out, err),
    }
}
