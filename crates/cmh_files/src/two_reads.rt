//! Two readings of the files of running sites are enough, as a law.

ghost use Rattle.std.specs.Prelude.{ℕ, List};
ghost use Rattle.cmh_frames.specs.Entries.{WorldEvent};
ghost use Rattle.cmh_frames.specs.Runs.{IsBeginningOf, IsRun};
ghost use Rattle.cmh_files.specs.TwoReads.{AreEnough, WereReadAround};

use cmh_frames::Topology;
use cmh_world::{cut_law_of_every_run, stranger_law};

/// Where a moment of a run lies between two readings of the files of all sites, the stop at which `stop_of` cuts the
/// second ones is a consistent stop of that moment's run: what is kept comes from a run, and an audit accepts it.
///
/// The moment is a beginning of the run, of which each site has at least what was read first, and at most what was read
/// second. There is one where sites sync an entry before they send its frames, all first files are read before the
/// second ones, and the disk gives back what was synced; no contract can say so of files.
pub fn two_reads_law(topology: &Topology)
    ensures enough { (events so_far : List WorldEvent) (reads : List (List ℕ × List ℕ))
        → IsRun topology.now events → IsBeginningOf so_far events → WereReadAround topology.now so_far reads
        → AreEnough topology.now so_far reads }
{
    stranger_law(topology);
    cut_law_of_every_run(topology);
}
