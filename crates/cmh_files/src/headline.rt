//! The headline as a law: what an auditor's verdict says of the files that were read.

ghost use Rattle.std.specs.Prelude.{List, ℕ};
ghost use Rattle.cmh_journal.specs.Journal.{Journal};
ghost use Rattle.cmh_audit.specs.Set.{IsSet};
ghost use Rattle.cmh_audit.specs.Verdicts.{IsVerdictOn};
ghost use Rattle.cmh_audit.specs.declared.verdict.Verdict.{Verdict};
ghost use Rattle.cmh_files.specs.Audits.{AreRead};
ghost use Rattle.cmh_files.specs.Headline.{Headline};

use cmh_frames::Topology;
use cmh_journal::laws::{beginning_law_of_every_journal, one_file_law};
use cmh_world::{
    cut_law_of_every_run, dark_path_of_every_run, drained_law_of_every_run, stranger_law,
};

/// Where files were read to be journals, one for each site, the auditor's verdict on these is the headline's on the
/// files:
/// accepted exactly where they are those of a run, one for each site. In every such run each declared process lies on a
/// cycle, and the report is true; in edition 2, with no frame in transit, the last asker of each cycle is declared.
/// Files of a consistent stop of a run are accepted, and files that were cut off are those of a stop.
pub fn headline_law(topology: &Topology)
    ensures headline { (files : List (List ℕ)) (journals : List Journal) (cuts : List (ℕ × ℕ)) (verdict : Verdict)
        → AreRead files journals cuts → IsSet topology.now journals → IsVerdictOn topology.now journals verdict
        → Headline topology.now files verdict }
{
    one_file_law();
    beginning_law_of_every_journal();
    stranger_law(topology);
    dark_path_of_every_run(topology);
    drained_law_of_every_run(topology);
    cut_law_of_every_run(topology);
}
