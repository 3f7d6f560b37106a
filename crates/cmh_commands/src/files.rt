//! The files that the words of a command line name.

ghost use Rattle.std.specs.Prelude.{◌≡◌, ◌<◌, ◌^◌, ℕ, IfErr, IfOk, MatchBool, None, Option, Some, codes, map, string_bytes};
ghost use Rattle.clap.specs.Matches.{found_of, one_text};
ghost use Rattle.cmh_console.specs.TopologyFile3.{SaysNoWorld};
ghost use Rattle.cmh_inputs.specs.Editions.{SaysSomeWorld};
ghost use Rattle.cmh_inputs.specs.FileFaults.{IsUnread};
ghost use Rattle.cmh_inputs.specs.Readings.{AreNamed, AreNamedJournals, AreUnnamed, AreUnread};
ghost use Rattle.cmh_commands.specs.Numbers.{TellsEpoch, TellsNumber};
ghost use Rattle.cmh_commands.specs.Paths.{journal_paths, shown_paths, topology_path};

use clap::ArgMatches;
use cmh_archive3::segment_path;
use cmh_inputs::{
    AuditFiles, Disk, FileFault, Inputs, files_of, journals_of, read_script, read_topology,
};
use cmh_options::{EPOCH, JOURNALS, SCRIPT, TOPOLOGY};
use cmh_wire3::Epoch;
use std::alloc::{AllocError, Global};
use std::rt::Files;

/// What the files of a cluster hold.
#[derive(Drop)]
pub struct ClusterFiles {
    pub topology: Vec<u8>,
    pub script: Vec<u8>,
}

/// Reads the files that the words name: the topology, and then the script.
pub fn cluster_files_of<R: AllocGlobal + Files>(
    rt: &R,
    words: &ArgMatches<'_>,
) -> Result<ClusterFiles, FileFault>
    ensures { IfErr result IsUnread }
{
    let disk = Disk::new(rt);
    let topology = read_topology(rt.alloc(), &disk, topology_in(words))?;
    let path = words.get_str(SCRIPT).unwrap_or("");
    let script = read_script(rt.alloc(), &disk, path)?;
    Ok(ClusterFiles { topology, script })
}

/// Reads the files of an audit that the words name.
pub fn files_named<N: Inputs>(
    alloc: Global,
    inputs: &N,
    words: &ArgMatches<'_>,
) -> Result<AuditFiles, FileFault>
    ensures edition { IfOk result (λ files. MatchBool files.is_edition3 (SaysSomeWorld files.topology.items)
        (SaysNoWorld files.topology.items)) }
    ensures named { IfOk result (λ files. AreNamed (N.holds inputs.now) (topology_path (found_of words.now))
        (journal_paths (found_of words.now)) files.topology.items (map (λ file. file.items) files.journals.items)) }
    ensures unnamed { IfErr result (AreUnnamed (N.holds inputs.now) (topology_path (found_of words.now))
        (journal_paths (found_of words.now))) }
    ensures fault { IfErr result IsUnread }
{
    let topology = topology_in(words);
    match words.get_strs(JOURNALS) {
        Some(paths) => files_of(alloc, inputs, topology, paths),
        None => files_of(alloc, inputs, topology, &[]),
    }
}

/// Reads the journals that the words name.
pub fn journals_named<N: Inputs>(
    alloc: Global,
    inputs: &N,
    words: &ArgMatches<'_>,
) -> Result<Vec<Vec<u8>>, FileFault>
    ensures named { IfOk result (λ files. AreNamedJournals (N.holds inputs.now) (journal_paths (found_of words.now))
        (map (λ file. file.items) files.items)) }
    ensures unread { IfErr result (AreUnread (N.holds inputs.now) (journal_paths (found_of words.now))) }
    ensures fault { IfErr result IsUnread }
{
    match words.get_strs(JOURNALS) {
        Some(paths) => journals_of(alloc, inputs, paths),
        None => journals_of(alloc, inputs, &[]),
    }
}

/// Reads what `show` is to show: the journals that the words name; where they name an epoch, its segments in these folders.
pub fn shown_named<N: Inputs>(
    alloc: Global,
    inputs: &N,
    words: &ArgMatches<'_>,
) -> Result<Vec<Vec<u8>>, FileFault>
    ensures named { (epoch : Option ℕ) → TellsEpoch (one_text (found_of words.now) (codes "epoch")) epoch
        → IfOk result (λ files. AreNamedJournals (N.holds inputs.now) (shown_paths epoch (journal_paths (found_of words.now)))
        (map (λ file. file.items) files.items)) }
    ensures unread { (epoch : Option ℕ) → TellsEpoch (one_text (found_of words.now) (codes "epoch")) epoch
        → IfErr result (AreUnread (N.holds inputs.now) (shown_paths epoch (journal_paths (found_of words.now)))) }
    ensures fault { IfErr result IsUnread }
{
    match number_named(words, EPOCH) {
        Some(epoch) => segments_named(alloc, inputs, words, Epoch::new(epoch)),
        None => journals_named(alloc, inputs, words),
    }
}

/// Reads the segments of an epoch in the folders that the words name.
fn segments_named<N: Inputs>(
    alloc: Global,
    inputs: &N,
    words: &ArgMatches<'_>,
    epoch: Epoch,
) -> Result<Vec<Vec<u8>>, FileFault>
    ensures named { IfOk result (λ files. AreNamedJournals (N.holds inputs.now)
        (shown_paths (Some epoch) (journal_paths (found_of words.now))) (map (λ file. file.items) files.items)) }
    ensures unread { IfErr result (AreUnread (N.holds inputs.now)
        (shown_paths (Some epoch) (journal_paths (found_of words.now)))) }
    ensures fault { IfErr result IsUnread }
{
    match words.get_strs(JOURNALS) {
        Some(folders) => segments_in(alloc, inputs, folders, epoch),
        None => journals_of(alloc, inputs, &[]),
    }
}

/// Reads the segments of an epoch in these folders.
fn segments_in<N: Inputs>(
    alloc: Global,
    inputs: &N,
    folders: &[&str],
    epoch: Epoch,
) -> Result<Vec<Vec<u8>>, FileFault>
    ensures named { IfOk result (λ files. AreNamedJournals (N.holds inputs.now)
        (shown_paths (Some epoch) (map (λ folder. folder.now) folders.now)) (map (λ file. file.items) files.items)) }
    ensures unread { IfErr result (AreUnread (N.holds inputs.now)
        (shown_paths (Some epoch) (map (λ folder. folder.now) folders.now))) }
    ensures fault { IfErr result IsUnread }
{
    let paths = segment_paths(alloc, folders, epoch)?;
    let mut borrowed: Vec<&str> = Vec::new(alloc);
    for path in &paths {
        borrowed.push(path.as_str())?;
    }
    journals_of(alloc, inputs, &borrowed)
}

/// The paths of the segments of an epoch in these folders.
fn segment_paths(alloc: Global, folders: &[&str], epoch: Epoch) -> Result<Vec<String>, AllocError>
    ensures { IfOk result (λ paths. map string_bytes paths.items
        ≡ shown_paths (Some epoch) (map (λ folder. folder.now) folders.now)) }
{
    let mut paths = Vec::new(alloc);
    for folder in folders {
        paths.push(segment_path(alloc, *folder, epoch)?)?;
    }
    Ok(paths)
}

/// The number that an option names, if it is given.
pub fn number_named(words: &ArgMatches<'_>, option: &str) -> Option<u32>
    ensures none { one_text (found_of words.now) option.now ≡ None → result ≡ None }
    ensures some { (number : ℕ) → number < 2 ^ 32 → TellsNumber (one_text (found_of words.now) option.now) number
        → result ≡ Some number }
{
    words.get_one(option)
}

/// The path of the topology file.
pub fn topology_in<'a>(words: &ArgMatches<'a>) -> &'a str
    ensures { result.now ≡ topology_path (found_of words.now) }
{
    match words.get_str(TOPOLOGY) {
        Some(path) => path,
        None => "",
    }
}
