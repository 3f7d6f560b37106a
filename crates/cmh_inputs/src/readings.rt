//! The files that an audit reads, at the paths that it is given.

ghost use Rattle.std.specs.Prelude.{◌≡◌, ◌≤◌, ℕ, List, Some, IfErr, IfOk, MatchBool, length, map};
ghost use Rattle.cmh_console.specs.TopologyFile3.{SaysNoWorld};
ghost use Rattle.cmh_inputs.specs.Editions.{SaysSomeWorld};
ghost use Rattle.cmh_inputs.specs.FileFaults.{IsUnread};
ghost use Rattle.cmh_inputs.specs.Readings.{AreNamed, AreNamedJournals, AreUnnamed, AreUnread};

use crate::file_fault::FileFault;
use crate::growing::{as_stopped, segments_as_stopped};
use crate::inputs::Inputs;
use crate::reading::{read_journal, read_topology};
use cmh_console::{TopologyFileFault, read_topology_file3};
use std::alloc::Global;

/// What the files of an audit hold.
#[derive(Drop)]
pub struct AuditFiles {
    pub topology: Vec<u8>,
    /// Whether the topology file says a world of edition 3. Then the journals are its segments.
    pub is_edition3: bool,
    pub journals: Vec<Vec<u8>>,
}

/// Reads the files at the paths: the topology, and then the journals in their order. The journals of sites that run are
/// cut where their sites might have stopped, all at once.
pub fn files_of<N: Inputs>(
    alloc: Global,
    inputs: &N,
    topology: &str,
    journals: &[&str],
) -> Result<AuditFiles, FileFault>
    ensures edition { IfOk result (λ files. MatchBool files.is_edition3 (SaysSomeWorld files.topology.items)
        (SaysNoWorld files.topology.items)) }
    ensures named { IfOk result (λ files. AreNamed (N.holds inputs.now) topology.now
        (map (λ path. path.now) journals.now) files.topology.items (map (λ file. file.items) files.journals.items)) }
    ensures unnamed { IfErr result (AreUnnamed (N.holds inputs.now) topology.now (map (λ path. path.now) journals.now)) }
    ensures fault { IfErr result IsUnread }
{
    let topology = read_topology(alloc, inputs, topology)?;
    let is_edition3 = says_world(alloc, &topology)?;
    let read = journals_of(alloc, inputs, journals)?;
    let journals = if is_edition3 {
        segments_as_stopped(alloc, inputs, &topology, journals, read)?
    } else {
        as_stopped(alloc, inputs, journals, read)?
    };
    Ok(AuditFiles {
        topology,
        is_edition3,
        journals,
    })
}

/// Whether a topology file says a world of edition 3. The only error is out of memory.
fn says_world(alloc: Global, topology: &[u8]) -> Result<bool, FileFault>
    ensures said { IfOk result (λ is. MatchBool is (SaysSomeWorld topology.now) (SaysNoWorld topology.now)) }
    ensures fault { IfErr result (λ fault. fault ≡ FileFault.Memory) }
{
    match read_topology_file3(alloc, topology) {
        Ok(_) => Ok(true),
        Err(TopologyFileFault::Json) => Ok(false),
        Err(TopologyFileFault::Memory) => Err(FileFault::Memory),
    }
}

/// Reads the journals at the paths, in their order. Of a folder it reads the newest segment.
pub fn journals_of<N: Inputs>(
    alloc: Global,
    inputs: &N,
    paths: &[&str],
) -> Result<Vec<Vec<u8>>, FileFault>
    ensures named { IfOk result (λ files. AreNamedJournals (N.holds inputs.now) (map (λ path. path.now) paths.now)
        (map (λ file. file.items) files.items)) }
    ensures count { IfOk result (λ files. length files.items ≡ length paths.now) }
    ensures unread { IfErr result (AreUnread (N.holds inputs.now) (map (λ path. path.now) paths.now)) }
    ensures fault { IfErr result IsUnread }
{
    let mut journals = Vec::new(alloc);
    for (i, path) in paths.iter().enumerate() {
        journals.push(read_journal(alloc, inputs, *path, i + 1)?)?;
    }
    Ok(journals)
}
