//! The command `cluster` of edition 3.

ghost use Rattle.std.specs.Prelude.{◌≡◌, codes, length, true, IfErr, IfOk, IfSome, OnErr, OnOk};
ghost use Rattle.std.specs.Io.KnownBytes.{Appends};
ghost use Rattle.cmh_cluster3.specs.Endings.{ClusterEnds, ComesTo, DiskClusterEnds, EndsInAudit, HasPlayed, IsClusterFault, IsPlayFault};
ghost use Rattle.cmh_cluster3.specs.Lines.{line_of};
ghost use Rattle.cmh_cluster3.specs.Talks.{Conversed};
ghost use Rattle.cmh_cluster3.specs.Turns.{IsTurn};
ghost use Rattle.cmh_console.specs.Dialogue.{HasAnswered, IsAnswerFault, IsDialogueFault};
ghost use Rattle.cmh_console.specs.Status.{IsStatus};

use crate::answering::Cluster;
use crate::cluster_fault::ClusterFault3;
use crate::folders::{DiskFolders, Folders, Opener};
use crate::line::said_by;
use crate::reply::KeptLinks;
use crate::world::World;
use cmh_console::{
    DialogueFault, Fault, Flow, Input, NextLine, Output, WriteFault, read_topology_file3,
};
use cmh_files3::run_audit3;
use cmh_script3::read_line;
use cmh_station3::SegmentFile;
use cmh_topology3::Topology;
use std::alloc::{AllocError, Global};
use std::fs::File;
use std::io::{BufRead, Write};
use std::rt::Files;

/// What all sites of a topology of edition 3 are run with.
#[derive(Clone, Copy)]
pub struct ClusterStart3<'a> {
    /// The bytes of the topology file.
    pub topology: &'a [u8],
    /// The bytes of the script.
    pub script: &'a [u8],
    /// The path of the folder for the journals.
    pub dir: &'a str,
}

/// Runs all sites of a topology of edition 3 in this thread, gives each line of the script to its site and carries messages
/// until nothing moves, and then audits the journals that it wrote into the folder, as it reads them back.
///
/// The answer is the status of the program: 0 where the journals come from one run, 1 where they don't, where the sites
/// don't settle or memory ran out, 3 at any other fault. A fault is named on `err`, and a write to it that fails is ignored.
/// The journals of an earlier run in the folder are replaced.
pub fn run_cluster3<R, W: Write, E: Write>(
    rt: &R,
    start: &ClusterStart3<'_>,
    out: &mut Output<W>,
    err: &mut Output<E>,
) -> u8
where
    R: Files<File = File> + AllocGlobal,
    ensures status { IsStatus result }

    // The audit of what was read back stands after the answers to the script; or the sites did not settle, which is said;
    // or a fault is named that has its cause.
    ensures ends { DiskClusterEnds start.now.topology.now start.now.script.now out.old out.new err.old err.new result }
{
    let folders = DiskFolders::new(rt, start.dir);
    run_cluster3_in(rt.alloc(), start.topology, start.script, &folders, out, err)
}

/// The same in any folders.
pub fn run_cluster3_in<F: SegmentFile, D: Folders<F>, W: Write, E: Write>(
    alloc: Global,
    topology: &[u8],
    script: &[u8],
    folders: &D,
    out: &mut Output<W>,
    err: &mut Output<E>,
) -> u8
    ensures status { IsStatus result }

    // As above.
    ensures ends { ClusterEnds F.told F.has_failed topology.now script.now out.old out.new err.old err.new result }

    // At status 0 the files that were read back were audited and accepted.
    ensures audit { result ≡ 0
        → EndsInAudit F.told F.has_failed topology.now script.now out.old out.new err.old err.new result }
{
    match cluster_into(alloc, topology, script, folders, out) {
        Ok(Played::Read(journals)) => run_audit3(alloc, topology, &journals, out, err),
        Ok(Played::NotSettled) => 1,
        Err(fault) => Fault::from(fault).name_on(err),
    }
}

/// What the play of a script left behind.
#[derive(Drop)]
enum Played {
    /// The files of all journals, ascending by site, as they were read back.
    Read(Vec<Vec<u8>>),
    /// After a line messages did not come.
    NotSettled,
}

/// Plays the script, and reads the journals back or says that the sites did not settle.
fn cluster_into<F: SegmentFile, D: Folders<F>, W: Write>(
    alloc: Global,
    topology: &[u8],
    script: &[u8],
    folders: &D,
    out: &mut Output<W>,
) -> Result<Played, ClusterFault3>
    ensures played { IfOk result (ComesTo F.told F.has_failed topology.now script.now out.old.written out.new.written
        out.new.is_flushed) }
    ensures fault { IfErr result (IsClusterFault F.told F.has_failed topology.now script.now out.old.written
        out.new.written out.new.has_failed) }
{
    let file = read_topology_file3(alloc, topology)?;
    let world = Topology::new(alloc, file.world, &file.rows)?;
    folders.clear(alloc, world.sites())?;
    match play(alloc, &world, folders, script, out)? {
        Flow::Awaits => Ok(Played::Read(folders.read_back(alloc, world.sites())?)),
        Flow::Ends => {
            say_not_settled(out)?;
            Ok(Played::NotSettled)
        }
    }
}

fn say_not_settled<W: Write>(out: &mut Output<W>) -> Result<(), WriteFault>
    ensures said { OnOk result (Appends out.old.written out.new.written (codes "not settled\n")) }
    ensures flushed { OnOk result (out.new.is_flushed ≡ true) }
    ensures fault { OnErr result (out.new.has_failed ≡ true) }
{
    out.write_line("not settled")?;
    out.flush()?;
    Ok(())
}

/// Plays a script with all sites, which are let go before the answer. Where the sites did not settle after a line, it is the
/// last one that was answered.
fn play<F: SegmentFile, O: Opener<F>, W: Write>(
    alloc: Global,
    topology: &Topology,
    opener: &O,
    script: &[u8],
    out: &mut Output<W>,
) -> Result<Flow, ClusterFault3>
    ensures played { IfOk result (HasPlayed F.told F.has_failed topology.now script.now out.old.written out.new.written) }
    ensures fault { IfErr result (IsPlayFault F.told F.has_failed topology.now script.now out.old.written
        out.new.written out.new.has_failed) }
{
    let world = World::begin(alloc, topology, opener)?;
    let mut cluster = Cluster {
        alloc,
        topology,
        opener,
        world,
    };
    match answer_script(&mut cluster, script, out)? {
        Flow::Awaits => {
            let kept = cluster.world.kept_links(topology.sites())?;
            out.write_text(KeptLinks { links: &kept })?;
            Ok(Flow::Awaits)
        }
        Flow::Ends => Ok(Flow::Ends),
    }
}

/// Answers the lines of a script, until the sites don't settle after one or none is left.
fn answer_script<F: SegmentFile, O: Opener<F>, W: Write>(
    cluster: &mut Cluster<'_, F, O>,
    script: &[u8],
    out: &mut Output<W>,
) -> Result<Flow, DialogueFault>
    ensures answers { Conversed (IsTurn F.told F.has_failed cluster.old.topology.now) cluster.old.world.nodes.items
        script.now out.old.written out.new.written out.new.has_failed result }
    ensures fault { IfErr result (λ fault. fault ≡ DialogueFault.Output → out.new.has_failed ≡ true) }
{
    let mut input = Input::new(script);
    answer_all(cluster, &mut input, out)
}

/// Answers line after line.
fn answer_all<F: SegmentFile, O: Opener<F>, I: BufRead, W: Write>(
    cluster: &mut Cluster<'_, F, O>,
    input: &mut Input<I>,
    out: &mut Output<W>,
) -> Result<Flow, DialogueFault>
    ensures answers { IfSome input.old.left (λ bytes. Conversed (IsTurn F.told F.has_failed cluster.old.topology.now)
        cluster.old.world.nodes.items bytes out.old.written out.new.written out.new.has_failed result) }
    ensures fault { IfErr result (IsDialogueFault input.old.left input.new.has_failed out.new.has_failed) }
{
    let mut buffer = Vec::new(cluster.alloc);
    for turn in 0..u64::MAX {
        let next = read_line(input, &mut buffer)?;
        if next.is_end() {
            return Ok(Flow::Awaits);
        }
        let flow = answer(cluster, next, out)?;
        match flow {
            Flow::Awaits => {}
            Flow::Ends => return Ok(Flow::Ends),
        }
    }
    Err(DialogueFault::Input)
}

/// Answers a line and carries messages until nothing moves; where that does not end, no other line is read.
fn answer<F: SegmentFile, O: Opener<F>, W: Write>(
    cluster: &mut Cluster<'_, F, O>,
    next: NextLine<'_>,
    out: &mut Output<W>,
) -> Result<Flow, DialogueFault>
    ensures answers { IfOk result (λ flow. HasAnswered (λ said text. IsTurn F.told F.has_failed cluster.old.topology.now
        cluster.old.world.nodes.items cluster.new.world.nodes.items said text flow) (line_of next.entry)
        out.old.written out.new.written) }
    ensures topology { cluster.new.topology ≡ cluster.old.topology }
    ensures fault { IfErr result (IsAnswerFault out.old.written out.new.written out.new.has_failed) }
{
    let said = said_by(cluster.alloc, next)?;
    let reply = cluster.answer(said)?;
    out.write_text(&reply)?;
    out.flush()?;
    Ok(if cluster.world.settle() {
        Flow::Awaits
    } else {
        Flow::Ends
    })
}
