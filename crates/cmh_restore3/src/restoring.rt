//! The command over the folders.

ghost use Rattle.std.specs.Prelude.{◌≡◌, ◌≢◌, ◌⊎◌, IfOk, OnOk, map};
ghost use Rattle.std.specs.List.{All};
ghost use Rattle.cmh_console.specs.Status.{IsStatus};
ghost use Rattle.cmh_segment3.specs.Base.{IsBase};
ghost use Rattle.cmh_restore3.specs.Restores.{IsBeginning, Restores, SomeIsRestorable};

use crate::checks::restored_world;
use crate::fault::{RestoreFault, Told, WrongBases};
use crate::keeping::{NewJournals, begin_each, see_none};
use crate::reading::heads_for;
use cmh_console::{Fault, Output, WriteFault, read_topology_file3};
use cmh_inputs::Inputs;
use cmh_model3::SiteId;
use cmh_segment3::Segment;
use cmh_topology3::Topology;
use cmh_wire3::Epoch;
use std::alloc::{AllocError, Global};
use std::io::Write;

/// What is to be restored.
#[derive(Clone, Copy)]
pub struct RestoreStart<'a> {
    /// The bytes of the topology file of the restored world.
    pub topology: &'a [u8],
    /// The epoch that its sites begin.
    pub epoch: Epoch,
    /// The paths of the folders of the journals of the older world.
    pub folders: &'a [&'a str],
}

/// A world that can be restored, and the first segments of its sites.
#[derive(Drop)]
struct Beginning {
    world: Topology,
    segments: Vec<Segment>,
}

/// Begins the journals of a restored world: each site's with the base with which the site of the older world began an epoch.
/// Before the first of them is begun, all is checked; nothing is begun where anything is wrong.
///
/// It writes a line `site S` for each site, and `restored epoch E`. The answer is the status of the program: 0; 1 where memory
/// ran out, or a base is of no state (`base S`), or the bases do not agree (`link A B`); 3 at any other fault. A fault is named
/// on `err`, and a write to it that fails is ignored.
pub fn run_restore<N: Inputs, K: NewJournals, W: Write, E: Write>(
    alloc: Global,
    inputs: &N,
    start: &RestoreStart<'_>,
    keeper: &mut K,
    out: &mut Output<W>,
    err: &mut Output<E>,
) -> u8
    ensures status { IsStatus result }

    // At status 0 each site of the topology has got a journal, which begins with the segment that is made of its own.
    ensures restored { result ≡ 0 → Restores (N.holds inputs.now) K.lacks K.begins start.now.topology.now start.now.epoch
        (map (λ path. path.now) start.now.folders.now) keeper.old keeper.new }

    // And nothing is begun unless it can be restored, and no site has a journal yet.
    ensures untouched { (keeper.new ≡ keeper.old) ⊎ SomeIsRestorable (N.holds inputs.now) K.lacks start.now.topology.now start.now.epoch
        (map (λ path. path.now) start.now.folders.now) keeper.old }
{
    match restore(alloc, inputs, start, keeper, out) {
        Ok(()) => 0,
        Err(fault) => tell(fault, out, err),
    }
}

/// Restores it, and writes that.
fn restore<N: Inputs, K: NewJournals, W: Write>(
    alloc: Global,
    inputs: &N,
    start: &RestoreStart<'_>,
    keeper: &mut K,
    out: &mut Output<W>,
) -> Result<(), RestoreFault>
    ensures restored { OnOk result (Restores (N.holds inputs.now) K.lacks K.begins start.now.topology.now start.now.epoch
        (map (λ path. path.now) start.now.folders.now) keeper.old keeper.new) }
    ensures untouched { (keeper.new ≡ keeper.old) ⊎ SomeIsRestorable (N.holds inputs.now) K.lacks start.now.topology.now start.now.epoch
        (map (λ path. path.now) start.now.folders.now) keeper.old }
{
    let beginning = beginning_of(alloc, inputs, start, keeper)?;
    let sites = beginning.world.sites();
    let text = text_of(alloc, sites, start.epoch)?;
    begin_each(alloc, sites, &beginning.segments, keeper)?;
    write_lines(text.as_str(), out)?;
    Ok(())
}

/// Checks all that has to hold before the first journal is begun.
fn beginning_of<N: Inputs, K: NewJournals>(
    alloc: Global,
    inputs: &N,
    start: &RestoreStart<'_>,
    keeper: &K,
) -> Result<Beginning, RestoreFault>
    ensures begins { IfOk result (λ b. IsBeginning (N.holds inputs.now) K.lacks start.now.topology.now start.now.epoch
        (map (λ path. path.now) start.now.folders.now) keeper.now b.world b.segments.items) }
    ensures bases { IfOk result (λ b. All (λ g. IsBase g.base) b.segments.items) }
    ensures headers { IfOk result (λ b. All (λ g. g.header.before ≡ 0) b.segments.items) }
{
    let file = read_topology_file3(alloc, start.topology)?;
    let world = Topology::new(alloc, file.world, &file.rows)?;
    let heads = heads_for(alloc, inputs, start.folders, start.epoch)?;
    let segments = restored_world(alloc, &world, start.epoch, heads)?;
    see_none(alloc, world.sites(), keeper)?;
    Ok(Beginning { world, segments })
}

/// The lines of a world that is restored.
fn text_of(alloc: Global, sites: &[SiteId], epoch: Epoch) -> Result<String, AllocError> {
    let number = epoch.get();
    let mut text = String::new(alloc);
    for site in sites {
        write!(text, "site {site}\n")?;
    }
    write!(text, "restored epoch {number}\n")?;
    Ok(text)
}

/// Writes lines, and that they last.
fn write_lines<W: Write>(text: &str, out: &mut Output<W>) -> Result<(), WriteFault> {
    out.write_text(text)?;
    out.flush()
}

/// Says why nothing is restored; answers the status.
fn tell<W: Write, E: Write>(fault: RestoreFault, out: &mut Output<W>, err: &mut Output<E>) -> u8
    ensures status { IsStatus result }
    ensures fails { result ≢ 0 }
{
    match fault.told() {
        Told::Fault(fault) => fault.name_on(err),
        Told::Wrong(wrong) => match tell_wrong(wrong, out) {
            Ok(()) => 1,
            Err(_) => Fault::Output.name_on(err),
        },
    }
}

/// Says which bases are wrong.
fn tell_wrong<W: Write>(wrong: WrongBases, out: &mut Output<W>) -> Result<(), WriteFault> {
    out.write_line(wrong)?;
    out.flush()
}
