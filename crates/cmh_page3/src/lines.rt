//! The lines of a run of edition 3, in the middle of its page.

ghost use Rattle.std.specs.Prelude.{◌≡◌, ◌++◌, IfErr, IfOk, map, string_bytes};
ghost use Rattle.cmh_files.specs.AuditTexts.{cuts_text};
ghost use Rattle.cmh_files3.specs.Audits.{finding_text};
ghost use Rattle.cmh_page3.specs.Pages.{IsPageFault, TellsRun, topology_text};

use crate::page_fault::PageFault;
use crate::told::{finding_of, reasons_of, told_order};
use crate::topology_text::TopologyText;
use cmh_audit3::audit;
use cmh_files::Cuts;
use cmh_files3::{Finding, World, lines_of_run, read_world};
use cmh_model3::SiteId;
use cmh_topology3::Topology;
use std::alloc::{AllocError, Global};

/// How many events a page may tell.
const EVENT_LIMIT: usize = 20_000;

/// The lines of what an audit of the files finds.
pub fn lines_of(alloc: Global, topology: &[u8], files: &[Vec<u8>]) -> Result<String, PageFault>
    ensures tells { IfOk result (λ text. TellsRun topology.now (map (λ file. file.items) files.now) (string_bytes text)) }
    ensures fault { IfErr result (IsPageFault topology.now (map (λ file. file.items) files.now)) }
{
    let World {
        topology: world,
        segments,
        cuts,
    } = read_world(alloc, topology, files)?;
    let verdict = audit(alloc, &world, &segments)?;
    let order = told_order(alloc, &world, &segments, &verdict)?;
    if order.len() > EVENT_LIMIT {
        return Err(PageFault::TooManyEvents);
    }
    let entries = lines_of_run(alloc, &order, &segments)?;
    let reasons = reasons_of(alloc, &world, &segments, &verdict)?;
    let finding = finding_of(alloc, &world, segments, verdict)?;
    let head = head_of(alloc, &world, &cuts, &finding)?;
    let text = format!(in alloc; "{head}{entries}{reasons}")?;
    Ok(text)
}

/// The topology, and the lines of the audit.
fn head_of(
    alloc: Global,
    world: &Topology,
    cuts: &[(SiteId, usize)],
    finding: &Finding,
) -> Result<String, AllocError>
    ensures { IfOk result (λ text. string_bytes text
        ≡ topology_text world.now ++ (cuts_text cuts.now ++ finding_text finding.now)) }
{
    let topology = TopologyText { topology: world };
    let cuts = Cuts { cuts };
    let text = format!(in alloc; "{topology}{cuts}{finding}")?;
    Ok(text)
}
