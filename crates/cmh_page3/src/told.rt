//! What a page tells of segments: a run from which they come, or how far they can be taken.

ghost use Rattle.std.specs.Prelude.{◌≡◌, ◌↔◌, ◌++◌, IfErr, IfOk, OnOk, replicate, string_bytes};
ghost use Rattle.cmh_audit3.specs.Journals.{ComeFromRun, journal_of};
ghost use Rattle.cmh_audit3.specs.Set.{IsSet};
ghost use Rattle.cmh_audit3.specs.Stops.{AreStops};
ghost use Rattle.cmh_audit3.specs.Verdicts.{IsAccepted, as_result};
ghost use Rattle.cmh_page3.specs.Told as spec;
ghost use Rattle.cmh_page3.specs.Told.{AreReasons, IsFindingOf};

use cmh_audit3::{Segment, Stop, Verdict};
use cmh_files3::{Finding, More, before_stop, finding_on, lines_of_reasons};
use cmh_model3::SiteId;
use cmh_topology3::Topology;
use std::alloc::{AllocError, Global};

/// The order in which the page tells the entries: that of the run from which the segments come, or site by site.
pub fn told_order(
    alloc: Global,
    world: &Topology,
    segments: &[Segment],
    verdict: &Verdict,
) -> Result<Vec<SiteId>, AllocError>
    requires { IfErr (as_result verdict.now) (AreStops world.now segments.now) }
    ensures { IfOk result (λ order. order.items ≡ spec.told_order world.now segments.now verdict.now) }
{
    match verdict {
        Verdict::Accepted { order, .. } => order.as_slice().to_vec(alloc),
        Verdict::Refused(stops) => order_before(alloc, world, segments, stops.as_slice()),
    }
}

/// Each site as often as it has entries before its stop, site by site.
fn order_before(
    alloc: Global,
    world: &Topology,
    segments: &[Segment],
    stops: &[Stop],
) -> Result<Vec<SiteId>, AllocError>
    requires { AreStops world.now segments.now stops.now }
    ensures { IfOk result (λ order. order.items ≡ spec.order_before world.now segments.now stops.now) }
{
    let mut order = Vec::new(alloc);
    for site in world.sites() {
        let count = before_stop(segments, stops, *site).len();
        push_times(&mut order, *site, count)?;
    }
    Ok(order)
}

/// Adds a site so many times.
fn push_times(order: &mut Vec<SiteId>, site: SiteId, count: usize) -> Result<(), AllocError>
    ensures { OnOk result (order.new.items ≡ order.old.items ++ replicate count site) }
{
    for _ in 0..count {
        order.push(site)?;
    }
    Ok(())
}

/// The lines of the reasons for stops; none where the segments come from a run.
pub fn reasons_of(
    alloc: Global,
    world: &Topology,
    segments: &[Segment],
    verdict: &Verdict,
) -> Result<String, AllocError>
    requires { IfErr (as_result verdict.now) (AreStops world.now segments.now) }
    ensures { IfOk result (λ text. AreReasons world.now segments.now verdict.now (string_bytes text)) }
{
    match verdict {
        Verdict::Accepted { .. } => Ok(String::new(alloc)),
        Verdict::Refused(stops) => lines_of_reasons(alloc, world, segments, stops.as_slice()),
    }
}

/// What the audit with this verdict finds: where the segments come from a run, the report on it. The only error is out of
/// memory.
pub fn finding_of(
    alloc: Global,
    world: &Topology,
    segments: Vec<Segment>,
    verdict: Verdict,
) -> Result<Finding, AllocError>
    requires set { IsSet world.now segments.items }
    requires accepted { IsAccepted verdict ↔ ComeFromRun world.now (journal_of segments.items) }
    ensures { IfOk result (IsFindingOf world.now segments.items verdict) }
{
    match verdict {
        Verdict::Accepted { .. } => {
            let told = finding_on(alloc, world, segments, More::Nothing)?;
            let finding = told.finding;
            match finding {
                Finding::Accepted(report) => Ok(Finding::Accepted(report)),
                Finding::Refused(_) => unreachable!(),
            }
        }
        Verdict::Refused(stops) => Ok(Finding::Refused(stops)),
    }
}
