//! The page of the journals of all sites.

ghost use Rattle.std.specs.Prelude.{◌≡◌, true, IfErr, IfOk, OnOk, map, string_bytes};
ghost use Rattle.cmh_console.specs.Status.{IsStatus};
ghost use Rattle.cmh_page3.specs.Pages.{IsPage, IsPageCause, IsPageFault, PageEnds, WrotePage};

use crate::extra::{SCRIPT, SCRIPT_SUM, STYLE, STYLE_SUM};
use crate::lines::lines_of;
use crate::page_fault::PageFault;
use cmh_console::{Fault, Output};
use cmh_page::{Extra, page_around};
use std::alloc::Global;
use std::io::Write;

/// Audits the journals of all sites of a topology of edition 3, and writes a page that steps through the run that the audit
/// finds. Where they come from none, it shows how far they can be taken.
///
/// The answer is the status of the program: 0 where a page is written, also of journals that come from no run, 1 where
/// memory ran out, 3 at any other fault. The faults are those of `run_audit3`, and the one of `cmh_page` for a page of more
/// than 20,000 events. A fault is named on `err`, and a write to it that fails is ignored. Nothing is written to `out`
/// before a fault but where writing itself failed.
pub fn run_page3<W: Write, E: Write>(
    alloc: Global,
    topology: &[u8],
    journals: &[Vec<u8>],
    out: &mut Output<W>,
    err: &mut Output<E>,
) -> u8
    ensures status { IsStatus result }

    // A page is written, or a fault is named, and nothing else.
    ensures ends { PageEnds topology.now (map (λ file. file.items) journals.now) out.old out.new err.old err.new result }
{
    match page_into(alloc, topology, journals, out) {
        Ok(()) => 0,
        Err(PageFault::Audit(fault)) => Fault::from(fault).name_on(err),
        Err(PageFault::TooManyEvents) => cmh_page::PageFault::TooManyEvents.name_on(err),
    }
}

/// Writes the page.
fn page_into<W: Write>(
    alloc: Global,
    topology: &[u8],
    journals: &[Vec<u8>],
    out: &mut Output<W>,
) -> Result<(), PageFault>
    ensures wrote { OnOk result (WrotePage topology.now (map (λ file. file.items) journals.now)
        out.old.written out.new.written) }
    ensures flushed { OnOk result (out.new.is_flushed ≡ true) }
    ensures fault { IfErr result (IsPageCause topology.now (map (λ file. file.items) journals.now)
        out.old.written out.new.written out.new.has_failed) }
{
    let page = page_text(alloc, topology, journals)?;
    out.write_text(page.as_str())?;
    out.flush()?;
    Ok(())
}

/// The text of the page: the lines of the run, between what stands in every page.
fn page_text(alloc: Global, topology: &[u8], journals: &[Vec<u8>]) -> Result<String, PageFault>
    ensures page { IfOk result (λ text. IsPage topology.now (map (λ file. file.items) journals.now) (string_bytes text)) }
    ensures fault { IfErr result (IsPageFault topology.now (map (λ file. file.items) journals.now)) }
{
    let lines = lines_of(alloc, topology, journals)?;
    let text = page_around(alloc, &extra(), lines.as_str())?;
    Ok(text)
}

fn extra() -> Extra<'static> {
    Extra {
        script_sum: SCRIPT_SUM,
        style_sum: STYLE_SUM,
        style: STYLE,
        script: SCRIPT,
    }
}
