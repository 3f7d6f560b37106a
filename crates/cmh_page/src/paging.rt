//! The page of the journals of all sites.

ghost use Rattle.std.specs.Prelude.{◌≡◌, ◌++◌, ℕ, List, true, IfErr, IfOk, OnOk, map, string_bytes};
ghost use Rattle.cmh_console.specs.Status.{IsStatus};
ghost use Rattle.cmh_page.specs.Pages.{IsPage, IsPageCause, IsPageFault, PageEnds, WrotePage};

use crate::around::{Extra, page_around};
use crate::head::{SCRIPT_SUM, STYLE_SUM};
use crate::lines::lines_of;
use crate::page_fault::PageFault;
use cmh_console::Output;
use std::alloc::Global;
use std::io::Write;

/// Audits the journals of all sites of a topology, and writes a page that steps through a run from which they come. Where
/// they come from none, it shows how far they can be taken.
///
/// The answer is the status of the program: 0 where a page is written, also of journals that come from no run, 1 where
/// memory ran out, 3 at any other fault. The faults are those of `run_audit`, and `PageFault::TooManyEvents`. A fault is
/// named on `err`, and a write to it that fails is ignored. Nothing is written to `out` before a fault but where writing
/// itself failed.
pub fn run_page<W: Write, E: Write>(
    alloc: Global,
    topology: &[u8],
    journals: &[Vec<u8>],
    out: &mut Output<W>,
    err: &mut Output<E>,
) -> u8
    ensures status { IsStatus result }

    // A page is written, or a fault is named, and nothing else.
    ensures ends { PageEnds topology.now (map (λ file. file.items) journals.now) out.old out.new err.old err.new result }
{
    match page_into(alloc, topology, journals, out) {
        Ok(()) => 0,
        Err(fault) => fault.name_on(err),
    }
}

/// Writes the page.
fn page_into<W: Write>(
    alloc: Global,
    topology: &[u8],
    journals: &[Vec<u8>],
    out: &mut Output<W>,
) -> Result<(), PageFault>
    ensures wrote { OnOk result (WrotePage topology.now (map (λ file. file.items) journals.now)
        out.old.written out.new.written) }
    ensures flushed { OnOk result (out.new.is_flushed ≡ true) }
    ensures fault { IfErr result (IsPageCause topology.now (map (λ file. file.items) journals.now)
        out.old.written out.new.written out.new.has_failed) }
{
    let page = page_text(alloc, topology, journals)?;
    out.write_text(page.as_str())?;
    out.flush()?;
    Ok(())
}

/// The text of the page: the lines of the run, between what stands in every page. A fault is one of those that `run_page`
/// names, but for that of a write.
pub fn page_text(alloc: Global, topology: &[u8], journals: &[Vec<u8>]) -> Result<String, PageFault>
    ensures page { IfOk result (λ text. IsPage topology.now (map (λ file. file.items) journals.now) (string_bytes text)) }
    ensures fault { IfErr result (IsPageFault topology.now (map (λ file. file.items) journals.now)) }
{
    let lines = lines_of(alloc, topology, journals)?;
    let text = page_around(alloc, &extra(), lines.as_str())?;
    Ok(text)
}

/// A page of editions 1 and 2 has what stands in every page and no more.
fn extra() -> Extra<'static> {
    Extra {
        script_sum: SCRIPT_SUM,
        style_sum: STYLE_SUM,
        style: "",
        script: "",
    }
}
