//! What stands round the lines of a page.

ghost use Rattle.std.specs.Prelude.{IfOk, string_bytes};
ghost use Rattle.cmh_page.specs.Pages.{IsAround};

use crate::foot::{LAST, SCRIPT};
use crate::head::{BETWEEN, END, START, STYLE};
use std::alloc::{AllocError, Global};

/// What the pages of some editions have besides what stands in every page.
#[derive(Clone, Copy)]
pub struct Extra<'a> {
    /// The checksum of the page's script, as its content security policy names it.
    pub script_sum: &'a str,
    /// That of its style.
    pub style_sum: &'a str,
    /// What follows the style of every page.
    pub style: &'a str,
    /// What stands in the middle of the script of every page, between its functions and their first use.
    pub script: &'a str,
}

/// The page with these lines. The only error is out of memory.
pub fn page_around(alloc: Global, extra: &Extra<'_>, lines: &str) -> Result<String, AllocError>
    ensures { IfOk result (λ text. IsAround lines.now (string_bytes text)) }
{
    let head = head_with(alloc, extra)?;
    let foot = foot_with(alloc, extra)?;
    let text = format!(in alloc; "{head}{lines}{foot}")?;
    Ok(text)
}

/// What stands before the lines: the page's words and its style.
fn head_with(alloc: Global, extra: &Extra<'_>) -> Result<String, AllocError> {
    let Head {
        start,
        between,
        style,
        end,
    } = head_pieces();
    let script_sum = extra.script_sum;
    let style_sum = extra.style_sum;
    let more = extra.style;
    let text = format!(in alloc; "{start}{script_sum}{between}{style_sum}{style}{more}{end}")?;
    Ok(text)
}

/// What stands after them: the script that shows them.
fn foot_with(alloc: Global, extra: &Extra<'_>) -> Result<String, AllocError> {
    let Foot { script, last } = foot_pieces();
    let more = extra.script;
    let text = format!(in alloc; "{script}{more}{last}")?;
    Ok(text)
}

/// The parts of a page before its lines, between which its checksums and its own style stand.
#[derive(Clone, Copy)]
struct Head {
    start: &'static str,
    between: &'static str,
    style: &'static str,
    end: &'static str,
}

fn head_pieces() -> Head {
    Head {
        start: START,
        between: BETWEEN,
        style: STYLE,
        end: END,
    }
}

/// The parts after them, between which its own script stands.
#[derive(Clone, Copy)]
struct Foot {
    script: &'static str,
    last: &'static str,
}

fn foot_pieces() -> Foot {
    Foot {
        script: SCRIPT,
        last: LAST,
    }
}
