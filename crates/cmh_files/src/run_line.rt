//! An entry of a run as a line.

ghost use Rattle.std.specs.Prelude.{Some};
ghost use Rattle.cmh_files.specs.RunLines as spec;

use crate::entry_text::EntryText;
use cmh_frames::{Entry, SiteId};
use std::fmt;

/// An entry of a run, on a line after its site and its number in the journal of that site, from 1.
#[derive(Drop)]
pub struct RunLine<'a> {
    pub site: SiteId,
    pub number: usize,
    pub entry: &'a Entry,
}

impl<'a> fmt::Display for RunLine<'a> {
    ghost output = { λ line. Some (spec.run_line_text line.site line.number line.entry.now) };

    fn fmt<W: fmt::Write>(&self, f: &mut fmt::Formatter<W>) -> fmt::Result {
        let site = self.site;
        let number = self.number;
        let text = EntryText { entry: self.entry };
        write!(f, "{site} {number} {text}\n")
    }
}
