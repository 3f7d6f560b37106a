//! The name of a mark: what it stands for, in words.

ghost use Rattle.std.specs.Prelude.{[], ◌++◌, Some, codes};
ghost use Rattle.std.specs.Fmt.{decimal};
ghost use Rattle.std.specs.Option.{option_map_or};
ghost use Rattle.cmh_draw.specs.declared.mark.Mark.TheVariants as marks;
ghost use Rattle.cmh_picture.specs.Names as spec;
ghost use Rattle.cmh_picture.specs.Words as words;

use crate::words::{DeclaredText, EventText, FrameText};
use cmh_draw::{Arrow, Declared, EntrySpot, Mark};
use std::fmt;

/// The name of a mark. A browser shows it where a reader points at the mark.
#[derive(Drop)]
pub struct MarkName<'a> {
    pub mark: &'a Mark,
}

impl<'a> fmt::Display for MarkName<'a> {
    ghost output = { λ name. Some (spec.name_of name.mark.now) };

    fn fmt<W: fmt::Write>(&self, f: &mut fmt::Formatter<W>) -> fmt::Result {
        match self.mark {
            Mark::Site(of) => {
                let site = of.site;
                write!(f, "site {site}")
            }
            Mark::Process(of) => {
                let process = of.process;
                let site = of.site;
                write!(f, "process {process} at site {site}")
            }
            Mark::Wait(wait) => {
                let asker = wait.asker;
                let holder = wait.holder;
                write!(f, "{asker} waits for {holder}")
            }
            Mark::Released(of) => {
                let site = of.site;
                let process = of.process;
                write!(f, "process {process} at site {site}: its cycle was left")
            }
            Mark::Leaving(wait) => {
                let asker = wait.asker;
                let holder = wait.holder;
                write!(f, "{asker} gave up its wait for {holder}")
            }
            Mark::Entry(entry) => {
                let at = EntryName { at: entry.at };
                let event = EventText {
                    event: &entry.event,
                };
                let declared = DeclaredName {
                    declared: entry.declared,
                };
                write!(f, "{at}: {event}{declared}")
            }
            Mark::Arrow(arrow) => {
                let name = ArrowName { arrow };
                write!(f, "{name}")
            }
            Mark::Stop(stop) => {
                let site = stop.site;
                let number = stop.number;
                write!(f, "site {site} stops at entry {number}")
            }
        }
    }
}

#[derive(Clone, Copy)]
struct EntryName {
    at: EntrySpot,
}

impl fmt::Display for EntryName {
    ghost output = { λ name. Some (spec.entry_name name.at) };

    fn fmt<W: fmt::Write>(&self, f: &mut fmt::Formatter<W>) -> fmt::Result {
        let site = self.at.site;
        let number = self.at.number;
        write!(f, "site {site} entry {number}")
    }
}

/// The process that was declared, if one was.
#[derive(Clone, Copy)]
struct DeclaredName {
    declared: Option<Declared>,
}

impl fmt::Display for DeclaredName {
    ghost output = { λ name. Some
        (option_map_or (λ declared. codes " " ++ words.declared_text declared) name.declared []) };

    fn fmt<W: fmt::Write>(&self, f: &mut fmt::Formatter<W>) -> fmt::Result {
        match self.declared {
            Some(declared) => {
                let text = DeclaredText { declared };
                write!(f, " {text}")
            }
            None => Ok(()),
        }
    }
}

#[derive(Drop)]
struct ArrowName<'a> {
    arrow: &'a Arrow,
}

impl<'a> fmt::Display for ArrowName<'a> {
    ghost output = { λ name. Some (spec.name_of (marks.Arrow name.arrow.now)) };

    fn fmt<W: fmt::Write>(&self, f: &mut fmt::Formatter<W>) -> fmt::Result {
        let frame = FrameText {
            frame: self.arrow.frame,
        };
        let from = EntryName {
            at: self.arrow.from,
        };
        let to = self.arrow.to;
        let got = GotName {
            got: self.arrow.got,
        };
        write!(f, "{frame} from {from} to site {to}{got}")
    }
}

/// The entry that got a frame, if one did.
#[derive(Clone, Copy)]
struct GotName {
    got: Option<EntrySpot>,
}

impl fmt::Display for GotName {
    ghost output = { λ name. Some
        (option_map_or (λ got. codes " entry " ++ decimal got.number) name.got (codes ": lost or waiting")) };

    fn fmt<W: fmt::Write>(&self, f: &mut fmt::Formatter<W>) -> fmt::Result {
        match self.got {
            Some(at) => {
                let number = at.number;
                write!(f, " entry {number}")
            }
            None => write!(f, ": lost or waiting"),
        }
    }
}
