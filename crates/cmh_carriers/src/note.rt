//! A note, and its line.

ghost use Rattle.std.specs.Prelude.{Some};
ghost use Rattle.cmh_carriers.specs.Notes.{note_text, noted_text};

use crate::{LinkFault, LinkState};
use cmh_frames::SiteId;
use std::fmt;

/// What a site noticed.
#[derive(Clone, Copy)]
pub enum Note {
    /// A connection told the hello of a site whose link was in this state, and not new.
    RefusedHello(SiteId, LinkState),
    /// A connection told no hello of another site of this edition.
    StrangeHello,
    /// A connection sent no whole hello in time.
    NoHello,
    /// A connection came while as many stood as may.
    TurnedAway,
    /// So many frames wait for the link to a site, and it is closed.
    Unread(SiteId, usize),
    ClosedOut(SiteId, LinkFault),
    ClosedIn(SiteId, LinkFault),
    /// No more connections are accepted, though the site isn't ending.
    AcceptingEnded,
    /// A thread or memory for a connection was refused.
    NoThread,
    /// A thread or memory for the link to a site was refused.
    NoThreadTo(SiteId),
    /// The journal could not be written, and the site takes no more steps.
    Sealed,
    /// A journal of before was kept under its name with this number after it.
    Kept(u32),
    /// So many notes were not told, since they came too fast.
    LeftOut(u64),
}

impl fmt::Display for Note {
    ghost output = { λ note. Some (note_text note) };

    fn fmt<W: fmt::Write>(&self, f: &mut fmt::Formatter<W>) -> fmt::Result {
        match self {
            Note::RefusedHello(site, state) => {
                write!(f, "refused a hello of site {site}: its link is {state}")
            }
            Note::StrangeHello => write!(f, "refused a hello of no other site"),
            Note::NoHello => write!(f, "closed a connection without a hello"),
            Note::TurnedAway => write!(f, "turned a connection away"),
            Note::Unread(site, count) => {
                write!(f, "shut the link to {site}: {count} frames wait")
            }
            Note::ClosedOut(site, fault) => {
                let number = fault.number();
                write!(f, "out {site} closed {number}")
            }
            Note::ClosedIn(site, fault) => {
                let number = fault.number();
                write!(f, "in {site} closed {number}")
            }
            Note::AcceptingEnded => write!(f, "accepting ended"),
            Note::NoThread => write!(f, "no thread for a connection"),
            Note::NoThreadTo(site) => write!(f, "no thread for the link to {site}"),
            Note::Sealed => write!(f, "the journal is sealed"),
            Note::Kept(number) => write!(f, "kept the old journal as .{number}"),
            Note::LeftOut(count) => write!(f, "left out {count}"),
        }
    }
}

/// Which site makes a note.
#[derive(Clone, Copy)]
pub enum Origin {
    /// The only one of the program.
    Alone,
    /// One of several.
    Site(SiteId),
}

/// A note as it is told.
#[derive(Clone, Copy)]
pub struct Noted {
    pub origin: Origin,
    pub note: Note,
}

impl fmt::Display for Noted {
    ghost output = { λ noted. Some (noted_text noted.origin noted.note) };

    fn fmt<W: fmt::Write>(&self, f: &mut fmt::Formatter<W>) -> fmt::Result {
        let note = self.note;
        match self.origin {
            Origin::Alone => write!(f, "note {note}"),
            Origin::Site(site) => write!(f, "note at {site} {note}"),
        }
    }
}
