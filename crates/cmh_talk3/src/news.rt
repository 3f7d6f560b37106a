//! What a client that watches is told.

ghost use Rattle.std.specs.Prelude.{Some};
ghost use Rattle.cmh_talk3.specs.Texts.{news_text};

use crate::link_state::{IntoState, OutState};
use cmh_model3::{ProcId, SiteId, Stamp};
use std::fmt;

/// A piece of news.
#[derive(Clone, Copy, PartialEq, Eq)]
pub enum News {
    /// A process is declared deadlocked. Its cycle stood at this stop.
    Declared { process: ProcId, stop: Stamp },
    /// A process was declared before the client watched, and still is. A controller keeps no stops.
    WasDeclared(ProcId),
    /// A process of this site waits for nobody any more, by a reply.
    Active(ProcId),
    /// The holder, a process of this site, has a request of the asker.
    Asked { holder: ProcId, asker: ProcId },
    /// The asker had given up its wait for the holder, and may ask it again.
    Free { asker: ProcId, holder: ProcId },
    /// How the link to a site stands from now on.
    Out(SiteId, OutState),
    /// How the link from a site stands from now on.
    Into(SiteId, IntoState),
}

impl fmt::Display for News {
    ghost output = { λ news. Some (news_text news) };

    fn fmt<W: fmt::Write>(&self, f: &mut fmt::Formatter<W>) -> fmt::Result {
        match self {
            News::Declared { process, stop } => write!(f, "! declared {process} at {stop}\n"),
            News::WasDeclared(process) => write!(f, "! declared {process}\n"),
            News::Active(process) => write!(f, "! active {process}\n"),
            News::Asked { holder, asker } => write!(f, "! asked {holder} {asker}\n"),
            News::Free { asker, holder } => write!(f, "! free {asker} {holder}\n"),
            News::Out(site, state) => write!(f, "! link out {site} {state}\n"),
            News::Into(site, state) => write!(f, "! link in {site} {state}\n"),
        }
    }
}
