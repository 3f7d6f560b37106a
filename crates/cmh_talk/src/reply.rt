//! What a service answers, as it is sent.

ghost use Rattle.std.specs.Prelude.{◌≡◌, Some};
ghost use Rattle.cmh_talk.specs.Texts.{event_text, links_text, reply_text, sealed_word, status_text};

use crate::site_reply::SiteReply;
use cmh_frames::{Done, ProcId, ProcessesText};
use cmh_station::StationRefusal;
use std::fmt;

/// What is sent for an event: its outcome, or why it was refused.
#[derive(Clone, Copy)]
pub enum EventReply {
    /// The step sent so many frames.
    Taken { sent: usize },
    /// It sent so many, and declared this process.
    Declared { sent: usize, process: ProcId },
    Refused(StationRefusal),
}

impl fmt::Display for EventReply {
    ghost output = { λ reply. Some (event_text reply) };

    fn fmt<W: fmt::Write>(&self, f: &mut fmt::Formatter<W>) -> fmt::Result {
        match self {
            EventReply::Taken { sent } => {
                let done = Done {
                    sent: *sent,
                    declared: None,
                };
                write!(f, "ok {done}\n")
            }
            EventReply::Declared { sent, process } => {
                let done = Done {
                    sent: *sent,
                    declared: Some(*process),
                };
                write!(f, "ok {done}\n")
            }
            EventReply::Refused(refusal) => {
                let number = refusal.number();
                write!(f, "refused {number}\n")
            }
        }
    }
}

/// What is sent for another line of a client.
#[derive(Drop)]
pub enum Reply {
    /// What a site answers to the same line.
    Site(SiteReply),
    /// For whom a process waits, ascending.
    Waits(ProcId, Vec<ProcId>),
    /// Whose requests a process has not answered, ascending.
    Owed(ProcId, Vec<ProcId>),
    /// Declarations will be told.
    Watching,
    Status(Status),
}

/// The figures of a running site.
#[derive(Clone, Copy)]
pub struct Status {
    /// The entries of its journal.
    pub entries: usize,
    /// How many more there is room for.
    pub room: usize,
    /// How many of its processes it declared.
    pub declared: usize,
    /// The clients of the service.
    pub clients: usize,
    /// Its open links to other sites.
    pub open_out: usize,
    /// Its open links from other sites.
    pub open_in: usize,
    /// Whether its journal can't be written any more.
    pub is_sealed: bool,
}

impl fmt::Display for Status {
    ghost output = { λ status. Some (status_text status) };

    fn fmt<W: fmt::Write>(&self, f: &mut fmt::Formatter<W>) -> fmt::Result {
        let Status {
            entries,
            room,
            declared,
            clients,
            ..
        } = *self;
        let state = LinksAndSeal { status: self };
        write!(
            f,
            "entries {entries} room {room} declared {declared} clients {clients}{state}"
        )
    }
}

/// How many links are open, and whether the journal is sealed.
#[derive(Drop)]
struct LinksAndSeal<'a> {
    status: &'a Status,
}

impl<'a> fmt::Display for LinksAndSeal<'a> {
    ghost output = { λ shown. Some (links_text shown.status.now) };

    #[tactic(auto, unfolding(crate::specs::Texts::links_text))]
    fn fmt<W: fmt::Write>(&self, f: &mut fmt::Formatter<W>) -> fmt::Result {
        let out = self.status.open_out;
        let into = self.status.open_in;
        let sealed = sealed_word(self.status.is_sealed);
        write!(f, " out {out} in {into} sealed {sealed}\n")
    }
}

fn sealed_word(is_sealed: bool) -> &'static str
    ensures { result.now ≡ sealed_word is_sealed }
{
    if is_sealed { "yes" } else { "no" }
}

impl fmt::Display for Reply {
    ghost output = { λ reply. Some (reply_text reply) };

    fn fmt<W: fmt::Write>(&self, f: &mut fmt::Formatter<W>) -> fmt::Result {
        match self {
            Reply::Site(reply) => write!(f, "{reply}"),
            Reply::Waits(process, others) => {
                let members = ProcessesText {
                    processes: others.as_slice(),
                };
                write!(f, "waits {process}{members}\n")
            }
            Reply::Owed(process, others) => {
                let members = ProcessesText {
                    processes: others.as_slice(),
                };
                write!(f, "owed {process}{members}\n")
            }
            Reply::Watching => write!(f, "ok\n"),
            Reply::Status(status) => write!(f, "{status}"),
        }
    }
}
