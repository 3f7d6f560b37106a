//! What a running site answers to its clients, as it is sent.

ghost use Rattle.std.specs.Prelude.{Some, flat_map};
ghost use Rattle.cmh_talk3.specs.Links.{states_text};
ghost use Rattle.cmh_talk3.specs.Texts.{counts_text, event_text, reply_text, sealed_text, status_text};

use crate::link_state::LinkStates;
use cmh_controller3::Refusal;
use cmh_frames::ProcessesText;
use cmh_model3::{ProcId, SiteId, Stamp};
use cmh_node3::Sealed;
use cmh_wire3::Epoch;
use std::fmt;

/// What is sent for a deed.
#[derive(Clone, Copy)]
pub enum EventReply {
    /// The step sent so many messages.
    Taken {
        sent: usize,
    },
    /// It sent so many, and declared this process, whose cycle stood at this stop.
    Declared {
        sent: usize,
        process: ProcId,
        stop: Stamp,
    },
    /// No step was taken, by the reason of this number.
    Refused(u8),
}

impl fmt::Display for EventReply {
    ghost output = { λ reply. Some (event_text reply) };

    fn fmt<W: fmt::Write>(&self, f: &mut fmt::Formatter<W>) -> fmt::Result {
        match self {
            EventReply::Taken { sent } => write!(f, "ok sent {sent}\n"),
            EventReply::Declared {
                sent,
                process,
                stop,
            } => write!(f, "ok sent {sent} declared {process} at {stop}\n"),
            EventReply::Refused(number) => write!(f, "refused {number}\n"),
        }
    }
}

/// What is sent for a question.
#[derive(Drop)]
pub enum Reply {
    /// The line fits nothing.
    BadLine,
    /// The processes that a site has in declared now, ascending.
    Declared(SiteId, Vec<ProcId>),
    /// For whom a process waits, ascending.
    Waits(ProcId, Vec<ProcId>),
    /// Whose requests a process has not answered, ascending.
    Owed(ProcId, Vec<ProcId>),
    /// Whom a process can't ask again yet, ascending.
    Leaving(ProcId, Vec<ProcId>),
    /// The process of the question is unknown, or one of another site.
    Refused(Refusal),
    /// The links with each other site, ascending.
    Links(Vec<LinkStates>),
    Status(Status),
    /// The site is in this epoch.
    Turned(Epoch),
    /// News will be told; or the entries were.
    Ok,
}

/// What is known of a running site beside its node.
#[derive(Clone, Copy)]
pub struct Figures {
    /// How many clients it has.
    pub clients: usize,
}

/// The figures of a running site.
#[derive(Clone, Copy)]
pub struct Status {
    /// The entries of its journal.
    pub entries: usize,
    /// How many of its processes are declared now.
    pub declared: usize,
    pub clients: usize,
    /// Its open links to other sites.
    pub open_out: usize,
    /// Its open links from other sites.
    pub open_in: usize,
    /// The messages whose receivers are not known to have them, at most 2^64 - 1.
    pub kept: usize,
    /// Why it has stopped for good.
    pub sealed: Option<Sealed>,
}

impl fmt::Display for Status {
    ghost output = { λ status. Some (status_text status) };

    fn fmt<W: fmt::Write>(&self, f: &mut fmt::Formatter<W>) -> fmt::Result {
        let Status {
            entries,
            declared,
            clients,
            ..
        } = *self;
        let links = LinksAndSeal { status: self };
        write!(
            f,
            "entries {entries} declared {declared} clients {clients}{links}"
        )
    }
}

/// How many links are open, how many messages are kept, and whether the site has stopped.
#[derive(Drop)]
struct LinksAndSeal<'a> {
    status: &'a Status,
}

impl<'a> fmt::Display for LinksAndSeal<'a> {
    ghost output = { λ shown. Some (counts_text shown.status.now) };

    #[tactic(auto, unfolding(crate::specs::Texts::counts_text))]
    fn fmt<W: fmt::Write>(&self, f: &mut fmt::Formatter<W>) -> fmt::Result {
        let out = self.status.open_out;
        let into = self.status.open_in;
        let kept = self.status.kept;
        let sealed = SealText {
            sealed: self.status.sealed,
        };
        write!(f, " out {out} in {into} kept {kept} sealed {sealed}\n")
    }
}

/// Whether a site has stopped for good, and why.
#[derive(Drop)]
struct SealText {
    sealed: Option<Sealed>,
}

impl fmt::Display for SealText {
    ghost output = { λ text. Some (sealed_text text.sealed) };

    fn fmt<W: fmt::Write>(&self, f: &mut fmt::Formatter<W>) -> fmt::Result {
        match self.sealed {
            None => write!(f, "no"),
            Some(Sealed::Disk) => write!(f, "yes disk"),
            Some(Sealed::Memory) => write!(f, "yes memory"),
            Some(Sealed::Mismatch(site, mismatch)) => {
                let number = mismatch.number();
                write!(f, "yes mismatch {number} site {site}")
            }
        }
    }
}

/// The links with other sites, each on a line.
#[derive(Drop)]
struct LinkLines<'a> {
    links: &'a [LinkStates],
}

impl<'a> fmt::Display for LinkLines<'a> {
    ghost output = { λ lines. Some (flat_map states_text lines.links.now) };

    fn fmt<W: fmt::Write>(&self, f: &mut fmt::Formatter<W>) -> fmt::Result {
        for states in self.links {
            write!(f, "{states}")?;
        }
        Ok(())
    }
}

impl fmt::Display for Reply {
    ghost output = { λ reply. Some (reply_text reply) };

    fn fmt<W: fmt::Write>(&self, f: &mut fmt::Formatter<W>) -> fmt::Result {
        match self {
            Reply::BadLine => write!(f, "bad line\n"),
            Reply::Declared(site, processes) => {
                let members = ProcessesText {
                    processes: processes.as_slice(),
                };
                write!(f, "site {site} declared{members}\n")
            }
            Reply::Waits(process, others) => {
                let members = ProcessesText {
                    processes: others.as_slice(),
                };
                write!(f, "waits {process}{members}\n")
            }
            Reply::Owed(process, others) => {
                let members = ProcessesText {
                    processes: others.as_slice(),
                };
                write!(f, "owed {process}{members}\n")
            }
            Reply::Leaving(process, others) => {
                let members = ProcessesText {
                    processes: others.as_slice(),
                };
                write!(f, "leaving {process}{members}\n")
            }
            Reply::Refused(refusal) => {
                let number = refusal.number();
                write!(f, "refused {number}\n")
            }
            Reply::Links(links) => {
                let lines = LinkLines {
                    links: links.as_slice(),
                };
                write!(f, "{lines}")
            }
            Reply::Status(status) => write!(f, "{status}"),
            Reply::Turned(epoch) => {
                let number = epoch.get();
                write!(f, "ok epoch {number}\n")
            }
            Reply::Ok => write!(f, "ok\n"),
        }
    }
}
