//! What running sites answer, as it is printed.

ghost use Rattle.std.specs.Prelude.{Some, flat_map};
ghost use Rattle.cmh_talk.specs.SiteReplies.{closed_text, ends_text, reply_text};

use cmh_carriers::{LinkFault, LinkState};
use cmh_frames::{Done, ProcessesText, SiteId};
use cmh_station::{Declared, StationRefusal};
use std::fmt;

/// What is written for a line that running sites are given.
#[derive(Drop)]
pub enum SiteReply {
    /// Nothing: the line is empty or a comment.
    Silent,
    BadLine,
    /// There is no such site.
    BadLink,
    /// The links were connected before.
    Late,
    Taken(Done),
    Refused(StationRefusal),
    /// The processes that a site declared, in their order in time.
    Declared(SiteId, Declared),
    /// How many links were connected, and how many failed.
    Connected(usize, usize),
    /// The links to and from each other site, ascending.
    Links(Vec<LinkEnds>),
}

/// The states of the two links between a site and another one.
#[derive(Clone, Copy)]
pub struct LinkEnds {
    pub site: SiteId,
    /// Of the link to that site.
    pub outgoing: LinkState,
    /// Of the link from it.
    pub incoming: LinkState,
}

impl fmt::Display for LinkEnds {
    ghost output = { λ ends. Some (ends_text ends) };

    fn fmt<W: fmt::Write>(&self, f: &mut fmt::Formatter<W>) -> fmt::Result {
        let site = self.site;
        let outgoing = self.outgoing;
        let incoming = self.incoming;
        write!(f, "out {site} {outgoing}\nin {site} {incoming}\n")
    }
}

/// A link that closed, as it is printed before a cluster's report.
#[derive(Clone, Copy)]
pub struct ClosedLink {
    pub from: SiteId,
    pub to: SiteId,
    /// Why it closed at its sender, or else at its receiver.
    pub fault: LinkFault,
}

impl fmt::Display for ClosedLink {
    ghost output = { λ link. Some (closed_text link) };

    fn fmt<W: fmt::Write>(&self, f: &mut fmt::Formatter<W>) -> fmt::Result {
        let from = self.from;
        let to = self.to;
        let number = self.fault.number();
        write!(f, "link {from} {to} closed {number}")
    }
}

/// The links to and from other sites, each on a line.
#[derive(Drop)]
struct LinkLines<'a> {
    links: &'a [LinkEnds],
}

impl<'a> fmt::Display for LinkLines<'a> {
    ghost output = { λ l. Some (flat_map ends_text l.links.now) };

    fn fmt<W: fmt::Write>(&self, f: &mut fmt::Formatter<W>) -> fmt::Result {
        for ends in self.links {
            write!(f, "{ends}")?;
        }
        Ok(())
    }
}

impl fmt::Display for SiteReply {
    ghost output = { λ reply. Some (reply_text reply) };

    fn fmt<W: fmt::Write>(&self, f: &mut fmt::Formatter<W>) -> fmt::Result {
        match self {
            SiteReply::Silent => Ok(()),
            SiteReply::BadLine => write!(f, "bad line\n"),
            SiteReply::BadLink => write!(f, "bad link\n"),
            SiteReply::Late => write!(f, "late\n"),
            SiteReply::Taken(done) => write!(f, "ok {done}\n"),
            SiteReply::Refused(refusal) => {
                let number = refusal.number();
                write!(f, "refused {number}\n")
            }
            SiteReply::Declared(site, processes) => {
                let members = ProcessesText {
                    processes: processes.as_slice(),
                };
                write!(f, "site {site} declared{members}\n")
            }
            SiteReply::Connected(connected, failed) => {
                write!(f, "connected {connected} failed {failed}\n")
            }
            SiteReply::Links(links) => {
                let lines = LinkLines {
                    links: links.as_slice(),
                };
                write!(f, "{lines}")
            }
        }
    }
}
