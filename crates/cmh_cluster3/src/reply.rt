//! What a cluster answers, as it is printed.

ghost use Rattle.std.specs.Prelude.{Some, flat_map};
ghost use Rattle.cmh_cluster3.specs.Replies.{link_text, reply_text};

use crate::no_node::NoNode;
use cmh_model3::SiteId;
use cmh_talk3::{EventReply, OutState, Reply};
use std::fmt;

/// What a cluster answers to a line.
#[derive(Drop)]
pub enum ClusterReply {
    /// A line that says nothing is not answered.
    Silent,
    /// The line fits nothing.
    BadLine,
    /// No site has this number.
    BadSite,
    /// There is no such link.
    BadLink,
    /// It was done.
    Ok,
    /// The site is down.
    Down,
    /// The site to be started runs.
    Up,
    /// The site was not started.
    NotStarted(NoNode),
    /// What the site of an event replied.
    Event(EventReply),
    /// What the site of a question replied.
    Told(Reply),
}

impl fmt::Display for ClusterReply {
    ghost output = { λ reply. Some (reply_text reply) };

    fn fmt<W: fmt::Write>(&self, f: &mut fmt::Formatter<W>) -> fmt::Result {
        match self {
            ClusterReply::Silent => Ok(()),
            ClusterReply::BadLine => write!(f, "bad line\n"),
            ClusterReply::BadSite => write!(f, "bad site\n"),
            ClusterReply::BadLink => write!(f, "bad link\n"),
            ClusterReply::Ok => write!(f, "ok\n"),
            ClusterReply::Down => write!(f, "down\n"),
            ClusterReply::Up => write!(f, "up\n"),
            ClusterReply::NotStarted(why) => write!(f, "{why}\n"),
            ClusterReply::Event(reply) => write!(f, "{reply}"),
            ClusterReply::Told(reply) => write!(f, "{reply}"),
        }
    }
}

/// A link that keeps messages, or was refused for good.
#[derive(Clone, Copy)]
pub struct KeptLink {
    pub from: SiteId,
    pub to: SiteId,
    pub state: OutState,
}

impl fmt::Display for KeptLink {
    ghost output = { λ link. Some (link_text link) };

    fn fmt<W: fmt::Write>(&self, f: &mut fmt::Formatter<W>) -> fmt::Result {
        let KeptLink { from, to, state } = *self;
        write!(f, "link {from} {to} {state}\n")
    }
}

/// Links that keep messages or were refused, each on a line.
#[derive(Drop)]
pub(crate) struct KeptLinks<'a> {
    pub links: &'a [KeptLink],
}

impl<'a> fmt::Display for KeptLinks<'a> {
    ghost output = { λ kept. Some (flat_map link_text kept.links.now) };

    fn fmt<W: fmt::Write>(&self, f: &mut fmt::Formatter<W>) -> fmt::Result {
        for link in self.links {
            write!(f, "{link}")?;
        }
        Ok(())
    }
}
