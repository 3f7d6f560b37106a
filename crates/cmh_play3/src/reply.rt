//! The answers of a script, as they are printed.

ghost use Rattle.std.specs.Prelude.{Some};
ghost use Rattle.cmh_play3.specs.Replies.{done_text, reply_text};

use cmh_controller3::{Declaration, Refusal};
use cmh_model3::Frame;
use cmh_report3::Report;
use cmh_script3::FrameText;
use cmh_topology3::TopologyFault;
use std::fmt;

/// How many messages a step sent, and whom it declared.
#[derive(Clone, Copy)]
pub struct Done {
    pub sent: usize,
    pub declared: Option<Declaration>,
}

/// What is written for a line of a script. A report is boxed, so that the reply to any other line is small.
#[derive(Drop)]
pub enum Reply {
    /// Nothing: the line is empty or a comment.
    Silent,
    /// A site or the edition was named.
    Ok,
    BadLine,
    /// The line came too late.
    Late,
    Topology(TopologyFault),
    /// There is no such link: a site is unknown, or both are one.
    BadLink,
    /// The link was cut before.
    Closed,
    /// Nothing is under way on the link.
    Empty,
    /// The link is cut, with so many messages under way on it.
    Lost(usize),
    /// The site took no step.
    Refused(Refusal),
    /// The site took the event.
    Taken(Done),
    /// The receiver took the frame.
    Got(Frame, Done),
    Report(Box<Report>),
}

impl fmt::Display for Reply {
    ghost output = { λ reply. Some (reply_text reply) };

    fn fmt<W: fmt::Write>(&self, f: &mut fmt::Formatter<W>) -> fmt::Result {
        match self {
            Reply::Silent => Ok(()),
            Reply::Ok => write!(f, "ok\n"),
            Reply::BadLine => write!(f, "bad line\n"),
            Reply::Late => write!(f, "late\n"),
            Reply::Topology(fault) => {
                let number = fault.number();
                write!(f, "topology {number}\n")
            }
            Reply::BadLink => write!(f, "bad link\n"),
            Reply::Closed => write!(f, "closed\n"),
            Reply::Empty => write!(f, "empty\n"),
            Reply::Lost(messages) => write!(f, "ok lost {messages}\n"),
            Reply::Refused(refusal) => {
                let number = refusal.number();
                write!(f, "refused {number}\n")
            }
            Reply::Taken(done) => write!(f, "ok {done}\n"),
            Reply::Got(frame, done) => {
                let frame = FrameText { frame: *frame };
                write!(f, "got {frame} {done}\n")
            }
            Reply::Report(report) => write!(f, "{report}"),
        }
    }
}

impl fmt::Display for Done {
    ghost output = { λ done. Some (done_text done) };

    fn fmt<W: fmt::Write>(&self, f: &mut fmt::Formatter<W>) -> fmt::Result {
        let sent = self.sent;
        write!(f, "sent {sent}")?;
        if let Some(Declaration { process, stop }) = self.declared {
            write!(f, " declared {process} at {stop}")?;
        }
        Ok(())
    }
}
