//! The answers of a script, as they are printed.

ghost use Rattle.std.specs.Prelude.{Some};
ghost use Rattle.cmh_play.specs.Replies.{reply_text};

use crate::site::Refused;
use cmh_audit::Verdict;
use cmh_files::VerdictText;
use cmh_frames::{Done, Edition, Frame, TopologyFault};
use std::fmt;

/// What is written for a line of a script. A verdict is boxed, so that the reply to any other line is small.
#[derive(Drop)]
pub enum Reply {
    /// Nothing: the line is empty or a comment.
    Silent,
    /// A site or the edition was named.
    Ok,
    BadLine,
    /// The line came too late.
    Late,
    Topology(TopologyFault),
    /// There is no such link: a site is unknown, or both are one.
    BadLink,
    /// The link was cut before.
    Closed,
    /// No frame is under way on the link.
    Empty,
    /// The link is cut, and so many frames that were under way on it are lost.
    Lost(usize),
    /// The site took no step. A frame stays where it was.
    Refused(Refused),
    /// The site took the event.
    Taken(Done),
    /// The receiver took the frame.
    Got(Frame, Done),
    /// The lines of the verdict on a world of this edition.
    Report(Edition, Box<Verdict>),
}

impl fmt::Display for Reply {
    ghost output = { λ reply. Some (reply_text reply) };

    fn fmt<W: fmt::Write>(&self, f: &mut fmt::Formatter<W>) -> fmt::Result {
        match self {
            Reply::Silent => Ok(()),
            Reply::Ok => write!(f, "ok\n"),
            Reply::BadLine => write!(f, "bad line\n"),
            Reply::Late => write!(f, "late\n"),
            Reply::Topology(fault) => {
                let number = fault.number();
                write!(f, "topology {number}\n")
            }
            Reply::BadLink => write!(f, "bad link\n"),
            Reply::Closed => write!(f, "closed\n"),
            Reply::Empty => write!(f, "empty\n"),
            Reply::Lost(frames) => write!(f, "ok lost {frames}\n"),
            Reply::Refused(Refused::Full) => write!(f, "refused 12\n"),
            Reply::Refused(Refused::Rule(refusal)) => {
                let number = refusal.number();
                write!(f, "refused {number}\n")
            }
            Reply::Taken(done) => write!(f, "ok {done}\n"),
            Reply::Got(frame, done) => write!(f, "got {frame} {done}\n"),
            Reply::Report(edition, verdict) => {
                let text = VerdictText {
                    edition: *edition,
                    verdict,
                };
                write!(f, "{text}")
            }
        }
    }
}
