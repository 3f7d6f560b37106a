//! Why a site can't take its next entry.

ghost use Rattle.std.specs.Prelude.{Some};
ghost use Rattle.cmh_files3.specs.ReasonLines as spec;

use cmh_controller3::Refusal;
use cmh_model3::{Message, SiteId};
use cmh_script3::FrameText;
use cmh_segment3::Declaration;
use std::fmt;

/// Why a site can't take its next entry. The first of these that holds is given.
#[derive(Clone, Copy)]
pub enum Reason {
    /// The site's controller refuses the event.
    Refused(Refusal),
    /// Of the messages that the entry records as sent, the first that is not as the rules give it: its number, from 1, and
    /// what the rules give there, with the site that it goes to, or nothing where they give no more.
    Sent {
        number: usize,
        due: Option<(SiteId, Message)>,
    },
    /// What the entry records as declared is not what the rules give: this process at this stop, or nobody.
    Declared {
        due: Option<Declaration>,
    },
    /// The message that the entry got is not the next of its link; that is this one.
    NotNext {
        from: SiteId,
        next: Message,
    },
    /// The entry got a message of a site that has sent no more: up to its own stop, or to its journal's end where it has
    /// none.
    NothingUnderWay {
        from: SiteId,
    },
}

impl fmt::Display for Reason {
    ghost output = { λ reason. Some (spec.reason_text reason) };

    fn fmt<W: fmt::Write>(&self, f: &mut fmt::Formatter<W>) -> fmt::Result {
        match self {
            Reason::Refused(refusal) => {
                let number = refusal.number();
                write!(f, "refused {number}")
            }
            Reason::Sent { number, due } => {
                let due = DueMessage { due: *due };
                write!(f, "differs sent {number} due {due}")
            }
            Reason::Declared { due } => {
                let due = DueDeclaration { due: *due };
                write!(f, "differs declared due {due}")
            }
            Reason::NotNext { from, next } => {
                let next = MessageText { message: *next };
                write!(f, "waits next {next} from {from}")
            }
            Reason::NothingUnderWay { from } => write!(f, "waits next nothing from {from}"),
        }
    }
}

/// A message with its clock.
#[derive(Clone, Copy)]
struct MessageText {
    message: Message,
}

impl fmt::Display for MessageText {
    ghost output = { λ text. Some (spec.message_text text.message) };

    fn fmt<W: fmt::Write>(&self, f: &mut fmt::Formatter<W>) -> fmt::Result {
        let frame = FrameText {
            frame: self.message.frame,
        };
        let clock = self.message.clock;
        write!(f, "{frame} clock {clock}")
    }
}

/// What the rules send, if they do.
#[derive(Clone, Copy)]
struct DueMessage {
    due: Option<(SiteId, Message)>,
}

impl fmt::Display for DueMessage {
    ghost output = { λ text. Some (spec.due_message_text text.due) };

    fn fmt<W: fmt::Write>(&self, f: &mut fmt::Formatter<W>) -> fmt::Result {
        match self.due {
            Some((to, message)) => {
                let message = MessageText { message };
                write!(f, "{message} to {to}")
            }
            None => write!(f, "nothing"),
        }
    }
}

/// Whom the rules declare, if anyone.
#[derive(Clone, Copy)]
struct DueDeclaration {
    due: Option<Declaration>,
}

impl fmt::Display for DueDeclaration {
    ghost output = { λ text. Some (spec.due_declaration_text text.due) };

    fn fmt<W: fmt::Write>(&self, f: &mut fmt::Formatter<W>) -> fmt::Result {
        match self.due {
            Some(Declaration { process, stamp }) => write!(f, "{process} at {stamp}"),
            None => write!(f, "nobody"),
        }
    }
}
