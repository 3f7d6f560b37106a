//! Why a site can't take its next entry.

ghost use Rattle.std.specs.Prelude.{Some};
ghost use Rattle.cmh_files.specs.ReasonLines as spec;

use cmh_controller::Refusal;
use cmh_frames::{Frame, ProcId, SiteId};
use std::fmt;

/// Why a site can't take its next entry. The first of these that holds is given.
#[derive(Clone, Copy)]
pub enum Reason {
    /// The site's controller refuses the event.
    Refused(Refusal),
    /// Of the frames that the entry records as sent, the first that is not as the rules give it: its number, from 1,
    /// and what the rules give there, with the site that it goes to, or nothing where they give no more.
    Sent {
        number: usize,
        due: Option<(SiteId, Frame)>,
    },
    /// What the entry records as declared is not what the rules give: this process, or nobody.
    Declared {
        due: Option<ProcId>,
    },
    /// The frame that the entry got is not the next of its link; that is this one.
    NotNext {
        from: SiteId,
        next: Frame,
    },
    /// The entry got a frame of a site that has sent no more: up to its own stop, or to its journal's end where it has
    /// none.
    NothingUnderWay {
        from: SiteId,
    },
}

impl fmt::Display for Reason {
    ghost output = { λ reason. Some (spec.reason_text reason) };

    fn fmt<W: fmt::Write>(&self, f: &mut fmt::Formatter<W>) -> fmt::Result {
        match self {
            Reason::Refused(refusal) => {
                let number = refusal.number();
                write!(f, "refused {number}")
            }
            Reason::Sent { number, due } => {
                let due = DueFrame { due: *due };
                write!(f, "differs sent {number} due {due}")
            }
            Reason::Declared { due } => {
                let due = DueProcess { due: *due };
                write!(f, "differs declared due {due}")
            }
            Reason::NotNext { from, next } => write!(f, "waits next {next} from {from}"),
            Reason::NothingUnderWay { from } => write!(f, "waits next nothing from {from}"),
        }
    }
}

/// What the rules send, if they do.
#[derive(Clone, Copy)]
struct DueFrame {
    due: Option<(SiteId, Frame)>,
}

impl fmt::Display for DueFrame {
    ghost output = { λ text. Some (spec.due_frame_text text.due) };

    fn fmt<W: fmt::Write>(&self, f: &mut fmt::Formatter<W>) -> fmt::Result {
        match self.due {
            Some((to, frame)) => write!(f, "{frame} to {to}"),
            None => write!(f, "nothing"),
        }
    }
}

/// Whom the rules declare, if anyone.
#[derive(Clone, Copy)]
struct DueProcess {
    due: Option<ProcId>,
}

impl fmt::Display for DueProcess {
    ghost output = { λ text. Some (spec.due_process_text text.due) };

    fn fmt<W: fmt::Write>(&self, f: &mut fmt::Formatter<W>) -> fmt::Result {
        match self.due {
            Some(process) => write!(f, "{process}"),
            None => write!(f, "nobody"),
        }
    }
}
