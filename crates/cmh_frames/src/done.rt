//! A step in short.

ghost use Rattle.std.specs.Prelude.{Some};
ghost use Rattle.cmh_frames.specs.DoneText.{done_text};

use crate::ProcId;
use std::fmt;

/// What a step sent, in frames, and declared.
#[derive(Clone, Copy)]
pub struct Done {
    pub sent: usize,
    pub declared: Option<ProcId>,
}

impl fmt::Display for Done {
    ghost output = { λ done. Some (done_text done) };

    fn fmt<W: fmt::Write>(&self, f: &mut fmt::Formatter<W>) -> fmt::Result {
        let sent = self.sent;
        write!(f, "sent {sent}")?;
        if let Some(process) = self.declared {
            write!(f, " declared {process}")?;
        }
        Ok(())
    }
}
