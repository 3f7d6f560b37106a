//! Processes in a line.

ghost use Rattle.std.specs.Prelude.{Some};
ghost use Rattle.cmh_frames.specs.Texts.{declared_text, processes_text};

use cmh_runs::ProcId;
use std::fmt;

/// Processes, each after a space.
#[derive(Drop)]
pub struct ProcessesText<'a> {
    pub processes: &'a [ProcId],
}

impl<'a> fmt::Display for ProcessesText<'a> {
    ghost output = { λ text. Some (processes_text text.processes.now) };

    fn fmt<W: fmt::Write>(&self, f: &mut fmt::Formatter<W>) -> fmt::Result {
        for process in self.processes {
            write!(f, " {process}")?;
        }
        Ok(())
    }
}

/// The process that was declared, if one was.
#[derive(Clone, Copy)]
pub struct DeclaredText {
    pub declared: Option<ProcId>,
}

impl fmt::Display for DeclaredText {
    ghost output = { λ text. Some (declared_text text.declared) };

    fn fmt<W: fmt::Write>(&self, f: &mut fmt::Formatter<W>) -> fmt::Result {
        match self.declared {
            Some(process) => write!(f, " declared {process}"),
            None => Ok(()),
        }
    }
}
