//! How far an audit has come, where it takes long.

use std::io::Eprint;
use std::time::{Clock, Instant};

/// What it has done.
pub(crate) const ALL_READ: &str = "all segments are read";

pub(crate) const ALL_JUDGED: &str = "all epochs are judged";

/// Tells on standard error what an audit has done, from a second after it began. Where that is no terminal, it tells nothing.
#[derive(Clone, Copy)]
pub(crate) struct Progress {
    /// None where nothing is told.
    began: Option<Instant>,
}

impl Progress {
    pub fn begin(clock: &impl Clock) -> Progress {
        if libc::isatty(libc::STDERR_FILENO) != 1 {
            return Progress { began: None };
        }
        Progress {
            began: Instant::now(clock).ok(),
        }
    }

    pub fn tell<R: Clock + Eprint>(self, rt: &R, done: &str) {
        let Some(began) = self.began else {
            return;
        };
        let Ok(passed) = began.elapsed(rt) else {
            return;
        };
        let seconds = passed.as_secs();
        if seconds > 0 {
            // A write to standard error that fails is ignored.
            let _ = eprintln!(rt; "after {seconds} s: {done}");
        }
    }
}
