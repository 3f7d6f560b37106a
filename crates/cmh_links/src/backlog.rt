//! How many frames may wait for a link.

/// How many frames of 8 bytes make a megabyte.
const FRAMES_A_MEGABYTE: usize = 131_072;

/// How many frames may wait for the link to a site that doesn't read them.
#[derive(Clone, Copy)]
pub struct BacklogLimit {
    frames: usize,
}

impl BacklogLimit {
    /// As many as fit so much memory.
    pub const fn of_megabytes(megabytes: u16) -> BacklogLimit {
        BacklogLimit {
            frames: megabytes as usize * FRAMES_A_MEGABYTE,
        }
    }

    /// Whether so many are too many.
    pub fn is_passed_by(self, frames: usize) -> bool {
        frames > self.frames
    }
}

impl Default for BacklogLimit {
    /// 64 megabytes: more frames than the journal of an honest peer has entries.
    fn default() -> BacklogLimit {
        BacklogLimit::of_megabytes(64)
    }
}
