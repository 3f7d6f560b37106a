//! A step of a run.

/// A step of a run, as the place of its entry.
#[derive(Clone, Copy)]
pub struct Step {
    /// The place of the journal among those that were given, from 0.
    pub journal: usize,
    /// The place of the entry in its journal, from 0.
    pub entry: usize,
}
