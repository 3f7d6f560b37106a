//! A step that waits.

use cmh_frames::Entry;

/// A step that the controller has prepared, and that waits to be kept or dropped.
#[derive(Drop)]
pub(crate) struct Pending {
    pub(crate) entry: Entry,
    /// Whether it is the receipt of a probe that acted.
    pub(crate) acted: bool,
}
