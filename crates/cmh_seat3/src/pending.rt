//! An entry that waits.

use cmh_controller3::Prepared;
use cmh_segment3::Entry;
use cmh_wire3::Mark;

/// The entry of a step that the controller has prepared. It waits to be kept or dropped.
#[derive(Drop)]
pub(crate) struct Pending {
    pub(crate) entry: Entry,
    /// What the controller has prepared, but for what is sent: that is in the entry.
    pub(crate) prepared: Prepared,
    /// The mark of the entry.
    pub(crate) mark: Mark,
}
