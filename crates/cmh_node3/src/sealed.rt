//! Why a site has stopped for good.

use cmh_model3::SiteId;
use cmh_resume3::Mismatch;

/// Why a site takes no more steps and says no more to others, until it is started again.
#[derive(Clone, Copy)]
pub enum Sealed {
    /// The journal could not be written, or not synced.
    Disk,
    /// Memory was refused for a message that stands in the journal.
    Memory,
    /// The journal and that of another site do not fit: this one lacks entries, or is of another history.
    Mismatch(SiteId, Mismatch),
}
