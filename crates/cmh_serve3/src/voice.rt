//! Who is told the notes of a site.

use cmh_clients3::SiteNote;

/// What tells the notes of a site on standard error.
pub trait SiteVoice {
    /// Tells a note, by one write of at most 4,096 bytes. It is called only while that does not wait.
    fn tell(&self, note: &SiteNote);
}
