//! Where the journals of a restored world are begun.

ghost use Rattle.std.specs.Prelude.{◌≡◌, List, ℕ, IfOk, OnOk};
ghost use Rattle.std.specs.List.{All};
ghost use Rattle.cmh_segment3.specs.Base.{IsBase};
ghost use Rattle.cmh_segment3.specs.Head.{IsHeader, marked_head};
ghost use Rattle.cmh_restore3.specs.Keeping.{BeginsEach, BeginsJournal};

use cmh_console::NoFile;
use cmh_model3::SiteId;
use cmh_segment3::{Header, Segment, put_head};
use cmh_wire3::Epoch;
use std::alloc::{AllocError, Global};

/// What begins the journals of sites.
pub trait NewJournals: Drop {
    /// That a site has no journal yet.
    ghost lacks: { Self → ℕ → Type 0 };

    /// That a site's journal was begun with the segment of an epoch, whose file has these bytes; of what was before and after.
    ghost begins: { Self → ℕ → ℕ → List ℕ → Self → Type 0 };

    /// Sees that a site has no journal yet. Nothing is changed.
    fn see_none(&self, alloc: Global, site: SiteId) -> Result<(), NoFile>
        ensures { OnOk result (lacks self.now site) };

    /// Begins the journal of a site. The only errors are those of a disk and of memory; something of it may be there then.
    fn begin(
        &mut self,
        alloc: Global,
        site: SiteId,
        epoch: Epoch,
        bytes: &[u8],
    ) -> Result<(), NoFile>
        ensures { OnOk result (begins self.old site epoch bytes.now self.new) };
}

/// Sees that none of the sites has a journal.
pub fn see_none<K: NewJournals>(alloc: Global, sites: &[SiteId], keeper: &K) -> Result<(), NoFile>
    ensures { OnOk result (All (K.lacks keeper.now) sites.now) }
{
    for site in sites {
        keeper.see_none(alloc, *site)?;
    }
    Ok(())
}

/// Begins the journal of each of the sites with its segment. Those before an error are begun.
pub fn begin_each<K: NewJournals>(
    alloc: Global,
    sites: &[SiteId],
    segments: &[Segment],
    keeper: &mut K,
) -> Result<(), NoFile>
    requires bases { All (λ g. IsBase g.base) segments.now }
    requires headers { All (λ g. g.header.before ≡ 0) segments.now }
    ensures { OnOk result (BeginsEach K.begins segments.now sites.now keeper.old keeper.new) }
{
    for site in sites {
        begin_one(alloc, *site, segments, keeper)?;
    }
    Ok(())
}

/// Begins the journal of a site.
fn begin_one<K: NewJournals>(
    alloc: Global,
    site: SiteId,
    segments: &[Segment],
    keeper: &mut K,
) -> Result<(), NoFile>
    requires bases { All (λ g. IsBase g.base) segments.now }
    requires headers { All (λ g. g.header.before ≡ 0) segments.now }
    ensures { OnOk result (BeginsJournal K.begins segments.now site keeper.old keeper.new) }
{
    for segment in segments {
        if segment.header.site == site {
            let bytes = file_of(alloc, segment)?;
            return keeper.begin(alloc, site, segment.header.epoch, &bytes);
        }
    }
    // Never so: each site has one.
    Err(NoFile::Disk)
}

/// The file of a segment without entries.
fn file_of(alloc: Global, segment: &Segment) -> Result<Vec<u8>, AllocError>
    requires base { IsBase segment.now.base }
    requires header { segment.now.header.before ≡ 0 }
    ensures { IfOk result (λ bytes. bytes.items ≡ marked_head segment.now.header segment.now.base) }
{
    let header = header_of(segment);
    let mut bytes = Vec::new(alloc);
    let mut room = Vec::new(alloc);
    let _mark = put_head(&mut bytes, &mut room, &header, &segment.base)?;
    Ok(bytes)
}

/// Its header, whose numbers are those that their types allow.
fn header_of(segment: &Segment) -> Header
    requires { segment.now.header.before ≡ 0 }
    ensures value { result ≡ segment.now.header }
    ensures header { IsHeader result }
{
    let header = segment.header;
    let _site = header.site.get();
    let _epoch = header.epoch.get();
    let _world = header.world.as_bytes();
    header
}
