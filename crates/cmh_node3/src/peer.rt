//! Another site.

ghost use Rattle.std.specs.Prelude.{◌≡◌, IfOk};
ghost use Rattle.std.specs.List.{list_any};
ghost use Rattle.cmh_node3.specs.Peers as spec;
ghost use Rattle.cmh_node3.specs.Peers.{IsPlaceOf, others};

use cmh_model3::SiteId;
use cmh_resume3::{ReceiverEnd, SenderEnd};
use std::alloc::{AllocError, Global};

/// Another site, and the two ends here of the links with it: of the one to it, and of the one from it.
#[derive(Drop)]
pub struct Peer {
    pub site: SiteId,
    pub out: SenderEnd,
    pub into: ReceiverEnd,
}

/// How many messages a sender's end keeps at most before no more are asked for: some 23 MB on the wire.
const MOST_KEPT: usize = 1_000_000;

/// The sites but this one, in their order.
pub fn others_of(alloc: Global, sites: &[SiteId], site: SiteId) -> Result<Vec<SiteId>, AllocError>
    ensures { IfOk result (λ them. them.items ≡ others site sites.now) }
{
    let mut them = Vec::new(alloc);
    for other in sites {
        if *other != site {
            them.push(*other)?;
        }
    }
    Ok(them)
}

/// Where a site stands among peers.
pub fn place_of(peers: &[Peer], site: SiteId) -> Option<usize>
    ensures { IsPlaceOf peers.now site result }
{
    for place in 0..peers.len() {
        if peers[place].site == site {
            return Some(place);
        }
    }
    None
}

/// Whether a sender's end keeps more than a million messages, since its receiver doesn't take them.
pub fn is_behind(peers: &[Peer]) -> bool
    ensures { result ≡ list_any spec.keeps_many peers.now }
{
    for peer in peers {
        if keeps_many(peer) {
            return true;
        }
    }
    false
}

fn keeps_many(peer: &Peer) -> bool
    ensures { result ≡ spec.keeps_many peer.now }
{
    peer.out.kept() > MOST_KEPT
}
