//! What happens on the links to the other sites.

ghost use Rattle.std.specs.Prelude.{◌≡◌, ◌≢◌, ◌<◌, length, None};
ghost use Rattle.cmh_node3.specs.Changes.{Gives, Happens, sealed_by};
ghost use Rattle.cmh_node3.specs.Nodes.{StaysExact};

use crate::happening::{Action, Happening};
use crate::node::Node;
use crate::places::{happen_at, next_at};
use crate::sealed::Sealed;
use cmh_model3::{Message, SiteId};
use cmh_resume3::Mismatch;
use cmh_station3::SegmentFile;

impl<F: SegmentFile> Node<F> {
    /// Something happened on the link to the peer at this place: what is to be done about it. Where the two journals do not
    /// fit, and not by the receiver's fault, the site is sealed. A site that is sealed closes its connections.
    pub fn happen(&mut self, place: usize, what: &Happening, now: u64) -> Action
        requires { place < length self.old.peers }
        ensures open { self.old.sealed ≡ None → Happens place what.now now self.old result self.new }
        ensures sealed { self.old.sealed ≢ None → (result ≡ Action.Close) × (self.new ≡ self.old) }
        ensures exact { StaysExact F.told F.has_failed self.old self.new }
    {
        match self.sealed {
            Some(_) => return Action::Close,
            None => {}
        }
        let (peer, epoch) = (self.peers[place].site, self.epoch());
        let action = happen_at(&mut self.peers, place, what, epoch, now);
        self.sealed = sealed_after(peer, action);
        action
    }

    /// The next message that is to be written to the peer at this place, which counts as written then. A site that is
    /// sealed gives none.
    pub fn next_message(&mut self, place: usize, now: u64) -> Option<Message>
        requires { place < length self.old.peers }
        ensures open { self.old.sealed ≡ None → Gives place now self.old result self.new }
        ensures sealed { self.old.sealed ≢ None → (result ≡ None) × (self.new ≡ self.old) }
        ensures exact { StaysExact F.told F.has_failed self.old self.new }
    {
        match self.sealed {
            Some(_) => return None,
            None => {}
        }
        next_at(&mut self.peers, place, now)
    }
}

/// Why a site is sealed by an action on the link to a peer.
fn sealed_after(peer: SiteId, action: Action) -> Option<Sealed>
    ensures { result ≡ sealed_by peer action }
{
    match action {
        Action::Refuse(Mismatch::MoreThanSent) => {
            Some(Sealed::Mismatch(peer, Mismatch::MoreThanSent))
        }
        Action::Refuse(Mismatch::OtherFrames) => {
            Some(Sealed::Mismatch(peer, Mismatch::OtherFrames))
        }
        _ => None,
    }
}
