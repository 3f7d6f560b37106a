//! Whether bases say what is under way.

ghost use Rattle.std.specs.Prelude.{◌↔◌, ◌≡◌, ◌&&◌, ◌==◌, ℕ, false, IsTrue};
ghost use Rattle.std.specs.List.{All};
ghost use Rattle.cmh_frames.specs.Rows.{repeats};
ghost use Rattle.cmh_merge.specs.Queues.{waiting};
ghost use Rattle.cmh_history3.specs.Between as spec;
ghost use Rattle.cmh_history3.specs.Says.{AreUnderWay};

use crate::between::under_way as messages_between;
use cmh_merge::Queues;
use cmh_model3::{Message, SiteId};
use cmh_segment3::Segment;

/// Whether the bases say that just the messages in the queues are under way between these sites. Takes them out meanwhile.
pub fn are_under_way(queues: &mut Queues<Message>, sites: &[SiteId], next: &[Segment]) -> bool
    requires { repeats sites.now ≡ false }
    ensures { IsTrue result ↔ AreUnderWay sites.now next.now (waiting queues.old) }
{
    for from in sites {
        if !are_under_way_from(queues, sites, next, *from) {
            return false;
        }
    }
    true
}

/// The same of the messages from one site.
fn are_under_way_from(
    queues: &mut Queues<Message>,
    sites: &[SiteId],
    next: &[Segment],
    from: SiteId,
) -> bool
    requires { repeats sites.now ≡ false }
    ensures same { IsTrue result
        ↔ All (λ b. waiting queues.old from b ≡ spec.under_way next.now from b) sites.now }
    ensures others { (a b : ℕ) → (from == a) ≡ false → waiting queues.new a b ≡ waiting queues.old a b }
{
    for to in sites {
        if !are_waiting(queues, from, *to, messages_between(next, from, *to)) {
            return false;
        }
    }
    true
}

/// Whether just these messages are under way from one site to another. Takes those out meanwhile that are.
fn are_waiting(queues: &mut Queues<Message>, from: SiteId, to: SiteId, messages: &[Message]) -> bool
    ensures same { IsTrue result ↔ (waiting queues.old from to ≡ messages.now) }
    ensures others { (a b : ℕ) → ((from == a) && (to == b)) ≡ false
        → waiting queues.new a b ≡ waiting queues.old a b }
{
    if queues.len(from, to) != messages.len() {
        return false;
    }
    for message in messages {
        if !is_message(queues.receive(from, to), message) {
            return false;
        }
    }
    true
}

/// Whether a message came, and is this one.
fn is_message(came: Option<Message>, message: &Message) -> bool
    ensures { IsTrue result ↔ (came ≡ Some message.now) }
{
    match came {
        Some(came) => came == *message,
        None => false,
    }
}
