//! One entry is taken.

ghost use Rattle.std.specs.Prelude.{◌≡◌, IfOk, MatchBool, OnOk};
ghost use Rattle.cmh_merge.specs.Inner.Takings.{CanTake, IsStuck, SendsFrames, Takes};

use crate::queues::Queues;
use crate::walk::{Next, Walk};
use cmh_runs::SiteId;
use std::alloc::AllocError;

/// Takes the next entry of a site, if it has one that got nothing, or the next frame of its link. Says whether it did.
pub fn take_next<E, F: Copy + Drop, W: Walk<E, F>>(
    site: SiteId,
    walk: &mut W,
    queues: &mut Queues<F>,
    sent: &mut Vec<(SiteId, F)>,
) -> Result<bool, AllocError>
    ensures took { IfOk result (λ took. MatchBool took
        (Takes W.got site (W.left walk.old) (W.left walk.new) queues.old queues.new)
        (IsStuck W.got site (W.left walk.old) queues.old × (walk.new ≡ walk.old) × (queues.new ≡ queues.old))) }
{
    if !receive_next(site, walk, queues) {
        return Ok(false);
    }
    walk.take(sent)?;
    send_all(site, sent, queues)?;
    Ok(true)
}

/// Takes what the next entry got from its link, and says whether the entry can be taken.
fn receive_next<E, F: Copy + Drop, W: Walk<E, F>>(
    site: SiteId,
    walk: &W,
    queues: &mut Queues<F>,
) -> bool
    ensures { MatchBool result (CanTake W.got site (W.left walk.now) queues.old queues.new)
        (IsStuck W.got site (W.left walk.now) queues.old × (queues.new ≡ queues.old)) }
{
    match walk.next() {
        Next::End => false,
        Next::Own => true,
        Next::Got { from } => match queues.front(from, site) {
            None => false,
            Some(frame) => {
                if !walk.got_this(from, &frame) {
                    return false;
                }
                let _ = queues.receive(from, site);
                true
            }
        },
    }
}

/// Puts the frames that a site sent on their links.
fn send_all<F: Copy + Drop>(
    site: SiteId,
    sent: &[(SiteId, F)],
    queues: &mut Queues<F>,
) -> Result<(), AllocError>
    ensures { OnOk result (SendsFrames site sent.now queues.old queues.new) }
{
    for (to, frame) in sent {
        queues.send(site, *to, *frame)?;
    }
    Ok(())
}
