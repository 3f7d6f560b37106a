//! What is under way between the sites as an epoch begins.

ghost use Rattle.std.specs.Prelude.{◌≡◌, ◌++◌, ◌==◌, ◌&&◌, ℕ, [], false, if◌then◌else◌, IfOk, OnOk};
ghost use Rattle.cmh_audit3.specs.Set.{has_site};
ghost use Rattle.cmh_frames.specs.Rows.{repeats};
ghost use Rattle.cmh_merge.specs.Queues.{waiting};
ghost use Rattle.cmh_history3.specs.Between as spec;
ghost use Rattle.cmh_history3.specs.Between.{between};

use crate::between::under_way;
use cmh_merge::Queues;
use cmh_model3::{Message, SiteId};
use cmh_segment3::Segment;
use std::alloc::{AllocError, Global};

/// The messages that are under way between these sites. The only error is out of memory.
pub fn queues_of(
    alloc: Global,
    sites: &[SiteId],
    segments: &[Segment],
) -> Result<Queues<Message>, AllocError>
    requires { repeats sites.now ≡ false }
    ensures { IfOk result (λ queues. (a b : ℕ) → waiting queues a b ≡ between sites.now segments.now a b) }
{
    let mut queues = Queues::new(alloc);
    for from in sites {
        send_from(&mut queues, sites, segments, *from)?;
    }
    Ok(queues)
}

/// Puts what is under way from one site to these behind what is in the queues.
fn send_from(
    queues: &mut Queues<Message>,
    sites: &[SiteId],
    segments: &[Segment],
    from: SiteId,
) -> Result<(), AllocError>
    requires { repeats sites.now ≡ false }
    ensures { OnOk result ((a b : ℕ) → waiting queues.new a b ≡ waiting queues.old a b
        ++ (if (from == a) && has_site sites.now b then spec.under_way segments.now a b else [])) }
{
    for to in sites {
        send_all(queues, from, *to, under_way(segments, from, *to))?;
    }
    Ok(())
}

/// Puts messages from one site to another behind what is in the queues.
fn send_all(
    queues: &mut Queues<Message>,
    from: SiteId,
    to: SiteId,
    messages: &[Message],
) -> Result<(), AllocError>
    ensures { OnOk result ((a b : ℕ) → waiting queues.new a b ≡ waiting queues.old a b
        ++ (if (from == a) && (to == b) then messages.now else [])) }
{
    for message in messages {
        queues.send(from, to, *message)?;
    }
    Ok(())
}
