//! A link of another model, whose frame is a pair of numbers and whose events say nothing: links know nothing of what
//! goes through them.

ghost use Rattle.std.specs.Prelude.{◌≡◌, IfOk, IfSome};

use crate::link::Link;
use cmh_runs::{Entry, Sendings, SiteId};
use std::alloc::{AllocError, Global};

/// One entry sends a pair to a site. What the tap of the link to this site takes then, if it takes anything, is this pair.
pub fn pair_goes_through(
    alloc: Global,
    to: SiteId,
    pair: (u64, u16),
) -> Result<Option<(u64, u16)>, AllocError>
    ensures { IfOk result (λ taken. IfSome taken (λ got. got ≡ pair)) }
{
    let (mut link, mut tap) = Link::open(alloc, to)?;
    let mut sent = Vec::with_capacity(alloc, 1)?;
    sent.push_reserved((to, pair));
    let entry = Entry {
        event: (),
        sent: Sendings::new(sent),
        declared: None,
    };
    let entries = [entry];
    link.reserve(1)?;
    link.queue_all(&entries);
    link.release();
    let taken = tap.take();
    tap.reconcile(&mut link);
    Ok(taken)
}
