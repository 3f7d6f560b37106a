//! The merge of the journals of all sites.

ghost use Rattle.std.specs.Prelude.{◌≡◌, ℕ, ◌<◌, false, List, length, IfOk, MatchBool, map};
ghost use Rattle.cmh_runs.specs.declared.entry.Entry.{Entry};
ghost use Rattle.cmh_merge.specs.Merges.{AreDistinct, IsMerge, IsMergeFrom, LeavesUnderWay};
ghost use Rattle.cmh_merge.specs.Queues.{waiting};
ghost use Rattle.cmh_merge.specs.Inner.Merging.{GoesOn, StuckAt, TakesAt};
ghost use Rattle.cmh_merge.specs.Walks.{lefts_of, sites_of};

use crate::queues::Queues;
use crate::taking::take_next;
use crate::walk::{SiteWalk, Walk};
use cmh_runs::SiteId;
use std::alloc::{AllocError, Global};

/// What was taken of the journals.
#[derive(Drop)]
pub struct Merged<W, F> {
    /// The walks that were given, past what was taken.
    pub walks: Vec<SiteWalk<W>>,
    /// The site of each entry, in the order in which they were taken.
    pub order: Vec<SiteId>,
    /// The frames that are under way after them.
    pub queues: Queues<F>,
}

/// Takes entries of the journals of all sites as long as any can be taken: an entry that got nothing, or the next frame of
/// its link. The journals begin with their world, so that nothing is under way at first. The only error is out of memory.
pub fn merge<E, F: Copy + Drop, W: Walk<E, F>>(
    alloc: Global,
    walks: Vec<SiteWalk<W>>,
) -> Result<Merged<W, F>, AllocError>
    requires distinct { AreDistinct (sites_of walks.items) }
    ensures sites { IfOk result (λ merged. sites_of merged.walks.items ≡ sites_of walks.items) }
    ensures merged { IfOk result (λ merged. IsMerge W.got (sites_of walks.items) (lefts_of W.left walks.items)
        (lefts_of W.left merged.walks.items) merged.order.items) }
{
    merge_from(alloc, Queues::new(alloc), walks)
}

/// The same of journals that begin later, where these frames are under way.
///
/// Each pass over the sites looks at each once more than it takes entries.
pub fn merge_from<E, F: Copy + Drop, W: Walk<E, F>>(
    alloc: Global,
    queues: Queues<F>,
    walks: Vec<SiteWalk<W>>,
) -> Result<Merged<W, F>, AllocError>
    requires distinct { AreDistinct (sites_of walks.items) }
    ensures sites { IfOk result (λ merged. sites_of merged.walks.items ≡ sites_of walks.items) }
    ensures merged { IfOk result (λ merged. IsMergeFrom W.got (waiting queues) (sites_of walks.items)
        (lefts_of W.left walks.items) (lefts_of W.left merged.walks.items) merged.order.items) }
    ensures under_way { IfOk result (λ merged. LeavesUnderWay W.got (waiting queues) (sites_of walks.items)
        (lefts_of W.left walks.items) (lefts_of W.left merged.walks.items) (waiting merged.queues)) }
{
    let mut walks = walks;
    let mut queues = queues;
    let mut order = Vec::new(alloc);
    let mut sent = Vec::new(alloc);
    let mut moves = true;
    while moves {
        moves = pass(&mut walks, &mut queues, &mut order, &mut sent)?;
    }
    Ok(Merged {
        walks,
        order,
        queues,
    })
}

/// Takes of each site in turn what can be taken. Says whether anything was.
fn pass<E, F: Copy + Drop, W: Walk<E, F>>(
    walks: &mut Vec<SiteWalk<W>>,
    queues: &mut Queues<F>,
    order: &mut Vec<SiteId>,
    sent: &mut Vec<(SiteId, F)>,
) -> Result<bool, AllocError>
    ensures sites { IfOk result (λ moved. sites_of walks.new.items ≡ sites_of walks.old.items) }
    ensures goes_on { IfOk result (λ moved. GoesOn W.got (sites_of walks.old.items) moved
        (lefts_of W.left walks.old.items) (lefts_of W.left walks.new.items) queues.old queues.new
        order.old.items order.new.items) }
    ensures stuck { IfOk result (λ moved. moved ≡ false → (k : ℕ) → k < length walks.new.items
        → StuckAt W.got (sites_of walks.old.items) (lefts_of W.left walks.new.items) queues.new k) }
{
    let mut moved = false;
    for place in 0..walks.len() {
        moved |= take_all_at(walks, place, queues, order, sent)?;
    }
    Ok(moved)
}

/// Takes of the site at this place what can be taken. Says whether anything was.
fn take_all_at<E, F: Copy + Drop, W: Walk<E, F>>(
    walks: &mut Vec<SiteWalk<W>>,
    place: usize,
    queues: &mut Queues<F>,
    order: &mut Vec<SiteId>,
    sent: &mut Vec<(SiteId, F)>,
) -> Result<bool, AllocError>
    requires { place < length walks.old.items }
    ensures sites { IfOk result (λ moved. sites_of walks.new.items ≡ sites_of walks.old.items) }
    ensures goes_on { IfOk result (λ moved. GoesOn W.got (sites_of walks.old.items) moved
        (lefts_of W.left walks.old.items) (lefts_of W.left walks.new.items) queues.old queues.new
        order.old.items order.new.items) }
    ensures stuck { IfOk result (λ moved.
        StuckAt W.got (sites_of walks.old.items) (lefts_of W.left walks.new.items) queues.new place) }
{
    let mut moved = false;
    while take_at(walks, place, queues, order, sent)? {
        moved = true;
    }
    Ok(moved)
}

/// Takes the next entry of the site at this place, if it can be taken. Says whether it was.
fn take_at<E, F: Copy + Drop, W: Walk<E, F>>(
    walks: &mut Vec<SiteWalk<W>>,
    place: usize,
    queues: &mut Queues<F>,
    order: &mut Vec<SiteId>,
    sent: &mut Vec<(SiteId, F)>,
) -> Result<bool, AllocError>
    requires { place < length walks.old.items }
    ensures sites { IfOk result (λ took. sites_of walks.new.items ≡ sites_of walks.old.items) }
    ensures took { IfOk result (λ took. MatchBool took
        (TakesAt W.got (sites_of walks.old.items) place (lefts_of W.left walks.old.items)
        (lefts_of W.left walks.new.items) queues.old queues.new order.old.items order.new.items)
        (StuckAt W.got (sites_of walks.old.items) (lefts_of W.left walks.old.items) queues.old place
        × (lefts_of W.left walks.new.items ≡ lefts_of W.left walks.old.items) × (queues.new ≡ queues.old) × (order.new.items ≡ order.old.items))) }
{
    let SiteWalk { site, walk } = &mut walks[place];
    let site = *site;
    if !take_next(site, walk, queues, sent)? {
        return Ok(false);
    }
    order.push(site)?;
    Ok(true)
}
