//! The merge of journals: entries are taken, one at a time, while any can be.

ghost use Rattle.std.specs.Prelude.{◌≡◌, ◌+◌, ◌*◌, ◌≤◌, ◌<◌, ◌^◌, length, OnOk, IfOk, IfNone, MatchBool, MatchOption, [], ◌∷◌, ◌++◌, if◌then◌else◌, replicate};
ghost use Rattle.cmh_audit.specs.Journals.{entry_count};
ghost use Rattle.cmh_audit.specs.Inner.Places.{OneEach};
ghost use Rattle.cmh_audit.specs.Inner.Merging.{AreLawfulLengths, entries_each, ReceivesFrame, LacksFrame, SendsFrames, IsStuck, AreTried};
ghost use Rattle.cmh_audit.specs.Inner.Orders.{IsOrder};
ghost use Rattle.cmh_audit.specs.Inner.Ready.{Wakes, ArePlaces, with_turn};

use crate::places::Places;
use crate::step::Step;
use cmh_frames::{SiteId, Topology};
use cmh_journal::{Entries, StoredEntry, StoredJournal};
use cmh_world::Links;
use std::alloc::{AllocError, Global};

/// How far the journals were taken.
#[derive(Drop)]
pub struct Merged {
    /// How many entries of each journal were taken.
    pub taken: Vec<usize>,
    /// The entries that were taken, in their order, where it was to be kept; else none.
    pub steps: Vec<Step>,

    /// How often it was looked whether a site's next entry can be taken.
    pub tries: u64,
}

/// Whose turn comes, and who lacks a frame.
#[derive(Drop)]
struct Schedule {
    /// The places of sites whose turn is still to come, the next one last.
    ready: Vec<usize>,
    /// At the place of each site that lacks a frame, the frame's sender.
    lacks: Vec<Option<SiteId>>,
}

impl Schedule {
    /// The turns of so many sites are all to come, and none lacks a frame.
    fn new(alloc: Global, sites: usize) -> Result<Schedule, AllocError>
        ensures ready { IfOk result (λ schedule. ArePlaces schedule.ready.items sites) }
        ensures lacks { IfOk result (λ schedule. schedule.lacks.items ≡ replicate sites None) }
    {
        let ready = all_below(alloc, sites)?;
        let lacks = vec![in alloc; None; sites]?;
        Ok(Schedule { ready, lacks })
    }
}

/// Takes entries while any can be taken. A site that lacks a frame is tried again only after the frame's sender sent
/// it one. `limits` says how many entries of each journal are lawful.
pub fn merge(
    alloc: Global,
    topology: &Topology,
    journals: &[StoredJournal<'_>],
    limits: &[usize],
    keeps_order: bool,
) -> Result<Merged, AllocError>
    requires lawful { AreLawfulLengths topology.now journals.now limits.now }
    requires once { OneEach journals.now }
    requires few { length journals.now ≤ 65536 }
    requires small { (entry_count journals.now + 1) * length journals.now < 2 ^ 64 }
    ensures stuck { IfOk result (λ m. IsStuck topology.now journals.now m.taken.items) }
    ensures order { IfOk result (λ m. MatchBool keeps_order
        (IsOrder topology.now journals.now m.taken.items m.steps.items) (m.steps.items ≡ [])) }
    ensures tries { IfOk result (λ m. m.tries ≤ (entry_count journals.now + 1) * length journals.now) }
    ensures looked { IfOk result (λ m. AreTried journals.now m.taken.items [] m.tries) }
{
    let places = Places::new(alloc, journals)?;
    let mut links = Links::new(alloc);
    let mut walks = walks_of(alloc, journals)?;
    let mut taken = vec![in alloc; 0; journals.len()]?;
    let mut steps = Vec::new(alloc);
    let mut schedule = Schedule::new(alloc, journals.len())?;
    let mut tries: u64 = 0;
    let mut turn = last_of(&mut schedule.ready);
    while let Some(i) = turn {
        let site = journals[i].site();
        let at = taken[i];
        let Some(entry) = walks[i].first() else {
            turn = last_of(&mut schedule.ready);
            continue;
        };
        tries += 1;
        if at >= limits[i] {
            turn = last_of(&mut schedule.ready);
            continue;
        }
        if let Some(from) = receive(&mut links, site, &entry) {
            schedule.lacks[i] = Some(from);
            turn = last_of(&mut schedule.ready);
            continue;
        }
        send_all(&mut links, &mut schedule, &places, site, &entry)?;
        keep(&mut steps, keeps_order, i, at)?;
        taken[i] = at + 1;
        walks[i].drop_first();
    }
    Ok(Merged {
        taken,
        steps,
        tries,
    })
}

/// Takes the last place of the list: that of the site whose turn it is.
#[inline(always)]
fn last_of(ready: &mut Vec<usize>) -> Option<usize>
    ensures list { with_turn result ready.new.items ≡ ready.old.items }
    ensures none { IfNone result (ready.new.items ≡ []) }
{
    ready.pop()
}

/// The entries of each journal.
fn walks_of<'a>(
    alloc: Global,
    journals: &[StoredJournal<'a>],
) -> Result<Vec<Entries<'a>>, AllocError>
    ensures { IfOk result (λ walks. walks.items ≡ entries_each journals.now) }
{
    let mut walks = Vec::new(alloc);
    for journal in journals {
        walks.push(journal.entries())?;
    }
    Ok(walks)
}

/// Takes the frame that the entry got, if it got one, from its link. Where that frame isn't the next of its link, all
/// stays, and the answer is the site whose frame is lacking.
#[inline(always)]
fn receive(links: &mut Links, site: SiteId, entry: &StoredEntry<'_>) -> Option<SiteId>
    ensures { MatchOption result (ReceivesFrame links.old links.new site entry.now.event)
        (λ from. (links.new ≡ links.old) × LacksFrame links.old site entry.now.event from) }
{
    let Some((from, frame)) = entry.received() else {
        return None;
    };
    if links.receive_this(from, site, &frame) {
        None
    } else {
        Some(from)
    }
}

/// Puts the frames that the entry sent on their links, and on the list each site to which one goes and that lacks a
/// frame of `from`.
#[inline(always)]
fn send_all(
    links: &mut Links,
    schedule: &mut Schedule,
    places: &Places<'_, '_>,
    from: SiteId,
    entry: &StoredEntry<'_>,
) -> Result<(), AllocError>
    requires once { OneEach places.now }
    requires long { length schedule.old.lacks.items ≡ length places.now }
    ensures sends { OnOk result (SendsFrames links.old links.new from entry.now.sent) }
    ensures wakes { OnOk result (Wakes places.now entry.now.sent schedule.old.ready.items schedule.new.ready.items
        schedule.old.lacks.items schedule.new.lacks.items from) }
{
    let mut left = entry.outcome();
    while let Some((to, frame)) = left.next_sent() {
        links.send(from, to, frame)?;
        if let Some(k) = places.find(to) {
            if schedule.lacks[k] == Some(from) {
                schedule.lacks[k] = None;
                schedule.ready.push(k)?;
            }
        }
    }
    Ok(())
}

/// Adds the step that takes this entry of this journal, where the order is to be kept.
#[inline(always)]
fn keep(
    steps: &mut Vec<Step>,
    keeps_order: bool,
    journal: usize,
    entry: usize,
) -> Result<(), AllocError>
    ensures { OnOk result (steps.new.items ≡ (if keeps_order
        then steps.old.items ++ record { journal = journal; entry = entry } ∷ [] else steps.old.items)) }
{
    if keeps_order {
        steps.push(Step { journal, entry })?;
    }
    Ok(())
}

/// The places below n.
fn all_below(alloc: Global, n: usize) -> Result<Vec<usize>, AllocError>
    ensures { IfOk result (λ all. ArePlaces all.items n) }
{
    let mut all = Vec::new(alloc);
    for k in 0..n {
        all.push(k)?;
    }
    Ok(all)
}
