//! All links of a site.

ghost use Rattle.std.specs.Prelude.{◌≡◌, ◌≤◌, length, flat_map, map, All, IfOk, OnOk};
ghost use Rattle.cmh_shared.specs.Backlogs.{AtEach, HasRoom, seen};
ghost use Rattle.std.specs.List.{AllZip};
ghost use Rattle.cmh_shared.specs.Links.{AreFresh, IsTapOf, Released, Through, ends_of, queued};

use crate::link::Link;
use crate::tap::LinkTap;
use cmh_runs::{Entry, SiteId};
use std::alloc::{AllocError, Global};
use std::marker::Model;

/// The site's ends of its links, in the order of the sites that they were made for.
#[derive(Drop)]
pub struct SiteLinks<F> {
    links: Vec<Link<F>>,

    /// For how many frames more each backlog has room.
    reserved: usize,
}

impl<F> Model for SiteLinks<F> {
    ghost use Rattle.std.specs.Prelude.{All, map};
    ghost use Rattle.cmh_shared.specs.Backlogs.{HasRoom, seen};
    ghost use Rattle.cmh_shared.specs.Links as spec;

    ghost Value = { spec.SiteLinks F };

    ghost view = { λ l. record { each = map seen l.links.items; reserved = l.reserved } };

    ghost invariant = { λ l. All (HasRoom l.reserved) l.links.items };
}

impl<F: Copy + Drop> SiteLinks<F> {
    /// A link to each of these sites, and its tap, in their order.
    pub fn open(
        alloc: Global,
        sites: &[SiteId],
    ) -> Result<(SiteLinks<F>, Vec<LinkTap<F>>), AllocError>
        ensures to { IfOk result (λ opened. ends_of opened.0.each ≡ sites.now) }
        ensures fresh { IfOk result (λ opened. AllZip AreFresh opened.0.each opened.1.items) }
        ensures taps { IfOk result (λ opened. AllZip IsTapOf opened.0.each opened.1.items) }
    {
        let mut links = Vec::with_capacity(alloc, sites.len())?;
        let mut taps = Vec::with_capacity(alloc, sites.len())?;
        for site in sites {
            let (link, tap) = Link::open(alloc, *site)?;
            links.push_reserved(link);
            taps.push_reserved(tap);
        }
        Ok((SiteLinks { links, reserved: 0 }, taps))
    }

    /// Makes room in each backlog for the frames of entries, so that `queue_all` of them right after it takes no memory.
    pub fn reserve_for<E>(&mut self, entries: &[Entry<E, F>]) -> Result<(), AllocError>
        ensures same { self.new.each ≡ self.old.each }
        ensures room { OnOk result (length (flat_map (λ entry. entry.sent) entries.now) ≤ self.new.reserved) }
    {
        let count = count_frames(entries)?;
        self.reserved = 0;
        reserve_each(self.links.as_mut_slice(), count)?;
        self.reserved = count;
        Ok(())
    }

    /// Each frame of the entries goes to the end of the backlog of its site, in their order. It takes no memory.
    pub fn queue_all<E>(&mut self, entries: &[Entry<E, F>])
        requires { length (flat_map (λ entry. entry.sent) entries.now) ≤ self.old.reserved }
        ensures { self.new.each ≡ map (queued (flat_map (λ entry. entry.sent) entries.now)) self.old.each }
    {
        queue_each(self.links.as_mut_slice(), entries);
        self.reserved = 0;
    }

    /// Moves frames from the backlogs into the rings while they fit. It takes no memory.
    pub fn release(&mut self)
        ensures { AllZip Released self.old.each self.new.each }
    {
        release_each(self.links.as_mut_slice());
        self.reserved = 0;
    }

    /// With both ends of each ring in one thread: what was taken and what is left in the rings is what was released.
    pub fn reconcile(&mut self, taps: &mut Vec<LinkTap<F>>)
        requires { AllZip IsTapOf self.old.each taps.old.items }
        ensures { AllZip Through self.old.each taps.old.items }
    {
        reconcile_each(&mut self.links, taps);
        self.reserved = 0;
    }
}

/// How many frames entries send. A count that doesn't fit is out of memory, too.
fn count_frames<E, F>(entries: &[Entry<E, F>]) -> Result<usize, AllocError>
    ensures { IfOk result (λ count. count ≡ length (flat_map (λ entry. entry.sent) entries.now)) }
{
    let mut count: usize = 0;
    for entry in entries {
        let Some(more) = count.checked_add(entry.sent.as_slice().len()) else {
            return Err(AllocError);
        };
        count = more;
    }
    Ok(count)
}

fn reserve_each<F: Copy + Drop>(links: &mut [Link<F>], count: usize) -> Result<(), AllocError>
    ensures same { AtEach (λ a b. seen b ≡ seen a) links.old links.new }
    ensures room { OnOk result (All (HasRoom count) links.new) }
{
    for link in links.iter_mut() {
        link.reserve(count)?;
    }
    Ok(())
}

fn queue_each<E, F: Copy + Drop>(links: &mut [Link<F>], entries: &[Entry<E, F>])
    requires { All (HasRoom (length (flat_map (λ entry. entry.sent) entries.now))) links.old }
    ensures { AtEach (λ a b. seen b ≡ queued (flat_map (λ entry. entry.sent) entries.now) (seen a))
        links.old links.new }
{
    for link in links.iter_mut() {
        link.queue_all(entries);
    }
}

fn release_each<F: Copy + Drop>(links: &mut [Link<F>])
    ensures { AtEach (λ a b. Released (seen a) (seen b)) links.old links.new }
{
    for link in links.iter_mut() {
        link.release();
    }
}

fn reconcile_each<F: Copy + Drop>(links: &mut Vec<Link<F>>, taps: &mut Vec<LinkTap<F>>)
    requires { AtEach (λ a b. IsTapOf (seen a) b) links.old.items taps.old.items }
    ensures { AtEach (λ a b. Through (seen a) b) links.old.items taps.old.items }
{
    for at in 0..taps.len() {
        taps[at].reconcile(&mut links[at]);
    }
}
