//! The clocks of sites while their entries are gone through, and which entries are within a stop.

ghost use Rattle.std.specs.Prelude.{◌≡◌, ℕ, IfOk, OnOk};
ghost use Rattle.cmh_model3.specs.Lists.{set_at};
ghost use Rattle.cmh_model3.specs.Rules as rules;
ghost use Rattle.cmh_model3.specs.Stops as stops;
ghost use Rattle.cmh_report3.specs.Inner.ClockTables.{HasRoom, clock_at};

use cmh_model3::{Event, Frame, Message, SiteId, Stamp, WorldEvent};
use std::alloc::{AllocError, Global};
use std::marker::Model;

/// The clock of each site, 0 at first.
#[derive(Drop)]
pub struct Clocks {
    /// At the site's number.
    clocks: Vec<Stamp>,
}

impl Model for Clocks {
    ghost use Rattle.std.specs.Prelude.{ℕ, List};

    ghost Value = { List ℕ };

    ghost view = { λ c. c.clocks.items };
}

impl Clocks {
    /// All stand at 0. Takes no memory.
    pub fn new(alloc: Global) -> Clocks
        ensures { (s : ℕ) → clock_at result s ≡ 0 }
    {
        Clocks {
            clocks: Vec::new(alloc),
        }
    }

    pub fn at(&self, site: SiteId) -> Stamp
        ensures { result ≡ clock_at self.now site }
    {
        match self.clocks.get(site.get() as usize) {
            Some(clock) => *clock,
            None => Stamp::new(0),
        }
    }

    /// Takes an entry of a site, and answers the clock of the site after it: the entry's stamp.
    pub fn take(&mut self, event: &WorldEvent<Event, Message>) -> Result<Stamp, AllocError>
        requires { HasRoom (clock_at self.old event.now.site) event.now.entry.event }
        ensures stamp { IfOk result (λ stamp.
            stamp ≡ rules.clock_after (clock_at self.old event.now.site) event.now.entry.event) }
        ensures clocks { OnOk result ((s : ℕ) → clock_at self.new s ≡ set_at (clock_at self.old) event.now.site
            (rules.clock_after (clock_at self.old event.now.site) event.now.entry.event) s) }
    {
        let stamp = clock_after(self.at(event.site), &event.entry.event);
        self.put(event.site, stamp)?;
        Ok(stamp)
    }

    fn put(&mut self, site: SiteId, clock: Stamp) -> Result<(), AllocError>
        ensures { OnOk result ((s : ℕ) → clock_at self.new s ≡ set_at (clock_at self.old) site clock s) }
    {
        let place = site.get() as usize;
        if self.clocks.len() <= place {
            self.clocks.resize(place + 1, Stamp::new(0))?;
        }
        self.clocks[place] = clock;
        Ok(())
    }
}

/// The clock of a site after an event.
fn clock_after(clock: Stamp, event: &Event) -> Stamp
    requires { HasRoom clock event.now }
    ensures { result ≡ rules.clock_after clock event.now }
{
    match event {
        Event::Ask { .. } => Stamp::new(clock.get() + 1),
        Event::Got { clock: sent, .. } => clock.max(*sent),
        Event::Turn { clock: turned } => clock.max(*turned),
        Event::Reply { .. } | Event::Withdraw { .. } => clock,
    }
}

/// Whether an entry of this event and this stamp is within a stop.
pub fn is_within(stop: Stamp, stamp: Stamp, event: &Event) -> bool
    ensures { result ≡ stops.is_within stop stamp event.now }
{
    match event {
        Event::Ask { .. } => stamp <= stop,
        _ => stamp < stop,
    }
}

/// The stop at which the cycle of a declaration stood, told from the event that declares and the site's clock before it.
pub fn declared_at(clock: Stamp, event: &Event) -> Stamp
    requires { HasRoom clock event.now }
    ensures { result ≡ stops.declared_at clock event.now }
{
    match event {
        Event::Ask { .. } => Stamp::new(clock.get() + 1),
        Event::Got {
            frame: Frame::Probe { stamp, .. },
            ..
        } => *stamp,
        _ => Stamp::new(0),
    }
}
