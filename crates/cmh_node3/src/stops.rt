//! At which stops the processes of a site were declared.

use cmh_model3::{Entry, Event, Frame, Message, ProcId, Stamp};
use cmh_segment3::Stamped;
use cmh_station3::Beginning;
use std::alloc::{AllocError, Global};

/// How many ticks of a clock an epoch has.
const EPOCH_TICKS: u64 = 1 << 32;

/// At which stop each process of a site was declared last. A controller does not know it, and the base of an epoch says it of
/// those that are declared then. No contract speaks of it: only what an audit tells people of an older declaration does.
#[derive(Drop)]
pub(crate) struct Stops {
    /// At most one for each process of the site, for which there is room.
    rows: Vec<Stamped>,
}

impl Stops {
    /// Those that the base of a site of so many processes says.
    pub fn of(alloc: Global, beginning: &Beginning, processes: usize) -> Result<Stops, AllocError> {
        let mut stops = Stops {
            rows: Vec::with_capacity(alloc, processes)?,
        };
        for row in beginning.base.declared.as_slice() {
            stops.put(row.process, row.stamp);
        }
        Ok(stops)
    }

    /// A row for each process that was declared.
    pub fn as_slice(&self) -> &[Stamped] {
        &self.rows
    }

    /// Notes whom entries declared that the site added when it had this clock.
    pub fn note(&mut self, clock: Stamp, entries: &[Entry<Event, Message>]) {
        let mut clock = clock;
        for entry in entries {
            clock = clock_after(clock, &entry.event);
            if let Some(process) = entry.declared {
                self.put(process, stop_of(&entry.event, clock));
            }
        }
    }

    fn put(&mut self, process: ProcId, stop: Stamp) {
        for row in self.rows.iter_mut() {
            if row.process == process {
                row.stamp = stop;
                return;
            }
        }
        // There is room for each process of the site.
        let _ = self.rows.push(Stamped {
            process,
            stamp: stop,
        });
    }
}

/// The clock with which an epoch begins.
pub(crate) fn first_clock(beginning: &Beginning) -> Stamp {
    Stamp::new(u64::from(beginning.epoch.get()) * EPOCH_TICKS)
}

/// The stop at which an event declares after which the clock is this: that of the probe which came back, or its own.
fn stop_of(event: &Event, clock: Stamp) -> Stamp {
    match event {
        Event::Got {
            frame: Frame::Probe { stamp, .. },
            ..
        } => *stamp,
        _ => clock,
    }
}

/// The clock after an event: an ask ticks.
fn clock_after(clock: Stamp, event: &Event) -> Stamp {
    match event {
        Event::Ask { .. } => Stamp::new(clock.get().saturating_add(1)),
        Event::Got { clock: theirs, .. } => Stamp::new(clock.get().max(theirs.get())),
        _ => clock,
    }
}
