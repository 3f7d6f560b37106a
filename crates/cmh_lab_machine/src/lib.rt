//! A tiny model, to show that `cmh_machine`, `cmh_journaled` and the rings of `cmh_shared` know no other: sites tell each
//! other their clocks.
#![tactic(auto)]

mod clock;
mod tape;

pub use crate::clock::{Clock, Event, Frame, Refusal};
pub use crate::tape::Tape;

#[cfg(test)]
mod tests {
    use super::*;
    use cmh_journaled::{AllEntries, Journaled, Unsent};
    use cmh_runs::{Entry, SiteId};
    use cmh_shared::SiteLinks;

    #[test]
    fn steps(rt: HostRuntime) {
        let alloc = rt.alloc();
        let mut station = Journaled::new(
            alloc,
            3,
            Clock::new(alloc, 3),
            AllEntries::new(alloc, 2),
            Tape::new(alloc, false),
        );
        let to = SiteId::of(2);
        assert!(rt; station.step(&Event::Turn { clock: 3 }).is_err());
        assert!(rt; station.step(&Event::Tell { to }).is_ok());
        assert_eq!(rt; station.machine().time(), 4);
        assert!(rt; station.step(&Event::Turn { clock: 9 }).is_ok());
        assert!(rt; station.step(&Event::Tell { to }).is_err());
        assert_eq!(rt; station.kept().as_slice().len(), 2);
        assert_eq!(rt; station.log().len(), 2);
    }

    #[test]
    fn frames_go_through_rings(rt: HostRuntime) {
        let alloc = rt.alloc();
        let mut station = Journaled::new(
            alloc,
            3,
            Clock::new(alloc, 3),
            AllEntries::new(alloc, 2),
            Tape::new(alloc, false),
        );
        let to = SiteId::of(2);
        assert!(rt; station.step(&Event::Tell { to }).is_ok());
        assert!(rt; station.step(&Event::Tell { to }).is_ok());
        let entries = station.kept().as_slice();
        let mut first = None;
        let mut second = None;
        if let Ok((mut links, mut taps)) = SiteLinks::open(alloc, &[SiteId::of(1), to]) {
            if links.reserve_for(entries).is_ok() {
                links.queue_all(entries);
            }
            links.release();
            if let Some(mut tap) = taps.pop() {
                first = tap.take();
                second = tap.take();
            }
        }
        assert!(rt; first == Some(Frame { clock: 4 }));
        assert!(rt; second == Some(Frame { clock: 5 }));
    }

    #[test]
    fn goes_back(rt: HostRuntime) {
        let alloc = rt.alloc();
        let mut station = Journaled::new(
            alloc,
            0,
            Clock::new(alloc, 0),
            Unsent::new(alloc),
            Tape::new(alloc, true),
        );
        let to = SiteId::of(2);
        let events = [Event::Tell { to }, Event::Turn { clock: 7 }];
        assert!(rt; station.step_all(&events).is_err());
        assert!(rt; station.is_sealed());
        assert_eq!(rt; station.machine().time(), 0);
    }
}
