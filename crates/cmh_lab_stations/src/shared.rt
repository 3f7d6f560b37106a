//! Stations that threads could share.

ghost use Rattle.std.specs.Prelude.{◌≤◌, length};
ghost use Rattle.cmh_station.specs.Journaled.{batch_limit};

use crate::answer::{Answer, Unanswered};
use crate::disk::Disk;
use crate::left::Left;
use crate::object::Object;
use crate::station::{Opened, read_one};
use crate::stepping::{Stepping, Steps, call_stepping};
use crate::taps::parking_to;
use crate::telling::put_refusal;
use cmh_console::Words;
use cmh_frames::{Event, Frame, Outcome, SiteId};
use cmh_station::{BoardReader, KeptBoard, ParkingTap, SharedStation, StationRefusal};
use std::alloc::Global;
use std::sync::Wait;

/// A station under its lock, its taps, and the readers of its board.
#[derive(Drop)]
pub struct Shared<R: Wait + Copy + Drop> {
    rt: R,
    station: SharedStation<Disk, KeptBoard<R>>,
    taps: Vec<ParkingTap>,
    first: Option<BoardReader>,
    second: Option<BoardReader>,
}

/// `share`: the station goes under a lock. Where memory is refused it stays as it is.
pub fn share<R: Wait + Copy + Drop>(
    alloc: Global,
    opened: Opened<R>,
    answer: &mut Answer,
) -> (Object<R>, Result<(), Unanswered>) {
    let Opened {
        rt,
        station,
        taps,
        first,
        second,
        told,
    } = opened;
    match SharedStation::new(alloc, station, taps) {
        Ok((station, taps)) => {
            let shared = Shared {
                rt,
                station,
                taps,
                first,
                second,
            };
            (Object::Shared(shared), answer.word("ok"))
        }
        Err((station, taps)) => {
            let opened = Opened {
                rt,
                station,
                taps,
                first,
                second,
                told,
            };
            (Object::Station(opened), Err(Unanswered::OutOfMemory))
        }
    }
}

impl<R: Wait + Copy + Drop> Stepping for Shared<R> {
    fn step(&mut self, event: &Event) -> Result<Outcome, StationRefusal> {
        self.station.step(&self.rt, event)
    }

    fn step_all(&mut self, events: &[Event]) -> Steps {
        self.station.step_all(&self.rt, events)
    }

    fn step_until(&mut self, events: &[Event]) -> Steps {
        self.station.step_until(&self.rt, events)
    }

    fn release(&mut self) {
        self.station.lock(&self.rt).release();
    }

    fn take(&mut self, site: SiteId) -> Option<Option<Frame>> {
        let tap = parking_to(&mut self.taps, site)?;
        Some(tap.take())
    }
}

impl<R: Wait + Copy + Drop> Shared<R> {
    /// `tell`: how many processes the station tells.
    fn tell(&self, answer: &mut Answer) -> Result<(), Unanswered> {
        let told = self.station.lock(&self.rt).tell(&self.rt);
        match told {
            Ok(told) => {
                answer.word("told")?;
                answer.word(told.len())
            }
            Err(refusal) => put_refusal(refusal, answer),
        }
    }

    /// The station, which is shared no longer: `entries` and their number. The readers are left.
    fn end(self, answer: &mut Answer) -> (Object<R>, Result<(), Unanswered>) {
        let entries = self.station.into_station().journal().len();
        let left = Left {
            journal: None,
            disk: None,
            first: self.first,
            second: self.second,
        };
        let told = match answer.word("entries") {
            Ok(()) => answer.word(entries),
            refused => refused,
        };
        (Object::Left(left), told)
    }

    fn call(
        &mut self,
        alloc: Global,
        first: &[u8],
        words: &mut Words<'_>,
        answer: &mut Answer,
    ) -> Result<(), Unanswered> {
        match str::from_utf8(first) {
            Ok("tell") => self.tell(answer),
            Ok("read") => read_one(&mut self.first, &mut self.second, words, answer),
            Ok("wake") => {
                self.station.wake();
                answer.word("ok")
            }
            Ok("park") => {
                let site = words.site().ok_or(Unanswered::BadLine)?;
                match parking_to(&mut self.taps, site) {
                    Some(tap) => {
                        tap.park(&self.rt);
                        answer.word("woken")
                    }
                    None => answer.word("no link"),
                }
            }
            _ => call_stepping(alloc, self, first, words, answer),
        }
    }
}

/// A call of a shared station: `unshare`, or one that leaves it where it is. A `park` waits for a `wake` before it.
pub fn call_shared<R: Wait + Copy + Drop>(
    alloc: Global,
    shared: Shared<R>,
    words: &mut Words<'_>,
    answer: &mut Answer,
) -> (Object<R>, Result<(), Unanswered>) {
    match words.next_word() {
        None => (Object::Shared(shared), Err(Unanswered::BadLine)),
        Some(b"unshare") => shared.end(answer),
        Some(first) => {
            let mut shared = shared;
            let called = shared.call(alloc, first, words, answer);
            (Object::Shared(shared), called)
        }
    }
}
