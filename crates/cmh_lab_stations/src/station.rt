//! Stations with their boards.

ghost use Rattle.std.specs.Prelude.{◌≡◌, ◌≤◌};
ghost use Rattle.std.specs.Option.{option_map};
ghost use Rattle.cmh_lab_stations.specs.Disks.{failures_of};

use crate::answer::{Answer, Unanswered};
use crate::disk::Disk;
use crate::left::Left;
use crate::object::Object;
use crate::questions::question;
use crate::reading::named;
use crate::shared::share;
use crate::stepping::{Stepping, Steps, call_stepping, look};
use crate::taps::take_from;
use crate::telling::{put_processes, put_refusal};
use cmh_console::Words;
use cmh_frames::{Event, Frame, Outcome, SiteId, Topology};
use cmh_station::{BoardReader, KeptBoard, LinkTap, Station, StationRefusal, Told};
use std::alloc::Global;
use std::marker::Model;
use std::sync::Wait;

/// A call of a station alone.
#[derive(Clone, Copy)]
enum Verb {
    Tell,
    Learn,
    Read,
    Taps,
}

const VERBS: [(&str, Verb); 4] = [
    ("tell", Verb::Tell),
    ("learn", Verb::Learn),
    ("read", Verb::Read),
    ("taps", Verb::Taps),
];

pub type Kept<R> = Station<Disk, KeptBoard<R>>;

/// A station, its taps, up to two readers of its board, and what it told last.
#[derive(Drop)]
pub struct Opened<R: Wait + Copy + Drop> {
    pub rt: R,
    pub station: Kept<R>,
    pub taps: Vec<LinkTap>,
    pub first: Option<BoardReader>,
    pub second: Option<BoardReader>,
    pub told: Option<Told>,
}

impl<R: Wait + Copy + Drop> Model for Opened<R> {
    ghost use Rattle.cmh_station.specs.Stations as spec;
    ghost use Rattle.cmh_lab_stations.specs.Pairs.{BelongTo};
    ghost use Rattle.cmh_lab_stations.specs.declared.disk.Disk.{Disk};

    ghost Value = { spec.Station Disk };

    ghost view = { λ s. s.station };

    ghost invariant = { λ s. BelongTo s.station s.taps.items s.first s.second s.told };
}

/// What a line says of a new station: its site, its sink, and how many readers its board has.
pub struct NewStation<'a> {
    pub topology: &'a Topology,
    pub site: SiteId,
    pub disk: Disk,
    pub readers: usize,
}

/// The station of a site, or the refusal and the sink.
pub fn open<R: Wait + Copy + Drop>(
    rt: R,
    alloc: Global,
    wanted: NewStation<'_>,
) -> Result<Opened<R>, (StationRefusal, Disk)>
    requires fresh { failures_of wanted.disk ≡ 0 }
    requires few { wanted.readers ≤ 2 }
{
    let NewStation {
        topology,
        site,
        disk,
        readers,
    } = wanted;
    let (station, taps, mut readers) = match Station::new(
        rt, alloc, topology, site, disk, readers,
    ) {
        Ok(made) => made,
        Err(refused) => return Err(refused),
    };
    let last = readers.pop();
    let (first, second) = match readers.pop() {
        Some(first) => (Some(first), last),
        None => (last, None),
    };
    Ok(Opened {
        rt,
        station,
        taps,
        first,
        second,
        told: None,
    })
}

impl<R: Wait + Copy + Drop> Stepping for Opened<R> {
    fn step(&mut self, event: &Event) -> Result<Outcome, StationRefusal> {
        self.station.step(&self.rt, event)
    }

    fn step_all(&mut self, events: &[Event]) -> Steps {
        self.station.step_all(&self.rt, events)
    }

    fn step_until(&mut self, events: &[Event]) -> Steps {
        self.station.step_until(&self.rt, events)
    }

    fn release(&mut self) {
        self.station.release();
    }

    fn take(&mut self, site: SiteId) -> Option<Option<Frame>> {
        take_from(&mut self.taps, site)
    }
}

/// What a reader reads: processes, or `gone` where the board is.
pub fn read(reader: &mut BoardReader, answer: &mut Answer) -> Result<(), Unanswered>
    ensures { reader.new.book ≡ reader.old.book }
{
    match reader.read() {
        Some(list) => put_processes(list.as_slice(), answer),
        None => answer.word("gone"),
    }
}

/// `read NUMBER`: what the first or the second reader reads.
pub fn read_one(
    first: &mut Option<BoardReader>,
    second: &mut Option<BoardReader>,
    words: &mut Words<'_>,
    answer: &mut Answer,
) -> Result<(), Unanswered>
    ensures first { option_map (λ r. r.book) first.new ≡ option_map (λ r. r.book) first.old }
    ensures second { option_map (λ r. r.book) second.new ≡ option_map (λ r. r.book) second.old }
{
    match (words.next_word(), first, second) {
        (Some(b"1"), Some(reader), _) => read(reader, answer),
        (Some(b"2"), _, Some(reader)) => read(reader, answer),
        _ => Err(Unanswered::BadLine),
    }
}

impl<R: Wait + Copy + Drop> Opened<R> {
    /// `tell`: how many processes the station tells.
    fn tell(&mut self, answer: &mut Answer) -> Result<(), Unanswered> {
        match self.station.tell(&self.rt) {
            Ok(told) => {
                let count = told.len();
                self.told = Some(told);
                answer.word("told")?;
                answer.word(count)
            }
            Err(refusal) => put_refusal(refusal, answer),
        }
    }

    /// `learn NUMBER`: that reader learns what was told last.
    fn learn(&mut self, words: &mut Words<'_>, answer: &mut Answer) -> Result<(), Unanswered> {
        match (
            words.next_word(),
            &self.told,
            &mut self.first,
            &mut self.second,
        ) {
            (Some(b"1"), Some(told), Some(reader), _) => reader.learn(told),
            (Some(b"2"), Some(told), _, Some(reader)) => reader.learn(told),
            _ => return Err(Unanswered::BadLine),
        }
        answer.word("ok")
    }

    /// Ends it: the journal, the sink and the readers are left.
    fn close(self) -> Left {
        let Opened {
            rt: _rt,
            station,
            taps,
            first,
            second,
            told: _told,
        } = self;
        let (journal, disk) = station.close(taps);
        Left {
            journal: Some(journal),
            disk: Some(disk),
            first,
            second,
        }
    }

    /// `read NUMBER`: what that reader reads.
    fn read(&mut self, words: &mut Words<'_>, answer: &mut Answer) -> Result<(), Unanswered> {
        read_one(&mut self.first, &mut self.second, words, answer)
    }

    /// `taps`: the sites of the taps, in their order.
    fn put_taps(&self, answer: &mut Answer) -> Result<(), Unanswered> {
        for tap in &self.taps {
            answer.word(tap.to())?;
        }
        Ok(())
    }

    /// A look at the journal or the sink, a question, or a step.
    fn look_or_step(
        &mut self,
        alloc: Global,
        first: &[u8],
        words: &mut Words<'_>,
        answer: &mut Answer,
    ) -> Result<(), Unanswered> {
        let station = &self.station;
        if look(
            station.journal(),
            station.is_sealed(),
            station.sink(),
            first,
            answer,
        )? {
            return Ok(());
        }
        if question(alloc, station, first, words, answer)? {
            return Ok(());
        }
        call_stepping(alloc, self, first, words, answer)
    }

    /// A call that leaves the station where it is: `tell`, `learn NUMBER`, `read NUMBER`, `taps`, or another one.
    fn call(
        &mut self,
        alloc: Global,
        first: &[u8],
        words: &mut Words<'_>,
        answer: &mut Answer,
    ) -> Result<(), Unanswered> {
        match named(&VERBS, first) {
            Some(Verb::Tell) => self.tell(answer),
            Some(Verb::Learn) => self.learn(words, answer),
            Some(Verb::Read) => self.read(words, answer),
            Some(Verb::Taps) => self.put_taps(answer),
            None => self.look_or_step(alloc, first, words, answer),
        }
    }
}

/// A call of a station: `close`, `drop`, `share`, or one that leaves it where it is.
pub fn call_station<R: Wait + Copy + Drop>(
    alloc: Global,
    opened: Opened<R>,
    words: &mut Words<'_>,
    answer: &mut Answer,
) -> (Object<R>, Result<(), Unanswered>) {
    let Some(first) = words.next_word() else {
        return (Object::Station(opened), Err(Unanswered::BadLine));
    };
    match str::from_utf8(first) {
        Ok("close") => {
            let left = opened.close();
            let told = left.tell(answer);
            (Object::Left(left), told)
        }
        Ok("drop") => {
            let left = Left {
                journal: None,
                disk: None,
                first: opened.first,
                second: opened.second,
            };
            (Object::Left(left), answer.word("ok"))
        }
        Ok("share") => share(alloc, opened, answer),
        _ => {
            let mut opened = opened;
            let called = opened.call(alloc, first, words, answer);
            (Object::Station(opened), called)
        }
    }
}
