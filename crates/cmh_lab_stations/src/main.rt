//! The laboratory of stations and links: each line of the input is a call of the library, and each answer a line.
//!
//! `cmh_lab_stations` reads its standard input to the end. `cmh_lab_stations busy` makes each call that takes no memory
//! (`still`) a hundred times more, so that a count of allocations shows whether it takes none.
#![tactic(auto)]

mod answer;
mod auditing;
mod carriers;
mod core_station;
mod disk;
mod hands;
mod lab;
mod left;
mod links;
mod making;
mod noting;
mod object;
mod questions;
mod reading;
mod shared;
mod slots;
mod station;
mod stepping;
mod taps;
mod telling;

use crate::answer::{Answer, Unanswered};
use crate::lab::{Lab, run_lab};
use crate::making::word;
use crate::object::{Object, Objects};
use crate::reading::named;
use cmh_console::{Input, Output, Words};
use std::alloc::Global;
use std::io::{BufReader, BufWriter};
use std::process::ExitCode;
use std::rt::Env;
use std::sync::Wait;
use std::{env, io};

/// How many times more a call that takes no memory is made.
const ROUNDS: u32 = 100;

/// A call whose line does not begin with the name of an object.
#[derive(Clone, Copy)]
enum Verb {
    Forget,
    Topology,
    Station,
    Core,
    Bytes,
    Audit,
    Incoming,
    Outgoing,
    Hands,
    Frames,
    Links,
    Reader,
    Writer,
    Note,
    Meter,
    Refusal,
}

const VERBS: [(&str, Verb); 16] = [
    ("forget", Verb::Forget),
    ("topology", Verb::Topology),
    ("station", Verb::Station),
    ("core", Verb::Core),
    ("bytes", Verb::Bytes),
    ("audit", Verb::Audit),
    ("incoming", Verb::Incoming),
    ("outgoing", Verb::Outgoing),
    ("hands", Verb::Hands),
    ("frames", Verb::Frames),
    ("links", Verb::Links),
    ("reader", Verb::Reader),
    ("writer", Verb::Writer),
    ("note", Verb::Note),
    ("meter", Verb::Meter),
    ("refusal", Verb::Refusal),
];

/// The calls of this laboratory, over the objects that lines have named.
#[derive(Drop)]
struct Stations<R: Wait + Copy + Drop> {
    rt: R,
    alloc: Global,
    objects: Objects<R>,
}

impl<R: Wait + Copy + Drop> Lab for Stations<R> {
    fn call(&mut self, words: &mut Words<'_>, answer: &mut Answer) -> Result<(), Unanswered> {
        let first = word(words)?;
        let Some(verb) = named(&VERBS, first) else {
            return self.call_object(first, words, answer);
        };
        let (rt, alloc, objects) = (self.rt, self.alloc, &mut self.objects);
        match verb {
            Verb::Forget => {
                objects.clear();
                answer.word("ok")
            }
            Verb::Topology => making::make_topology(alloc, objects, words, answer),
            Verb::Station => making::make_station(rt, alloc, objects, words, answer),
            Verb::Core => making::make_core(alloc, objects, words, answer),
            Verb::Bytes => making::make_bytes(alloc, objects, words, answer),
            Verb::Audit => auditing::audit_sinks(alloc, objects, words, answer),
            Verb::Incoming => carriers::make_incoming(alloc, objects, words, answer),
            Verb::Outgoing => carriers::make_outgoing(alloc, objects, words, answer),
            Verb::Hands => hands::make_hands(alloc, objects, words, answer),
            Verb::Frames => hands::make_frames(alloc, objects, words, answer),
            Verb::Links => links::make_links(alloc, objects, words, answer),
            Verb::Reader => links::read_link(rt, alloc, objects, words, answer),
            Verb::Writer => links::write_link(rt, objects, words, answer),
            Verb::Note => noting::tell_note(words, answer),
            Verb::Meter => noting::make_meter(objects, words, answer),
            Verb::Refusal => telling::tell_refusal(words, answer),
        }
    }
}

impl<R: Wait + Copy + Drop> Stations<R> {
    /// Makes a call of the object of this name.
    fn call_object(
        &mut self,
        name: &[u8],
        words: &mut Words<'_>,
        answer: &mut Answer,
    ) -> Result<(), Unanswered> {
        let Some(object) = self.objects.take(name) else {
            return Err(Unanswered::BadLine);
        };
        let (object, called) = call(self.rt, self.alloc, object, words, answer);
        self.objects.put(name, object)?;
        called
    }
}

/// A call of an object, and what it is then.
fn call<R: Wait + Copy + Drop>(
    rt: R,
    alloc: Global,
    object: Object<R>,
    words: &mut Words<'_>,
    answer: &mut Answer,
) -> (Object<R>, Result<(), Unanswered>) {
    match object {
        Object::Station(opened) => station::call_station(alloc, opened, words, answer),
        Object::Shared(shared) => shared::call_shared(alloc, shared, words, answer),
        Object::Left(mut left) => {
            let called = left.call(words, answer);
            (Object::Left(left), called)
        }
        Object::Core(mut core) => {
            let called = core.call(alloc, words, answer);
            (Object::Core(core), called)
        }
        Object::Incoming(mut incoming) => {
            let called = carriers::call_incoming(&mut incoming, words, answer);
            (Object::Incoming(incoming), called)
        }
        Object::Outgoing(mut taking) => {
            let called = taking.call(alloc, words, answer);
            (Object::Outgoing(taking), called)
        }
        Object::Hands(hands) => {
            let called = hands.call(answer);
            (Object::Hands(hands), called)
        }
        Object::Links(links) => {
            let called = links::call_links(&rt, &links, words, answer);
            (Object::Links(links), called)
        }
        Object::Meter(mut meter) => {
            let called = noting::call_meter(&mut meter, words, answer);
            (Object::Meter(meter), called)
        }
        Object::Topology(_) | Object::Bytes(_) | Object::Frames(_) => (
            object,
            Err(Unanswered::BadLine),
        ),
    }
}
/// The number of rounds that the command line asks for.
fn rounds<R: Env + AllocGlobal>(rt: &R) -> io::Result<u32> {
    for word in env::args(rt)? {
        if word.as_str() == "busy" {
            return Ok(ROUNDS);
        }
    }
    Ok(0)
}

/// The same, asked once more where memory was refused.
fn rounds_again<R: Env + AllocGlobal>(rt: &R) -> io::Result<u32> {
    match rounds(rt) {
        Err(_) => rounds(rt),
        rounds => rounds,
    }
}

fn main(rt: HostRuntime) -> io::Result<ExitCode> {
    let alloc = rt.alloc();
    let rounds = rounds_again(&rt)?;
    let input = match BufReader::new(alloc, rt.stdin()) {
        Err(_) => BufReader::new(alloc, rt.stdin())?,
        Ok(input) => input,
    };
    let out = match BufWriter::new(alloc, rt.stdout()) {
        Err(_) => BufWriter::new(alloc, rt.stdout())?,
        Ok(out) => out,
    };
    let mut lab = Stations {
        rt,
        alloc,
        objects: Objects::new(alloc)?,
    };
    run_lab(
        alloc,
        &mut lab,
        rounds,
        &mut Input::new(input),
        &mut Output::new(out),
    )?;
    Ok(ExitCode::SUCCESS)
}
