//! Topologies, sinks and stations are made.

ghost use Rattle.std.specs.Prelude.{◌≡◌, ◌≤◌, IfOk};
ghost use Rattle.cmh_lab_stations.specs.Disks.{failures_of};

use crate::answer::{Answer, Unanswered};
use crate::core_station::open_core;
use crate::disk::Disk;
use crate::left::Left;
use crate::object::{Object, Objects, topology};
use crate::reading::{bytes_of, edition, number, rows, size};
use crate::station::{NewStation, open};
use crate::telling::put_refusal;
use cmh_console::Words;
use cmh_frames::Topology;
use cmh_journal::{FuseSink, MemSink, Sink};
use cmh_station::StationRefusal;
use std::alloc::Global;
use std::sync::Wait;

/// How many bytes an ample sink takes with no memory of its own.
const AMPLE: usize = 4096;

pub fn word<'a>(words: &mut Words<'a>) -> Result<&'a [u8], Unanswered> {
    words.next_word().ok_or(Unanswered::BadLine)
}

/// `topology NAME EDITION SITE:PROCESS,..`: `ok`, or `fault` and the number of the fault.
pub fn make_topology<R: Wait + Copy + Drop>(
    alloc: Global,
    objects: &mut Objects<R>,
    words: &mut Words<'_>,
    answer: &mut Answer,
) -> Result<(), Unanswered> {
    let name = word(words)?;
    let edition = edition(words)?;
    let rows = rows(alloc, words)?;
    match Topology::new(alloc, edition, &rows) {
        Ok(topology) => {
            objects.put(name, Object::Topology(topology))?;
            answer.word("ok")
        }
        Err(fault) => {
            let number = fault.number();
            answer.word("fault")?;
            answer.word(number)?;
            if number == 5 {
                Err(Unanswered::OutOfMemory)
            } else {
                Ok(())
            }
        }
    }
}

/// `bytes NAME BYTES`.
pub fn make_bytes<R: Wait + Copy + Drop>(
    alloc: Global,
    objects: &mut Objects<R>,
    words: &mut Words<'_>,
    answer: &mut Answer,
) -> Result<(), Unanswered> {
    let name = word(words)?;
    objects.put(name, Object::Bytes(bytes_of(alloc, words)?))?;
    answer.word("ok")
}

/// `ample`, `room BYTES`, `fuse CALLS` or `once CALLS`.
fn disk(alloc: Global, words: &mut Words<'_>) -> Result<Disk, Unanswered> {
    match words.next_word() {
        Some(b"ample") => Ok(Disk::Room(MemSink::new(alloc, None))),
        Some(b"room") => Ok(Disk::Room(MemSink::new(alloc, Some(number(words)?)))),
        Some(b"fuse") => Ok(Disk::Fuse(FuseSink::new(alloc, number(words)?))),
        Some(b"once") => Ok(Disk::Fuse(FuseSink::once(alloc, number(words)?))),
        _ => Err(Unanswered::BadLine),
    }
}

/// A sink of which no call has failed, as a station needs it, and which has its memory.
fn new_disk(alloc: Global, words: &mut Words<'_>) -> Result<Disk, Unanswered>
    ensures { IfOk result (λ disk. failures_of disk ≡ 0) }
{
    let mut disk = disk(alloc, words)?;
    disk.reserve(AMPLE)?;
    if disk.faults() == 0 {
        Ok(disk)
    } else {
        Err(Unanswered::BadLine)
    }
}

/// `readers COUNT`, at most 2, or nothing.
fn readers(words: &mut Words<'_>) -> Result<usize, Unanswered>
    ensures { IfOk result (λ count. count ≤ 2) }
{
    match words.next_word() {
        None => Ok(0),
        Some(b"readers") => {
            let count = size(words)?;
            if count > 2 {
                return Err(Unanswered::BadLine);
            }
            Ok(count)
        }
        Some(_) => Err(Unanswered::BadLine),
    }
}

/// Why a station was not made, and what its sink holds.
fn put_refused<R: Wait + Copy + Drop>(
    objects: &mut Objects<R>,
    name: &[u8],
    refused: (StationRefusal, Disk),
    answer: &mut Answer,
) -> Result<(), Unanswered> {
    let (refusal, disk) = refused;
    let told = put_refusal(refusal, answer);
    answer.word("holds")?;
    answer.bytes(disk.bytes())?;
    objects.put(name, Object::Left(Left::of_sink(disk)))?;
    told
}

/// `station NAME TOPOLOGY SITE DISK [readers COUNT]`: `ok`, or the refusal and what the sink holds.
pub fn make_station<R: Wait + Copy + Drop>(
    rt: R,
    alloc: Global,
    objects: &mut Objects<R>,
    words: &mut Words<'_>,
    answer: &mut Answer,
) -> Result<(), Unanswered> {
    let name = word(words)?;
    let of = word(words)?;
    let site = words.site().ok_or(Unanswered::BadLine)?;
    let disk = new_disk(alloc, words)?;
    let readers = readers(words)?;
    let wanted = NewStation {
        topology: topology(objects, of)?,
        site,
        disk,
        readers,
    };
    match open(rt, alloc, wanted) {
        Ok(opened) => {
            objects.put(name, Object::Station(opened))?;
            answer.word("ok")
        }
        Err(refused) => put_refused(objects, name, refused, answer),
    }
}

/// `core NAME TOPOLOGY SITE DISK`: the same with no board.
pub fn make_core<R: Wait + Copy + Drop>(
    alloc: Global,
    objects: &mut Objects<R>,
    words: &mut Words<'_>,
    answer: &mut Answer,
) -> Result<(), Unanswered> {
    let name = word(words)?;
    let of = word(words)?;
    let site = words.site().ok_or(Unanswered::BadLine)?;
    let disk = new_disk(alloc, words)?;
    match open_core(alloc, topology(objects, of)?, site, disk) {
        Ok(core) => {
            objects.put(name, Object::Core(core))?;
            answer.word("ok")
        }
        Err(refused) => put_refused(objects, name, refused, answer),
    }
}
