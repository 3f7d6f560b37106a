//! The objects of this laboratory.

use crate::answer::Unanswered;
use crate::carriers::Taking;
use crate::core_station::Core;
use crate::hands::{Frames, Hands};
use crate::left::Left;
use crate::shared::Shared;
use crate::slots::Slots;
use crate::station::Opened;
use cmh_carriers::{MemIncoming, Meter};
use cmh_frames::Topology;
use cmh_links::SharedLinks;
use std::sync::Wait;

/// What a name stands for.
#[derive(Drop)]
pub enum Object<R: Wait + Copy + Drop> {
    Topology(Topology),
    Bytes(Vec<u8>),
    Station(Opened<R>),
    Shared(Shared<R>),
    Left(Left),
    Core(Core),
    Incoming(MemIncoming),
    Outgoing(Taking),
    Hands(Hands),
    Frames(Frames),
    Links(SharedLinks),
    Meter(Meter),
}

pub type Objects<R> = Slots<Object<R>>;

/// The topology of a name.
pub fn topology<'a, R: Wait + Copy + Drop>(
    objects: &'a Objects<R>,
    name: &[u8],
) -> Result<&'a Topology, Unanswered> {
    match objects.get(name) {
        Some(Object::Topology(topology)) => Ok(topology),
        _ => Err(Unanswered::BadLine),
    }
}

/// The bytes of a name: those that a sink holds.
pub fn bytes<'a, R: Wait + Copy + Drop>(
    objects: &'a Objects<R>,
    name: &[u8],
) -> Result<&'a [u8], Unanswered> {
    match objects.get(name) {
        Some(Object::Bytes(bytes)) => Ok(bytes),
        Some(Object::Station(opened)) => Ok(opened.station.sink().bytes()),
        Some(Object::Core(core)) => Ok(core.lent.station.sink().bytes()),
        Some(Object::Left(left)) => match &left.disk {
            Some(disk) => Ok(disk.bytes()),
            None => Err(Unanswered::BadLine),
        },
        _ => Err(Unanswered::BadLine),
    }
}
