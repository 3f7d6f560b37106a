//! The messages that sites send to one another, as bytes.

ghost use Rattle.std.specs.Prelude.{◌≡◌, ◌≤◌, ◌↔◌, ◌∷◌, ◌++◌, length, IsTrue};
ghost use Rattle.byteorder.specs.Endian.{big_bytes};
ghost use Rattle.cmh_wire3.specs.Wire.{IsFront, IsShort, pair_spelling, spelling};

use crate::Cursor;
use byteorder::{BigEndian, ByteOrder};
use cmh_model3::{Frame, Message, ProcId, Stamp};
use std::marker::Model;

/// What bytes begin with.
#[derive(Clone, Copy)]
pub enum Front {
    /// A message, and how many bytes spell it.
    Whole(Message, usize),
    /// Fewer bytes than a message of their kind has.
    Short,
    /// No message, however the bytes go on.
    Bad,
}

/// The kind of a request: the kinds of frames are bytes from 1 to 4.
pub(crate) const REQUEST: u8 = 1;

pub(crate) const REPLY: u8 = 2;

pub(crate) const PROBE: u8 = 3;

pub(crate) const WITHDRAW: u8 = 4;

/// The length of a message whose frame is no probe.
const PAIR_LEN: usize = 13;

/// The length of a probe.
const PROBE_LEN: usize = 23;

/// What the bytes begin with. Bytes after the first message are not looked at.
pub fn decode_front(bytes: &[u8]) -> Front
    ensures { IsFront bytes.now result }
{
    if is_short(bytes) {
        return Front::Short;
    }
    let mut cursor = Cursor::new(bytes);
    match cursor.message() {
        Some(message) => Front::Whole(message, bytes.len() - cursor.len()),
        None => Front::Bad,
    }
}

/// Whether there are fewer bytes than a message of their kind has.
fn is_short(bytes: &[u8]) -> bool
    ensures { IsTrue result ↔ IsShort bytes.now }
{
    match bytes.first() {
        None => true,
        Some(&PROBE) => bytes.len() < PROBE_LEN,
        Some(&(REQUEST | REPLY | WITHDRAW)) => bytes.len() < PAIR_LEN,
        Some(_) => false,
    }
}

/// The bytes of a message: no more than 23.
#[derive(Drop)]
pub struct Spelled {
    bytes: [u8; PROBE_LEN],
    len: usize,
}

impl Model for Spelled {
    ghost use Rattle.std.specs.Prelude.{ℕ, ◌≤◌, List, take};

    ghost Value = { List ℕ };

    ghost view = { λ s. take s.len s.bytes };

    ghost invariant = { λ s. s.len ≤ 23 };
}

impl Spelled {
    pub fn as_slice(&self) -> &[u8]
        ensures value { result.now ≡ self.now }
        ensures few { length result.now ≤ 23 }
    {
        &self.bytes[..self.len]
    }
}

/// The one spelling of a message.
pub fn encode(message: &Message) -> Spelled
    ensures { result ≡ spelling message.now }
{
    let clock = message.clock;
    match message.frame {
        Frame::Request { asker, holder } => spell_pair(REQUEST, clock, asker, holder),
        Frame::Reply { holder, asker } => spell_pair(REPLY, clock, holder, asker),
        Frame::Withdraw { asker, holder } => spell_pair(WITHDRAW, clock, asker, holder),
        Frame::Probe {
            origin,
            stamp,
            from,
            to,
        } => spell_probe(clock, stamp, origin, from, to),
    }
}

/// A message whose frame names two processes.
fn spell_pair(kind: u8, clock: Stamp, first: ProcId, second: ProcId) -> Spelled
    ensures { result ≡ kind ∷ big_bytes 8 clock ++ pair_spelling (first, second) }
{
    let mut bytes = [0; PROBE_LEN];
    bytes[0] = kind;
    BigEndian::write_u64(&mut bytes[1..9], clock.get());
    BigEndian::write_u16(&mut bytes[9..11], first.get());
    BigEndian::write_u16(&mut bytes[11..13], second.get());
    Spelled {
        bytes,
        len: PAIR_LEN,
    }
}

/// A message whose frame is a probe.
fn spell_probe(clock: Stamp, stamp: Stamp, origin: ProcId, from: ProcId, to: ProcId) -> Spelled
    ensures { result ≡ 3 ∷ big_bytes 8 clock ++ (big_bytes 8 stamp ++ (big_bytes 2 origin ++ pair_spelling (from, to))) }
{
    let mut bytes = [0; PROBE_LEN];
    bytes[0] = PROBE;
    BigEndian::write_u64(&mut bytes[1..9], clock.get());
    BigEndian::write_u64(&mut bytes[9..17], stamp.get());
    BigEndian::write_u16(&mut bytes[17..19], origin.get());
    BigEndian::write_u16(&mut bytes[19..21], from.get());
    BigEndian::write_u16(&mut bytes[21..23], to.get());
    Spelled {
        bytes,
        len: PROBE_LEN,
    }
}
