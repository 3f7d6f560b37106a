//! What a sender says on a link after the answer.

ghost use Rattle.std.specs.Prelude.{◌≡◌, ◌∷◌, [], ◌++◌};
ghost use Rattle.byteorder.specs.Endian.{big_bytes};
ghost use Rattle.cmh_resume3.specs.Numbers.{mismatch_number};
ghost use Rattle.cmh_resume3.specs.Stream.{IsItemFront};

use crate::refusal::Mismatch;
use byteorder::{BigEndian, ByteOrder};
use cmh_model3::Message;
use cmh_wire3::{Cursor, Epoch, Front, decode_front};

/// What a sender says on a link after the answer.
#[derive(Clone, Copy)]
pub enum Item {
    /// A message, which counts.
    Message(Message),
    /// The sender's epoch, which does not count: the receiver turns to it where it is behind, and acknowledges.
    Note(Epoch),
    /// The sender goes on no more.
    Refused(Mismatch),
}

/// What bytes begin with that a receiver gets after the hello.
#[derive(Clone, Copy)]
pub enum ItemFront {
    /// An item, and how many bytes spell it.
    Whole(Item, usize),
    /// Fewer bytes than an item of their kind has.
    Short,
    /// No item, however the bytes go on.
    Bad,
}

/// The first byte of a refusal. Those of messages are 1 to 4.
const REFUSED: u8 = 0;

/// The first byte of a note.
const NOTE: u8 = 5;

const NOTE_LEN: usize = 5;

const REFUSED_LEN: usize = 2;

/// The one spelling of a note.
pub fn spell_note(epoch: Epoch) -> [u8; NOTE_LEN]
    ensures { result ≡ 5 ∷ big_bytes 4 epoch }
{
    let mut bytes = [0; NOTE_LEN];
    bytes[0] = NOTE;
    BigEndian::write_u32(&mut bytes[1..5], epoch.get());
    bytes
}

/// The one spelling of the refusal of a sender.
pub fn spell_mismatch(mismatch: Mismatch) -> [u8; REFUSED_LEN]
    ensures { result ≡ 0 ∷ mismatch_number mismatch ∷ [] }
{
    [REFUSED, mismatch.number()]
}

/// What the bytes begin with. Bytes after the first item are not looked at.
pub fn decode_item(bytes: &[u8]) -> ItemFront
    ensures { IsItemFront bytes.now result }
{
    let mut cursor = Cursor::new(bytes);
    match cursor.byte() {
        None => ItemFront::Short,
        Some(REFUSED) => decode_refused(cursor.rest()),
        Some(NOTE) => decode_note(cursor.rest()),
        Some(_) => match decode_front(bytes) {
            Front::Whole(message, count) => ItemFront::Whole(Item::Message(message), count),
            Front::Short => ItemFront::Short,
            Front::Bad => ItemFront::Bad,
        },
    }
}

/// What the bytes of a refusal begin with, from behind its first byte.
fn decode_refused(behind: &[u8]) -> ItemFront
    ensures { IsItemFront (0 ∷ behind.now) result }
{
    let mut cursor = Cursor::new(behind);
    let Some(number) = cursor.byte() else {
        return ItemFront::Short;
    };
    match Mismatch::from_number(number) {
        Some(mismatch) => ItemFront::Whole(Item::Refused(mismatch), REFUSED_LEN),
        None => ItemFront::Bad,
    }
}

/// What the bytes of a note begin with, from behind its first byte.
fn decode_note(behind: &[u8]) -> ItemFront
    ensures { IsItemFront (5 ∷ behind.now) result }
{
    let mut cursor = Cursor::new(behind);
    match cursor.u32() {
        Some(epoch) => ItemFront::Whole(Item::Note(Epoch::new(epoch)), NOTE_LEN),
        None => ItemFront::Short,
    }
}
