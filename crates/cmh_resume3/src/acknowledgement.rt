//! What a receiver says on a link after its answer.

ghost use Rattle.std.specs.Prelude.{◌≡◌, ◌<◌, ◌∷◌, length, IfNone, IfSome};
ghost use Rattle.byteorder.specs.Endian.{big_bytes};
ghost use Rattle.cmh_wire3.specs.Fronts.{Begins};
ghost use Rattle.cmh_resume3.specs.Inner.Parts.{count_with_epoch};
ghost use Rattle.cmh_resume3.specs.Stream.{IsAcknowledgement, IsAcknowledgementFront, acknowledgement_spelling};

use byteorder::{BigEndian, ByteOrder};
use cmh_wire3::{Cursor, Epoch};

/// How many frames of a link the receiver has in its journal, all synced, and its epoch.
#[derive(Clone, Copy)]
pub struct Acknowledgement {
    pub count: u64,
    pub epoch: Epoch,
}

/// What bytes begin with that a sender gets after the answer.
#[derive(Clone, Copy)]
pub enum AcknowledgementFront {
    /// An acknowledgement: its 13 bytes.
    Whole(Acknowledgement),
    /// Fewer bytes than one has.
    Short,
    /// None, however the bytes go on.
    Bad,
}

/// The first byte of an acknowledgement.
const KIND: u8 = 6;

impl Acknowledgement {
    /// How many bytes an acknowledgement has.
    pub const LEN: usize = 13;

    /// The one spelling of the acknowledgement.
    pub fn spell(&self) -> [u8; Acknowledgement::LEN]
        ensures { result ≡ acknowledgement_spelling self.now }
    {
        let mut bytes = [0; Acknowledgement::LEN];
        bytes[0] = KIND;
        BigEndian::write_u64(&mut bytes[1..9], self.count);
        BigEndian::write_u32(&mut bytes[9..13], self.epoch.get());
        bytes
    }
}

/// What the bytes begin with. Bytes after an acknowledgement are not looked at.
pub fn decode_acknowledgement(bytes: &[u8]) -> AcknowledgementFront
    ensures { IsAcknowledgementFront bytes.now result }
{
    let mut cursor = Cursor::new(bytes);
    match cursor.byte() {
        None => AcknowledgementFront::Short,
        Some(KIND) => decode_behind(cursor.rest()),
        Some(_) => AcknowledgementFront::Bad,
    }
}

/// What the bytes of an acknowledgement begin with, from behind its first byte.
fn decode_behind(behind: &[u8]) -> AcknowledgementFront
    ensures { IsAcknowledgementFront (6 ∷ behind.now) result }
{
    let mut cursor = Cursor::new(behind);
    match read_behind(&mut cursor) {
        Some(acknowledgement) => AcknowledgementFront::Whole(acknowledgement),
        None => AcknowledgementFront::Short,
    }
}

/// What an acknowledgement says behind its first byte: None where fewer bytes are left.
fn read_behind(cursor: &mut Cursor<'_>) -> Option<Acknowledgement>
    ensures read { IfSome result (λ a. Begins IsAcknowledgement count_with_epoch cursor.old a cursor.new) }
    ensures none { IfNone result (length cursor.old < 12) }
{
    let count = cursor.piece(8)?;
    let epoch = cursor.u32()?;
    Some(Acknowledgement {
        count: long_of(count),
        epoch: Epoch::new(epoch),
    })
}

/// The number in eight bytes.
fn long_of(field: &[u8]) -> u64
    requires { length field.now ≡ 8 }
    ensures { field.now ≡ big_bytes 8 result }
{
    BigEndian::read_u64(field)
}
