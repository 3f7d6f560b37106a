//! What a receiver says to a hello.

ghost use Rattle.std.specs.Prelude.{◌≡◌, ◌∷◌, ◌++◌, OnOk};
ghost use Rattle.byteorder.specs.Endian.{big_bytes};
ghost use Rattle.cmh_wire3.specs.Fronts.{Reads};
ghost use Rattle.cmh_resume3.specs.Hello.{IsAnswer, IsReplyFront, answer_spelling, refusal_spelling};
ghost use Rattle.cmh_resume3.specs.Inner.Parts.{behind_title};

use crate::hello::{EDITION, Hello, TITLE, TITLE_LEN, put_places, read_places, read_title};
use crate::refusal::Refusal;
use cmh_wire3::{Cursor, Mark, put_u64};
use std::alloc::AllocError;

/// How many frames of a link the receiver has in its journal, all synced, and their mark.
#[derive(Clone, Copy)]
pub struct Answer {
    /// The receiver, as it speaks to the sender.
    pub hello: Hello,
    pub count: u64,
    pub mark: Mark,
}

/// What bytes begin with that a sender gets first.
#[derive(Clone, Copy)]
pub enum ReplyFront {
    /// An answer: its 44 bytes.
    Answered(Answer),
    /// A refusal: its 5 bytes.
    Refused(Refusal),
    /// Fewer bytes than what they begin has.
    Short,
    /// Neither, however the bytes go on.
    Bad,
}

/// What stands in the edition's place in a refusal.
const NONE: u8 = 0;

/// How many bytes a refusal in an answer's place has.
const REFUSAL_LEN: usize = 5;

impl Answer {
    /// How many bytes an answer has.
    pub const LEN: usize = 44;

    /// Puts the one spelling of the answer at the end of the bytes. After an error they may hold a part of it.
    pub fn put(&self, bytes: &mut Vec<u8>) -> Result<(), AllocError>
        ensures { OnOk result (bytes.new.items ≡ bytes.old.items ++ answer_spelling self.now) }
    {
        bytes.extend_from_slice(&TITLE)?;
        put_places(bytes, &self.hello)?;
        put_count(bytes, self.count, self.mark)
    }
}

/// A count and a mark.
fn put_count(bytes: &mut Vec<u8>, count: u64, mark: Mark) -> Result<(), AllocError>
    ensures { OnOk result (bytes.new.items ≡ bytes.old.items ++ (big_bytes 8 count ++ big_bytes 8 mark)) }
{
    put_u64(bytes, count)?;
    put_u64(bytes, mark.get())
}

/// The one spelling of a refusal in an answer's place.
pub fn spell_refusal(refusal: Refusal) -> [u8; REFUSAL_LEN]
    ensures { result ≡ refusal_spelling refusal }
{
    [b'C', b'M', b'H', NONE, refusal.number()]
}

/// What the bytes begin with. Bytes after an answer or a refusal are not looked at.
pub fn decode_reply(bytes: &[u8]) -> ReplyFront
    ensures { IsReplyFront bytes.now result }
{
    if bytes.len() < TITLE_LEN {
        return ReplyFront::Short;
    }
    let mut cursor = Cursor::new(bytes);
    match read_title(&mut cursor) {
        Some(EDITION) => decode_answer(cursor.rest()),
        Some(NONE) => decode_refusal(cursor.rest()),
        _ => ReplyFront::Bad,
    }
}

/// What the bytes of an answer begin with, from behind its title.
fn decode_answer(behind: &[u8]) -> ReplyFront
    ensures { IsReplyFront (67 ∷ 77 ∷ 72 ∷ 3 ∷ behind.now) result }
{
    if behind.len() < Answer::LEN - TITLE_LEN {
        return ReplyFront::Short;
    }
    let mut cursor = Cursor::new(behind);
    match read_answer(&mut cursor) {
        Some(answer) => ReplyFront::Answered(answer),
        None => ReplyFront::Bad,
    }
}

/// What an answer says behind its title.
fn read_answer(cursor: &mut Cursor<'_>) -> Option<Answer>
    ensures { Reads IsAnswer behind_title cursor.old cursor.new result }
{
    let Some(hello) = read_places(cursor) else {
        return None;
    };
    let Some(count) = cursor.u64() else {
        return None;
    };
    let Some(mark) = cursor.u64() else {
        return None;
    };
    Some(Answer {
        hello,
        count,
        mark: Mark::new(mark),
    })
}

/// What the bytes of a refusal begin with, from behind its title.
fn decode_refusal(behind: &[u8]) -> ReplyFront
    ensures { IsReplyFront (67 ∷ 77 ∷ 72 ∷ 0 ∷ behind.now) result }
{
    let mut cursor = Cursor::new(behind);
    let Some(number) = cursor.byte() else {
        return ReplyFront::Short;
    };
    match Refusal::from_number(number) {
        Some(refusal) => ReplyFront::Refused(refusal),
        None => ReplyFront::Bad,
    }
}
