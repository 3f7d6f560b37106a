//! A reader of what one site sends on one link, whose frames are given as bytes.

ghost use Rattle.std.specs.Prelude.{◌≡◌, ◌+◌, ◌≤◌, [], ◌++◌, IfErr, IfOk, OnErr, drop, length};
ghost use Rattle.cmh_frames.specs.Wire.{spelled};
ghost use Rattle.cmh_reader.specs.Reader.{StandsFor, fresh};
ghost use Rattle.cmh_reader.specs.Stream.{sender_of};
ghost use Rattle.cmh_seat.specs.Inlet.{Gave, GaveNothing};

use cmh_frames::{Edition, Frame, SiteId, encode};
use cmh_reader::{FrameReader, ReadFault};
use std::alloc::Global;
use std::marker::Model;

/// How much longer than a piece the frames can be that it makes whole: a frame but for one byte.
pub const FRAME_LEFT: usize = 6;

/// Why an inlet gives no frames.
#[derive(Clone, Copy)]
pub enum InletFault {
    /// What was lent may be shorter than the frames: it has fewer bytes than the piece and six. The piece was not looked
    /// at.
    Short,
    /// The reader's fault. After `Memory` the piece may be fed again.
    Read(ReadFault),
}

/// A reader of a link from one of several senders.
#[derive(Drop)]
pub struct Inlet {
    reader: FrameReader,
}

impl Model for Inlet {
    ghost use Rattle.cmh_reader.specs.Reader.{Reader};
    ghost use Rattle.cmh_seat.specs.Inner.Fed.{WasFed};

    ghost Value = { Reader };

    ghost view = { λ i. i.reader };

    ghost invariant = { λ i. WasFed i.reader };
}

impl Inlet {
    /// A reader that was fed nothing.
    pub fn new(alloc: Global, edition: Edition, senders: Vec<SiteId>) -> Inlet
        ensures value { result ≡ fresh edition senders.items }
        ensures stands { StandsFor result [] [] }
    {
        Inlet {
            reader: FrameReader::new(alloc, edition, senders),
        }
    }

    /// Takes the next piece of the stream, however it was cut, and writes the frames that are whole by it, one after the
    /// other in their own spelling; answers how many bytes these are. Frames come before a fault, which is answered at
    /// each later call.
    pub fn feed(&mut self, piece: &[u8], out: &mut [u8]) -> Result<usize, InletFault>
        ensures gave { IfOk result (λ count. Gave self.old piece.now out.old out.new count self.new) }
        ensures fault { IfErr result (λ fault. GaveNothing self.old piece.now (length out.old) fault self.new) }
        ensures same { OnErr result (out.new ≡ out.old) }
    {
        if out.len() < piece.len() || out.len() - piece.len() < FRAME_LEFT {
            return Err(InletFault::Short);
        }
        let frames = match self.reader.feed(piece) {
            Ok(frames) => frames,
            Err(fault) => return Err(InletFault::Read(fault)),
        };
        Ok(put_frames(&frames, out))
    }

    /// The site of the hello, once a good one of a sender was read.
    pub fn sender(&self) -> Option<SiteId>
        ensures { result ≡ sender_of self.now.standing }
    {
        self.reader.sender()
    }
}

/// Writes frames one after the other; answers how many bytes these are.
fn put_frames(frames: &[Frame], out: &mut [u8]) -> usize
    requires { length (spelled frames.now) ≤ length out.old }
    ensures count { result ≡ length (spelled frames.now) }
    ensures bytes { out.new ≡ spelled frames.now ++ drop (length (spelled frames.now)) out.old }
{
    let mut at = 0;
    for frame in frames {
        let bytes = encode(frame);
        let end = at + bytes.len();
        out[at..end].copy_from_slice(bytes.as_slice());
        at = end;
    }
    at
}
