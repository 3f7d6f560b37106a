//! The reader.

ghost use Rattle.std.specs.Prelude.{◌≡◌, ◌≢◌, ℕ, ◌++◌, List, [], true, Some, None, Err, IfOk, IfErr, MatchResult};
ghost use Rattle.cmh_frames.specs.declared.frame.Frame.{Frame};
ghost use Rattle.cmh_reader.specs.Stream.{HasMore, fault_of, sender_of, rest_of};
ghost use Rattle.cmh_reader.specs.Reader.{StandsFor, Takes, ExpectsSame, BeginsLink, fresh};

use crate::fault::ReadFault;
use crate::reading::{Progress, greet, read_on};
use crate::standing::Standing;
use cmh_frames::{Edition, Frame, SiteId, Spelled};
use std::alloc::Global;
use std::marker::Model;

/// A reader of what one site sends on one link.
#[derive(Drop)]
pub struct FrameReader {
    alloc: Global,
    edition: Edition,
    senders: Vec<SiteId>,
    standing: Standing,
    starved: bool,
}

impl Model for FrameReader {
    ghost use Rattle.cmh_reader.specs.Reader.{Reader};
    ghost use Rattle.cmh_reader.specs.Stream.{IsPending};

    ghost Value = { Reader };

    ghost view = { λ r. record {
      edition = r.edition;
      senders = r.senders.items;
      standing = r.standing;
      starved = r.starved;
    } };

    ghost invariant = { λ r. IsPending r.standing };
}

impl FrameReader {
    /// A reader of a link from one of the senders, which was fed nothing.
    pub fn new(alloc: Global, edition: Edition, senders: Vec<SiteId>) -> Self
        ensures value { result ≡ fresh edition senders.items }
        ensures stands { StandsFor result [] [] }
    {
        FrameReader {
            alloc,
            edition,
            senders,
            standing: Standing::Greeting(Spelled::new()),
            starved: false,
        }
    }

    /// Takes the next piece of the stream, and gives the frames that are whole by it. Where there are none and the
    /// stream has a fault, it gives that fault, as it does at each later call. After `Memory` the piece may be fed
    /// again.
    pub fn feed(&mut self, piece: &[u8]) -> Result<Vec<Frame>, ReadFault>
        // The frames are those of the stream so far past those of the stream before, however it was cut.
        ensures frames { IfOk result (λ given. Takes self.old self.new piece.now given.items) }
        ensures no_fault { IfOk result (λ given. given.items ≡ [] → fault_of self.new.standing ≡ None) }

        // A fault comes where no frame is new, and stays.
        ensures fault { IfErr result (λ fault. fault ≢ ReadFault.Memory → fault_of self.new.standing ≡ Some fault) }
        ensures no_frames { IfErr result (λ fault. fault ≢ ReadFault.Memory → Takes self.old self.new piece.now []) }
        ensures stays { (fault : ReadFault) → fault_of self.old.standing ≡ Some fault
            → (result ≡ Err fault) × (self.new ≡ self.old) }

        // Out of memory comes only where there are new frames, changes nothing, and leaves its mark.
        ensures wanted { result ≡ Err ReadFault.Memory → (stream : List ℕ) (frames : List Frame)
            → StandsFor self.old stream frames
            → HasMore self.old.edition self.old.senders (stream ++ piece.now) frames }
        ensures memory { result ≡ Err ReadFault.Memory → self.new ≡ record self.old { starved = true } }
        ensures fed { result ≢ Err ReadFault.Memory → self.new.starved ≡ self.old.starved }
        ensures kept { ExpectsSame self.old self.new }

        // What an expected site writes has no fault, and its frames come as they were sent.
        ensures link { (stream : List ℕ) (frames sent : List Frame) → StandsFor self.old stream frames
            → BeginsLink self.old.edition self.old.senders (stream ++ piece.now) sent
            → MatchResult result (λ given. (later : List Frame) × (frames ++ given.items ++ later ≡ sent))
            (λ fault. fault ≡ ReadFault.Memory) }
    {
        let progress = match &self.standing {
            Standing::NoHello => return Err(ReadFault::BadHello),
            Standing::Stranger => return Err(ReadFault::WrongSite),
            Standing::Broken { offset, .. } => return Err(ReadFault::BadFrame(*offset)),
            Standing::Greeting(begun) => greet(
                self.alloc,
                self.edition,
                &self.senders,
                begun,
                piece,
            ),
            Standing::Open {
                sender,
                rest,
                offset,
            } => read_on(self.alloc, *sender, rest, *offset, piece),
        };
        let Ok(Progress { frames, standing }) = progress else {
            self.starved = true;
            return Err(ReadFault::Memory);
        };
        self.standing = standing;
        if frames.is_empty() {
            if let Some(fault) = self.standing.fault() {
                return Err(fault);
            }
        }
        Ok(frames)
    }

    /// The bytes past the last whole frame, or of a hello that isn't whole. Empty after a fault.
    pub fn rest(&self) -> &[u8]
        ensures { result.now ≡ rest_of self.now.standing }
    {
        self.standing.rest()
    }

    /// The site of the hello, once a good one of a sender was read.
    pub fn sender(&self) -> Option<SiteId>
        ensures { result ≡ sender_of self.now.standing }
    {
        self.standing.sender()
    }

    /// Whether memory was ever refused to it.
    pub fn is_starved(&self) -> bool
        ensures { result ≡ self.now.starved }
    {
        self.starved
    }
}
