//! What a stream has come to.

ghost use Rattle.std.specs.Prelude.{◌≡◌};
ghost use Rattle.cmh_reader.specs.Stream.{fault_of, sender_of, rest_of};

use crate::fault::ReadFault;
use cmh_frames::{SiteId, Spelled};

/// What a stream has come to.
#[derive(Drop)]
pub enum Standing {
    /// These bytes of a hello that isn't whole.
    Greeting(Spelled),
    /// Six bytes that are no hello.
    NoHello,
    /// The hello of a site that isn't expected.
    Stranger,
    /// A hello of `sender`, frames, and these bytes of a frame that isn't whole, whose first is at `offset`.
    Open {
        sender: SiteId,
        rest: Spelled,
        offset: u64,
    },
    /// A hello of `sender`, frames, and no frame at `offset`.
    Broken {
        sender: SiteId,
        offset: u64,
    },
}

impl Standing {
    /// The fault of the stream.
    pub fn fault(&self) -> Option<ReadFault>
        ensures { result ≡ fault_of self.now }
    {
        match self {
            Standing::NoHello => Some(ReadFault::BadHello),
            Standing::Stranger => Some(ReadFault::WrongSite),
            Standing::Broken { offset, .. } => Some(ReadFault::BadFrame(*offset)),
            Standing::Greeting(_) | Standing::Open { .. } => None,
        }
    }

    /// The site of its hello, once that was good.
    pub fn sender(&self) -> Option<SiteId>
        ensures { result ≡ sender_of self.now }
    {
        match self {
            Standing::Open { sender, .. } | Standing::Broken { sender, .. } => Some(*sender),
            Standing::Greeting(_) | Standing::NoHello | Standing::Stranger => None,
        }
    }

    /// The bytes that are kept for the next piece.
    pub fn rest(&self) -> &[u8]
        ensures { result.now ≡ rest_of self.now }
    {
        match self {
            Standing::Greeting(rest) | Standing::Open { rest, .. } => rest.as_slice(),
            Standing::NoHello | Standing::Stranger | Standing::Broken { .. } => &[],
        }
    }
}
