//! Why no frame is read.

ghost use Rattle.std.specs.Prelude.{◌≡◌};
ghost use Rattle.cmh_reader.specs.Fault as spec;

use thiserror::Error;

/// Why a reader gives no frame.
#[derive(Clone, Copy, Debug, PartialEq, Eq, Error)]
pub enum ReadFault {
    /// The first six bytes are no hello of the reader's edition.
    #[error("bad hello")]
    BadHello,
    /// Where a frame should begin stand bytes that begin none. The number is the place of the first of them in the
    /// stream, the hello's first byte being at 0, or `u64::MAX` if it is greater.
    #[error("bad frame at byte {0}")]
    BadFrame(u64),
    /// The hello is of a site that the reader doesn't expect.
    #[error("hello of an unexpected site")]
    WrongSite,
    /// Memory was refused. The reader is as it was, but that it is starved from now on, and the piece may be fed again.
    #[error("out of memory")]
    Memory,
}

impl ReadFault {
    /// The number of the fault, 1 to 4.
    pub const fn number(&self) -> u8
        ensures { result ≡ spec.number_of self.now }
    {
        match self {
            ReadFault::BadHello => 1,
            ReadFault::BadFrame(_) => 2,
            ReadFault::WrongSite => 3,
            ReadFault::Memory => 4,
        }
    }
}
