//! What stands first in the bytes that a client sent.

ghost use Rattle.std.specs.Prelude.{◌≡◌, ◌≤◌, drop, length};
ghost use Rattle.std.specs.Io.BufRead.{drop_through};
ghost use Rattle.cmh_client.specs.Lines.{HasFeed};
ghost use Rattle.cmh_client.specs.Nexts.{StandsFirst};

use memchr::memchr;

/// A client that sends more bytes than these without a line feed has said its last. No more is read from one of which more
/// bytes wait.
pub(crate) const MOST_HEARD: usize = 1 << 16;

/// What a client said next.
#[derive(Clone, Copy, PartialEq, Eq)]
pub enum Next<'a> {
    /// A line, with its line feed.
    Line(&'a [u8]),
    /// A part of a line, or nothing.
    Nothing,
    /// More than 65,536 bytes without a line feed.
    Endless,
}

/// What stands first in bytes.
pub(crate) fn first_of(bytes: &[u8]) -> Next<'_>
    ensures { StandsFirst bytes.now result }
{
    match memchr(b'\n', bytes) {
        Some(end) if end > MOST_HEARD => Next::Endless,
        Some(end) => Next::Line(&bytes[..end + 1]),
        None if bytes.len() > MOST_HEARD => Next::Endless,
        None => Next::Nothing,
    }
}

/// How many bytes the first line has, with its line feed.
pub(crate) fn first_len(bytes: &[u8]) -> usize
    requires { HasFeed bytes.now }
    ensures within { result ≤ length bytes.now }
    ensures rest { drop result bytes.now ≡ drop_through 10 bytes.now }
{
    match memchr(b'\n', bytes) {
        Some(end) => end + 1,
        None => bytes.len(),
    }
}
