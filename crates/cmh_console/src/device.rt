//! What a command reads from and writes to, and whether that failed.

ghost use Rattle.std.specs.Prelude.{◌≡◌, ◌-◌, ◌<◌, ◌≤◌, true, false, IfOk, IfErr, IfSome, OnOk, OnErr, length, take, get_or};
ghost use Rattle.std.specs.Fmt.{with_newline};
ghost use Rattle.std.specs.Io.KnownBytes.{Appends, Keeps};
ghost use Rattle.cmh_console.specs.Lines.{IsPiece, IsTakenOff, NoFeed};

use crate::lines::LineFault;
use arrayvec::ArrayString;
use memchr::{memchr, memrchr};
use std::fmt::Write as _;
use std::io::{BufRead, BufReader, ErrorKind, Read, Write};
use std::marker::Model;
use std::{fmt, io};

/// The writer failed.
#[derive(Clone, Copy)]
pub struct WriteFault;

/// A reader that tells which bytes it has read ahead: reads give them without waiting.
pub trait Ahead {
    fn ahead(&self) -> &[u8];
}

impl<R: Read> Ahead for BufReader<R> {
    fn ahead(&self) -> &[u8] {
        self.buffer()
    }
}

impl Ahead for &[u8] {
    fn ahead(&self) -> &[u8] {
        self
    }
}

/// How far the bytes went that were read at once.
#[derive(Clone, Copy)]
pub enum Piece {
    /// Through a line feed.
    Fed,
    /// To the end of what stood ready, which has no line feed.
    Unfed,
    /// The script has no byte left.
    End,
}

/// Why no piece was taken.
#[derive(Clone, Copy)]
enum PieceFault {
    /// A signal came; the read is made again.
    Interrupted,
    /// The reader failed.
    Failed,
    /// Memory was refused.
    Memory,
}

/// A reader of a script, and whether a call of it has failed. Only a call that failed sets that.
#[derive(Drop)]
pub struct Input<R: BufRead> {
    inner: R,
    has_failed: bool,
    /// How many of the bytes that were read ahead are known to end with a line feed.
    fed: usize,
}

impl<R: BufRead> Model for Input<R> {
    ghost use Rattle.cmh_console.specs.Device.{Reading};

    ghost Value = { Reading R };

    ghost view = { λ i. record {
      inner = i.inner;
      left = R.remaining i.inner;
      has_failed = i.has_failed;
      fed = i.fed;
    } };
}

impl<R: BufRead> Input<R> {
    pub fn new(inner: R) -> Self
        ensures inner { result.inner ≡ inner }
        ensures left { result.left ≡ R.remaining inner }
        ensures fresh { result.has_failed ≡ false }
    {
        Input {
            inner,
            has_failed: false,
            fed: 0,
        }
    }

    pub fn has_failed(&self) -> bool
        ensures { result ≡ self.now.has_failed }
    {
        self.has_failed
    }

    /// Reads on, at most to a line feed, and puts after the line what stands before it.
    ///
    /// The line grows to at most `most` bytes; what is over is read and left out. A read that a signal interrupted is
    /// made again.
    ///
    /// # Errors
    ///
    /// - [`LineFault::Input`]: the reader failed, or signals interrupted 2^64 - 1 reads.
    /// - [`LineFault::Memory`]: memory for the line was refused.
    #[inline(always)]
    pub fn next_piece(&mut self, line: &mut Vec<u8>, most: usize) -> Result<Piece, LineFault>
        ensures piece { IfOk result (λ piece. IfSome self.old.left
            (λ bytes. IsPiece most bytes line.old.items line.new.items piece self.new.left)) }
        ensures fed { OnOk result (IsTakenOff self.old.left self.new.left
            self.old.fed self.new.fed) }
        ensures ok { OnOk result (self.new.has_failed ≡ self.old.has_failed) }
        ensures err { IfErr result (λ fault. fault ≡ LineFault.Input → self.new.has_failed ≡ true) }
    {
        for turn in 0..u64::MAX {
            match take_piece(&mut self.inner, &mut self.fed, line, most) {
                Ok(piece) => return Ok(piece),
                Err(PieceFault::Interrupted) => {}
                Err(PieceFault::Memory) => return Err(LineFault::Memory),
                Err(PieceFault::Failed) => {
                    self.has_failed = true;
                    return Err(LineFault::Input);
                }
            }
        }
        self.has_failed = true;
        Err(LineFault::Input)
    }
}

impl<R: BufRead + Ahead> Input<R> {
    /// Whether a whole line can be read without waiting. It looks for the last line feed that was read ahead, so that it
    /// need not look again before each of the lines up to there.
    pub fn has_line(&mut self) -> bool
        ensures inner { self.new.inner ≡ self.old.inner }
        ensures left { self.new.left ≡ self.old.left }
        ensures has_failed { self.new.has_failed ≡ self.old.has_failed }
    {
        if self.fed == 0 {
            self.fed = fed_len(self.inner.ahead());
        }
        self.fed > 0
    }
}

/// How many bytes there are up to the last line feed.
#[cold]
#[inline(never)]
fn fed_len(bytes: &[u8]) -> usize
    ensures none { result ≡ 0 → NoFeed bytes.now }
    ensures some { 0 < result → get_or bytes.now (result - 1) 0 ≡ 10 }
{
    match memrchr(b'\n', bytes) {
        Some(at) => at + 1,
        None => 0,
    }
}

/// One read of a piece. What it takes is no longer ahead.
#[inline(always)]
fn take_piece<R: BufRead>(
    reader: &mut R,
    fed: &mut usize,
    line: &mut Vec<u8>,
    most: usize,
) -> Result<Piece, PieceFault>
    ensures piece { IfOk result (λ piece. IfSome (R.remaining reader.old)
        (λ bytes. IsPiece most bytes line.old.items line.new.items piece (R.remaining reader.new))) }
    ensures fed { OnOk result (IsTakenOff (R.remaining reader.old) (R.remaining reader.new) fed.old fed.new) }
    ensures unfed { OnErr result (fed.new ≡ fed.old) }
    ensures line { OnErr result (line.new.items ≡ line.old.items) }
    ensures reader { OnErr result (Keeps (R.remaining reader.old) (R.remaining reader.new)) }
{
    let bytes = match reader.fill_buf() {
        Ok(bytes) => bytes,
        Err(error) => return Err(fault_of(&error)),
    };
    let seen = feed_at(bytes);
    let is_fed = seen < bytes.len();
    let kept = seen.min(most.saturating_sub(line.len()));
    if line.extend_from_slice(&bytes[..kept]).is_err() {
        return Err(PieceFault::Memory);
    }
    if is_fed {
        reader.consume(seen + 1);
        *fed = fed.saturating_sub(seen + 1);
        return Ok(Piece::Fed);
    }
    reader.consume(seen);
    *fed = 0;
    if seen == 0 {
        Ok(Piece::End)
    } else {
        Ok(Piece::Unfed)
    }
}

fn fault_of(error: &io::Error) -> PieceFault {
    if error.kind() == ErrorKind::Interrupted {
        PieceFault::Interrupted
    } else {
        PieceFault::Failed
    }
}

/// How many bytes stand before the first line feed, or all of them.
fn feed_at(bytes: &[u8]) -> usize
    ensures within { result ≤ length bytes.now }
    ensures before { NoFeed (take result bytes.now) }
    ensures feed { result < length bytes.now → get_or bytes.now result 0 ≡ 10 }
{
    match memchr(b'\n', bytes) {
        Some(at) => at,
        None => bytes.len(),
    }
}

/// A writer, whether a call of it has failed, and whether nothing was written since it was flushed.
#[derive(Drop)]
pub struct Output<W: Write> {
    inner: W,
    has_failed: bool,
    is_flushed: bool,
}

impl<W: Write> Model for Output<W> {
    ghost use Rattle.cmh_console.specs.Device.{Writing};

    ghost Value = { Writing W };

    ghost view = { λ o. record {
      inner = o.inner;
      written = W.contents o.inner;
      has_failed = o.has_failed;
      is_flushed = o.is_flushed;
    } };
}

impl<W: Write> Output<W> {
    pub fn new(inner: W) -> Self
        ensures inner { result.inner ≡ inner }
        ensures written { result.written ≡ W.contents inner }
        ensures fresh { result.has_failed ≡ false }
    {
        Output {
            inner,
            has_failed: false,
            is_flushed: false,
        }
    }

    pub fn has_failed(&self) -> bool
        ensures { result ≡ self.now.has_failed }
    {
        self.has_failed
    }

    /// Writes all of the bytes.
    pub fn write_bytes(&mut self, bytes: &[u8]) -> Result<(), WriteFault>
        ensures bytes { OnOk result (Appends self.old.written self.new.written bytes.now) }
        ensures ok { OnOk result (self.new.has_failed ≡ self.old.has_failed) }
        ensures err { OnErr result (self.new.has_failed ≡ true) }
        ensures unflushed { self.new.is_flushed ≡ false }
    {
        self.is_flushed = false;
        match self.inner.write_all(bytes) {
            Ok(()) => Ok(()),
            Err(_) => {
                self.has_failed = true;
                Err(WriteFault)
            }
        }
    }

    /// Writes all of the text.
    pub fn write_text<T: fmt::Display + Drop>(&mut self, text: T) -> Result<(), WriteFault>
        ensures bytes { OnOk result (IfSome (T.output text) (Appends self.old.written
            self.new.written)) }
        ensures ok { OnOk result (self.new.has_failed ≡ self.old.has_failed) }
        ensures err { OnErr result (self.new.has_failed ≡ true) }
        ensures unflushed { self.new.is_flushed ≡ false }
    {
        self.is_flushed = false;
        match write_whole(&mut self.inner, text) {
            Ok(()) => Ok(()),
            Err(_) => {
                self.has_failed = true;
                Err(WriteFault)
            }
        }
    }

    /// Writes all of the text and a line feed.
    pub fn write_line<T: fmt::Display + Drop>(&mut self, text: T) -> Result<(), WriteFault>
        ensures bytes { OnOk result (IfSome (with_newline (T.output text))
            (Appends self.old.written self.new.written)) }
        ensures ok { OnOk result (self.new.has_failed ≡ self.old.has_failed) }
        ensures err { OnErr result (self.new.has_failed ≡ true) }
        ensures unflushed { self.new.is_flushed ≡ false }
    {
        self.is_flushed = false;
        match self.inner.writeln(text) {
            Ok(()) => Ok(()),
            Err(_) => {
                self.has_failed = true;
                Err(WriteFault)
            }
        }
    }

    pub fn flush(&mut self) -> Result<(), WriteFault>
        ensures bytes { Keeps self.old.written self.new.written }
        ensures ok { OnOk result (self.new.has_failed ≡ self.old.has_failed) }
        ensures flushed { OnOk result (self.new.is_flushed ≡ true) }
        ensures err { OnErr result (self.new.has_failed ≡ true) }
    {
        match self.inner.flush() {
            Ok(()) => {
                self.is_flushed = true;
                Ok(())
            }
            Err(_) => {
                self.has_failed = true;
                Err(WriteFault)
            }
        }
    }
}

/// The greatest length of a text that is put together first.
const SHORT: usize = 64;

/// Writes all of the text. One that is short is put together first, and takes one write.
fn write_whole<W: Write, T: fmt::Display + Drop>(writer: &mut W, text: T) -> io::Result<()>
    ensures { OnOk result (IfSome (T.output text) (Appends (W.contents writer.old) (W.contents writer.new))) }
{
    let mut short = ArrayString::<SHORT>::new();
    match short.write_fmt(&text) {
        Ok(()) => writer.write_all(short.as_str().as_bytes()),
        Err(_) => writer.write_fmt(text),
    }
}
