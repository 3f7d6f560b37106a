//! Lines of a script, from a reader.

ghost use Rattle.std.specs.Prelude.{◌≡◌, ◌≢◌, true, false, IfOk, IfErr, IfSome, OnOk, Some};
ghost use Rattle.std.specs.Io.BufRead.{drop_through, strip_last};
ghost use Rattle.cmh_console.specs.declared.lines.LineFault.TheVariants.{Memory};
ghost use Rattle.cmh_console.specs.Lines.{IsLineFault, IsNextLine, Judges, JudgesAtEnd};

use crate::device::{Input, Piece};
use std::alloc::AllocFailed;
use std::io::BufRead;

/// How many bytes a line of a script may have, its end left out.
pub const MAX_LINE: usize = 1024;

/// What stands next in a script.
#[derive(Clone, Copy)]
pub enum NextLine<'a> {
    /// A line, without its end.
    Line(&'a [u8]),
    /// A line of more bytes than a line of a script may have.
    TooLong,
    /// The end of the script.
    End,
}

impl NextLine<'_> {
    pub fn is_end(self) -> bool
        ensures yes { result ≡ true → self.entry ≡ NextLine.End }
        ensures no { result ≡ false → self.entry ≢ NextLine.End }
    {
        match self {
            NextLine::End => true,
            NextLine::Line(_) | NextLine::TooLong => false,
        }
    }
}

/// Why no line could be read.
#[derive(Clone, Copy)]
pub enum LineFault {
    /// The reader failed, or the line has no end within 2^64 bytes.
    Input,
    /// Memory was refused.
    Memory,
}

impl<T: Drop> From<AllocFailed<T>> for LineFault {
    ghost from_gives = { λ _ e. e ≡ Memory };

    fn from(_e: AllocFailed<T>) -> LineFault {
        LineFault::Memory
    }
}

/// Drops a carriage return at the end of a line.
fn drop_return(line: &mut Vec<u8>)
    ensures { line.new.items ≡ strip_last 13 line.old.items }
{
    let len = line.len();
    if len > 0 && line[len - 1] == b'\r' {
        line.truncate(len - 1);
    }
}

/// Whether a line is within the limit.
fn judged(line: &[u8]) -> NextLine<'_>
    ensures { Judges line.now result }
{
    if line.len() > MAX_LINE {
        NextLine::TooLong
    } else {
        NextLine::Line(line)
    }
}

/// The same at the end of the script, where an empty line is none.
fn judged_at_end(line: &[u8]) -> NextLine<'_>
    ensures { JudgesAtEnd line.now result }
{
    if line.is_empty() {
        NextLine::End
    } else {
        judged(line)
    }
}

/// Reads the next line into the buffer, which it empties first.
///
/// A line ends with a line feed; one carriage return before it is dropped. The last line may lack its end. Of a line
/// that is too long the buffer keeps two bytes more than the limit: with a carriage return dropped it is too long still.
#[inline(always)]
pub fn read_line<'a, R: BufRead>(
    input: &mut Input<R>,
    buffer: &'a mut Vec<u8>,
) -> Result<NextLine<'a>, LineFault>
    // Where the reader tells its bytes, the line is the first of them.
    ensures line { IfOk result (λ next. IfSome input.old.left (λ bytes. IsNextLine bytes next)) }
    ensures rest { IfOk result (λ next. IfSome input.old.left
        (λ bytes. input.new.left ≡ Some (drop_through 10 bytes))) }
    ensures ok { OnOk result (input.new.has_failed ≡ input.old.has_failed) }
    ensures fault { IfErr result (IsLineFault input.old.left input.new.has_failed) }
{
    buffer.clear();
    for turn in 0..u64::MAX {
        match input.next_piece(buffer, MAX_LINE + 2)? {
            Piece::Unfed => {}
            Piece::Fed => {
                drop_return(buffer);
                return Ok(judged(buffer));
            }
            Piece::End => return Ok(judged_at_end(buffer)),
        }
    }
    Err(LineFault::Input)
}
