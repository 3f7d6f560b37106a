//! Lines of a script of edition 3, from a reader. They may be longer than those of editions 1 and 2, since an ask may name
//! more processes.

ghost use Rattle.std.specs.Prelude.{◌≡◌, IfOk, IfErr, IfSome, OnOk, Some};
ghost use Rattle.std.specs.Io.BufRead.{drop_through, strip_last};
ghost use Rattle.cmh_console.specs.Lines.{IsLineFault};
ghost use Rattle.cmh_script3.specs.Lines.{IsNextLine, Judges, JudgesAtEnd};

use cmh_console::{Input, LineFault, NextLine, Piece};
use std::io::BufRead;

/// How many bytes a line of a script may have, its end left out.
pub const MAX_LINE: usize = 4096;

/// Drops a carriage return at the end of a line.
fn drop_return(line: &mut Vec<u8>)
    ensures { line.new.items ≡ strip_last 13 line.old.items }
{
    let len = line.len();
    if len > 0 && line[len - 1] == b'\r' {
        line.truncate(len - 1);
    }
}

/// Whether a line is within the limit.
fn judged(line: &[u8]) -> NextLine<'_>
    ensures { Judges line.now result }
{
    if line.len() > MAX_LINE {
        NextLine::TooLong
    } else {
        NextLine::Line(line)
    }
}

/// The same at the end of the script, where an empty line is none.
fn judged_at_end(line: &[u8]) -> NextLine<'_>
    ensures { JudgesAtEnd line.now result }
{
    if line.is_empty() {
        NextLine::End
    } else {
        judged(line)
    }
}

/// Reads the next line into the buffer, which it empties first.
///
/// A line ends with a line feed; one carriage return before it is dropped. The last line may lack its end. Of a line
/// that is too long the buffer keeps two bytes more than the limit: with a carriage return dropped it is too long still.
#[inline(always)]
pub fn read_line<'a, R: BufRead>(
    input: &mut Input<R>,
    buffer: &'a mut Vec<u8>,
) -> Result<NextLine<'a>, LineFault>
    // Where the reader tells its bytes, the line is the first of them.
    ensures line { IfOk result (λ next. IfSome input.old.left (λ bytes. IsNextLine bytes next)) }
    ensures rest { IfOk result (λ next. IfSome input.old.left
        (λ bytes. input.new.left ≡ Some (drop_through 10 bytes))) }
    ensures ok { OnOk result (input.new.has_failed ≡ input.old.has_failed) }
    ensures fault { IfErr result (IsLineFault input.old.left input.new.has_failed) }
{
    buffer.clear();
    for turn in 0..u64::MAX {
        match input.next_piece(buffer, MAX_LINE + 2)? {
            Piece::Unfed => {}
            Piece::Fed => {
                drop_return(buffer);
                return Ok(judged(buffer));
            }
            Piece::End => return Ok(judged_at_end(buffer)),
        }
    }
    Err(LineFault::Input)
}
