//! The standard input of a site as one more client of it, which is answered on standard output.

use crate::descriptor::Descriptor;
use crate::serve_fault::ServeFault;
use cmh_client::MOST_QUEUED;
use cmh_clients3::Talker;
use cmh_console::{Ahead, Input, LineFault, Output, Piece};
use mio::{Interest, Registry, Token};
use std::alloc::Global;
use std::io::{BufRead, Write};

/// Standard input and standard output.
pub(crate) const INPUT: Token = Token(2);

pub(crate) const OUTPUT: Token = Token(3);

/// How many pieces of lines are read in a turn, at most.
const MOST_PIECES: usize = 256;

/// How many bytes of a line are looked at: more than a line may have.
const MOST_LINE: usize = 4_200;

/// How many bytes are written at once: as many as a pipe takes without waiting, if it takes any.
const MOST_WRITTEN: usize = 4_096;

/// No line is read while so many bytes of answers wait.
const MOST_UNREAD: usize = 65_536;

/// The lines of standard input, and what is to be answered to them.
#[derive(Drop)]
pub(crate) struct Console {
    pub talker: Talker,
    input: Descriptor,
    output: Descriptor,
    /// What was read of the next line.
    line: Vec<u8>,
    has_ended: bool,
}

impl Console {
    pub fn new(alloc: Global, registry: &Registry) -> Console {
        Console {
            talker: Talker::new(alloc),
            input: Descriptor::new(registry, 0, INPUT, Interest::READABLE),
            output: Descriptor::new(registry, 1, OUTPUT, Interest::WRITABLE),
            line: Vec::new(alloc),
            has_ended: false,
        }
    }

    /// The system told that one of its descriptors is ready.
    pub fn ready(&mut self, token: Token) {
        if token == INPUT {
            self.input.ready();
        } else if token == OUTPUT {
            self.output.ready();
        }
    }

    /// Whether there is more to do at once.
    pub fn is_busy(&self) -> bool {
        (self.input.is_ready() && self.may_read())
            || self.talker.has_lines()
            || (self.output.is_ready() && !self.talker.to_say().is_empty())
            || self.is_over()
    }

    /// Whether more lines may be read.
    fn may_read(&self) -> bool {
        !self.has_ended
            && !self.talker.is_leaving()
            && self.talker.has_room()
            && self.talker.to_say().len() <= MOST_UNREAD
    }

    /// Whether its last line was taken, and all is answered and written.
    pub fn is_over(&self) -> bool {
        let has_said_all = (self.has_ended && !self.talker.has_lines()) || self.talker.is_leaving();
        has_said_all && self.talker.is_answered() && self.talker.to_say().is_empty()
    }

    /// Reads what can be read without waiting.
    pub fn read<I: BufRead + Ahead>(
        &mut self,
        input: &mut Input<I>,
        registry: &Registry,
    ) -> Result<(), ServeFault> {
        for _ in 0..MOST_PIECES {
            if !self.may_read() {
                break;
            }
            let has_line = input.has_line();
            if !has_line && !self.input.is_ready() {
                break;
            }
            let piece = match input.next_piece(&mut self.line, MOST_LINE) {
                Ok(piece) => piece,
                Err(LineFault::Input) => return Err(ServeFault::Input),
                Err(LineFault::Memory) => return Err(ServeFault::Memory),
            };
            if !has_line {
                self.input.used(registry);
            }
            self.take(piece)?;
        }
        if self.talker.is_broken() {
            return Err(ServeFault::Memory);
        }
        Ok(())
    }

    /// Hears a line once it is whole. The last one may lack its end; then a `0D` there belongs to it.
    fn take(&mut self, piece: Piece) -> Result<(), ServeFault> {
        match piece {
            Piece::Unfed => return Ok(()),
            Piece::Fed => {}
            Piece::End => {
                self.has_ended = true;
                if self.line.is_empty() {
                    return Ok(());
                }
                if self.line.ends_with(b"\r") {
                    self.line.push(b'\r')?;
                }
            }
        }
        self.line.push(b'\n')?;
        self.talker.hear(&self.line);
        self.line.clear();
        Ok(())
    }

    /// Writes what can be written without waiting.
    pub fn write<W: Write>(
        &mut self,
        out: &mut Output<W>,
        registry: &Registry,
    ) -> Result<(), ServeFault> {
        for _ in 0..MOST_PIECES {
            if !self.output.is_ready() || self.talker.to_say().is_empty() {
                break;
            }
            let waiting = self.talker.to_say();
            let count = waiting.len().min(MOST_WRITTEN);
            let (front, _) = waiting.split_at(count);
            if out.write_bytes(front).is_err() || out.flush().is_err() {
                return Err(ServeFault::Output);
            }
            self.talker.said(count);
            self.output.used(registry);
        }
        if self.talker.to_say().len() > MOST_QUEUED {
            return Err(ServeFault::Output);
        }
        Ok(())
    }
}
