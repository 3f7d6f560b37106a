//! The loop of a laboratory: a line, its call, its answer.

use crate::answer::{Answer, Unanswered};
use cmh_console::{Input, NextLine, Output, Words, read_line};
use std::alloc::Global;
use std::io;
use std::io::{BufRead, ErrorKind, Write};

/// The calls of a laboratory and its objects.
pub trait Lab: Drop {
    /// Makes the call that the words name, and adds its answer.
    fn call(&mut self, words: &mut Words<'_>, answer: &mut Answer) -> Result<(), Unanswered>;
}

/// How a call is made.
#[derive(Clone, Copy)]
enum Manner {
    Once,
    /// Once more where memory was refused.
    Again,
    /// So many times more, since it takes no memory.
    Still,
}

/// How a line has its call made, and the line without the word that says so.
fn manner_of(line: &[u8]) -> (Manner, &[u8]) {
    if line.starts_with(b"again ") {
        (Manner::Again, &line[6..])
    } else if line.starts_with(b"still ") {
        (Manner::Still, &line[6..])
    } else {
        (Manner::Once, line)
    }
}

/// Makes the call of a line once; the answer is its alone.
fn call_once<L: Lab>(lab: &mut L, line: &[u8], answer: &mut Answer) -> Result<(), Unanswered> {
    answer.clear();
    let mut words = Words::new(line);
    lab.call(&mut words, answer)
}

/// Makes the call of a line as it says; a call that takes no memory is made so many rounds more.
fn call_line<L: Lab>(
    lab: &mut L,
    line: &[u8],
    rounds: u32,
    answer: &mut Answer,
) -> Result<(), Unanswered> {
    let (manner, line) = manner_of(line);
    let called = call_once(lab, line, answer);
    match manner {
        Manner::Once => called,
        Manner::Again => match called {
            Err(Unanswered::OutOfMemory) => call_once(lab, line, answer),
            _ => called,
        },
        Manner::Still => {
            let mut last = called;
            for _ in 0..rounds {
                last = call_once(lab, line, answer);
            }
            last
        }
    }
}

/// Writes the answer to a line.
fn tell<W: Write>(
    called: Result<(), Unanswered>,
    answer: &Answer,
    out: &mut Output<W>,
) -> io::Result<()> {
    let told = match called {
        Ok(()) => out.write_line(answer.as_str()),
        Err(Unanswered::BadLine) => out.write_line("bad line"),
        Err(Unanswered::OutOfMemory) => {
            let text = answer.as_str();
            match out.write_text(text) {
                Ok(()) if text.is_empty() => out.write_line("out of memory"),
                Ok(()) => out.write_line(" out of memory"),
                fault => fault,
            }
        }
    };
    match told {
        Ok(()) => Ok(()),
        Err(_) => Err(io::Error::from(ErrorKind::Other)),
    }
}

/// Whether a line has no answer.
fn is_silent(line: &[u8]) -> bool {
    match line {
        [] | [b'#', ..] => true,
        _ => false,
    }
}

/// Reads lines and answers each, to the end of the input. Calls that take no memory are made so many rounds more.
pub fn run_lab<L: Lab, R: BufRead, W: Write>(
    alloc: Global,
    lab: &mut L,
    rounds: u32,
    input: &mut Input<R>,
    out: &mut Output<W>,
) -> io::Result<()> {
    let mut answer = Answer::new(alloc)?;
    let mut buffer = match Vec::with_capacity(alloc, 2048) {
        Ok(buffer) => buffer,
        Err(_) => Vec::with_capacity(alloc, 2048)?,
    };
    for _ in 0..u64::MAX {
        let line = match read_line(input, &mut buffer) {
            Ok(NextLine::End) => break,
            Ok(NextLine::Line(line)) => line,
            Ok(NextLine::TooLong) => b"too long".as_slice(),
            Err(_) => return Err(io::Error::from(ErrorKind::Other)),
        };
        if !is_silent(line) {
            let called = call_line(lab, line, rounds, &mut answer);
            tell(called, &answer, out)?;
        }
    }
    match out.flush() {
        Ok(()) => Ok(()),
        Err(_) => Err(io::Error::from(ErrorKind::Other)),
    }
}
