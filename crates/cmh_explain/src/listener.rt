//! Standard error, with an ear for the line of a fault.

use cmh_console::Output;
use std::alloc::Global;
use std::io;
use std::io::{Error, ErrorKind, Write};

/// Writes to standard error, and keeps what it wrote.
#[derive(Drop)]
pub struct Listener<'a, E: Write> {
    err: &'a mut Output<E>,
    heard: Vec<u8>,
}

impl<'a, E: Write> Listener<'a, E> {
    pub fn new(alloc: Global, err: &'a mut Output<E>) -> Self {
        Listener {
            err,
            heard: Vec::new(alloc),
        }
    }

    /// What was written.
    pub fn into_heard(self) -> Vec<u8> {
        self.heard
    }
}

impl<E: Write> Write for Listener<'_, E> {
    fn write(&mut self, bytes: &[u8]) -> io::Result<usize> {
        if self.err.write_bytes(bytes).is_err() {
            return Err(Error::from(ErrorKind::BrokenPipe));
        }
        // Where memory is refused, less is heard.
        let _ = self.heard.extend_from_slice(bytes);
        Ok(bytes.len())
    }

    fn flush(&mut self) -> io::Result<()> {
        if self.err.flush().is_err() {
            return Err(Error::from(ErrorKind::BrokenPipe));
        }
        Ok(())
    }
}
