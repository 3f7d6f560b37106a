//! The files of the disk.

use crate::inputs::{InputFile, Inputs, NotRead};
use cmh_play3::newest_segment;
use std::alloc::AllocError;
use std::fs::Metadata;
use std::io::{ErrorKind, Read};
use std::rt::Files;
use std::{fs, io};

/// The files of the disk, of which nothing is told.
#[derive(Drop)]
pub struct Disk<'a, R: AllocGlobal + Files> {
    rt: &'a R,
}

impl<'a, R: AllocGlobal + Files> Disk<'a, R> {
    pub fn new(rt: &'a R) -> Disk<'a, R> {
        Disk { rt }
    }
}

impl<'a, R: AllocGlobal + Files> Inputs for Disk<'a, R> {
    ghost use Rattle.std.specs.Prelude.{None};

    type File = DiskFile<R::File>;

    ghost holds = { λ _. None };

    fn open(&self, path: &str) -> Result<DiskFile<R::File>, NotRead> {
        opened(fs::open(self.rt, path))
    }

    fn open_journal(&self, path: &str) -> Result<DiskFile<R::File>, NotRead> {
        match fs::metadata(self.rt, path) {
            Ok(found) if found.is_dir() => match newest_segment(self.rt, self.rt.alloc(), path) {
                Ok(Some(newest)) => opened(fs::open(self.rt, newest.as_str())),
                Ok(None) => Err(NotRead::Refused),
                Err(error) => Err(not_read(&error)),
            },
            Err(error) if error.kind() == ErrorKind::OutOfMemory => Err(NotRead::Memory),
            _ => opened(fs::open(self.rt, path)),
        }
    }

    fn len_of(&self, path: &str) -> Result<Option<u64>, AllocError> {
        match fs::metadata(self.rt, path) {
            Ok(found) if found.is_dir() => match newest_segment(self.rt, self.rt.alloc(), path) {
                Ok(Some(newest)) => len_in(fs::metadata(self.rt, newest.as_str())),
                Ok(None) => Ok(None),
                Err(error) => len_in(Err(error)),
            },
            found => len_in(found),
        }
    }
}

/// How long the file is that was looked at.
fn len_in(found: io::Result<Metadata>) -> Result<Option<u64>, AllocError> {
    match found {
        Ok(found) if found.is_file() => Ok(Some(found.len())),
        Err(error) if error.kind() == ErrorKind::OutOfMemory => Err(AllocError),
        _ => Ok(None),
    }
}

/// A file of the disk.
#[derive(Drop)]
pub struct DiskFile<F: Read + Drop> {
    file: F,
}

impl<F: Read + Drop> InputFile for DiskFile<F> {
    ghost use Rattle.std.specs.Prelude.{None};

    ghost left = { λ _. None };

    fn read_up_to(&mut self, most: u64, bytes: &mut Vec<u8>) -> Result<(), NotRead> {
        match self.file.by_ref().take(most).read_to_end(bytes) {
            Ok(_) => Ok(()),
            Err(error) => Err(not_read(&error)),
        }
    }
}

fn opened<F: Read + Drop>(file: io::Result<F>) -> Result<DiskFile<F>, NotRead> {
    match file {
        Ok(file) => Ok(DiskFile { file }),
        Err(error) => Err(not_read(&error)),
    }
}

fn not_read(error: &io::Error) -> NotRead {
    match error.kind() {
        ErrorKind::OutOfMemory => NotRead::Memory,
        _ => NotRead::Refused,
    }
}
