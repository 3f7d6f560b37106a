//! The records of segments that an audit accepted, as they are read.

ghost use Rattle.std.specs.Prelude.{◌≡◌, Some, IfOk};
ghost use Rattle.cmh_inputs.specs.Stored.{Stored};
ghost use Rattle.cmh_archive3.specs.Reading.{IsFileAt, IsRecordedAt};

use crate::names::{record_path, record_text};
use crate::summary::Summary;
use cmh_inputs::{InputFile, Inputs, NotRead};
use std::alloc::{AllocError, Global};

/// Whether the record beside a segment says that an audit accepted it with its very mark. One that says anything else counts
/// as none. The only error is out of memory.
pub fn has_record<N: Inputs>(
    alloc: Global,
    inputs: &N,
    folder: &str,
    summary: Summary,
) -> Result<bool, AllocError>
    ensures { IfOk result (λ has. (stored : Stored) → N.holds inputs.now ≡ Some stored
        → IsRecordedAt stored folder.now summary has) }
{
    let path = record_path(alloc, folder, summary.header.epoch)?;
    let line = record_text(alloc, summary.mark)?;
    is_file(alloc, inputs, path.as_str(), line.as_str().as_bytes())
}

/// Whether the file at a path holds just these bytes. The only error is out of memory.
fn is_file<N: Inputs>(
    alloc: Global,
    inputs: &N,
    path: &str,
    bytes: &[u8],
) -> Result<bool, AllocError>
    ensures { IfOk result (λ is. (stored : Stored) → N.holds inputs.now ≡ Some stored
        → IsFileAt stored path.now bytes.now is) }
{
    let mut file = match inputs.open(path) {
        Ok(file) => file,
        Err(NotRead::Refused) => return Ok(false),
        Err(NotRead::Memory) => return Err(AllocError),
    };
    let mut read = Vec::new(alloc);
    match file.read_up_to(bytes.len() as u64 + 1, &mut read) {
        Ok(()) => Ok(read.as_slice() == bytes),
        Err(NotRead::Refused) => Ok(false),
        Err(NotRead::Memory) => Err(AllocError),
    }
}
