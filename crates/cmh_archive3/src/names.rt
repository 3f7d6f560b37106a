//! The names in the folder of a site's journal, and what a record says.

ghost use Rattle.std.specs.Prelude.{◌≡◌, string_bytes, IfOk};
ghost use Rattle.cmh_archive3.specs.Names as spec;

use cmh_wire3::{Epoch, Mark};
use std::alloc::{AllocError, Global};

/// The path of the segment of an epoch: ten digits and `.cmhj`.
pub fn segment_path(alloc: Global, folder: &str, epoch: Epoch) -> Result<String, AllocError>
    ensures { IfOk result (λ path. string_bytes path ≡ spec.segment_path folder.now epoch) }
{
    let number = epoch.get();
    let mut path = String::new(alloc);
    write!(path, "{folder}/{number:010}.cmhj")?;
    Ok(path)
}

/// The path of the record beside it: the same digits and `.audited`.
pub fn record_path(alloc: Global, folder: &str, epoch: Epoch) -> Result<String, AllocError>
    ensures { IfOk result (λ path. string_bytes path ≡ spec.record_path folder.now epoch) }
{
    let number = epoch.get();
    let mut path = String::new(alloc);
    write!(path, "{folder}/{number:010}.audited")?;
    Ok(path)
}

/// The line of a record: that an audit accepted the segment with this mark behind its last entry.
pub fn record_text(alloc: Global, mark: Mark) -> Result<String, AllocError>
    ensures { IfOk result (λ text. string_bytes text ≡ spec.record_text mark) }
{
    let number = mark.get();
    let mut text = String::new(alloc);
    write!(text, "accepted {number:016x}\n")?;
    Ok(text)
}
