//! The segments that stand for an epoch in the folders of journals. Of a segment's file no more than its head is read.

ghost use Rattle.std.specs.Prelude.{◌≡◌, ◌++◌, List, Some, ℕ, IfOk, IfSome, map};
ghost use Rattle.std.specs.List.{All, AllZip};
ghost use Rattle.cmh_inputs.specs.Stored.{Stored};
ghost use Rattle.cmh_segment3.specs.Base.{IsBase};
ghost use Rattle.cmh_restore3.specs.Reading.{AreNamedHeads, BeginsWith, IsNamedHead};

use crate::fault::RestoreFault;
use cmh_inputs::{InputFile, Inputs, NotRead, begins_segment};
use cmh_segment3::{Head, read_head};
use cmh_wire3::Epoch;
use std::alloc::{AllocError, Global};

/// How many bytes stand before a base: the header, and how long the base is.
const BEFORE_BASE: u64 = 35;

/// Where its length begins.
const LENGTH_AT: usize = 31;

/// How many bytes the mark of a head has.
const MARK_LEN: u64 = 8;

/// Of each journal in the folders at the paths the head of the segment that stands for an epoch. Where none does, that of the
/// newest one.
pub fn heads_for<N: Inputs>(
    alloc: Global,
    inputs: &N,
    paths: &[&str],
    epoch: Epoch,
) -> Result<Vec<Head>, RestoreFault>
    ensures bases { IfOk result (λ heads. All (λ head. IsBase head.base) heads.items) }
    ensures named { IfOk result (λ heads. AreNamedHeads (N.holds inputs.now) (map (λ path. path.now) paths.now) heads.items) }
{
    let mut heads = Vec::new(alloc);
    for (i, path) in paths.iter().enumerate() {
        heads.push(head_for(alloc, inputs, *path, epoch, i + 1)?)?;
    }
    Ok(heads)
}

/// The head for the journal in the folder at a path, which is at this place in the command.
fn head_for<N: Inputs>(
    alloc: Global,
    inputs: &N,
    path: &str,
    epoch: Epoch,
    place: usize,
) -> Result<Head, RestoreFault>
    ensures base { IfOk result (λ head. IsBase head.base) }
    ensures named { IfOk result (λ head. IsNamedHead (N.holds inputs.now) path.now head) }
{
    let mut head = newest_head(alloc, inputs, path, place)?;
    for _ in 0..u32::MAX {
        if is_reached(epoch, &head) {
            return Ok(head);
        }
        head = head_before(alloc, inputs, path, &head, place)?;
    }
    Ok(head)
}

/// Whether none that stands for the epoch is before this segment.
fn is_reached(epoch: Epoch, head: &Head) -> bool {
    head.header.before < epoch || head.header.epoch.get() == 0
}

/// The head of the newest segment in the folder at a path.
fn newest_head<N: Inputs>(
    alloc: Global,
    inputs: &N,
    path: &str,
    place: usize,
) -> Result<Head, RestoreFault>
    ensures base { IfOk result (λ head. IsBase head.base) }
    ensures named { IfOk result (λ head. IsNamedHead (N.holds inputs.now) path.now head) }
{
    match read_front(alloc, inputs, path) {
        Ok(Some(head)) => Ok(head),
        Ok(None) => Err(RestoreFault::NoSegment(place)),
        Err(NotRead::Refused) => Err(RestoreFault::Unread(place)),
        Err(NotRead::Memory) => Err(RestoreFault::Memory),
    }
}

/// The head of the segment that stands before this one in the folder at a path.
fn head_before<N: Inputs>(
    alloc: Global,
    inputs: &N,
    path: &str,
    next: &Head,
    place: usize,
) -> Result<Head, RestoreFault>
    ensures base { IfOk result (λ head. IsBase head.base) }
    ensures named { IfOk result (λ head. IsNamedHead (N.holds inputs.now) path.now head) }
{
    let file = path_of(alloc, path, next.header.before)?;
    let head = match read_front(alloc, inputs, file.as_str()) {
        Ok(Some(head)) => head,
        Ok(None) => return Err(RestoreFault::NoSegment(place)),
        Err(NotRead::Refused) => return Err(RestoreFault::Gap),
        Err(NotRead::Memory) => return Err(RestoreFault::Memory),
    };
    if head.header.site != next.header.site
        || head.header.world != next.header.world
        || head.header.epoch != next.header.before
    {
        return Err(RestoreFault::Gap);
    }
    Ok(head)
}

/// The path of the segment of an epoch in the folder at a path.
fn path_of(alloc: Global, path: &str, epoch: Epoch) -> Result<String, AllocError>
    ensures { IfOk result (λ text. (name : List ℕ) × (text.bytes.items ≡ path.now ++ name)) }
{
    let number = epoch.get();
    let mut text = String::new(alloc);
    text.push_str(path)?;
    write!(text, "/{number:010}.cmhj")?;
    Ok(text)
}

/// The head at the front of the file of a journal; none where no head with its mark begins it.
fn read_front<N: Inputs>(alloc: Global, inputs: &N, path: &str) -> Result<Option<Head>, NotRead>
    ensures base { IfOk result (λ found. IfSome found (λ head. IsBase head.base)) }
    ensures named { IfOk result (λ found. IfSome found (λ head. (stored : Stored) → N.holds inputs.now ≡ Some stored
        → (file : List ℕ) × (stored.journals path.now ≡ Some file) × BeginsWith file head)) }
{
    let mut file = inputs.open_journal(path)?;
    read_head_of(alloc, &mut file)
}

/// The head at the front of a file.
fn read_head_of<F: InputFile>(alloc: Global, file: &mut F) -> Result<Option<Head>, NotRead>
    ensures base { IfOk result (λ found. IfSome found (λ head. IsBase head.base)) }
    ensures begins { IfOk result (λ found. IfSome found (λ head. (whole : List ℕ) → F.left file.old ≡ Some whole
        → BeginsWith whole head)) }
{
    let mut bytes = Vec::new(alloc);
    file.read_up_to(BEFORE_BASE, &mut bytes)?;
    let Some(length) = base_length(&bytes) else {
        return Ok(None);
    };
    file.read_up_to(u64::from(length) + MARK_LEN, &mut bytes)?;
    let head = head_in(alloc, &bytes)?;
    Ok(head)
}

/// How long the base is of the segment that these bytes begin. None where they begin none.
fn base_length(bytes: &[u8]) -> Option<u32> {
    if !begins_segment(bytes) {
        return None;
    }
    match bytes.get(LENGTH_AT..) {
        Some([a, b, c, d]) => Some(u32::from_be_bytes([*a, *b, *c, *d])),
        _ => None,
    }
}

/// The head at the front of bytes.
fn head_in(alloc: Global, bytes: &[u8]) -> Result<Option<Head>, AllocError>
    ensures base { IfOk result (λ found. IfSome found (λ head. IsBase head.base)) }
    ensures begins { IfOk result (λ found. IfSome found (λ head. BeginsWith bytes.now head)) }
{
    match read_head(alloc, bytes)? {
        Some((head, _)) => Ok(Some(head)),
        None => Ok(None),
    }
}
