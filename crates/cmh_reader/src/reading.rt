//! Frames, as the pieces of a stream make them whole.

ghost use Rattle.std.specs.Prelude.{ℕ, ◌<◌, ◌++◌, List, [], length, IfOk, OnErr};
ghost use Rattle.cmh_frames.specs.Wire.{IsShort};
ghost use Rattle.cmh_frames.specs.declared.edition.Edition.{Edition};
ghost use Rattle.cmh_frames.specs.declared.frame.Frame.{Frame};
ghost use Rattle.cmh_reader.specs.Stream.{HasMore, Reads, IsPending};

use crate::standing::Standing;
use cmh_frames::{Edition, Frame, Front, HELLO_LEN, SiteId, Spelled, decode_front, decode_hello};
use std::alloc::{AllocError, Global};

/// The frames that a piece made whole, and what the stream has come to after it.
#[derive(Drop)]
pub struct Progress {
    pub frames: Vec<Frame>,
    pub standing: Standing,
}

/// Reads on after bytes of a hello that isn't whole.
pub fn greet(
    alloc: Global,
    edition: Edition,
    senders: &[SiteId],
    begun: &Spelled,
    piece: &[u8],
) -> Result<Progress, AllocError>
    requires { length begun.now < 6 }
    ensures reads { IfOk result (λ progress. (stream : List ℕ) (before : List Frame)
        → Reads edition senders.now stream before (Standing.Greeting begun.now)
        → Reads edition senders.now (stream ++ piece.now) (before ++ progress.frames.items) progress.standing) }
    ensures pending { IfOk result (λ progress. IsPending progress.standing) }
    ensures refused { OnErr result ((stream : List ℕ) (before : List Frame)
        → Reads edition senders.now stream before (Standing.Greeting begun.now)
        → HasMore edition senders.now (stream ++ piece.now) before) }
{
    let bytes = begun.joined(piece, HELLO_LEN);
    let frames = Vec::new(alloc);
    if bytes.len() < HELLO_LEN {
        return Ok(Progress {
            frames,
            standing: Standing::Greeting(bytes),
        });
    }
    let Some(sender) = decode_hello(edition, bytes.as_slice()) else {
        return Ok(Progress {
            frames,
            standing: Standing::NoHello,
        });
    };
    if !senders.contains(&sender) {
        return Ok(Progress {
            frames,
            standing: Standing::Stranger,
        });
    }
    let taken = HELLO_LEN - begun.len();
    read_frames(frames, sender, HELLO_LEN as u64, &piece[taken..])
}

/// Reads on after bytes of a frame that isn't whole.
pub fn read_on(
    alloc: Global,
    sender: SiteId,
    begun: &Spelled,
    offset: u64,
    piece: &[u8],
) -> Result<Progress, AllocError>
    requires { IsShort begun.now }
    ensures reads { IfOk result (λ progress. (edition : Edition) (senders stream : List ℕ) (before : List Frame)
        → Reads edition senders stream before (Standing.Open sender begun.now offset)
        → Reads edition senders (stream ++ piece.now) (before ++ progress.frames.items) progress.standing) }
    ensures pending { IfOk result (λ progress. IsPending progress.standing) }
    ensures refused { OnErr result ((edition : Edition) (senders stream : List ℕ) (before : List Frame)
        → Reads edition senders stream before (Standing.Open sender begun.now offset)
        → HasMore edition senders (stream ++ piece.now) before) }
{
    let bytes = begun.joined(piece, Spelled::MAX_LEN);
    let mut frames = Vec::new(alloc);
    match decode_front(bytes.as_slice()) {
        Front::Whole(frame, len) => {
            frames.push(frame)?;
            let taken = len - begun.len();
            read_frames(
                frames,
                sender,
                offset.saturating_add(len as u64),
                &piece[taken..],
            )
        }
        Front::Short => Ok(Progress {
            frames,
            standing: Standing::Open {
                sender,
                rest: bytes,
                offset,
            },
        }),
        Front::Bad => Ok(Progress {
            frames,
            standing: Standing::Broken { sender, offset },
        }),
    }
}

/// Reads on after whole frames, the last of which are given.
fn read_frames(
    mut frames: Vec<Frame>,
    sender: SiteId,
    offset: u64,
    bytes: &[u8],
) -> Result<Progress, AllocError>
    ensures reads { IfOk result (λ progress. (edition : Edition) (senders stream : List ℕ) (before : List Frame)
        → Reads edition senders stream (before ++ frames.items) (Standing.Open sender [] offset)
        → Reads edition senders (stream ++ bytes.now) (before ++ progress.frames.items) progress.standing) }
    ensures pending { IfOk result (λ progress. IsPending progress.standing) }
    ensures refused { OnErr result ((edition : Edition) (senders stream : List ℕ) (before : List Frame)
        → Reads edition senders stream (before ++ frames.items) (Standing.Open sender [] offset)
        → HasMore edition senders (stream ++ bytes.now) before) }
{
    let mut used = 0;
    loop {
        match decode_front(&bytes[used..]) {
            Front::Whole(frame, len) => {
                frames.push(frame)?;
                used += len;
            }
            Front::Short => {
                return Ok(Progress {
                    frames,
                    standing: Standing::Open {
                        sender,
                        rest: Spelled::new().joined(&bytes[used..], Spelled::MAX_LEN),
                        offset: offset.saturating_add(used as u64),
                    },
                });
            }
            Front::Bad => {
                return Ok(Progress {
                    frames,
                    standing: Standing::Broken {
                        sender,
                        offset: offset.saturating_add(used as u64),
                    },
                });
            }
        }
    }
}
