//! The loop of a writing thread.

ghost use Rattle.std.specs.Prelude.{◌≡◌, ℕ, ◌+◌, ◌-◌, ◌<◌, ◌≤◌, ◌^◌, Bool, List, [], ◌∷◌, ◌++◌, length, Option, OnOk, OnErr, IfSome, IfNone};
ghost use Rattle.arrayvec.specs.ArrayVec.{array_vec_len};
ghost use Rattle.cmh_frames.specs.Wire.{spelling};
ghost use Rattle.cmh_frames.specs.declared.frame.Frame.{Frame};
ghost use Rattle.cmh_journal.specs.Sink.{TookPart, known_and};
ghost use Rattle.cmh_links.specs.Writing.{Gathers, Gave, Wrote};

use arrayvec::ArrayVec;
use cmh_carriers::{IoFault, LinkFault, Outgoing};
use cmh_frames::{Edition, Frame, SiteId, encode, encode_hello};
use std::sync::Wait;

/// How many bytes are gathered for one write, at most.
const MOST_GATHERED: usize = 4096;

/// The greatest length of a frame.
const LONGEST_FRAME: usize = 7;

/// What a writing thread does next.
#[derive(Clone, Copy, PartialEq, Eq)]
pub enum Next {
    /// It writes a frame.
    Frame(Frame),
    /// It looks whether the other end of its connection is gone.
    Look,
    /// It ends.
    End,
}

/// Where a writing thread takes its frames from.
pub trait FrameSource {
    /// The frames that it gave, where it tells them.
    ghost given: { Self → Option (List Frame) };

    /// Whether it told its end.
    ghost is_over: { Self → Bool };

    /// The site that its frames go to.
    ghost link_to: { Self → ℕ };

    /// The next frame, for which it may wait, or what else is to be done.
    fn next(&mut self) -> Next
        ensures gave { Gave result (given self.old) (given self.new) (is_over self.new) }
        ensures link { link_to self.new ≡ link_to self.old };

    /// The next frame, if it is there already. It waits for nobody.
    fn try_next(&mut self) -> Option<Frame>
        ensures some { IfSome result (λ frame. given self.new ≡ known_and (given self.old) (frame ∷ [])) }
        ensures none { IfNone result (given self.new ≡ given self.old) }
        ensures link { link_to self.new ≡ link_to self.old };
}

/// Writes all the bytes, or a beginning of them where a write fails.
#[tactic(auto, using(cmh_journal::proofs::Telling::told_on, cmh_journal::proofs::Telling::took_on))]
fn write_whole<O: Outgoing>(out: &mut O, bytes: &[u8]) -> Result<(), IoFault>
    requires { O.failures out.old < 2 ^ 64 - 1 }
    ensures whole { OnOk result (O.taken out.new ≡ known_and (O.taken out.old) bytes.now) }
    ensures ok { OnOk result (O.failures out.new ≡ O.failures out.old) }
    ensures part { OnErr result (TookPart (O.taken out.old) bytes.now (O.taken out.new)) }
    ensures err { OnErr result (O.failures out.new ≡ O.failures out.old + 1) }
{
    let mut at = 0;
    while at < bytes.len() {
        let (_, rest) = bytes.split_at(at);
        let Ok(count) = out.write(rest) else {
            return Err(IoFault);
        };
        at += count;
    }
    Ok(())
}

/// Puts a frame's bytes after others.
#[tactic(auto, using(cmh_journal::proofs::WholeEntries::short_frame))]
fn put(bytes: &mut ArrayVec<u8, MOST_GATHERED>, frame: &Frame)
    requires { array_vec_len bytes.old + 7 ≤ 4096 }
    ensures items { bytes.new.items ≡ bytes.old.items ++ spelling frame.now }
    ensures longer { array_vec_len bytes.old < array_vec_len bytes.new }
{
    let spelled = encode(frame);
    let Ok(()) = bytes.try_extend_from_slice(spelled.as_slice()) else {
        unreachable!();
    };
}

/// The bytes of a frame and of those after it that are there, as many as there is room for.
#[tactic(auto, using(crate::proofs::Writes::gathers_first, crate::proofs::Writes::gathers_on, crate::proofs::Writes::gathers_same))]
fn gather<F: FrameSource>(source: &mut F, first: &Frame, bytes: &mut ArrayVec<u8, MOST_GATHERED>)
    ensures gathers { Gathers first.now (F.given source.old) (F.given source.new) bytes.new.items }
    ensures link { F.link_to source.new ≡ F.link_to source.old }
{
    bytes.clear();
    put(bytes, first);
    while bytes.remaining_capacity() >= LONGEST_FRAME {
        let Some(frame) = source.try_next() else {
            return;
        };
        put(bytes, &frame);
    }
}

#[tactic(auto, using(crate::proofs::Writes::ends))]
/// Writes the hello of a site and the frames of the source, until the source tells its end. Frames that are there
/// together are written together. The only fault is `Write`, of a write or a look that failed.
pub fn run_writer<R: Wait, O: Outgoing, F: FrameSource>(
    rt: &R,
    out: &mut O,
    edition: Edition,
    site: SiteId,
    source: &mut F,
) -> Option<LinkFault>
    requires faults { O.failures out.old < 2 ^ 64 - 1 }
    ensures wrote { Wrote edition site (F.given source.old) (F.given source.new) (F.is_over source.new)
        (O.taken out.old) (O.taken out.new)
        (O.failures out.old) (O.failures out.new) result }
    ensures link { F.link_to source.new ≡ F.link_to source.old }
{
    let hello = encode_hello(edition, site);
    if let Err(IoFault) = write_whole(out, &hello) {
        return Some(LinkFault::Write);
    }
    let mut bytes = ArrayVec::new();
    for _ in rt.forever() {
        match source.next() {
            Next::Frame(frame) => {
                gather(source, &frame, &mut bytes);
                if let Err(IoFault) = write_whole(out, bytes.as_slice()) {
                    return Some(LinkFault::Write);
                }
            }
            Next::Look => {
                if let Err(IoFault) = out.look() {
                    return Some(LinkFault::Write);
                }
            }
            Next::End => return None,
        }
    }
    unreachable!()
}
