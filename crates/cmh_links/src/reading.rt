//! The loop of a reading thread.

ghost use Rattle.std.specs.Prelude.{◌≡◌, ◌≢◌, ◌⊎◌, ℕ, ◌+◌, ◌-◌, ◌<◌, ◌^◌, ◌==◌, Bool, true, false, List, [], ◌∷◌, ◌++◌, Option, Some, None, OnOk, OnErr, IfSome, IfNone};
ghost use Rattle.std.specs.Option.{option_or};
ghost use Rattle.std.specs.Result.{result_err};
ghost use Rattle.cmh_frames.specs.declared.frame.Frame.{Frame};
ghost use Rattle.cmh_frames.specs.Runs.{IsBeginningOf};
ghost use Rattle.cmh_station.specs.declared.refusal.StationRefusal.{StationRefusal};
ghost use Rattle.cmh_journal.specs.Sink.{known_and};
ghost use Rattle.cmh_links.specs.Reading.{Faulted, FaultedBy, Goes, Stopped, end_of, from_site, link_fault_of};
ghost use Rattle.cmh_reader.specs.Reader.{ExpectsSame, StandsFor};
ghost use Rattle.cmh_reader.specs.Stream.{fault_of as stream_fault};

use cmh_carriers::{Incoming, LinkFault, SharedLinks};
use cmh_controller::Refusal;
use cmh_frames::{Frame, SiteId};
use cmh_reader::{FrameReader, ReadFault};
use cmh_station::StationRefusal;
use std::sync::Wait;

/// How many bytes are read at once, at most.
const MOST_READ: usize = 4096;

/// What takes the frames of a link.
pub trait Handover {
    /// The frames that it accepted, each with its site, where it tells them.
    ghost accepted: { Self → Option (List (ℕ × Frame)) };

    /// Its last refusal.
    ghost refused: { Self → Option StationRefusal };

    /// Takes a frame from a site, or refuses it. It may wait.
    fn hand(&mut self, from: SiteId, frame: Frame) -> Result<(), StationRefusal>
        ensures ok { OnOk result (accepted self.new ≡ known_and (accepted self.old) ((from, frame) ∷ [])) }
        ensures none { OnErr result (accepted self.new ≡ accepted self.old) }
        ensures last { refused self.new ≡ option_or (result_err result) (refused self.old) };

    /// Takes frames from a site in their order, up to the first that it refuses. It may wait.
    #[tactic(auto, using(crate::proofs::Known::known_steps, crate::proofs::Batches::handed_some))]
    fn hand_all(&mut self, from: SiteId, frames: &[Frame]) -> Result<(), StationRefusal>
        ensures ok { OnOk result (accepted self.new ≡ known_and (accepted self.old) (from_site from frames.now)) }
        ensures part { OnErr result ((got : List Frame) × IsBeginningOf got frames.now
            × (accepted self.new ≡ known_and (accepted self.old) (from_site from got))) }
        ensures some { OnErr result (frames.now ≢ []) }
        ensures last { refused self.new ≡ option_or (result_err result) (refused self.old) }
    {
        for frame in frames {
            self.hand(from, *frame)?;
        }
        Ok(())
    }
}

/// How reading a connection ended.
#[derive(Clone, Copy)]
pub enum ReaderEnd {
    /// No good hello of an expected site was read.
    NoLink,
    /// The link of the hello's site was not new.
    Refused(SiteId),
    Closed(SiteId, LinkFault),
}

const fn fault_of(refusal: StationRefusal) -> LinkFault
    ensures { result ≡ link_fault_of refusal }
{
    match refusal {
        StationRefusal::Rule(Refusal::Memory) => LinkFault::Memory,
        StationRefusal::Rule(_) => LinkFault::Bad,
        StationRefusal::Sealed | StationRefusal::Disk | StationRefusal::Full => LinkFault::Station,
    }
}

/// Closes the link from a site, if it is known.
fn closed<R: Wait>(rt: &R, links: &SharedLinks, from: Option<SiteId>, fault: LinkFault) -> ReaderEnd
    ensures { result ≡ end_of from fault }
{
    match from {
        None => ReaderEnd::NoLink,
        Some(site) => {
            links.lock(rt).close_in(site, fault);
            ReaderEnd::Closed(site, fault)
        }
    }
}

/// Whether the link from a site is this connection's; it is claimed where the site was not known before.
fn is_claimed<R: Wait>(rt: &R, links: &SharedLinks, before: Option<SiteId>, site: SiteId) -> bool
    ensures { result ≡ false → before ≡ None }
{
    match before {
        Some(_) => true,
        None => links.lock(rt).claim(site),
    }
}

/// The end of a connection whose bytes have a fault.
fn broken<R: Wait>(
    rt: &R,
    links: &SharedLinks,
    before: Option<SiteId>,
    sender: Option<SiteId>,
) -> ReaderEnd
    ensures { Faulted before sender result }
{
    if let Some(site) = sender {
        if !is_claimed(rt, links, before, site) {
            return ReaderEnd::Refused(site);
        }
    }
    closed(rt, links, sender, LinkFault::Bad)
}

/// The end of a connection at what its reader answered.
fn faulted<R: Wait>(
    rt: &R,
    links: &SharedLinks,
    before: Option<SiteId>,
    sender: Option<SiteId>,
    fault: ReadFault,
) -> ReaderEnd
    ensures { FaultedBy fault before sender result }
{
    match fault {
        ReadFault::Memory => closed(rt, links, before, LinkFault::Memory),
        ReadFault::BadHello => broken(rt, links, before, sender),
        ReadFault::WrongSite => broken(rt, links, before, sender),
        ReadFault::BadFrame(_) => broken(rt, links, before, sender),
    }
}

/// Feeds a piece and hands over what is new; gives the end, if there is one.
fn take_piece<R: Wait, H: Handover>(
    rt: &R,
    reader: &mut FrameReader,
    links: &SharedLinks,
    handover: &mut H,
    piece: &[u8],
) -> Option<ReaderEnd>
    ensures kept { ExpectsSame reader.old reader.new }
    ensures goes { IfNone result ((bs : List ℕ) (fs : List Frame) (a : Option (List (ℕ × Frame)))
        → Goes bs fs reader.old a (H.accepted handover.old) (H.refused handover.old) →
        (given : List Frame) × Goes (bs ++ piece.now) (fs ++ given) reader.new a (H.accepted handover.new)
        (H.refused handover.new)
        × (given ≡ [] → stream_fault reader.new.standing ≡ None)) }
    ensures stops { IfSome result (λ e. (bs : List ℕ) (fs : List Frame) (a : Option (List (ℕ × Frame)))
        → Goes bs fs reader.old a (H.accepted handover.old) (H.refused handover.old) →
        (over : Bool) (n m : ℕ) → Stopped e (bs ++ piece.now) reader.new a (H.accepted handover.new)
        (H.refused handover.new) over n m) }
{
    let before = reader.sender();
    let frames = match reader.feed(piece) {
        Ok(frames) => frames,
        Err(fault) => {
            return Some(faulted(rt, links, before, reader.sender(), fault));
        }
    };
    let site = match reader.sender() {
        Some(site) => site,
        None => return None,
    };
    if !is_claimed(rt, links, before, site) {
        return Some(ReaderEnd::Refused(site));
    }
    match handover.hand_all(site, frames.as_slice()) {
        Ok(()) => None,
        Err(refusal) => Some(closed(rt, links, Some(site), fault_of(refusal))),
    }
}

/// Takes a piece whose fault, if it has one, is answered before more is read; gives the end, if there is one.
fn take_whole<R: Wait, H: Handover>(
    rt: &R,
    reader: &mut FrameReader,
    links: &SharedLinks,
    handover: &mut H,
    piece: &[u8],
) -> Option<ReaderEnd>
    ensures kept { ExpectsSame reader.old reader.new }
    ensures goes { IfNone result ((bs : List ℕ) (fs : List Frame) (a : Option (List (ℕ × Frame)))
        → Goes bs fs reader.old a (H.accepted handover.old) (H.refused handover.old) →
        (given : List Frame) × Goes (bs ++ piece.now) (fs ++ given) reader.new a (H.accepted handover.new)
        (H.refused handover.new)
        × (stream_fault reader.new.standing ≡ None)) }
    ensures stops { IfSome result (λ e. (bs : List ℕ) (fs : List Frame) (a : Option (List (ℕ × Frame)))
        → Goes bs fs reader.old a (H.accepted handover.old) (H.refused handover.old) →
        (over : Bool) (n m : ℕ) → Stopped e (bs ++ piece.now) reader.new a (H.accepted handover.new)
        (H.refused handover.new) over n m) }
{
    match take_piece(rt, reader, links, handover, piece) {
        Some(end) => Some(end),
        None => take_piece(rt, reader, links, handover, &[]),
    }
}

/// Reads until the end, a fault or a refusal, and hands over the frames of the link.
pub fn run_reader<R: Wait, I: Incoming, H: Handover>(
    rt: &R,
    incoming: &mut I,
    reader: &mut FrameReader,
    links: &SharedLinks,
    handover: &mut H,
) -> ReaderEnd
    requires fresh { StandsFor reader.old [] [] }
    requires fed { reader.old.starved ≡ false }
    requires willing { H.refused handover.old ≡ None }
    requires faults { I.failures incoming.old < 2 ^ 64 - 1 }
    ensures kept { ExpectsSame reader.old reader.new }
    ensures stops { (bs : List ℕ) × (I.given incoming.new ≡ known_and (I.given incoming.old) bs)
        × Stopped result bs reader.new (H.accepted handover.old) (H.accepted handover.new) (H.refused handover.new)
        (I.is_over incoming.new) (I.failures incoming.old) (I.failures incoming.new) }
{
    let mut buffer = [0u8; MOST_READ];
    for _ in rt.forever() {
        let count = match incoming.read(&mut buffer) {
            Ok(count) => count,
            Err(_) => return closed(rt, links, reader.sender(), LinkFault::Read),
        };
        if count == 0 {
            return closed(rt, links, reader.sender(), LinkFault::Ended);
        }
        if let Some(end) = take_whole(rt, reader, links, handover, &buffer[..count]) {
            return end;
        }
    }
    unreachable!()
}
