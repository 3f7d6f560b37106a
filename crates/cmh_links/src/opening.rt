//! The opening of a link to another site, and the thread that writes it.

ghost use Rattle.std.specs.Prelude.{◌≡◌, ℕ, ◌+◌, ◌-◌, ◌<◌, ◌^◌, Bool, false, [], ◌∷◌, Option, Some, IfOk, OnOk, OnErr, length, not};
ghost use Rattle.cmh_links.specs.Threads.{closed_with, is_failed, is_idle, leads_to};
ghost use Rattle.cmh_links.specs.Writing.{Wrote};
ghost use Rattle.cmh_carriers.specs.declared.table.LinkFault.{LinkFault};

use crate::berth::Berth;
use crate::dialler::Dialler;
use crate::draining::drain;
use crate::run_writer;
use crate::seats::Seat;
use crate::shared::{Shared, TapSource};
use cmh_carriers::{ConnectionHandle, Dial, IoFault, LinkFault, Note, Outgoing};
use cmh_frames::SiteId;
use cmh_journal::Sink;
use cmh_station::{Keeper, LinkTap, Listing, ParkingTap};
use std::sync::{Arc, Wait};
use std::thread;
use std::thread::{Promise, PromisedHandle, Threads};
use std::time::Clock;

/// That a writing thread gives the tap of its link back.
#[derive(Clone, Copy)]
pub(crate) struct GivesBack {
    to: SiteId,
}

impl Promise<LinkTap> for GivesBack {
    ghost kept_by = { λ promise tap. tap.to ≡ promise.to };
}

/// Where the tap of a link is that was to be opened.
#[derive(Drop)]
pub(crate) enum Place {
    /// With nobody: the link was not new.
    Idle(LinkTap),
    /// With nobody: the link was new, and was closed with this fault.
    Closed {
        tap: LinkTap,
        fault: LinkFault,
    },
    /// With a thread that drops the frames: the link was new, and was closed with this fault.
    Draining {
        drain: PromisedHandle<LinkTap, GivesBack>,
        fault: LinkFault,
    },
    Writing(PromisedHandle<LinkTap, GivesBack>),
}

/// A connection that was opened, and its seat.
#[derive(Drop)]
struct Connection<O, L: ConnectionHandle + Drop> {
    out: O,
    seat: Arc<Seat<L>>,
}

/// Connects the link of a tap and starts its writing thread, or closes it; unless it was not new.
pub(crate) fn open<R, S, B, K, D>(
    rt: R,
    shared: &Arc<Shared<S, B, K>>,
    dial: &mut Dialler<D>,
    tap: ParkingTap,
    is_new: bool,
) -> Place
where
    R: Wait + Threads + Clock + Copy + Send + Drop + 'static,
    S: Sink + Send + 'static,
    B: Listing + Send + 'static,
    K: Keeper + Send + 'static,
    D: Dial,
    D::Out: Send + Drop + 'static,
    requires countable { dial.old < 2 ^ 64 - 1 }
    ensures to { leads_to result ≡ tap.to }
    ensures idle { is_idle result ≡ not is_new }
    ensures unconnected { dial.new ≡ dial.old + length (closed_with 1 (result ∷ [])) }
    ensures causes { is_failed result ≡ length (closed_with 1 (result ∷ [])) + length (closed_with 6 (result ∷ [])) }
{
    if !is_new {
        return Place::Idle(tap.into_tap());
    }
    match dial.connect(tap.to()) {
        Ok(out) => match dial.seat(&rt, tap.to(), &out) {
            Some(seat) => start_writer(rt, shared, tap, Connection { out, seat }),
            None => closed(&rt, shared, tap.into_tap(), LinkFault::Memory),
        },
        Err(IoFault) => unconnected(rt, shared, tap),
    }
}

/// Closes the link of a tap.
fn closed<R: Wait, S: Sink, B: Listing, K: Keeper>(
    rt: &R,
    shared: &Shared<S, B, K>,
    tap: LinkTap,
    fault: LinkFault,
) -> Place
    ensures { result ≡ Place.Closed tap fault }
{
    close(rt, shared, tap.to(), fault);
    Place::Closed { tap, fault }
}

/// Closes the link to a site, and notes it.
fn close<R: Wait, S: Sink, B: Listing, K: Keeper>(
    rt: &R,
    shared: &Shared<S, B, K>,
    to: SiteId,
    fault: LinkFault,
) {
    shared.links.lock(rt).close_out(to, fault);
    if fault == LinkFault::Memory {
        shared.note(rt, Note::NoThreadTo(to));
    }
    shared.note(rt, Note::ClosedOut(to, fault));
}

/// Closes the link of a tap whose site could not be connected, and starts a thread that drops its frames, if one can be
/// had.
fn unconnected<R, S, B, K>(rt: R, shared: &Arc<Shared<S, B, K>>, tap: ParkingTap) -> Place
where
    R: Wait + Threads + Copy + Send + Drop + 'static,
    S: Sink + Send + 'static,
    B: Listing + Send + 'static,
    K: Keeper + Send + 'static,
    ensures to { leads_to result ≡ tap.to }
    ensures new { is_idle result ≡ false }
    ensures unconnected { length (closed_with 1 (result ∷ [])) ≡ 1 }
    ensures causes { is_failed result ≡ length (closed_with 1 (result ∷ [])) + length (closed_with 6 (result ∷ [])) }
{
    let to = tap.to();
    let fault = LinkFault::Connect;
    close(&rt, shared, to, fault);
    let (Ok(theirs), Ok((ours, berth))) = (Arc::try_clone(shared), Berth::pair(shared.alloc, to))
    else {
        return Place::Closed {
            tap: tap.into_tap(),
            fault,
        };
    };
    ours.put(&rt, tap);
    let run = move || drain_from(rt, theirs, berth);
    match thread::spawn_with(&rt, GivesBack { to }, run) {
        Ok(drain) => Place::Draining { drain, fault },
        Err(_) => Place::Closed {
            tap: ours.take(&rt).into_tap(),
            fault,
        },
    }
}

/// What the thread of a link runs that could not be connected. The tap comes back.
fn drain_from<R, S, B, K>(rt: R, shared: Arc<Shared<S, B, K>>, berth: Berth) -> LinkTap
where
    R: Wait + Drop,
    S: Sink,
    B: Listing,
    K: Keeper,
    ensures { result.to ≡ berth.to }
{
    let tap = berth.take(&rt);
    drain(&rt, &shared, tap)
}

/// Starts the writing thread of a link, or closes the link.
fn start_writer<R, S, B, K, O, L>(
    rt: R,
    shared: &Arc<Shared<S, B, K>>,
    tap: ParkingTap,
    connection: Connection<O, L>,
) -> Place
where
    R: Wait + Threads + Copy + Send + Drop + 'static,
    S: Sink + Send + 'static,
    B: Listing + Send + 'static,
    K: Keeper + Send + 'static,
    O: Outgoing + Send + Drop + 'static,
    L: ConnectionHandle + Send + Drop + 'static,
    requires fresh { O.failures connection.out ≡ 0 }
    ensures to { leads_to result ≡ tap.to }
    ensures new { is_idle result ≡ false }
    ensures causes { is_failed result ≡ length (closed_with 6 (result ∷ [])) }
    ensures unconnected { closed_with 1 (result ∷ []) ≡ [] }
{
    let to = tap.to();
    let (Ok(theirs), Ok((ours, berth)), Ok(seat)) = (
        Arc::try_clone(shared),
        Berth::pair(shared.alloc, to),
        Arc::try_clone(&connection.seat),
    ) else {
        connection.seat.leave(&rt);
        return closed(&rt, shared, tap.into_tap(), LinkFault::Memory);
    };
    ours.put(&rt, tap);
    let run = move || write_from(rt, theirs, berth, connection);
    match thread::spawn_with(&rt, GivesBack { to }, run) {
        Ok(writer) => Place::Writing(writer),
        Err(_) => {
            seat.leave(&rt);
            closed(&rt, shared, ours.take(&rt).into_tap(), LinkFault::Memory)
        }
    }
}

/// What the writing thread of a link runs. Once its connection has failed it drops the frames. The tap comes back.
fn write_from<R, S, B, K, O, L>(
    rt: R,
    shared: Arc<Shared<S, B, K>>,
    berth: Berth,
    connection: Connection<O, L>,
) -> LinkTap
where
    R: Wait + Copy + Drop,
    S: Sink,
    B: Listing,
    K: Keeper,
    O: Outgoing + Drop,
    L: ConnectionHandle + Drop,
    requires fresh { O.failures connection.out ≡ 0 }
    ensures { result.to ≡ berth.to }
{
    let Connection { mut out, seat } = connection;
    let tap = berth.take(&rt);
    let tap = write_link(rt, &shared, tap, &mut out);
    // Its seat has another handle of the connection.
    drop(out);
    seat.leave(&rt);
    drain(&rt, &shared, tap)
}

/// Writes the frames of a tap until the site ends or a write fails, and closes the link.
fn write_link<R, S, B, K, O>(
    rt: R,
    shared: &Shared<S, B, K>,
    tap: ParkingTap,
    out: &mut O,
) -> ParkingTap
where
    R: Wait + Copy + Drop,
    S: Sink,
    B: Listing,
    K: Keeper,
    O: Outgoing,
    requires fresh { O.failures out.old ≡ 0 }
    ensures to { result.to ≡ tap.to }
    ensures wrote { (over : Bool) × ((fault : Option LinkFault)
        × Wrote shared.now.edition shared.now.site (Some tap.taken) (Some result.taken) over
        (O.taken out.old) (O.taken out.new) (O.failures out.old) (O.failures out.new) fault) }
{
    let to = tap.to();
    let mut exit = TapSource::new(rt, shared, tap);
    let fault = run_writer(&rt, out, shared.edition, shared.site, &mut exit);
    let why = fault.unwrap_or(LinkFault::Ended);
    shared.links.lock(&rt).close_out(to, why);
    shared.note(&rt, Note::ClosedOut(to, why));
    exit.into_tap()
}
