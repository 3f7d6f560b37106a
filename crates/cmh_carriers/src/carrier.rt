//! What carries bytes between two sites. Each failing call raises `faults` by one, and no other call changes it.

ghost use Rattle.std.specs.Prelude.{◌≡◌, ℕ, ◌+◌, ◌-◌, ◌<◌, ◌≤◌, ◌^◌, Bool, true, false, List, [], length, take, Option, Result, IfOk, IfSome, OnErr, if◌then◌else◌, is_err, ⊤};
ghost use Rattle.cmh_journal.specs.Sink.{known_and};
ghost use Rattle.cmh_carriers.specs.declared.carrier.IoFault.{IoFault};

use crate::gate::Gate;
use cmh_frames::SiteId;
use thiserror::Error;

/// A call of a carrier failed.
#[derive(Clone, Copy, Debug, PartialEq, Eq, Error)]
#[error("the connection failed")]
pub struct IoFault;

/// Another handle of a connection, by which whoever waits in its `read` or `write` is let go.
pub trait ConnectionHandle {
    /// Ends the connection in both directions. A `read` that is under way answers the end, and a `write` fails.
    fn shut(&self);
}

/// The receiving end of a connection.
pub trait Incoming {
    /// How many calls have failed.
    ghost failures: { Self → ℕ };

    /// The bytes that it gave, where it tells them.
    ghost given: { Self → Option (List ℕ) };

    /// Whether it told its end.
    ghost is_over: { Self → Bool };

    /// What a connection of this kind says beyond that of a read: of the connection before, the buffer as it was filled,
    /// the answer, and the connection after.
    ghost read_gives: { Self → List ℕ → Result ℕ IoFault → Self → Type 0 } = { λ _ _ _ _. ⊤ };

    /// Gives the next bytes, and answers how many. Where the buffer isn't empty, 0 is the end. It may wait.
    fn read(&mut self, buffer: &mut [u8]) -> Result<usize, IoFault>
        requires countable { failures self.old < 2 ^ 64 - 1 }
        ensures within { IfOk result (λ count. count ≤ length buffer.new) }
        ensures given { IfOk result (λ count. given self.new ≡ known_and (given self.old) (take count buffer.new)) }
        ensures over { result ≡ Ok 0 → 0 < length buffer.new → is_over self.new ≡ true }
        ensures none { OnErr result (given self.new ≡ given self.old) }
        ensures count { failures self.new ≡ (if is_err result then failures self.old + 1 else failures self.old) }
        ensures gives { read_gives self.old buffer.new result self.new };

    /// How many calls have failed.
    fn faults(&self) -> u64
        ensures { result ≡ failures self.now };

    /// Ends the connection, also where another handle of it is held.
    fn shut(&self);
}

/// The sending end of a connection.
pub trait Outgoing {
    /// How many calls have failed.
    ghost failures: { Self → ℕ };

    /// The bytes that it took, where it tells them.
    ghost taken: { Self → Option (List ℕ) };

    /// What a connection of this kind says beyond that of a write: of the connection before, the piece, the answer, and
    /// the connection after.
    ghost write_gives: { Self → List ℕ → Result ℕ IoFault → Self → Type 0 } = { λ _ _ _ _. ⊤ };

    /// Takes a beginning of the piece, at least one byte of it, and answers how many. It may wait.
    fn write(&mut self, piece: &[u8]) -> Result<usize, IoFault>
        requires countable { failures self.old < 2 ^ 64 - 1 }
        ensures within { IfOk result (λ count. count ≤ length piece.now) }
        ensures some { 0 < length piece.now → IfOk result (λ count. 0 < count) }
        ensures taken { IfOk result (λ count. taken self.new ≡ known_and (taken self.old) (take count piece.now)) }
        ensures none { OnErr result (taken self.new ≡ taken self.old) }
        ensures count { failures self.new ≡ (if is_err result then failures self.old + 1 else failures self.old) }
        ensures gives { write_gives self.old piece.now result self.new };

    /// Looks whether the other end is gone, without a write: then the call fails. A carrier that can't see that never fails
    /// here. It may wait for some milliseconds.
    fn look(&mut self) -> Result<(), IoFault>
        requires countable { failures self.old < 2 ^ 64 - 1 }
        ensures taken { taken self.new ≡ taken self.old }
        ensures count { failures self.new ≡ (if is_err result then failures self.old + 1 else failures self.old) }
    {
        Ok(())
    }

    /// How many calls have failed.
    fn faults(&self) -> u64
        ensures { result ≡ failures self.now };
}

/// Where connections arrive.
pub trait Listen {
    type In: Incoming + Send + Drop + 'static;

    type Handle: ConnectionHandle + Send + Drop + 'static;

    /// How many calls have failed.
    ghost failures: { Self → ℕ };

    /// Waits for the next connection.
    fn accept(&mut self) -> Result<Self::In, IoFault>
        requires countable { failures self.old < 2 ^ 64 - 1 }
        ensures fresh { IfOk result (λ incoming. Self.In.failures incoming ≡ 0) }
        ensures begins { IfOk result (λ incoming. Self.In.is_over incoming ≡ false) }
        ensures unread { IfOk result (λ incoming. IfSome (Self.In.given incoming) (λ bytes. bytes ≡ [])) }
        ensures count { failures self.new ≡ (if is_err result then failures self.old + 1 else failures self.old) };

    /// Another handle of a connection. `None` where memory for one was refused.
    fn handle(&self, incoming: &Self::In) -> Option<Self::Handle>;

    /// Another handle of itself. `None` where memory for one was refused.
    fn gate(&self) -> Option<Gate>;

    /// Refuses what waits to be accepted, so that who opened it learns of it, also where a gate is held.
    fn shut(&self);

    /// How many calls have failed.
    fn faults(&self) -> u64
        ensures { result ≡ failures self.now };
}

/// What opens connections to other sites.
pub trait Dial {
    type Out: Outgoing + Send + Drop + 'static;

    type Handle: ConnectionHandle + Send + Drop + 'static;

    /// How many calls have failed.
    ghost failures: { Self → ℕ };

    /// Opens a connection to where a site listens. It may wait.
    fn connect(&mut self, site: SiteId) -> Result<Self::Out, IoFault>
        requires countable { failures self.old < 2 ^ 64 - 1 }
        ensures fresh { IfOk result (λ outgoing. Self.Out.failures outgoing ≡ 0) }
        ensures unwritten { IfOk result (λ outgoing. IfSome (Self.Out.taken outgoing) (λ bytes. bytes ≡ [])) }
        ensures count { failures self.new ≡ (if is_err result then failures self.old + 1 else failures self.old) };

    /// Another handle of a connection. `None` where memory for one was refused.
    fn handle(&self, outgoing: &Self::Out) -> Option<Self::Handle>;

    /// How many calls have failed.
    fn faults(&self) -> u64
        ensures { result ≡ failures self.now };
}
