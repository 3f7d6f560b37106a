//! The receiver's end of a link.

ghost use Rattle.std.specs.Prelude.{◌≡◌, ◌≢◌, ◌+◌, ◌-◌, ◌^◌, ◌<◌, ◌≤◌, ◌⊎◌, ◌↔◌, Contains, true, false, Some, IsSome, is_some, IsTrue, OnOk, OnErr, IfOk, IfErr};
ghost use Rattle.cmh_resume3.specs.Receiver.{Claims, IsFit, IsUnfit, IsUntaken, all_synced, closed_off, heard_at, opened, rested, said, synced_of, with_message};

use crate::acknowledgement::Acknowledgement;
use crate::answer::Answer;
use crate::hello::Hello;
use crate::refusal::Refusal;
use cmh_model3::{Message, SiteId};
use cmh_topology3::World;
use cmh_wire3::{Epoch, Mark, encode};
use std::marker::Model;

/// Why a message is not taken.
#[derive(Clone, Copy)]
pub enum Untaken {
    /// It came on a connection that has not the claim: that connection is closed.
    Stale,
    /// No more messages can be counted.
    Full,
}

/// How many messages come at most before they are acknowledged.
const MOST_UNSAID: u64 = 4096;

/// After how many milliseconds of silence a connection ends.
const SILENCE: u64 = 30_000;

/// The receiver's end of a link: how many of its messages are in the journal, and the one connection whose messages are
/// taken. Connections have numbers that the caller gives them, and times are milliseconds.
#[derive(Drop)]
pub struct ReceiverEnd {
    got: u64,
    mark: Mark,
    unsynced: u64,
    claim: Option<u64>,
    closed: bool,
    unsaid: u64,
    heard: u64,
}

impl Model for ReceiverEnd {
    ghost use Rattle.std.specs.Prelude.{◌≤◌};
    ghost use Rattle.cmh_resume3.specs.Receiver.{Receiver};

    ghost Value = { Receiver };

    ghost view = { λ r. record {
      got = r.got;
      mark = r.mark;
      unsynced = r.unsynced;
      claim = r.claim;
      closed = r.closed;
      unsaid = r.unsaid;
      heard = r.heard;
    } };

    ghost invariant = { λ r. (r.unsynced ≤ r.got) × (r.unsaid ≤ r.got) };
}

/// Whether a hello is for this site, and from one of the senders of this world.
pub fn check_hello(
    hello: &Hello,
    world: &World,
    site: SiteId,
    senders: &[SiteId],
) -> Result<(), Refusal>
    ensures ok { OnOk result (IsFit hello.now world.now site senders.now) }
    ensures err { IfErr result (IsUnfit hello.now world.now site senders.now) }
{
    if hello.world != *world {
        return Err(Refusal::OtherWorld);
    }
    if hello.to != site {
        return Err(Refusal::NotThisSite);
    }
    if !senders.contains(&hello.from) {
        return Err(Refusal::NoSuchSender);
    }
    Ok(())
}

impl ReceiverEnd {
    /// An end with no connection. So many messages are in the journal, all synced, with this mark. A link is closed where
    /// the rules refused one of its messages.
    pub fn new(got: u64, mark: Mark, closed: bool) -> Self
        ensures { result ≡ opened got mark closed }
    {
        ReceiverEnd {
            got,
            mark,
            unsynced: 0,
            claim: None,
            closed,
            unsaid: 0,
            heard: 0,
        }
    }

    /// How many messages are in the journal, synced or not.
    pub fn got(&self) -> u64
        ensures { result ≡ self.now.got }
    {
        self.got
    }

    /// The mark of the messages in the journal.
    pub fn mark(&self) -> Mark
        ensures { result ≡ self.now.mark }
    {
        self.mark
    }

    /// Whether all of its messages are synced, as they are between two batches of the station.
    pub fn is_synced(&self) -> bool
        ensures { IsTrue result ↔ (self.now.unsynced ≡ 0) }
    {
        self.unsynced == 0
    }

    /// A hello of the link's sender was read, between two batches: the connection has the claim from now on. `speaker` is
    /// this site, as it speaks to the sender.
    pub fn claim(&mut self, line: u64, now: u64, speaker: Hello) -> Result<Answer, Refusal>
        requires { self.old.unsynced ≡ 0 }
        ensures claims { IfOk result (λ answer. Claims self.old line now answer self.new) }
        ensures speaks { IfOk result (λ answer. answer.hello ≡ speaker) }
        ensures closed { IfErr result (λ refusal. (refusal ≡ Refusal.Closed) × (self.old.closed ≡ true)) }
        ensures same { OnErr result (self.new ≡ self.old) }
    {
        if self.closed {
            return Err(Refusal::Closed);
        }
        self.claim = Some(line);
        self.unsaid = 0;
        self.heard = now;
        Ok(Answer {
            hello: speaker,
            count: self.got,
            mark: self.mark,
        })
    }

    /// Whether the messages of this connection are taken.
    pub fn is_claimed(&self, line: u64) -> bool
        ensures { IsTrue result ↔ (self.now.claim ≡ Some line) }
    {
        match self.claim {
            Some(claimed) => claimed == line,
            None => false,
        }
    }

    /// Whether some connection has the claim.
    pub fn is_open(&self) -> bool
        ensures { result ≡ is_some self.now.claim }
    {
        self.claim.is_some()
    }

    /// Whether the rules refused one of its messages, so that it is closed for good.
    pub fn is_closed(&self) -> bool
        ensures { result ≡ self.now.closed }
    {
        self.closed
    }

    /// A message came on a connection, the rules accept it, and its entry is written.
    pub fn take(&mut self, line: u64, message: &Message) -> Result<(), Untaken>
        ensures taken { OnOk result ((self.old.claim ≡ Some line) × (self.new ≡ with_message message.now self.old)) }
        ensures untaken { IfErr result (IsUntaken line self.old) }
        ensures same { OnErr result (self.new ≡ self.old) }
    {
        if !self.is_claimed(line) {
            return Err(Untaken::Stale);
        }
        let Some(got) = self.got.checked_add(1) else {
            return Err(Untaken::Full);
        };
        self.got = got;
        self.mark = self.mark.on(encode(message).as_slice());
        self.unsynced += 1;
        self.unsaid += 1;
        Ok(())
    }

    /// The journal was synced.
    pub fn synced(&mut self)
        ensures { self.new ≡ all_synced self.old }
    {
        self.unsynced = 0;
    }

    /// Whether an acknowledgement is to be written after a read, which filled its buffer or not.
    pub fn is_due(&self, filled: bool) -> bool
        ensures { IsTrue result ↔ ((filled ≡ false) ⊎ (4096 ≤ self.now.unsaid)) }
    {
        !filled || self.unsaid >= MOST_UNSAID
    }

    /// What is to be acknowledged: only what is synced.
    pub fn acknowledge(&mut self, epoch: Epoch) -> Acknowledgement
        ensures count { result.count ≡ synced_of self.old }
        ensures epoch { result.epoch ≡ epoch }
        ensures after { self.new ≡ said self.old }
    {
        self.unsaid = 0;
        Acknowledgement {
            count: self.got - self.unsynced,
            epoch,
        }
    }

    /// Something came on the claimed connection.
    pub fn heard(&mut self, now: u64)
        ensures { self.new ≡ heard_at now self.old }
    {
        self.heard = now;
    }

    /// Whether nothing came for so long that the claimed connection is to be closed.
    pub fn is_silent(&self, now: u64) -> bool
        ensures { IsTrue result ↔ (IsSome self.now.claim × (30000 ≤ now - self.now.heard)) }
    {
        self.claim.is_some() && now.saturating_sub(self.heard) >= SILENCE
    }

    /// A connection ended. Where it has the claim, no connection has it any more.
    pub fn ended(&mut self, line: u64)
        ensures claimed { self.old.claim ≡ Some line → self.new ≡ rested self.old }
        ensures other { self.old.claim ≢ Some line → self.new ≡ self.old }
    {
        if self.is_claimed(line) {
            self.claim = None;
        }
    }

    /// The rules refused a message of the link.
    pub fn close(&mut self)
        ensures { self.new ≡ closed_off self.old }
    {
        self.claim = None;
        self.closed = true;
    }
}
