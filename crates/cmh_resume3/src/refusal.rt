//! Why one end of a link refuses the other.

ghost use Rattle.std.specs.Prelude.{◌≡◌, ◌≢◌, IfNone, IfSome};
ghost use Rattle.cmh_resume3.specs.Numbers as spec;
ghost use Rattle.cmh_resume3.specs.declared.refusal.Mismatch.{Mismatch as MismatchType};
ghost use Rattle.cmh_resume3.specs.declared.refusal.Refusal.{Refusal as RefusalType};

/// Why a receiver does not take a sender's frames.
#[derive(Clone, Copy)]
pub enum Refusal {
    /// The hello is one of another edition.
    OtherEdition,
    /// The sender is of another world.
    OtherWorld,
    /// The sender looks for another site.
    NotThisSite,
    /// The topology has no such sender.
    NoSuchSender,
    /// The sender once sent a frame that the rules forbid. This lasts.
    Closed,
    /// The receiver has stopped for good.
    Sealed,
}

/// What a sender finds in an answer or an acknowledgement that can't be where both journals have all that was synced.
#[derive(Clone, Copy)]
pub enum Mismatch {
    /// The receiver got more than was sent: the sender's journal lacks frames.
    MoreThanSent,
    /// The receiver got as many, but others: the sender's journal is of another history.
    OtherFrames,
    /// The receiver has less than it acknowledged: its own journal lacks entries.
    LessThanAcknowledged,
}

impl Refusal {
    /// The number of the refusal, 1 to 6.
    pub const fn number(self) -> u8
        ensures { result ≡ spec.refusal_number self }
    {
        match self {
            Refusal::OtherEdition => 1,
            Refusal::OtherWorld => 2,
            Refusal::NotThisSite => 3,
            Refusal::NoSuchSender => 4,
            Refusal::Closed => 5,
            Refusal::Sealed => 6,
        }
    }

    /// The refusal of this number.
    pub const fn from_number(number: u8) -> Option<Refusal>
        ensures some { IfSome result (λ refusal. number ≡ spec.refusal_number refusal) }
        ensures none { IfNone result ((refusal : RefusalType) → number ≢ spec.refusal_number refusal) }
    {
        match number {
            1 => Some(Refusal::OtherEdition),
            2 => Some(Refusal::OtherWorld),
            3 => Some(Refusal::NotThisSite),
            4 => Some(Refusal::NoSuchSender),
            5 => Some(Refusal::Closed),
            6 => Some(Refusal::Sealed),
            _ => None,
        }
    }
}

impl Mismatch {
    /// The number of the mismatch, 7 to 9.
    pub const fn number(self) -> u8
        ensures { result ≡ spec.mismatch_number self }
    {
        match self {
            Mismatch::MoreThanSent => 7,
            Mismatch::OtherFrames => 8,
            Mismatch::LessThanAcknowledged => 9,
        }
    }

    /// The mismatch of this number.
    pub const fn from_number(number: u8) -> Option<Mismatch>
        ensures some { IfSome result (λ mismatch. number ≡ spec.mismatch_number mismatch) }
        ensures none { IfNone result ((mismatch : MismatchType) → number ≢ spec.mismatch_number mismatch) }
    {
        match number {
            7 => Some(Mismatch::MoreThanSent),
            8 => Some(Mismatch::OtherFrames),
            9 => Some(Mismatch::LessThanAcknowledged),
            _ => None,
        }
    }
}
