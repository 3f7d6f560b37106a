//! How many notes are told in a second.

ghost use Rattle.std.specs.Prelude.{◌≡◌, ◌+◌, ◌-◌, ◌<◌, ◌≤◌, ◌^◌, min, MatchBool};

/// How many notes a second are told, at most.
const MOST_A_SECOND: u64 = 10;

/// Counts the notes of a second that were told, and those that were left out.
#[derive(Clone, Copy)]
pub struct Meter {
    second: u64,
    told: u64,
    left_out: u64,
    ghost few: { told ≤ 10 },
}

impl Meter {
    /// Nothing was told in this second.
    pub fn new(second: u64) -> Meter
        ensures second { result.second ≡ second }
        ensures told { result.told ≡ 0 }
        ensures left_out { result.left_out ≡ 0 }
    {
        Meter {
            second,
            told: 0,
            left_out: 0,
        }
    }

    /// Goes on to a later second, in which nothing was told yet, and answers how many notes were left out in the one
    /// before. In the same second, as in an earlier one, it answers 0 and changes nothing.
    pub fn turn(&mut self, second: u64) -> u64
        ensures later { self.old.second < second → (result ≡ self.old.left_out) × (self.new.second ≡ second)
            × (self.new.told ≡ 0) × (self.new.left_out ≡ 0) }
        ensures same { second ≤ self.old.second → (result ≡ 0) × (self.new ≡ self.old) }
    {
        if second <= self.second {
            return 0;
        }
        let left_out = self.left_out;
        *self = Meter::new(second);
        left_out
    }

    /// Whether one more note is told in this second: one that isn't is counted.
    pub fn admit(&mut self) -> bool
        ensures exact { MatchBool result
            ((self.old.told < 10) × (self.new.told ≡ self.old.told + 1) × (self.new.left_out ≡ self.old.left_out))
            ((self.old.told ≡ 10) × (self.new.told ≡ 10) × (self.new.left_out ≡ min (self.old.left_out + 1) (2 ^ 64 - 1))) }
        ensures second { self.new.second ≡ self.old.second }
    {
        if self.told < MOST_A_SECOND {
            self.told += 1;
            return true;
        }
        self.leave_out(1);
        false
    }

    /// Counts notes that are not told.
    pub fn leave_out(&mut self, count: u64)
        ensures counted { self.new.left_out ≡ min (self.old.left_out + count) (2 ^ 64 - 1) }
        ensures told { self.new.told ≡ self.old.told }
        ensures second { self.new.second ≡ self.old.second }
    {
        self.left_out = self.left_out.saturating_add(count);
    }

    /// How many notes were left out in this second.
    pub fn left_out(&self) -> u64
        ensures { result ≡ self.now.left_out }
    {
        self.left_out
    }
}
