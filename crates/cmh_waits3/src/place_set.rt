//! Places of a site's processes, as the bits of four words.

ghost use Rattle.std.specs.Prelude.{◌≡◌, ℕ, ◌/◌, ◌%◌, ◌<◌, ◌==◌, ◌||◌, ◌&&◌, not, true, false, nat_lt, IfSome, MatchOption};
ghost use Rattle.cmh_waits3.specs.Inner.Steps.{has_place, is_set};

/// Some of the places 0 to 255. It takes no memory.
#[derive(Clone, Copy)]
pub struct PlaceSet {
    words: [u64; 4],
}

impl PlaceSet {
    /// No place.
    #[inline(always)]
    pub fn empty() -> PlaceSet
        ensures { (k : ℕ) → has_place result.words k ≡ false }
    {
        PlaceSet { words: [0; 4] }
    }

    /// Whether it has the place.
    #[inline(always)]
    pub fn has(self, place: usize) -> bool
        ensures { result ≡ has_place self.words place }
    {
        match self.words.get(place / 64) {
            Some(word) => word >> (place % 64) & 1 == 1,
            None => false,
        }
    }

    /// Adds a place.
    #[inline(always)]
    pub fn insert(&mut self, place: usize)
        requires { place < 256 }
        ensures { (k : ℕ) → has_place self.new.words k ≡ ((k == place) || has_place self.old.words k) }
    {
        self.words[place / 64] |= 1 << (place % 64);
    }

    /// One place. The words are made without a write at a computed index, which what reads all four would have to wait for.
    #[inline(always)]
    pub fn only(place: usize) -> PlaceSet
        requires { place < 256 }
        ensures { (k : ℕ) → has_place result.words k ≡ (k == place) }
    {
        PlaceSet {
            words: [
                bit_in(0, place),
                bit_in(1, place),
                bit_in(2, place),
                bit_in(3, place),
            ],
        }
    }

    /// Without a place.
    #[inline(always)]
    pub fn without(self, place: usize) -> PlaceSet
        requires { place < 256 }
        ensures { (k : ℕ) → has_place result.words k ≡ (not (k == place) && has_place self.words k) }
    {
        self.beyond(PlaceSet::only(place))
    }

    /// With a place, if it is to be there.
    #[inline(always)]
    pub fn with_if(self, place: usize, is_wanted: bool) -> PlaceSet
        requires { place < 256 }
        ensures { (k : ℕ) → has_place result.words k ≡ ((is_wanted && (k == place)) || has_place self.words k) }
    {
        if is_wanted {
            self.either(PlaceSet::only(place))
        } else {
            self
        }
    }

    /// Without a place, if it is not to be there.
    #[inline(always)]
    pub fn without_if(self, place: usize, is_unwanted: bool) -> PlaceSet
        requires { place < 256 }
        ensures { (k : ℕ) → has_place result.words k ≡ (not (is_unwanted && (k == place)) && has_place self.words k) }
    {
        if is_unwanted {
            self.without(place)
        } else {
            self
        }
    }

    /// The places of either.
    #[inline(always)]
    pub fn either(self, other: PlaceSet) -> PlaceSet
        ensures { (k : ℕ) → has_place result.words k ≡ (has_place self.words k || has_place other.words k) }
    {
        let [a, b, c, d] = self.words;
        let [e, f, g, h] = other.words;
        PlaceSet {
            words: [a | e, b | f, c | g, d | h],
        }
    }

    /// The places of both.
    #[inline(always)]
    pub fn both(self, other: PlaceSet) -> PlaceSet
        ensures { (k : ℕ) → has_place result.words k ≡ (has_place self.words k && has_place other.words k) }
    {
        let [a, b, c, d] = self.words;
        let [e, f, g, h] = other.words;
        PlaceSet {
            words: [a & e, b & f, c & g, d & h],
        }
    }

    /// Its places below 64. What is known to be 0 need not be looked at.
    #[inline(always)]
    pub fn low(self) -> PlaceSet
        ensures { (k : ℕ) → has_place result.words k ≡ (nat_lt k 64 && has_place self.words k) }
    {
        let [a, _, _, _] = self.words;
        PlaceSet {
            words: [a, 0, 0, 0],
        }
    }

    /// The places that the other lacks.
    #[inline(always)]
    pub fn beyond(self, other: PlaceSet) -> PlaceSet
        ensures { (k : ℕ) → has_place result.words k ≡ (has_place self.words k && not (has_place other.words k)) }
    {
        let [a, b, c, d] = self.words;
        let [e, f, g, h] = other.words;
        PlaceSet {
            words: [a & !e, b & !f, c & !g, d & !h],
        }
    }

    /// How many places it has: a hint of the room that something for each of them takes.
    #[inline(always)]
    pub fn count(self) -> usize {
        let [a, b, c, d] = self.words;
        (a.count_ones() + b.count_ones() + c.count_ones() + d.count_ones()) as usize
    }

    /// Its least place.
    #[inline(always)]
    pub fn first(self) -> Option<usize>
        ensures some { MatchOption result ((k : ℕ) → has_place self.words k ≡ false)
            (λ place. (place < 256) × (has_place self.words place ≡ true)) }
        ensures least { IfSome result (λ place. (k : ℕ) → k < place → has_place self.words k ≡ false) }
    {
        for (at, word) in self.words.iter().enumerate() {
            if *word != 0 {
                return Some(at * 64 + word.trailing_zeros() as usize);
            }
        }
        None
    }
}

/// The bit of the place in this word, or 0 where it is in another.
#[inline(always)]
fn bit_in(word: usize, place: usize) -> u64
    ensures { (j : ℕ) → j < 64 → is_set result j ≡ ((word == place / 64) && (j == place % 64)) }
{
    if word == place / 64 {
        1 << (place % 64)
    } else {
        0
    }
}
