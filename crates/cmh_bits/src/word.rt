//! Places as the bits of one word.

ghost use Rattle.std.specs.Prelude.{◌≡◌, ℕ, ◌<◌, ◌≤◌, ◌==◌, true, not, ◌||◌, ◌&&◌, if◌then◌else◌};
ghost use Rattle.cmh_bits.specs.Bits.{is_set};

/// Whether the word has a 1 at the place.
#[inline(always)]
pub fn has_bit(word: u64, place: usize) -> bool
    requires { place < 64 }
    ensures { result ≡ is_set word place }
{
    word >> place & 1 == 1
}

/// The word with a 1 at the place.
#[inline(always)]
pub fn with_bit(word: u64, place: usize) -> u64
    requires { place < 64 }
    ensures { (k : ℕ) → is_set result k ≡ ((k == place) || is_set word k) }
{
    word | 1 << place
}

/// The word with a 0 at the place.
#[inline(always)]
pub fn without_bit(word: u64, place: usize) -> u64
    requires { place < 64 }
    ensures bits { (k : ℕ) → is_set result k ≡ (not (k == place) && is_set word k) }
    ensures less { is_set word place ≡ true → result < word }
{
    word & !(1 << place)
}

/// The word with the other bit at the place.
#[inline(always)]
pub fn flipped(word: u64, place: usize) -> u64
    requires { place < 64 }
    ensures { (k : ℕ) → is_set result k ≡ if k == place then not (is_set word k) else is_set word k }
{
    word ^ 1 << place
}

/// The bits of either word.
#[inline(always)]
pub fn either(word: u64, other: u64) -> u64
    ensures bits { (k : ℕ) → is_set result k ≡ (is_set word k || is_set other k) }
    ensures no_less { word ≤ result }
{
    word | other
}

/// The bits of the word that the other one lacks.
#[inline(always)]
pub fn beyond(word: u64, other: u64) -> u64
    ensures { (k : ℕ) → is_set result k ≡ (is_set word k && not (is_set other k)) }
{
    word & !other
}

/// The place of the lowest 1.
#[inline(always)]
pub fn lowest(word: u64) -> usize
    requires { 0 < word }
    ensures within { result < 64 }
    ensures set { is_set word result ≡ true }
    ensures least { (k : ℕ) → is_set word k ≡ true → result ≤ k }
{
    word.trailing_zeros() as usize
}
