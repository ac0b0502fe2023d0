//! The bits of one word, counted from the least.

ghost use Rattle.std.specs.Prelude.{◌≡◌, ℕ, ◌<◌, ◌==◌, ◌&&◌, ◌||◌, not, true, false, nat_le, Some};
ghost use Rattle.bit_sets.specs.own.Words.{word_has, IsLeast, IsPairAcross};

/// Whether a word has a bit.
pub fn has_bit(word: u64, bit: u32) -> bool
    requires { bit < 64 }
    ensures { result ≡ word_has word bit }
{
    (word >> bit) & 1 == 1
}

/// A word with one more bit.
pub fn with_bit(word: u64, bit: u32) -> u64
    requires { bit < 64 }
    ensures same { word_has result bit ≡ true }
    ensures others { (k : ℕ) → (k ≡ bit → ⊥) → word_has result k ≡ word_has word k }
{
    word | (1 << bit)
}

/// A word without a bit.
pub fn without_bit(word: u64, bit: u32) -> u64
    requires { bit < 64 }
    ensures same { word_has result bit ≡ false }
    ensures kept { result == 0 ≡ false → word == 0 ≡ false }
    ensures others { (k : ℕ) → (k ≡ bit → ⊥) → word_has result k ≡ word_has word k }
{
    word & !(1 << bit)
}

/// The bits of either word.
pub fn united(word: u64, other: u64) -> u64
    ensures { (k : ℕ) → word_has result k ≡ (word_has word k || word_has other k) }
{
    word | other
}

/// The bits of both words.
pub fn common(word: u64, other: u64) -> u64
    ensures { (k : ℕ) → word_has result k ≡ (word_has word k && word_has other k) }
{
    word & other
}

/// The bits of a word that another has not.
pub fn without(word: u64, other: u64) -> u64
    ensures { (k : ℕ) → word_has result k ≡ (word_has word k && not (word_has other k)) }
{
    word & !other
}

/// The bits of a word from one on.
pub fn from_bit(word: u64, bit: u32) -> u64
    requires { bit < 64 }
    ensures { (k : ℕ) → word_has result k ≡ (nat_le bit k && word_has word k) }
{
    word & (u64::MAX << bit)
}

/// The least bit of a word that has one.
pub fn least_bit(word: u64) -> u32
    requires { 0 < word }
    ensures small { result < 64 }
    ensures least { IsLeast (word_has word) (Some result) }
{
    word.trailing_zeros()
}

/// The even bits of a word.
const EVEN: u64 = 0x5555_5555_5555_5555;

/// Whether a word has an even bit and another the next one.
pub fn has_pair_across(word: u64, other: u64) -> bool
    ensures { IsPairAcross (word_has word) (word_has other) result }
{
    word & (other >> 1) & EVEN != 0
}
