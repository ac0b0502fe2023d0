//! The latest of the positions that are marked.
ghost use Rattle.std.specs.Prelude.{◌≡◌, ℕ, ◌*◌, ◌<◌, true, false, length};
ghost use Rattle.bit_sets.specs.Layered.{word_has, words_have};
ghost use Rattle.conflict_analysis.specs.own.Resolvent.{IsLatest};

use bit_sets::word::{from_bit, has_bit, without};

/// Whether a position is marked.
#[inline(always)]
pub(crate) fn has_mark(words: &[u64], position: u32) -> bool
    requires { position < 64 * length words.now }
    ensures { result ≡ words_have words.now position }
{
    has_bit(words[(position / 64) as usize], position % 64)
}

/// The greatest bit of a word that has one.
#[inline(always)]
fn greatest_bit(word: u64) -> u32
    requires { 0 < word }
    ensures small { result < 64 }
    ensures has { word_has word result ≡ true }
    ensures rest { (k : ℕ) → result < k → word_has word k ≡ false }
{
    63 - word.leading_zeros()
}

/// The latest marked position before a bound, if there is one: words are looked at, and no entry of a trail.
#[inline(always)]
pub(crate) fn latest(words: &[u64], bound: u32) -> Option<u32>
    requires { bound < 64 * length words.now }
    ensures { IsLatest (words_have words.now) bound result }
{
    let mut place = bound / 64;
    let last = words[place as usize];
    let mut word = without(last, from_bit(last, bound % 64));
    while word == 0 {
        if place == 0 {
            return None;
        }
        place -= 1;
        word = words[place as usize];
    }
    Some(64 * place + greatest_bit(word))
}
