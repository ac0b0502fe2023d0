ghost use Rattle.std.specs.Prelude.{◌≡◌, ℕ, ◌<◌, ◌≤◌, ◌*◌, ◌/◌, ◌==◌, ◌||◌, ◌&&◌, ◌+◌, Bool, true, false, not, [], length, slice_index, IfSome};
ghost use Rattle.bit_sets.specs.Layered.{IsLeast, IsLeastNear, words_have};

use crate::set::NumberSet;
use crate::word::{least_bit, with_bit, without_bit};
use std::alloc::{AllocError, Global};
use std::marker::Model;

/// Sets a bit, and tells whether its word was 0.
pub fn set_bit(words: &mut Vec<u64>, number: u32) -> bool
    requires { number < 64 * length words.old.items }
    ensures has { (k : ℕ) → words_have words.new.items k ≡ (k == number || words_have words.old.items k) }
    ensures was { result ≡ (slice_index words.old.items (number / 64) == 0) }
    ensures full { slice_index words.new.items (number / 64) == 0 ≡ false }
    ensures len { length words.new.items ≡ length words.old.items }
    ensures others { (j : ℕ) → (j ≡ number / 64 → ⊥) → slice_index words.new.items j ≡ slice_index words.old.items j }
{
    let place = (number / 64) as usize;
    let word = words[place];
    words[place] = with_bit(word, number % 64);
    word == 0
}

/// Clears a bit, and tells whether its word is 0 now.
pub fn clear_bit(words: &mut Vec<u64>, number: u32) -> bool
    requires { number < 64 * length words.old.items }
    ensures has { (k : ℕ) → words_have words.new.items k ≡ (not (k == number) && words_have words.old.items k) }
    ensures is { result ≡ (slice_index words.new.items (number / 64) == 0) }
    ensures kept { slice_index words.new.items (number / 64) == 0 ≡ false → slice_index words.old.items (number / 64) == 0 ≡ false }
    ensures len { length words.new.items ≡ length words.old.items }
    ensures others { (j : ℕ) → (j ≡ number / 64 → ⊥) → slice_index words.new.items j ≡ slice_index words.old.items j }
{
    let place = (number / 64) as usize;
    let word = without_bit(words[place], number % 64);
    words[place] = word;
    word == 0
}

/// The least number in the word that a number is in, if that word has one. No other word is looked at.
#[inline(always)]
pub fn word_least(words: &[u64], number: u32) -> Option<u32>
    requires inside { number < 64 * length words.now }
    requires few { length words.now ≤ 67108864 }
    ensures { IfSome result (λ n. IsLeastNear (words_have words.now) number n) }
{
    let place = number / 64;
    let word = words[place as usize];
    if word == 0 {
        return None;
    }
    Some(64 * place + least_bit(word))
}

/// A set whose words are looked through, in order, for its least member.
#[derive(Drop)]
pub struct Flat {
    words: Vec<u64>,
}

impl Model for Flat {
    ghost use Rattle.std.specs.Prelude.{List, ℕ, ◌≤◌, length};

    ghost Value = { List ℕ };

    ghost view = { λ s. s.words.items };

    // Each number that it may have is one of 32 bits.
    ghost invariant = { λ s. length s.words.items ≤ 67108864 };
}

impl Flat {
    /// A set without room.
    pub fn new(alloc: Global) -> Flat
        ensures { result ≡ [] }
    {
        Flat {
            words: Vec::new(alloc),
        }
    }
}

impl NumberSet for Flat {
    ghost room = { λ s. 64 * length s };

    ghost has = { λ s k. words_have s k };

    fn insert(&mut self, number: u32) {
        set_bit(&mut self.words, number);
    }

    fn remove(&mut self, number: u32) {
        clear_bit(&mut self.words, number);
    }

    fn room(&self) -> u64 {
        64 * self.words.len() as u64
    }

    #[tactic(auto, using(crate::proofs::BitLemmas::get_push_zero))]
    fn grow(&mut self) -> Result<(), AllocError> {
        self.words.push(0)?;
        Ok(())
    }

    #[inline(always)]
    fn least_near(&self, number: u32) -> Option<u32> {
        word_least(&self.words, number)
    }

    fn least(&self) -> Option<u32> {
        for (place, word) in self.words.iter().enumerate() {
            if *word != 0 {
                return Some(64 * place as u32 + least_bit(*word));
            }
        }
        None
    }
}
