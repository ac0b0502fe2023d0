ghost use Rattle.std.specs.Prelude.{◌≡◌, ℕ, ◌<◌, ◌≤◌, ◌*◌, ◌/◌, ◌==◌, ◌||◌, ◌&&◌, ◌+◌, Bool, true, false, not, length, slice_index, All, Some, IfSome};
ghost use Rattle.bit_sets.specs.Layered.{IsLeast, IsLeastNear, IsPast, words_have, LayerView, IsAbove};

use crate::flat::{clear_bit, set_bit, word_least};
use crate::set::NumberSet;
use crate::word::least_bit;
use std::alloc::{AllocError, Global};
use std::marker::Model;

/// A set with 64 times the room of the one above, which has the places of the words that are not 0.
#[derive(Drop)]
pub struct Layer<S: NumberSet> {
    words: Vec<u64>,
    above: S,
}

impl<S: NumberSet> Model for Layer<S> {
    ghost use Rattle.std.specs.Prelude.{◌≤◌, length};
    ghost use Rattle.bit_sets.specs.Layered.{LayerView, IsAbove};

    ghost Value = { LayerView S };

    ghost view = { λ s. record { words = s.words.items; above = s.above } };

    // The set above has the places of the words that are not 0, so its least member tells the word of the least here; and each number
    // is one of 32 bits.
    ghost invariant = { λ s. (length s.words.items ≤ S.room s.above) × (length s.words.items ≤ 67108864) × IsAbove s.words.items (S.has s.above) };
}

impl<S: NumberSet> NumberSet for Layer<S> {
    ghost room = { λ s. 64 * length s.words };

    ghost has = { λ s k. words_have s.words k };

    fn insert(&mut self, number: u32) {
        let empty = set_bit(&mut self.words, number);
        if empty {
            self.above.insert(number / 64);
        }
    }

    fn remove(&mut self, number: u32) {
        let empty = clear_bit(&mut self.words, number);
        if empty {
            self.above.remove(number / 64);
        }
    }

    #[inline(always)]
    fn least_near(&self, number: u32) -> Option<u32> {
        word_least(&self.words, number)
    }

    fn least(&self) -> Option<u32> {
        match self.above.least() {
            None => None,
            Some(place) => Some(64 * place + least_bit(self.words[place as usize])),
        }
    }

    fn room(&self) -> u64 {
        64 * self.words.len() as u64
    }

    #[tactic(auto, using(crate::proofs::BitLemmas::get_push_zero))]
    fn grow(&mut self) -> Result<(), AllocError> {
        if self.words.len() as u64 == self.above.room() {
            self.above.grow()?;
        }
        self.words.push(0)?;
        Ok(())
    }
}

impl<S: NumberSet> Layer<S> {
    /// A set without room over one that is empty.
    pub fn new(alloc: Global, above: S) -> Layer<S>
        requires { (k : ℕ) → S.has above k ≡ false }
        ensures { (k : ℕ) → words_have result.words k ≡ false }
    {
        Layer {
            words: Vec::new(alloc),
            above,
        }
    }

    /// The least number of a set all of whose numbers are past one, if it is in one of the 64 words that the word of that number is
    /// one of. Only that word is looked at and the one that says which of the 64 are not 0.
    #[inline(always)]
    pub fn least_beside(&self, past: u32) -> Option<u32>
        requires inside { past < 64 * length self.now.words }
        requires past { IsPast (words_have self.now.words) (Some past) }
        ensures { IfSome result (λ n. IsLeast (words_have self.now.words) (Some n)) }
    {
        match self.above.least_near(past / 64) {
            None => None,
            Some(place) => Some(64 * place + least_bit(self.words[place as usize])),
        }
    }
}
