//! A set that keeps its least member beside the others. It is known without a search, and only where it is taken out the next one
//! is sought: where numbers come and go near the least, as in a queue by priority, most of the work is at the front.
ghost use Rattle.std.specs.Prelude.{◌≡◌, ℕ, ◌<◌, ◌≤◌, ◌*◌, ◌==◌, ◌||◌, ◌&&◌, Bool, true, false, not, length, Some, IfSome, MatchOption};
ghost use Rattle.bit_sets.specs.Layered.{IsLeast, IsLeastNear, words_have, IsTakenLeast, IsPast, IsInside, bits_with};

use crate::layer::Layer;
use crate::set::NumberSet;
use std::alloc::{AllocError, Global};
use std::marker::Model;

/// The least number of a set, if there is one, and a layered set of the others.
#[derive(Drop)]
pub struct First<S: NumberSet> {
    least: Option<u32>,
    others: Layer<S>,
}

impl<S: NumberSet> Model for First<S> {
    ghost use Rattle.std.specs.Prelude.{List, ℕ};
    ghost use Rattle.bit_sets.specs.Layered.{IsFirst, words_with};

    ghost Value = { List ℕ };

    ghost view = { λ s. words_with s.others.words s.least };

    ghost invariant = { λ s. IsFirst s.others.words s.least };
}

/// The least number of a set all of whose numbers are past one, if it has one: mostly the two stand in the same word, or in two that
/// are near each other.
#[inline(always)]
fn least_past<S: NumberSet>(set: &Layer<S>, past: u32) -> Option<u32>
    requires inside { past < 64 * length set.now.words }
    requires past { IsPast (words_have set.now.words) (Some past) }
    ensures { IsLeast (words_have set.now.words) result }
{
    if let Some(number) = set.least_near(past) {
        return Some(number);
    }
    if let Some(number) = set.least_beside(past) {
        return Some(number);
    }
    set.least()
}

/// Takes the least number out of a set all of whose numbers are past one, if it has one.
#[inline(always)]
fn take_next<S: NumberSet>(set: &mut Layer<S>, past: u32) -> Option<u32>
    requires inside { past < 64 * length set.old.words }
    requires past { IsPast (words_have set.old.words) (Some past) }
    ensures taken { IsTakenLeast (words_have set.old.words) (words_have set.new.words) result }
    ensures inside { IsInside set.new.words result }
    ensures room { length set.new.words ≡ length set.old.words }
{
    let next = least_past(set, past);
    if let Some(number) = next {
        set.remove(number);
    }
    next
}

/// Puts a number into a set beside its least member, which is kept apart. The result is the least of both.
fn put_beside<S: NumberSet>(least: u32, others: &mut Layer<S>, number: u32) -> u32
    requires number { number < 64 * length others.old.words }
    requires least { least < 64 * length others.old.words }
    requires past { IsPast (words_have others.old.words) (Some least) }
    ensures has { (k : ℕ) → bits_with others.new.words result k ≡ (k == number || bits_with others.old.words least k) }
    ensures past { IsPast (words_have others.new.words) (Some result) }
    ensures inside { result < 64 * length others.new.words }
    ensures room { length others.new.words ≡ length others.old.words }
{
    if number == least {
        return least;
    }
    others.insert(number.max(least));
    number.min(least)
}

impl<S: NumberSet> NumberSet for First<S> {
    ghost room = { λ s. 64 * length s };

    ghost has = { λ s k. words_have s k };

    fn insert(&mut self, number: u32) {
        match self.least {
            None => self.least = Some(number),
            Some(least) => {
                let next = put_beside(least, &mut self.others, number);
                self.least = Some(next);
            }
        }
    }

    fn remove(&mut self, number: u32) {
        if self.least == Some(number) {
            self.least = take_next(&mut self.others, number);
        } else {
            self.others.remove(number);
        }
    }

    fn least_near(&self, number: u32) -> Option<u32> {
        match self.least {
            Some(least) if least / 64 == number / 64 => Some(least),
            _ => None,
        }
    }

    fn least(&self) -> Option<u32> {
        self.least
    }

    fn room(&self) -> u64 {
        self.others.room()
    }

    fn grow(&mut self) -> Result<(), AllocError> {
        self.others.grow()?;
        Ok(())
    }
}

impl<S: NumberSet> First<S> {
    /// Takes the least number out of the set, if it has one. Where it is known that a number is the least, this costs less than
    /// to take out that number.
    #[inline(always)]
    pub fn remove_least(&mut self)
        ensures has { (n : ℕ) → IsLeast (words_have self.old) (Some n) → (k : ℕ) → words_have self.new k ≡ (not (k == n) && words_have self.old k) }
        ensures room { length self.new ≡ length self.old }
    {
        if let Some(least) = self.least {
            self.least = take_next(&mut self.others, least);
        }
    }

    /// A set without room over one that is empty.
    pub fn new(alloc: Global, above: S) -> First<S>
        requires { (k : ℕ) → S.has above k ≡ false }
        ensures { (k : ℕ) → words_have result k ≡ false }
    {
        First {
            least: None,
            others: Layer::new(alloc, above),
        }
    }
}
