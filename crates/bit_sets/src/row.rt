//! Rows of bits.

use crate::word::{
    common, from_bit, has_bit, has_pair_across, least_bit, united, with_bit, without, without_bit,
};
use containers::equal::items_of;
use std::alloc::{AllocError, Global};
use std::marker::Model;

/// A set of numbers below 2^32, a bit for each number up to the greatest for which there is room. A new row has no
/// room; room comes with the numbers that are put in.
/// Contracts see the list of its words, since a value that contracts see holds no functions.
#[derive(Drop)]
pub struct BitRow {
    words: Vec<u64>,
}

impl Model for BitRow {
    ghost use Rattle.std.specs.Prelude.{ℕ, ◌≤◌, List, length};

    ghost Value = { List ℕ };

    ghost view = { λ r. r.words.items };

    // Each number that it may have is one of 32 bits.
    ghost invariant = { λ r. length r.words.items ≤ 67108864 };
}

impl BitRow {
    ghost use Rattle.std.specs.Prelude.{◌≡◌, ℕ, ◌<◌, ◌≤◌, ◌==◌, ◌||◌, ◌&&◌, not, true, false, OnOk, OnErr};
    ghost use Rattle.std.specs.Bool.{OnTrue};
    ghost use Rattle.bit_sets.specs.Rows.{room, row_has, IsLeastFrom, IsPairAcross, IsPairTest};

    /// The empty set, without room.
    pub fn new(alloc: Global) -> BitRow
        ensures room { room result ≡ 0 }
        ensures empty { (k : ℕ) → row_has result k ≡ false }
    {
        BitRow {
            words: Vec::new(alloc),
        }
    }

    /// Makes room for the numbers below a bound, at most 2^32. After want of memory there may be more room than before.
    pub fn make_room(&mut self, bound: usize) -> Result<(), AllocError>
        requires { bound ≤ 4294967296 }
        ensures room { OnOk result (bound ≤ room self.new) }
        ensures more { room self.old ≤ room self.new }
        ensures has { (k : ℕ) → row_has self.new k ≡ row_has self.old k }
    {
        grow(&mut self.words, bound.div_ceil(64))
    }

    /// True only where there is no room, so that no number is in the set; what false means is not said.
    pub fn is_without_room(&self) -> bool
        ensures { OnTrue result ((k : ℕ) → row_has self.now k ≡ false) }
    {
        self.words.is_empty()
    }

    /// Whether a number is in the set.
    pub fn contains(&self, number: u32) -> bool
        ensures { result ≡ row_has self.now number }
    {
        let place = (number / 64) as usize;
        place < self.words.len() && has_bit(self.words[place], number % 64)
    }

    /// Puts in a number for which there is room.
    pub fn set(&mut self, number: u32)
        requires { number < room self.old }
        ensures room { room self.new ≡ room self.old }
        ensures has { (k : ℕ) → row_has self.new k ≡ ((number == k) || row_has self.old k) }
    {
        set_bit(&mut self.words, number);
    }

    /// Puts in a number. After want of memory the set is as it was.
    pub fn insert(&mut self, number: u32) -> Result<(), AllocError>
        ensures has { OnOk result ((k : ℕ) → row_has self.new k ≡ ((number == k) || row_has self.old k)) }
        ensures kept { OnErr result ((k : ℕ) → row_has self.new k ≡ row_has self.old k) }
    {
        self.make_room(number as usize + 1)?;
        self.set(number);
        Ok(())
    }

    /// Takes a number out.
    pub fn remove(&mut self, number: u32)
        ensures room { room self.new ≡ room self.old }
        ensures has { (k : ℕ) → row_has self.new k ≡ (not (number == k) && row_has self.old k) }
    {
        clear_bit(&mut self.words, number);
    }

    /// Makes it the same as another, with the same room. After want of memory it is some set, of which nothing is said.
    pub fn make_same(&mut self, other: &BitRow) -> Result<(), AllocError>
        ensures { OnOk result (self.new ≡ other.now) }
    {
        self.words.clear();
        self.words.extend_from_slice(other.words.as_slice())
    }

    /// True only where it is the same as another, with the same room; what false means is not said.
    pub fn is_same(&self, other: &BitRow) -> bool
        ensures { OnTrue result (self.now ≡ other.now) }
    {
        self.words.as_slice() == other.words.as_slice()
    }

    /// True only where each number of the set is in another; what false means is not said.
    pub fn is_part_of(&self, other: &BitRow) -> bool
        ensures { OnTrue result ((k : ℕ) → row_has self.now k ≡ true → row_has other.now k ≡ true) }
    {
        is_part(self.words.as_slice(), other.words.as_slice())
    }

    /// Puts in all numbers of another set. After want of memory the set is as it was.
    pub fn unite(&mut self, other: &BitRow) -> Result<(), AllocError>
        ensures has { OnOk result ((k : ℕ) → row_has self.new k ≡ (row_has self.old k || row_has other.now k)) }
        ensures kept { OnErr result ((k : ℕ) → row_has self.new k ≡ row_has self.old k) }
    {
        let others = other.words.as_slice();
        grow(&mut self.words, others.len())?;
        unite_words(self.words.as_mut_slice(), others, 0);
        Ok(())
    }

    /// Puts in all numbers of another set that are not in a third. After want of memory the set is as it was.
    pub fn unite_without(&mut self, other: &BitRow, third: &BitRow) -> Result<(), AllocError>
        ensures has { OnOk result ((k : ℕ) → row_has self.new k ≡ (row_has self.old k || (row_has other.now k && not (row_has third.now k)))) }
        ensures kept { OnErr result ((k : ℕ) → row_has self.new k ≡ row_has self.old k) }
    {
        let others = other.words.as_slice();
        grow(&mut self.words, others.len())?;
        unite_words_without(self.words.as_mut_slice(), others, third.words.as_slice());
        Ok(())
    }

    /// Takes all numbers of another set out.
    pub fn subtract(&mut self, other: &BitRow)
        ensures room { room self.new ≡ room self.old }
        ensures has { (k : ℕ) → row_has self.new k ≡ (row_has self.old k && not (row_has other.now k)) }
    {
        subtract_words(self.words.as_mut_slice(), other.words.as_slice());
    }

    /// Takes all numbers out, and the room with them.
    pub fn clear(&mut self)
        ensures { (k : ℕ) → row_has self.new k ≡ false }
    {
        self.words.clear();
    }

    /// Whether an even number is in the set and the next one in another.
    pub fn has_pair_across(&self, other: &BitRow) -> bool
        ensures { IsPairAcross (row_has self.now) (row_has other.now) result }
    {
        has_pair_in(self.words.as_slice(), other.words.as_slice())
    }

    /// Whether an even number and the next one are both in the set.
    pub fn has_pair(&self) -> bool
        ensures { IsPairTest (row_has self.now) result }
    {
        self.has_pair_across(self)
    }

    /// The least number of the set that is at least `from`.
    pub fn least(&self, from: u32) -> Option<u32>
        ensures { IsLeastFrom (row_has self.now) from result }
    {
        let words = self.words.as_slice();
        least_in(words, words, from)
    }

    /// The least number of both sets that is at least `from`.
    pub fn least_common(&self, other: &BitRow, from: u32) -> Option<u32>
        ensures { IsLeastFrom (λ k. row_has self.now k && row_has other.now k) from result }
    {
        least_in(self.words.as_slice(), other.words.as_slice(), from)
    }
}

ghost use Rattle.std.specs.Prelude.{◌≡◌, ℕ, ◌+◌, ◌*◌, ◌/◌, ◌<◌, ◌≤◌, ◌==◌, ◌||◌, ◌&&◌, nat_le, nat_lt, not, true, false, [], length, slice_index, slice_index_or, OnOk, IfOk};
ghost use Rattle.std.specs.Bool.{OnTrue};
ghost use Rattle.bit_sets.specs.Rows.{IsLeastFrom, IsPairAcross, row_has};

/// So many empty sets.
pub fn empty_rows(alloc: Global, count: usize) -> Result<Vec<BitRow>, AllocError>
    ensures long { IfOk result (λ rows. length rows.items ≡ count) }
    ensures none { IfOk result (λ rows. (j k : ℕ) → row_has (slice_index_or rows.items j []) k ≡ false) }
{
    items_of(
        alloc,
        count,
        move ||
            ensures { result ≡ [] }
        { BitRow::new(alloc) },
    )
}

/// Appends words without bits until there are so many.
fn grow(words: &mut Vec<u64>, count: usize) -> Result<(), AllocError>
    requires count { count ≤ 67108864 }
    requires small { length words.old.items ≤ 67108864 }
    ensures long { OnOk result (count ≤ length words.new.items) }
    ensures more { length words.old.items ≤ length words.new.items }
    ensures small { length words.new.items ≤ 67108864 }
    ensures has { (k : ℕ) → row_has words.new.items k ≡ row_has words.old.items k }
{
    if words.len() < count {
        words.resize(count, 0)?;
    }
    Ok(())
}

fn set_bit(words: &mut Vec<u64>, number: u32)
    requires { number < 64 * length words.old.items }
    ensures long { length words.new.items ≡ length words.old.items }
    ensures has { (k : ℕ) → row_has words.new.items k ≡ ((number == k) || row_has words.old.items k) }
{
    let place = (number / 64) as usize;
    let word = words[place];
    words[place] = with_bit(word, number % 64);
}

fn clear_bit(words: &mut Vec<u64>, number: u32)
    ensures long { length words.new.items ≡ length words.old.items }
    ensures has { (k : ℕ) → row_has words.new.items k ≡ (not (number == k) && row_has words.old.items k) }
{
    let place = (number / 64) as usize;
    if place < words.len() {
        let word = words[place];
        words[place] = without_bit(word, number % 64);
    }
}

/// Puts the bits of other words into words, from a place on.
fn unite_words(words: &mut [u64], others: &[u64], from: usize)
    requires { length others.now ≤ length words.old }
    ensures long { length words.new ≡ length words.old }
    ensures has { (k : ℕ) → row_has words.new k ≡ (row_has words.old k || (nat_le from (k / 64) && row_has others.now k)) }
{
    for i in from..others.len() {
        words[i] = united(words[i], others[i]);
    }
}

/// Puts the bits of other words without those of thirds into words, up to a place.
fn unite_words_less(words: &mut [u64], others: &[u64], thirds: &[u64], end: usize)
    requires words { end ≤ length words.old }
    requires others { end ≤ length others.now }
    requires thirds { end ≤ length thirds.now }
    ensures long { length words.new ≡ length words.old }
    ensures has { (k : ℕ) → row_has words.new k ≡ (row_has words.old k || (nat_lt (k / 64) end && (row_has others.now k && not (row_has thirds.now k)))) }
{
    for i in 0..end {
        words[i] = united(words[i], without(others[i], thirds[i]));
    }
}

fn unite_words_without(words: &mut [u64], others: &[u64], thirds: &[u64])
    requires { length others.now ≤ length words.old }
    ensures long { length words.new ≡ length words.old }
    ensures has { (k : ℕ) → row_has words.new k ≡ (row_has words.old k || (row_has others.now k && not (row_has thirds.now k))) }
{
    let end = others.len().min(thirds.len());
    unite_words_less(words, others, thirds, end);
    unite_words(words, others, end);
}

fn subtract_words(words: &mut [u64], others: &[u64])
    ensures long { length words.new ≡ length words.old }
    ensures has { (k : ℕ) → row_has words.new k ≡ (row_has words.old k && not (row_has others.now k)) }
{
    let end = words.len().min(others.len());
    for i in 0..end {
        words[i] = without(words[i], others[i]);
    }
}

/// True only where all words from a place on are zero.
fn are_zero(words: &[u64], from: usize) -> bool
    ensures { OnTrue result ((k : ℕ) → from ≤ k / 64 → row_has words.now k ≡ false) }
{
    for i in from..words.len() {
        if words[i] != 0 {
            return false;
        }
    }
    true
}

/// True only where no bit of words is missing in others, up to a place.
fn is_part_below(words: &[u64], others: &[u64], end: usize) -> bool
    requires words { end ≤ length words.now }
    requires others { end ≤ length others.now }
    ensures { OnTrue result ((k : ℕ) → k / 64 < end → row_has words.now k ≡ true → row_has others.now k ≡ true) }
{
    for i in 0..end {
        if without(words[i], others[i]) != 0 {
            return false;
        }
    }
    true
}

fn is_part(words: &[u64], others: &[u64]) -> bool
    ensures { OnTrue result ((k : ℕ) → row_has words.now k ≡ true → row_has others.now k ≡ true) }
{
    let end = words.len().min(others.len());
    is_part_below(words, others, end) && are_zero(words, end)
}

fn has_pair_in(words: &[u64], others: &[u64]) -> bool
    ensures { IsPairAcross (row_has words.now) (row_has others.now) result }
{
    let end = words.len().min(others.len());
    for i in 0..end {
        if has_pair_across(words[i], others[i]) {
            return true;
        }
    }
    false
}

/// The least number from one on whose bit is in both of two rows of words.
fn least_in(words: &[u64], others: &[u64], from: u32) -> Option<u32>
    requires { length words.now ≤ 67108864 }
    ensures { IsLeastFrom (λ k. row_has words.now k && row_has others.now k) from result }
{
    let end = words.len().min(others.len());
    let first = (from / 64) as usize;
    if first >= end {
        return None;
    }
    let word = from_bit(common(words[first], others[first]), from % 64);
    if word != 0 {
        return Some(64 * (first as u32) + least_bit(word));
    }
    for i in first + 1..end {
        let word = common(words[i], others[i]);
        if word != 0 {
            return Some(64 * (i as u32) + least_bit(word));
        }
    }
    None
}
