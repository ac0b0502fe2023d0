//! Which clauses may be pending, and what each of them asks for.
ghost use Rattle.std.specs.Prelude.{◌≡◌, ℕ, ◌*◌, ◌<◌, ◌≤◌, length, true, false, Some, slice_index, IfOk, OnOk};
ghost use Rattle.bit_sets.specs.Layered.{words_have};
ghost use Rattle.propagation.specs.own.Asks.{IsPut, IsWider, IsWithoutOne};

use crate::room::fit_asks;
use bit_sets::first::First;
use bit_sets::flat::Flat;
use bit_sets::layer::Layer;
use bit_sets::set::NumberSet;
use clause_base::literal::Lit;
use containers::let_go;
use std::alloc::{AllocError, Global};

/// What a clause without literals asks for.
pub const NO_LITERAL: u32 = 4_294_967_295;

/// A set of numbers. The least is asked for at each event, and most that enter are near it, so it is kept beside the others, which
/// stand in layers of bit words.
pub type Numbers = First<Layer<Layer<Flat>>>;

/// A set of numbers of clauses, and by number the literal that a clause asks for: all its other literals are false where it is in
/// the set.
pub struct Pending {
    pub numbers: Numbers,
    pub asks: Vec<u32>,
}

/// All parts are let go in one call, so that a proof has one step for it and not one for each part.
impl Drop for Pending {
    fn drop(self) {
        let_go!(self: Pending { numbers, asks });
    }
}

/// Makes room for a number in a set that has it for all that are less.
fn widen_numbers(numbers: &mut Numbers, number: u32) -> Result<(), AllocError>
    requires few { number < 2147483647 }
    requires room { number ≤ 64 * length numbers.old }
    ensures room { OnOk result (number < 64 * length numbers.new) }
    ensures more { length numbers.old ≤ length numbers.new }
    ensures same { (k : ℕ) → words_have numbers.new k ≡ words_have numbers.old k }
{
    if numbers.room() <= number as u64 {
        numbers.grow()?;
    }
    Ok(())
}

/// Makes room for so many numbers in an empty set.
fn make_room(numbers: &mut Numbers, count: u32) -> Result<(), AllocError>
    requires few { count ≤ 1073741824 }
    ensures room { OnOk result (count ≤ 64 * length numbers.new) }
    ensures same { OnOk result ((k : ℕ) → words_have numbers.new k ≡ words_have numbers.old k) }
{
    for word in 0..count / 64 + 1 {
        widen_numbers(numbers, 64 * word)?;
    }
    Ok(())
}

/// Makes room for what a clause asks for, where there is room for those before it.
fn widen_asks(asks: &mut Vec<u32>, number: u32) -> Result<(), AllocError>
    requires many { number ≤ length asks.old.items }
    ensures room { OnOk result (number < length asks.new.items) }
    ensures more { length asks.old.items ≤ length asks.new.items }
    ensures same { (k : ℕ) → k < length asks.old.items → slice_index asks.new.items k ≡ slice_index asks.old.items k }
{
    if asks.len() <= number as usize {
        asks.push(0)?;
    }
    Ok(())
}

impl Pending {
    /// An empty set without room. It takes no memory.
    pub fn none(alloc: Global) -> Pending {
        Pending {
            numbers: First::new(
                alloc,
                Layer::new(alloc, Layer::new(alloc, Flat::new(alloc))),
            ),
            asks: Vec::new(alloc),
        }
    }

    /// An empty set with room for so many clauses, in the memory of one that is done with.
    pub fn renewed(self, count: u32) -> Result<Pending, AllocError>
        requires few { count ≤ 1073741824 }
        ensures none { IfOk result (λ p. (k : ℕ) → words_have p.numbers k ≡ false) }
        ensures room { IfOk result (λ p. count ≤ 64 * length p.numbers) }
        ensures asks { IfOk result (λ p. length p.asks.items ≡ count) }
    {
        let mut pending = self;
        pending.clear();
        make_room(&mut pending.numbers, count)?;
        fit_asks(&mut pending.asks, count)?;
        Ok(pending)
    }

    /// Puts a clause into the set, with what it asks for.
    #[inline(always)]
    pub fn put(&mut self, number: u32, ask: u32)
        requires number { number < 64 * length self.old.numbers }
        requires ask { number < length self.old.asks.items }
        ensures { IsPut number ask self.old self.new }
    {
        self.asks[number as usize] = ask;
        self.numbers.insert(number);
    }

    /// Takes the least clause from the set, if it has this number.
    #[inline(always)]
    pub fn take_least(&mut self, number: u32)
        ensures { IsWithoutOne (Some number) self.old self.new }
    {
        if let Some(least) = self.numbers.least() {
            if least == number {
                self.numbers.remove_least();
            }
        }
    }

    /// Makes room for a clause, where there is room for all before it.
    pub fn widen(&mut self, number: u32) -> Result<(), AllocError>
        requires few { number < 2147483647 }
        requires numbers { number ≤ 64 * length self.old.numbers }
        requires asks { number ≤ length self.old.asks.items }
        ensures in_numbers { OnOk result (number < 64 * length self.new.numbers) }
        ensures in_asks { OnOk result (number < length self.new.asks.items) }
        ensures wider { IsWider self.old self.new }
    {
        widen_numbers(&mut self.numbers, number)?;
        widen_asks(&mut self.asks, number)
    }

    /// Takes all numbers from the set.
    pub fn clear(&mut self)
        ensures none { (k : ℕ) → words_have self.new.numbers k ≡ false }
        ensures room { length self.new.numbers ≡ length self.old.numbers }
        ensures asks { self.new.asks.items ≡ self.old.asks.items }
    {
        // For the proof: the numbers below it were taken, so that the loop ends.
        let mut low: u64 = 0;
        'clearing: loop {
            match self.numbers.least() {
                None => return,
                Some(number) => {
                    self.numbers.remove_least();
                    low = number as u64 + 1;
                }
            }
        }
    }
}
