ghost use Rattle.std.specs.Prelude.{◌≡◌, ◌+◌, ◌∷◌, [], ◌++◌, ◌<◌, ◌≤◌, ◌^◌, length, take, vec_capacity, All, OnOk, IfOk, IfSome, IfNone, IsTrue, ◌↔◌};
ghost use Rattle.proof_log.specs.own.Number.{bytes_of, number_of, after_number};
ghost use Rattle.proof_log.specs.own.Numbers.{numbers_of, after_numbers, step_to, step_from, steps_of};

use crate::number::{put_number, put_within, take_number};
use clause_base::literal::Lit;
use std::alloc::AllocError;
use std::marker::Model;

/// The step from one number to another.
pub fn step_to(last: u32, number: u32) -> u64
    ensures { result ≡ step_to last number }
{
    if last <= number {
        2 * u64::from(number - last)
    } else {
        2 * u64::from(last - number) - 1
    }
}

/// The number that a step leads to.
#[inline(always)]
pub fn step_from(last: u32, step: u64) -> u32
    ensures { result ≡ step_from last step }
{
    if step % 2 == 0 {
        ((u64::from(last) + step / 2) % 4294967296) as u32
    } else {
        u64::from(last).saturating_sub(step / 2 + 1) as u32
    }
}

/// Where numbers stand.
#[derive(Clone, Copy)]
enum Place<'a> {
    /// In bytes, so many from the next one on, and the number before it.
    Bytes {
        bytes: &'a [u8],
        left: usize,
        last: u32,
    },
    /// Each as the code of a literal.
    Lits(&'a [Lit]),
}

/// Numbers where they stand, from the next one on. Contracts see the list of them.
#[derive(Drop)]
pub struct Numbers<'a> {
    place: Place<'a>,
}

impl<'a> Model for Numbers<'a> {
    ghost use Rattle.std.specs.Prelude.{List, ℕ};
    ghost use Rattle.proof_log.specs.own.Placed.{numbers_at};

    ghost Value = { List ℕ };

    ghost view = { λ n. numbers_at n.place };
}

impl<'a> Numbers<'a> {
    /// So many numbers, with which the bytes begin.
    pub fn of(bytes: &'a [u8], count: usize) -> Numbers<'a>
        ensures { result ≡ numbers_of count 0 bytes.now }
    {
        Numbers {
            place: Place::Bytes {
                bytes,
                left: count,
                last: 0,
            },
        }
    }

    /// The codes of literals.
    pub fn codes(lits: &'a [Lit]) -> Numbers<'a>
        ensures { result ≡ lits.now }
    {
        Numbers {
            place: Place::Lits(lits),
        }
    }

    /// The same numbers, to be taken out on their own.
    pub fn copy(&self) -> Numbers<'a>
        ensures { result ≡ self.now }
    {
        Numbers { place: self.place }
    }

    /// How many numbers are left.
    pub fn len(&self) -> usize
        ensures { result ≡ length self.now }
    {
        match self.place {
            Place::Bytes {
                bytes: _,
                left,
                last: _,
            } => left,
            Place::Lits(lits) => lits.len(),
        }
    }

    /// Takes the next number out.
    pub fn next(&mut self) -> Option<u32>
        ensures some { IfSome result (λ n. self.old ≡ n ∷ self.new) }
        ensures none { IfNone result (self.old ≡ []) }
    {
        match self.place {
            Place::Bytes { bytes, left, last } => {
                if left == 0 {
                    return None;
                }
                let next = take_step(bytes, last);
                self.place = Place::Bytes {
                    bytes: next.rest,
                    left: left - 1,
                    last: next.number,
                };
                Some(next.number)
            }
            Place::Lits(lits) => {
                let (lit, rest) = lits.split_first()?;
                self.place = Place::Lits(rest);
                Some(lit.0)
            }
        }
    }
}

/// A number of a list, and the bytes after it.
#[derive(Clone, Copy)]
pub struct Next<'a> {
    pub number: u32,
    pub rest: &'a [u8],
}

/// Reads the step that the bytes begin with, and tells the number that it leads to from the one before it.
#[inline(always)]
pub fn take_step(bytes: &[u8], last: u32) -> Next<'_>
    ensures number { result.number ≡ step_from last (number_of bytes.now) }
    ensures rest { result.rest.now ≡ after_number bytes.now }
{
    let taken = take_number(bytes);
    Next {
        number: step_from(last, taken.number),
        rest: taken.rest,
    }
}

/// Reads so many numbers, with which the bytes begin, into a vector that is written over, and gives the bytes after them.
pub fn take_numbers<'a>(
    bytes: &'a [u8],
    count: usize,
    numbers: &mut Vec<u32>,
) -> Result<&'a [u8], AllocError>
    ensures numbers { OnOk result (numbers.new.items ≡ numbers_of count 0 bytes.now) }
    ensures rest { IfOk result (λ rest. rest.now ≡ after_numbers count bytes.now) }
{
    numbers.clear();
    numbers.reserve(count)?;
    let mut last = 0;
    let mut rest = bytes;
    for _ in 0..count {
        let next = take_step(rest, last);
        last = next.number;
        rest = next.rest;
        numbers.push_reserved(last);
    }
    Ok(rest)
}

/// The bytes after so many numbers.
pub fn after_numbers(bytes: &[u8], count: usize) -> &[u8]
    ensures { result.now ≡ after_numbers count bytes.now }
{
    let mut rest = bytes;
    for _ in 0..count {
        rest = take_number(rest).rest;
    }
    rest
}

/// How many bytes the step between two numbers takes at most.
pub const MOST_STEP: usize = 5;

/// Adds a number by its step from the one before it, where there is room for five bytes. It takes no memory.
#[inline(always)]
pub fn put_step_within(bytes: &mut Vec<u8>, last: u32, number: u32)
    requires { length bytes.old.items + 5 ≤ vec_capacity bytes.old }
    ensures put { bytes.new.items ≡ bytes.old.items ++ bytes_of (step_to last number) }
    ensures few { length bytes.new.items ≤ length bytes.old.items + 5 }
    ensures capacity { vec_capacity bytes.new ≡ vec_capacity bytes.old }
{
    put_within(bytes, step_to(last, number));
}

/// Adds numbers. After want of memory the bytes that stood before still stand first.
pub fn put_numbers(bytes: &mut Vec<u8>, numbers: &[u32]) -> Result<(), AllocError>
    ensures ok { OnOk result (bytes.new.items ≡ bytes.old.items ++ steps_of 0 numbers.now) }
    ensures small { OnOk result (All (λ n. n < 2 ^ 32) numbers.now) }
    ensures before { take (length bytes.old.items) bytes.new.items ≡ bytes.old.items }
{
    bytes.reserve(MOST_STEP * numbers.len())?;
    let mut last = 0;
    for number in numbers {
        put_step_within(bytes, last, *number);
        last = *number;
    }
    Ok(())
}
