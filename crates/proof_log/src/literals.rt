//! The literals of a learned clause in memory that others may share: each by its code, or as bytes, which take about a fifth of the room.
ghost use Rattle.std.specs.Prelude.{◌≡◌, length, IfOk, OnOk};
ghost use Rattle.proof_log.specs.own.Numbers.{numbers_of};
ghost use Rattle.proof_log.specs.own.Placed.{counted_numbers};

use crate::number::{put_number, take_number};
use crate::numbers::{Numbers, put_numbers, take_step};
use clause_base::literal::Lit;
use containers::SharedListOf;
use containers::memory::Memory;
use std::alloc::Global;
use std::marker::Model;

/// How literals stand in memory that others may share.
#[derive(Drop)]
enum Form {
    /// Each by its code.
    Shared(SharedListOf<Lit>),
    /// As bytes: how many there are, and how far each code is from the one before it.
    Bytes(SharedListOf<u8>),
}

/// The literals of a clause. Contracts see the list of them, wherever they stand.
#[derive(Drop)]
pub struct Literals {
    form: Form,
}

impl Model for Literals {
    ghost use Rattle.std.specs.Prelude.{List, ℕ};
    ghost use Rattle.proof_log.specs.own.Placed.{literals_in};

    ghost Value = { List ℕ };

    ghost view = { λ l. literals_in l.form };
}

/// The same numbers, in a vector.
fn codes_of(alloc: Global, numbers: &Numbers<'_>) -> Result<Vec<u32>, Memory>
    ensures { IfOk result (λ codes. codes.items ≡ numbers.now) }
{
    let mut left = numbers.copy();
    let mut codes = Vec::with_capacity(alloc, left.len())?;
    while let Some(code) = left.next() {
        codes.push(code)?;
    }
    Ok(codes)
}

/// Numbers as bytes that begin with how many there are, in no more room than these take.
fn bytes_of(alloc: Global, codes: &[u32]) -> Result<SharedListOf<u8>, Memory>
    ensures { IfOk result (λ bytes. counted_numbers bytes ≡ codes.now) }
{
    let mut bytes = Vec::new(alloc);
    put_number(&mut bytes, codes.len() as u64)?;
    put_numbers(&mut bytes, codes)?;
    let exact = SharedListOf::copied_from(alloc, &bytes)?;
    Ok(exact)
}

/// Puts literals into a vector that is written over.
fn put_lits(lits: &[Lit], into: &mut Vec<Lit>) -> Result<(), Memory>
    ensures { OnOk result (into.new.items ≡ lits.now) }
{
    into.clear();
    into.extend_from_slice(lits)?;
    Ok(())
}

/// Puts the literals that so many numbers are the codes of, with which bytes begin, into a vector that is written over.
fn decode(bytes: &[u8], count: usize, into: &mut Vec<Lit>) -> Result<(), Memory>
    ensures { OnOk result (into.new.items ≡ numbers_of count 0 bytes.now) }
{
    into.clear();
    into.reserve(count)?;
    let mut last = 0;
    let mut rest = bytes;
    for _ in 0..count {
        let next = take_step(rest, last);
        last = next.number;
        rest = next.rest;
        into.push_reserved(Lit(last));
    }
    Ok(())
}

impl Literals {
    /// The literals of a list, in the memory that it is in.
    pub fn shared(list: SharedListOf<Lit>) -> Literals
        ensures { result ≡ list }
    {
        Literals {
            form: Form::Shared(list),
        }
    }

    /// The same literals as bytes, in no more room than these take.
    pub fn packed(&self, alloc: Global) -> Result<Literals, Memory>
        ensures { IfOk result (λ packed. packed ≡ self.now) }
    {
        let codes = codes_of(alloc, &self.numbers())?;
        let bytes = bytes_of(alloc, &codes)?;
        Ok(Literals {
            form: Form::Bytes(bytes),
        })
    }

    /// The same literals, in the same memory.
    pub fn copy(&self) -> Result<Literals, Memory>
        ensures { IfOk result (λ copy. copy ≡ self.now) }
    {
        let form = match &self.form {
            Form::Shared(list) => Form::Shared(list.copy()?),
            Form::Bytes(bytes) => Form::Bytes(bytes.copy()?),
        };
        Ok(Literals { form })
    }

    /// The codes of the literals, to be taken out one by one.
    pub fn numbers(&self) -> Numbers<'_>
        ensures { result ≡ self.now }
    {
        match &self.form {
            Form::Shared(list) => Numbers::codes(list.as_slice()),
            Form::Bytes(bytes) => {
                let count = take_number(bytes.as_slice());
                Numbers::of(count.rest, count.number as usize)
            }
        }
    }

    /// Puts the literals into a vector that is written over.
    pub fn put_into(&self, lits: &mut Vec<Lit>) -> Result<(), Memory>
        ensures { OnOk result (lits.new.items ≡ self.now) }
    {
        match &self.form {
            Form::Shared(list) => put_lits(list.as_slice(), lits),
            Form::Bytes(bytes) => {
                let count = take_number(bytes.as_slice());
                decode(count.rest, count.number as usize, lits)
            }
        }
    }
}
