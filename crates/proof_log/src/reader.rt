ghost use Rattle.std.specs.Prelude.{◌≡◌, ◌∷◌, [], ◌<◌, length, IfOk, OnOk, OnErr, IfSome, IfNone};
ghost use Rattle.proof_log.specs.own.Numbers.{numbers_of, after_numbers};
ghost use Rattle.proof_log.specs.own.Held.{entries_of, first_clause, other_clauses, AreSmall};
ghost use Rattle.proof_log.specs.Step.{told, told_by, IsLawful, IsLawfulBy};

use crate::literals::Literals;
use crate::number::take_number;
use crate::numbers::{Numbers, after_numbers, take_numbers};
use clause_base::literal::Lit;
use containers::memory::Memory;
use std::marker::Model;

/// An entry of a log where it stands.
#[derive(Drop)]
pub enum Step<'a> {
    /// A clause, by the codes of its literals, is learned from the clauses with these numbers.
    Learn {
        clause: Numbers<'a>,
        hints: Numbers<'a>,
    },
    /// The clause with this number is dropped.
    Drop {
        number: u32,
    },
}

/// What an entry does, where its literals and hints stand apart from it.
#[derive(Clone, Copy)]
pub enum Kind {
    /// The clause of the literals is learned by the hints.
    Learn,
    /// The clause with this number is dropped.
    Drop { number: u32 },
}

/// The entries of a log, from the next one on. Contracts see the list of them.
#[derive(Drop)]
pub struct Reader<'a> {
    left: usize,
    clauses: &'a [Literals],
    steps: &'a [u8],
}

impl<'a> Model for Reader<'a> {
    ghost use Rattle.std.specs.Prelude.{List};
    ghost use Rattle.clause_base.specs.declared.log.Entry.{Entry};
    ghost use Rattle.proof_log.specs.own.Held.{entries_of, AreSmall};

    ghost Value = { List Entry };

    ghost view = { λ r. entries_of r.left r.clauses.now r.steps.now };

    ghost invariant = { λ r. AreSmall (entries_of r.left r.clauses.now r.steps.now) };
}

/// The literals of the first of some clauses, and the others.
#[derive(Drop)]
struct First<'a> {
    clause: Numbers<'a>,
    others: &'a [Literals],
}

/// Parts the first of some clauses from the others. Where there is none, it is the empty clause.
fn first_of(clauses: &[Literals]) -> First<'_>
    ensures clause { result.clause ≡ first_clause clauses.now }
    ensures others { result.others.now ≡ other_clauses clauses.now }
{
    match clauses.split_first() {
        Some((first, others)) => First {
            clause: first.numbers(),
            others,
        },
        None => First {
            clause: Numbers::codes(&[]),
            others: clauses,
        },
    }
}

/// Puts the literals of the first of some clauses into a vector that is written over, and gives the other clauses. Where there is none,
/// it is the empty clause.
fn put_first<'a>(clauses: &'a [Literals], lits: &mut Vec<Lit>) -> Result<&'a [Literals], Memory>
    ensures clause { OnOk result (lits.new.items ≡ first_clause clauses.now) }
    ensures others { IfOk result (λ others. others.now ≡ other_clauses clauses.now) }
{
    match clauses.split_first() {
        Some((first, others)) => {
            first.put_into(lits)?;
            Ok(others)
        }
        None => {
            lits.clear();
            Ok(clauses)
        }
    }
}

impl<'a> Reader<'a> {
    /// So many entries, which learn these clauses, and with whose bytes the bytes begin.
    pub(crate) fn of(left: usize, clauses: &'a [Literals], steps: &'a [u8]) -> Reader<'a>
        requires { AreSmall (entries_of left clauses.now steps.now) }
        ensures { result ≡ entries_of left clauses.now steps.now }
    {
        Reader {
            left,
            clauses,
            steps,
        }
    }

    /// Takes the next entry out, where one is left, and tells what it does. Its literals and its hints are decoded once: they go into
    /// two vectors that are written over. After want of memory no entry is taken out.
    /// In a program this is a call of its own too: written into the check of a log, its loop would leave too few registers to
    /// those over the hints' literals.
    #[inline(never)]
    #[tactic(auto, using(crate::proofs::HeldLaws::not_all_read))]
    pub fn take_into(&mut self, lits: &mut Vec<Lit>, hints: &mut Vec<u32>) -> Result<Kind, Memory>
        requires { 0 < length self.old }
        ensures next { IfOk result (λ kind. self.old ≡ told_by kind lits.new.items hints.new.items ∷ self.new) }
        ensures lawful { IfOk result (λ kind. IsLawfulBy kind lits.new.items) }
        ensures err { OnErr result (self.new ≡ self.old) }
    {
        // For the proof: the caller knows that an entry is left, so one can be taken off below.
        if self.left == 0 {
            unreachable!()
        }
        let head = take_number(self.steps);
        let half = head.number / 2;
        if head.number % 2 != 0 {
            self.left -= 1;
            self.steps = head.rest;
            let number = (half % 4294967296) as u32;
            return Ok(Kind::Drop { number });
        }
        let others = put_first(self.clauses, lits)?;
        let rest = take_numbers(head.rest, half as usize, hints)?;
        self.left -= 1;
        self.clauses = others;
        self.steps = rest;
        Ok(Kind::Learn)
    }

    /// Takes the next entry out.
    pub fn next(&mut self) -> Option<Step<'a>>
        ensures some { IfSome result (λ step. self.old ≡ told step ∷ self.new) }
        ensures lawful { IfSome result (λ step. IsLawful step) }
        ensures none { IfNone result (self.old ≡ []) }
    {
        if self.left == 0 {
            return None;
        }
        self.left -= 1;
        let head = take_number(self.steps);
        let half = head.number / 2;
        if head.number % 2 != 0 {
            self.steps = head.rest;
            let number = (half % 4294967296) as u32;
            return Some(Step::Drop { number });
        }
        let first = first_of(self.clauses);
        self.clauses = first.others;
        self.steps = after_numbers(head.rest, half as usize);
        Some(Step::Learn {
            clause: first.clause,
            hints: Numbers::of(head.rest, half as usize),
        })
    }
}
