//! Pieces of a text, cut into lines.
ghost use Rattle.std.specs.Prelude.{◌≡◌, ◌≢◌, ◌<◌, ◌+◌, ◌++◌, ◌∷◌, [], ℕ, List, true, false, length, IfOk, IfSome, IfNone};
ghost use Rattle.clause_base.specs.Formula.{IsUnsatisfiable};
ghost use Rattle.lrat_judge.specs.Judged.{IsRefutedBy, has_empty, counted};
ghost use Rattle.lrat_judge.specs.Follow.{Known};
ghost use Rattle.lrat_judge.specs.Verdicts.{outcome_of, verdict_of, verdict_ended, most_line};
ghost use Rattle.lrat_judge.specs.Reached.{IsBefore, Comes, HasRead, has_no_end};

use crate::lines::Lines;
use crate::verdict::{Verdict, is_long};
use clause_base::formula::Formula;
use containers::memory::Memory;
use sat_text::lines::first_line;
use std::alloc::Global;
use std::marker::Model;

/// A judge of one proof, for one formula. Contracts see the formula.
#[derive(Drop)]
pub struct Judge<'a> {
    // Whether the formula has the empty clause.
    at_once: bool,
    front: Vec<u8>,
    lines: Lines<'a>,
}

impl<'a> Model for Judge<'a> {
    ghost use Rattle.std.specs.Prelude.{◌≡◌};
    ghost use Rattle.lrat_judge.specs.Judged.{Judged, has_empty};

    ghost Value = { Judged };

    ghost view = { λ j. record { formula = j.lines.formula; checker = j.lines.checker; ids = j.lines.ids; at = j.lines.at; count = j.lines.count; entries = j.lines.entries; front = j.front.items } };

    ghost invariant = { λ j. j.at_once ≡ has_empty j.lines.formula.clauses };
}

// What is said where the text has ended, by what was said of its last line.
fn ended(verdict: Verdict) -> Verdict
    ensures { result ≡ verdict_ended verdict }
{
    match verdict {
        Verdict::More => Verdict::NotEmpty,
        _ => verdict,
    }
}

// Whether the empty clause is one of a formula's.
fn has_empty(formula: &Formula) -> bool
    ensures { result ≡ has_empty formula.now.clauses }
{
    for number in 0..formula.count() {
        if formula.clause(number).len() == 0 {
            return true;
        }
    }
    false
}

impl<'a> Judge<'a> {
    /// A judge that has taken no text.
    pub fn new(alloc: Global, formula: &'a Formula) -> Result<Judge<'a>, Memory>
        ensures formula { IfOk result (λ judge. judge.formula ≡ formula.now) }
        ensures read { IfOk result (λ judge. HasRead judge []) }
    {
        Ok(Judge {
            at_once: has_empty(formula),
            front: Vec::new(alloc),
            lines: Lines::new(alloc, formula)?,
        })
    }

    // Whether the formula has the empty clause.
    fn is_refuted(&self) -> bool
        ensures { result ≡ has_empty self.now.formula.clauses }
    {
        self.at_once
    }

    // Takes the end of the next line, whose front is held.
    fn take_end(&mut self, end: &[u8]) -> Result<Verdict, Memory>
        ensures formula { self.new.formula ≡ self.old.formula }
        ensures refuted { (entries : ℕ) → result ≡ Ok (Verdict.Refuted entries) → IsUnsatisfiable self.old.formula.clauses }
        ensures entries { (entries : ℕ) → result ≡ Ok (Verdict.Refuted entries) → IsRefutedBy self.old.formula entries }
        ensures comes { (known : Known) (at count : ℕ) → IsBefore self.old known at count
            → IfOk result (λ verdict. Comes (outcome_of self.old.formula known at count (self.old.front ++ end.now)) verdict self.new (at + length (self.old.front ++ end.now) + 1) (count + 1)) }
        ensures front { result ≡ Ok Verdict.More → self.new.front ≡ [] }
    {
        if self.front.as_slice().is_empty() {
            return self.lines.take(end);
        }
        self.front.extend_from_slice(end)?;
        let verdict = self.lines.take(&self.front)?;
        self.front.clear();
        Ok(verdict)
    }

    // Holds more of the front of the next line, whose end is not there yet, where it is not too long.
    fn hold(&mut self, rest: &[u8]) -> Result<Verdict, Memory>
        ensures formula { self.new.formula ≡ self.old.formula }
        ensures held { result ≡ Ok Verdict.More → self.new ≡ record self.old { front = self.old.front ++ rest.now } }
        ensures long { IfOk result (λ verdict. verdict ≢ Verdict.More → (verdict ≡ Verdict.TooLong (counted (self.old.count + 1))) × (most_line < length (self.old.front ++ rest.now))) }
    {
        self.front.extend_from_slice(rest)?;
        if is_long(&self.front) {
            return Ok(Verdict::TooLong {
                line: self.lines.next(),
            });
        }
        Ok(Verdict::More)
    }

    // Takes the next piece of the text, of a formula without the empty clause.
    fn take_lines(&mut self, piece: &[u8]) -> Result<Verdict, Memory>
        requires { has_empty self.old.formula.clauses ≡ false }
        ensures formula { self.new.formula ≡ self.old.formula }
        ensures refuted { (entries : ℕ) → result ≡ Ok (Verdict.Refuted entries) → IsUnsatisfiable self.old.formula.clauses }
        ensures entries { (entries : ℕ) → result ≡ Ok (Verdict.Refuted entries) → IsRefutedBy self.old.formula entries }
        ensures verdict { (text : List ℕ) → HasRead self.old text → IfOk result (λ verdict. verdict ≢ Verdict.More → (more : List ℕ) → verdict ≡ verdict_of self.old.formula ((text ++ piece.now) ++ more)) }
        ensures read { (text : List ℕ) → HasRead self.old text → result ≡ Ok Verdict.More → HasRead self.new (text ++ piece.now) }
    {
        let mut rest = piece;
        while let Some((line, others)) = first_line(rest) {
            let verdict = self.take_end(line)?;
            match verdict {
                Verdict::More => rest = others,
                _ => return Ok(verdict),
            }
        }
        self.hold(rest)
    }

    /// Takes the next piece of the text, cut off anywhere. After any verdict but `More`, which is that on each text that begins so, and
    /// after want of memory, the judging is over.
    pub fn take(&mut self, piece: &[u8]) -> Result<Verdict, Memory>
        ensures formula { self.new.formula ≡ self.old.formula }
        ensures refuted { (entries : ℕ) → result ≡ Ok (Verdict.Refuted entries) → IsUnsatisfiable self.old.formula.clauses }
        ensures entries { (entries : ℕ) → result ≡ Ok (Verdict.Refuted entries) → IsRefutedBy self.old.formula entries }
        ensures verdict { (text : List ℕ) → HasRead self.old text → IfOk result (λ verdict. verdict ≢ Verdict.More → (more : List ℕ) → verdict ≡ verdict_of self.old.formula ((text ++ piece.now) ++ more)) }
        ensures read { (text : List ℕ) → HasRead self.old text → result ≡ Ok Verdict.More → HasRead self.new (text ++ piece.now) }
    {
        if self.is_refuted() {
            return Ok(Verdict::Refuted { entries: 0 });
        }
        self.take_lines(piece)
    }

    /// Takes that the text ends after the pieces so far, and answers what is then known. The last line may lack its LF.
    pub fn finish(&mut self) -> Result<Verdict, Memory>
        ensures formula { self.new.formula ≡ self.old.formula }
        ensures refuted { (entries : ℕ) → result ≡ Ok (Verdict.Refuted entries) → IsUnsatisfiable self.old.formula.clauses }
        ensures entries { (entries : ℕ) → result ≡ Ok (Verdict.Refuted entries) → IsRefutedBy self.old.formula entries }
        ensures verdict { (text : List ℕ) → HasRead self.old text → IfOk result (λ verdict. verdict ≡ verdict_of self.old.formula text) }
    {
        if self.is_refuted() {
            return Ok(Verdict::Refuted { entries: 0 });
        }
        let verdict = self.lines.take(&self.front)?;
        Ok(ended(verdict))
    }
}
