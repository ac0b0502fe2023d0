//! Lines, judged one after another.
ghost use Rattle.std.specs.Prelude.{◌≡◌, ◌+◌, ℕ, List, [], length, IfOk, if◌then◌else◌};
ghost use Rattle.clause_base.specs.Formula.{IsUnsatisfiable};
ghost use Rattle.lrat_judge.specs.Judged.{IsRefutedBy, HasCounted, counted};
ghost use Rattle.sat_text.specs.Words.{words_of};
ghost use Rattle.sat_text.specs.LratLine.{LineView, IsHeld, is_passed};
ghost use Rattle.lrat_judge.specs.Follow.{Known, known_first, follow};
ghost use Rattle.lrat_judge.specs.Verdicts.{outcome_of};
ghost use Rattle.lrat_judge.specs.Reached.{StandsAt, Stands, IsBefore, Comes};

use crate::entries::{forget, learn};
use crate::ids::IdTable;
use crate::verdict::{Verdict, is_long};
use clause_base::formula::Formula;
use containers::memory::Memory;
use rup_check::checker::Checker;
use sat_text::lrat_line::{Line, is_passed};
use std::alloc::Global;
use std::marker::Model;

/// What takes the lines of a proof. Contracts see the formula.
#[derive(Drop)]
pub struct Lines<'a> {
    alloc: Global,
    checker: Checker<'a>,
    ids: IdTable,
    line: Line,
    hints: Vec<u32>,
    at: u64,
    count: u64,
    entries: u64,
}

impl<'a> Model for Lines<'a> {
    ghost use Rattle.std.specs.Prelude.{[]};
    ghost use Rattle.lrat_judge.specs.Judged.{Judged, HasCounted};

    ghost Value = { Judged };

    ghost view = { λ l. record { formula = l.checker.formula; checker = l.checker; ids = l.ids; at = l.at; count = l.count; entries = l.entries; front = [] } };

    ghost invariant = { λ l. HasCounted l.checker l.entries };
}

// Takes the line that was read, exactly where it follows, and says whether it does.
fn take_read(
    alloc: Global,
    checker: &mut Checker<'_>,
    ids: &mut IdTable,
    line: &Line,
    hints: &mut Vec<u32>,
    entries: &mut u64,
) -> Result<bool, Memory>
    requires { HasCounted checker.old entries.old }
    ensures formula { checker.new.formula ≡ checker.old.formula }
    ensures counted { HasCounted checker.new entries.new }
    ensures exact { (known : Known) (view : LineView) → StandsAt checker.old ids.old entries.old known → IsHeld view line.now
        → IfOk result (λ follows. Stands follows checker.new ids.new entries.new (follow checker.old.formula known view)) }
{
    if line.deletes {
        return Ok(forget(checker, ids, line, entries));
    }
    learn(alloc, checker, ids, line, hints, entries)
}

// What is said of the bytes of a line that are none, and begin at an offset: they are passed over where they tell nothing.
fn unread(bytes: &[u8], at: u64) -> Verdict
    ensures { result ≡ (if is_passed (words_of bytes.now) then Verdict.More else Verdict.Syntax at) }
{
    if is_passed(bytes) {
        Verdict::More
    } else {
        Verdict::Syntax { at }
    }
}

impl<'a> Lines<'a> {
    /// Before the first line.
    pub fn new(alloc: Global, formula: &'a Formula) -> Result<Lines<'a>, Memory>
        ensures formula { IfOk result (λ lines. lines.formula ≡ formula.now) }
        ensures before { IfOk result (λ lines. IsBefore lines (known_first formula.now) 0 0) }
    {
        let checker = Checker::new(alloc, formula)?;
        Ok(Lines {
            alloc,
            checker,
            ids: IdTable::new(alloc, formula.count()),
            line: Line::new(alloc),
            hints: Vec::new(alloc),
            at: 0,
            count: 0,
            entries: 0,
        })
    }

    /// The number of the next line, counted from 1.
    pub fn next(&self) -> u64
        ensures { result ≡ counted (self.now.count + 1) }
    {
        self.count.saturating_add(1)
    }

    /// Takes the bytes of the next line, without its LF.
    pub fn take(&mut self, bytes: &[u8]) -> Result<Verdict, Memory>
        ensures formula { self.new.formula ≡ self.old.formula }
        ensures refuted { (entries : ℕ) → result ≡ Ok (Verdict.Refuted entries) → IsUnsatisfiable self.old.formula.clauses }
        ensures entries { (entries : ℕ) → result ≡ Ok (Verdict.Refuted entries) → IsRefutedBy self.old.formula entries }
        ensures comes { (known : Known) (at count : ℕ) → IsBefore self.old known at count
            → IfOk result (λ verdict. Comes (outcome_of self.old.formula known at count bytes.now) verdict self.new (at + length bytes.now + 1) (count + 1)) }
    {
        let at = self.at;
        self.at = at.saturating_add(bytes.len() as u64 + 1);
        self.count = self.count.saturating_add(1);
        if is_long(bytes) {
            return Ok(Verdict::TooLong { line: self.count });
        }
        if !self.line.read(bytes)? {
            return Ok(unread(bytes, at));
        }
        if !take_read(
            self.alloc,
            &mut self.checker,
            &mut self.ids,
            &self.line,
            &mut self.hints,
            &mut self.entries,
        )? {
            return Ok(Verdict::Rejected { line: self.count });
        }
        if self.checker.is_refuted() {
            return Ok(Verdict::Refuted {
                entries: self.entries,
            });
        }
        Ok(Verdict::More)
    }
}
