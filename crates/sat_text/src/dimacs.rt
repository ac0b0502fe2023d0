//! The text of a formula in DIMACS format, in pieces.
//!
//! `specs/Dimacs.antt` says what the text is, to the byte. [`Text`] hands it out a piece at a time, so that whoever
//! writes it holds one piece and no second copy of the formula.
//!
//! ```text
//! let mut text = Text::of(b"exists", horizon, &formula);
//! while text.next(&mut piece)? {
//!     put_all(sink, &piece)?;
//! }
//! ```
ghost use Rattle.std.specs.Prelude.{◌≡◌, ◌<◌, ◌≤◌, ◌++◌, [], true, false, IfOk, OnErr, length, drop};
ghost use Rattle.sat_text.specs.Dimacs.{clause_lines, formula_text};

use crate::dimacs_line::{push_clause, push_head};
use clause_base::formula::Formula;
use std::alloc::AllocError;
use std::marker::Model;

/// From how many bytes on a piece has no further line.
const PIECE: usize = 65536;

/// The text of the formula of a horizon, from the next piece on. Contracts see the list of the bytes that are left.
#[derive(Drop)]
pub struct Text<'a> {
    word: &'a [u8],
    horizon: u32,
    formula: &'a Formula,
    begun: bool,
    number: u32,
}

impl<'a> Model for Text<'a> {
    ghost use Rattle.std.specs.Prelude.{◌≤◌, ◌++◌, List, ℕ, drop, length, if◌then◌else◌};
    ghost use Rattle.sat_text.specs.Dimacs.{comment_line, problem_line, clause_lines};

    ghost Value = { List ℕ };

    ghost view = { λ t. if t.begun then clause_lines (drop t.number t.formula.now.clauses) else comment_line t.word.now t.horizon ++ (problem_line t.formula.now.variables (length t.formula.now.clauses) ++ clause_lines (drop t.number t.formula.now.clauses)) };

    ghost invariant = { λ t. t.number ≤ length t.formula.now.clauses };
}

// Appends the lines of clauses, from the one with this number on, until there are enough bytes for a piece or no more clauses,
// and gives the number of the next one.
fn push_clauses(text: &mut Vec<u8>, formula: &Formula, from: u32) -> Result<u32, AllocError>
    requires { from ≤ length formula.now.clauses }
    ensures lines { IfOk result (λ next. text.old.items ++ clause_lines (drop from formula.now.clauses) ≡ text.new.items ++ clause_lines (drop next formula.now.clauses)) }
    ensures within { IfOk result (λ next. next ≤ length formula.now.clauses) }
    ensures some { from < length formula.now.clauses → IfOk result (λ next. 0 < length text.new.items) }
{
    let count = formula.count();
    let mut next = from;
    while next < count && text.len() < PIECE {
        push_clause(text, &formula.clause(next))?;
        next += 1;
    }
    Ok(next)
}

impl<'a> Text<'a> {
    /// The whole text of the formula of a horizon, whose steps are of the kind that the word names. It takes no memory.
    pub fn of(word: &'a [u8], horizon: u32, formula: &'a Formula) -> Text<'a>
        ensures { result ≡ formula_text word.now horizon formula.now }
    {
        Text {
            word,
            horizon,
            formula,
            begun: false,
            number: 0,
        }
    }

    /// Makes a vector hold the next piece, some lines of 65,536 bytes or a line more, and says whether there was one left.
    /// After want of memory the same piece is still the next one.
    pub fn next(&mut self, piece: &mut Vec<u8>) -> Result<bool, AllocError>
        ensures some { result ≡ Ok true → self.old ≡ piece.new.items ++ self.new }
        ensures begins { result ≡ Ok true → 0 < length piece.new.items }
        ensures none { result ≡ Ok false → self.old ≡ [] }
        ensures same { OnErr result (self.new ≡ self.old) }
    {
        piece.clear();
        if !self.begun {
            push_head(piece, self.word, self.horizon, self.formula)?;
            self.begun = true;
            return Ok(true);
        }
        if self.number == self.formula.count() {
            return Ok(false);
        }
        self.number = push_clauses(piece, self.formula, self.number)?;
        Ok(true)
    }
}
