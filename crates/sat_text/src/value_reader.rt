//! What a SAT solver prints of a model, as text: lines `v` with the literals that it makes true, up to a 0.
//!
//! [`Reader`] takes the text in pieces of any length, and holds the values and one line, which has at most `MOST_LINE` bytes; `first_false`
//! says whether values make each clause of a formula true.
//!
//! ```text
//! let mut reader = Reader::new(alloc, formula.variables())?;
//! while let Some(piece) = tape.next()? {
//!     if let Some(refused) = reader.take(piece)? {
//!         return Ok(told(refused));
//!     }
//! }
//! match reader.finish() {
//!     Some(refused) => Ok(told(refused)),
//!     None => Ok(first_false(&formula, reader.as_slice())),
//! }
//! ```
ghost use Rattle.std.specs.Prelude.{◌≡◌, ◌<◌, ◌+◌, ◌++◌, [], ℕ, List, length, nat_lt, Ok, None, IfOk, IfSome};
ghost use Rattle.sat_text.specs.Lines.{counted};
ghost use Rattle.sat_text.specs.Values.{Told, Values, most_values_line, outcome_of, model_of, refused_by};
ghost use Rattle.sat_text.specs.Stands.{IsBefore, Comes, HasRead};

use crate::lines::first_line;
use crate::value_lines::Lines;
use containers::memory::Memory;
use std::alloc::Global;
use std::marker::Model;

/// How many bytes a line of a model may have, without its LF.
pub const MOST_LINE: usize = 268_435_456;

/// Why a text is none of a model that is taken.
#[derive(Clone, Copy, PartialEq, Eq)]
pub enum Refused {
    /// A line is none of a model, or contradicts the lines before it, or the values have no 0 at their end.
    NoText {
        /// The offset of the first byte of that line, or the length of the text.
        at: u64,
    },
    /// A line has more than `MOST_LINE` bytes.
    LongLine {
        /// Its number, counted from 1.
        line: u64,
    },
}

/// What takes the text of a model. Contracts see what it holds.
#[derive(Drop)]
pub struct Reader {
    front: Vec<u8>,
    lines: Lines,
    // How many lines were taken.
    count: u64,
}

impl Model for Reader {
    ghost use Rattle.sat_text.specs.Stands.{ReaderView};

    ghost Value = { ReaderView };

    ghost view = { λ r. record { table = r.lines.table; ended = r.lines.ended; at = r.lines.at; count = r.count; front = r.front.items } };
}

// Whether a line, or the front of one, has more bytes than a line may have.
fn is_long(bytes: &[u8]) -> bool
    ensures { result ≡ nat_lt most_values_line (length bytes.now) }
{
    MOST_LINE < bytes.len()
}

// Takes the bytes of the next line, and says why the text is none, where the line tells that.
fn take_line(lines: &mut Lines, count: &mut u64, bytes: &[u8]) -> Option<Refused>
    ensures { (variables : ℕ) (told : Told) (at before : ℕ) → IsBefore variables told at before (record lines.old { count = count.old })
        → Comes variables (outcome_of variables told at before bytes.now) result (record lines.new { count = count.new }) (at + length bytes.now + 1) (before + 1) }
{
    let at = lines.at();
    *count = count.saturating_add(1);
    if is_long(bytes) {
        return Some(Refused::LongLine { line: *count });
    }
    if !lines.take(bytes) {
        return Some(Refused::NoText { at });
    }
    None
}

impl Reader {
    /// Before the first byte, for so many variables.
    pub fn new(alloc: Global, variables: u32) -> Result<Reader, Memory>
        ensures { IfOk result (HasRead variables []) }
    {
        Ok(Reader {
            front: Vec::new(alloc),
            lines: Lines::new(alloc, variables)?,
            count: 0,
        })
    }

    // Takes the end of the next line, whose front is held, and says why the text is none, where the line tells that.
    fn take_end(&mut self, end: &[u8]) -> Result<Option<Refused>, Memory>
        ensures comes { (variables : ℕ) (told : Told) (at count : ℕ) → IsBefore variables told at count self.old
            → IfOk result (λ said. Comes variables (outcome_of variables told at count (self.old.front ++ end.now)) said self.new (at + length (self.old.front ++ end.now) + 1) (count + 1)) }
        ensures front { result ≡ Ok None → self.new.front ≡ [] }
    {
        if self.front.as_slice().is_empty() {
            return Ok(take_line(&mut self.lines, &mut self.count, end));
        }
        self.front.extend_from_slice(end)?;
        let refused = take_line(&mut self.lines, &mut self.count, &self.front);
        self.front.clear();
        Ok(refused)
    }

    // Holds more of the front of the next line, whose end is not there yet, where it is not too long.
    fn hold(&mut self, rest: &[u8]) -> Result<Option<Refused>, Memory>
        ensures held { result ≡ Ok None → self.new ≡ record self.old { front = self.old.front ++ rest.now } }
        ensures long { IfOk result (λ o. IfSome o (λ refused. (refused ≡ Refused.LongLine (counted (self.old.count + 1))) × (most_values_line < length (self.old.front ++ rest.now)))) }
    {
        self.front.extend_from_slice(rest)?;
        if is_long(&self.front) {
            return Ok(Some(Refused::LongLine {
                line: self.count.saturating_add(1),
            }));
        }
        Ok(None)
    }

    /// Takes the next piece of the text, cut off anywhere. Answers why the text is none, however it goes on; after that, and after want of
    /// memory, the reading is over. None where the text may go on.
    pub fn take(&mut self, piece: &[u8]) -> Result<Option<Refused>, Memory>
        ensures read { (variables : ℕ) (text : List ℕ) → HasRead variables text self.old → result ≡ Ok None → HasRead variables (text ++ piece.now) self.new }
        ensures refused { (variables : ℕ) (text : List ℕ) → HasRead variables text self.old → IfOk result (λ o. IfSome o (λ refused. (more : List ℕ) → model_of variables ((text ++ piece.now) ++ more) ≡ refused_by refused)) }
    {
        let mut rest = piece;
        while let Some((line, others)) = first_line(rest) {
            if let Some(refused) = self.take_end(line)? {
                return Ok(Some(refused));
            }
            rest = others;
        }
        self.hold(rest)
    }

    /// Takes that the text ends after the pieces so far. Answers why it is none of a model, where it is none.
    pub fn finish(&mut self) -> Option<Refused>
        ensures values { (variables : ℕ) (text : List ℕ) → HasRead variables text self.old → result ≡ None → model_of variables text ≡ Values self.new.table.truths }
        ensures refused { (variables : ℕ) (text : List ℕ) → HasRead variables text self.old → IfSome result (λ refused. model_of variables text ≡ refused_by refused) }
    {
        let at = self.lines.at();
        if let Some(refused) = take_line(&mut self.lines, &mut self.count, &self.front) {
            return Some(refused);
        }
        if self.lines.is_ended() {
            return None;
        }
        Some(Refused::NoText {
            at: at.saturating_add(self.front.as_slice().len() as u64),
        })
    }

    /// The values that were told, variable by variable; a variable of which none was told is false.
    pub fn as_slice(&self) -> &[bool]
        ensures { result.now ≡ self.now.table.truths }
    {
        self.lines.as_slice()
    }
}
