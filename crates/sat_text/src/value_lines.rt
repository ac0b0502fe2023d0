//! Lines of what a solver prints, taken one after another.
ghost use Rattle.std.specs.Prelude.{◌≡◌, ◌+◌, [], ℕ, true, false, length, codes, IfOk, option_and_then};
ghost use Rattle.std.specs.Str.{bytes_eq};
ghost use Rattle.sat_text.specs.Lines.{counted};
ghost use Rattle.sat_text.specs.Values.{Told, numbers_of, numbers_told, is_satisfiable, with_number, with_numbers, with_line};
ghost use Rattle.sat_text.specs.Stands.{HasTold, Goes};

use crate::values::Values;
use crate::words::{Signed, Words, is};
use containers::memory::Memory;
use std::alloc::Global;
use std::marker::Model;

/// What takes the lines of a model. Contracts see what they told.
#[derive(Drop)]
pub struct Lines {
    values: Values,
    // Whether the 0 after the values is there.
    ended: bool,
    // The offset at which the next line begins.
    at: u64,
}

impl Model for Lines {
    ghost use Rattle.std.specs.Prelude.{[]};
    ghost use Rattle.sat_text.specs.Stands.{ReaderView};

    ghost Value = { ReaderView };

    ghost view = { λ l. record { table = l.values; ended = l.ended; at = l.at; count = 0; front = [] } };
}

// Whether the words that are left are the word `SATISFIABLE` alone.
fn is_satisfiable(words: &mut Words<'_>) -> bool
    ensures { result ≡ is_satisfiable words.old }
{
    match words.next() {
        Some(word) => is(word, b"SATISFIABLE") && words.is_over(),
        None => false,
    }
}

impl Lines {
    /// Before the first line, for so many variables.
    pub fn new(alloc: Global, variables: u32) -> Result<Lines, Memory>
        ensures told { IfOk result (HasTold variables (record { literals = []; ended = false })) }
        ensures at { IfOk result (λ lines. lines.at ≡ 0) }
    {
        Ok(Lines {
            values: Values::new(alloc, variables)?,
            ended: false,
            at: 0,
        })
    }

    /// The offset at which the next line begins.
    pub fn at(&self) -> u64
        ensures { result ≡ self.now.at }
    {
        self.at
    }

    /// Whether the 0 after the values is there.
    pub fn is_ended(&self) -> bool
        ensures { result ≡ self.now.ended }
    {
        self.ended
    }

    /// The values that were told, variable by variable.
    pub fn as_slice(&self) -> &[bool]
        ensures { result.now ≡ self.now.table.truths }
    {
        self.values.as_slice()
    }

    // Takes a number, and says whether it may come here.
    fn take_number(&mut self, told: Signed) -> bool
        ensures goes { (variables : ℕ) (before : Told) → HasTold variables before self.old → Goes result variables self.new (with_number variables before told) }
        ensures at { self.new.at ≡ self.old.at }
    {
        if self.ended {
            return false;
        }
        if told.number == 0 {
            self.ended = true;
            return true;
        }
        self.values.tell(told)
    }

    // Takes numbers, and says whether the words are such, and may come here.
    fn take_numbers(&mut self, words: &mut Words<'_>) -> bool
        ensures goes { (variables : ℕ) (before : Told) → HasTold variables before self.old → Goes result variables self.new (option_and_then (with_numbers variables before) (numbers_of words.old)) }
        ensures at { self.new.at ≡ self.old.at }
    {
        'taking: while !words.is_over() {
            let Some(told) = words.number() else {
                return false;
            };
            if !self.take_number(told) {
                return false;
            }
        }
        true
    }

    // Takes the words of a line, and says whether they are those of one, and may come here.
    fn take_words(&mut self, words: &mut Words<'_>) -> bool
        ensures goes { (variables : ℕ) (before : Told) → HasTold variables before self.old → Goes result variables self.new (option_and_then (with_numbers variables before) (numbers_told words.old)) }
        ensures at { self.new.at ≡ self.old.at }
    {
        let Some(word) = words.next() else {
            return true;
        };
        if is(word, b"c") {
            return true;
        }
        if is(word, b"v") {
            return self.take_numbers(words);
        }
        is(word, b"s") && is_satisfiable(words)
    }

    /// Takes the bytes of the next line, without its LF, and says whether they are one, and may come here. After one that may not, `at`
    /// is its offset.
    pub fn take(&mut self, bytes: &[u8]) -> bool
        ensures goes { (variables : ℕ) (before : Told) → HasTold variables before self.old → Goes result variables self.new (with_line variables before bytes.now) }
        ensures taken { (at : ℕ) → self.old.at ≡ counted at → result ≡ true → self.new.at ≡ counted (at + length bytes.now + 1) }
        ensures refused { result ≡ false → self.new.at ≡ self.old.at }
    {
        if !self.take_words(&mut Words::of(bytes)) {
            return false;
        }
        self.at = self.at.saturating_add(bytes.len() as u64 + 1);
        true
    }
}
