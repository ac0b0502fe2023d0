//! A line of a proof in LRAT format, read.
ghost use Rattle.std.specs.Prelude.{◌≡◌, ◌<◌, ◌++◌, ◌∷◌, ◌||◌, [], true, false, not, List, Some, None, Ok, map, OnOk};
ghost use Rattle.std.specs.List.{list_any};
ghost use Rattle.sat_text.specs.declared.words.Signed.{Signed};
ghost use Rattle.sat_text.specs.Words.{words_of};
ghost use Rattle.sat_text.specs.LratLine.{LineView, IsHeld, is_passed, line_of, up_to_zero, all_to_zero, addition, deletion, rest_of};
ghost use Rattle.sat_text.specs.own.Reading.{Reads, ReadsLiterals, ReadsIds};

use crate::words::{Signed, Words, is};
use clause_base::literal::Lit;
use containers::memory::Memory;
use std::alloc::Global;

/// The largest number of a variable in a line, where they are counted from 1, that a literal has a code for.
const MOST_VARIABLES: u64 = 2_147_483_648;

/// Room for one line of a proof.
#[derive(Drop)]
pub struct Line {
    /// The id that the line begins with.
    pub id: u64,
    /// Whether it deletes the clauses of the ids, and adds none.
    pub deletes: bool,
    /// The literals of the clause that it adds, as they stand.
    pub lits: Vec<Lit>,
    /// The hints, or the ids of what is deleted, as they stand.
    pub ids: Vec<u64>,
    /// Whether the clause has a literal without a code, or there is a hint with a minus, which asks for more than reverse unit
    /// propagation. Neither is among the lists.
    pub foreign: bool,
}

// The lists of a line, each of which ends with a 0.
#[derive(Clone, Copy)]
enum Part {
    Literals,
    // Hints, or ids.
    Ids,
}

/// Whether the bytes of a line, without its LF, tell nothing: it has no word, or is a comment, whose first word is `c`.
pub fn is_passed(bytes: &[u8]) -> bool
    ensures { result ≡ is_passed (words_of bytes.now) }
{
    match Words::of(bytes).next() {
        Some(word) => is(word, b"c"),
        None => true,
    }
}

impl Line {
    /// Room that takes no memory yet.
    pub fn new(alloc: Global) -> Line {
        Line {
            id: 0,
            deletes: false,
            lits: Vec::new(alloc),
            ids: Vec::new(alloc),
            foreign: false,
        }
    }

    // Holds an id and a kind, and no literals and hints.
    fn begin(&mut self, id: u64, deletes: bool)
        ensures { IsHeld (record { id = id; deletes = deletes; literals = []; hints = [] }) self.new }
    {
        self.id = id;
        self.deletes = deletes;
        self.lits.clear();
        self.ids.clear();
        self.foreign = false;
    }

    // Adds a literal, of a number that is not 0.
    fn add_literal(&mut self, told: Signed) -> Result<(), Memory>
        requires { 0 < told.number }
        ensures { OnOk result (ReadsLiterals self.old self.new (told ∷ [])) }
    {
        if MOST_VARIABLES < told.number {
            self.foreign = true;
            return Ok(());
        }
        self.lits
            .push(Lit::of((told.number - 1) as u32, !told.minus))?;
        Ok(())
    }

    // Adds a hint, or an id.
    fn add_id(&mut self, told: Signed) -> Result<(), Memory>
        ensures { OnOk result (ReadsIds self.old self.new (told ∷ [])) }
    {
        if told.minus {
            self.foreign = true;
            return Ok(());
        }
        self.ids.push(told.number)?;
        Ok(())
    }

    // Adds a number that is not 0 of one of the two lists.
    #[inline(always)]
    fn add(&mut self, part: Part, told: Signed) -> Result<(), Memory>
        requires { 0 < told.number }
        ensures { OnOk result (Reads part self.old self.new (told ∷ [])) }
    {
        match part {
            Part::Literals => self.add_literal(told),
            Part::Ids => self.add_id(told),
        }
    }

    // Reads one of the two lists up to its 0.
    #[inline(always)]
    fn read_part(&mut self, part: Part, words: &mut Words<'_>) -> Result<bool, Memory>
        ensures read { result ≡ Ok true → (numbers : List Signed) × (up_to_zero words.old ≡ Some (numbers, words.new)) × Reads part self.old self.new numbers }
        ensures none { result ≡ Ok false → up_to_zero words.old ≡ None }
    {
        while let Some(told) = words.number() {
            if told.number == 0 {
                return Ok(true);
            }
            self.add(part, told)?;
        }
        Ok(false)
    }

    // Reads hints or ids up to 0, which is the last word.
    fn read_ids(&mut self, words: &mut Words<'_>) -> Result<bool, Memory>
        ensures read { result ≡ Ok true → (ids : List Signed) × (all_to_zero words.old ≡ Some ids) × ReadsIds self.old self.new ids }
        ensures none { result ≡ Ok false → all_to_zero words.old ≡ None }
    {
        if !self.read_part(Part::Ids, words)? {
            return Ok(false);
        }
        Ok(words.is_over())
    }

    // Reads what follows the id of a line that adds a clause.
    fn read_addition(&mut self, words: &mut Words<'_>) -> Result<bool, Memory>
        requires { IsHeld (record { id = self.old.id; deletes = false; literals = []; hints = [] }) self.old }
        ensures line { result ≡ Ok true → (line : LineView) × (addition self.old.id words.old ≡ Some line) × IsHeld line self.new }
        ensures none { result ≡ Ok false → addition self.old.id words.old ≡ None }
    {
        if !self.read_part(Part::Literals, words)? {
            return Ok(false);
        }
        self.read_ids(words)
    }

    // Reads what follows the `d` of a line that deletes clauses.
    fn read_deletion(&mut self, words: &mut Words<'_>) -> Result<bool, Memory>
        requires { IsHeld (record { id = self.old.id; deletes = true; literals = []; hints = [] }) self.old }
        ensures line { result ≡ Ok true → (line : LineView) × (deletion self.old.id words.old ≡ Some line) × IsHeld line self.new }
        ensures none { result ≡ Ok false → deletion self.old.id words.old ≡ None }
    {
        if !self.read_ids(words)? {
            return Ok(false);
        }
        Ok(!self.foreign)
    }

    // Reads what follows the id, and the `d` where there is one.
    fn read_rest(&mut self, words: &mut Words<'_>) -> Result<bool, Memory>
        requires { IsHeld (record { id = self.old.id; deletes = self.old.deletes; literals = []; hints = [] }) self.old }
        ensures line { result ≡ Ok true → (line : LineView) × (rest_of self.old.deletes self.old.id words.old ≡ Some line) × IsHeld line self.new }
        ensures none { result ≡ Ok false → rest_of self.old.deletes self.old.id words.old ≡ None }
    {
        if self.deletes {
            self.read_deletion(words)
        } else {
            self.read_addition(words)
        }
    }

    /// Reads the bytes of a line, without its LF, and says whether they are one. Where they are not, what is held is not told.
    pub fn read(&mut self, bytes: &[u8]) -> Result<bool, Memory>
        ensures line { result ≡ Ok true → (line : LineView) × (line_of bytes.now ≡ Some line) × IsHeld line self.new }
        ensures none { result ≡ Ok false → line_of bytes.now ≡ None }
    {
        let mut words = Words::of(bytes);
        let Some(id) = words.number() else {
            return Ok(false);
        };
        if id.minus {
            return Ok(false);
        }
        self.begin(id.number, words.is_deletion());
        self.read_rest(&mut words)
    }
}
