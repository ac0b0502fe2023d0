//! The clause that the walk is at. Each clause that is put in is resolved with it on one literal.
ghost use Rattle.std.specs.Prelude.{◌≡◌, ℕ, ◌*◌, ◌+◌, ◌<◌, ◌≤◌, ◌==◌, ◌||◌, ◌⊎◌, [], if◌then◌else◌, true, false, not, length, map, filter, fold, slice_index, IfOk, OnOk};
ghost use Rattle.clause_base.specs.Literal.{opposite};
ghost use Rattle.containers.specs.Rising.{put};
ghost use Rattle.cdcl_defs.specs.State.{is_on};
ghost use Rattle.cdcl_defs.specs.Trail.{AllFalse};
ghost use Rattle.cdcl_defs.specs.Learn.{resolvent};
ghost use Rattle.bit_sets.specs.Layered.{words_have};
ghost use Rattle.conflict_analysis.specs.own.Resolvent.{literals, seen, is_marked, AreMarks, IsClear, IsLatest};
ghost use Rattle.conflict_analysis.specs.Walk.{OthersFalse};

use crate::latest::{has_mark, latest};
use crate::order::Codes;
use bit_sets::flat::{clear_bit, set_bit};
use bit_sets::set::NumberSet;
use cdcl_tables::lookup::Lookup;
use clause_base::literal::Lit;
use clause_base::view::View;
use containers::memory::Memory;
use std::alloc::Global;
use std::marker::Model;

/// A clause in the making, whose literals are all false: for each position of the trail whether the entry there made one of them so,
/// and how many of these are of the current level.
pub struct Resolvent {
    marks: Vec<u64>,
    count: u32,
}

impl Model for Resolvent {
    ghost use Rattle.conflict_analysis.specs.own.Resolvent.{MarksView};

    ghost Value = { MarksView };

    ghost view = { λ r. record { words = r.marks.items; count = r.count } };
}

/// All parts are let go in one call, so that a proof has one step for it and not one for each part.
impl Drop for Resolvent {
    fn drop(self) {
        let Resolvent { marks: _, count: _ } = self;
    }
}

impl Resolvent {
    /// The resolvent without literals, over so many variables.
    pub fn new(alloc: Global, variables: u32) -> Result<Resolvent, Memory>
        ensures { IfOk result (λ r. IsClear variables r) }
    {
        Ok(Resolvent {
            marks: vec![in alloc; 0; variables as usize / 64 + 1]?,
            count: 0,
        })
    }

    /// The latest marked position before a bound, if there is one.
    #[inline(always)]
    pub fn latest(&self, bound: u32) -> Option<u32>
        requires { bound < 64 * length self.now.words }
        ensures { IsLatest (words_have self.now.words) bound result }
    {
        latest(self.marks.as_slice(), bound)
    }

    /// How many literals are of the current level.
    #[inline]
    pub fn count(&self) -> u32
        ensures { result ≡ self.now.count }
    {
        self.count
    }

    /// Puts a false literal in.
    #[inline(always)]
    fn put(&mut self, trail: &Lookup, lit: Lit)
        requires over { AreMarks trail.now self.old }
        requires is_false { is_on trail.now.entries (opposite lit) ≡ true }
        ensures over { AreMarks trail.now self.new }
        ensures put { literals (seen trail.now self.new) ≡ put (literals (seen trail.now self.old)) lit }
    {
        // For the proof: each entry of the trail is of one of the variables.
        let _known = trail.entries();
        let position = trail.position(lit);
        if has_mark(self.marks.as_slice(), position) {
            return;
        }
        set_bit(&mut self.marks, position);
        if trail.is_current(position) {
            self.count += 1;
        }
    }

    /// Takes the literal out whose mark is at a position.
    #[inline(always)]
    fn remove(&mut self, trail: &Lookup, position: u32)
        requires over { AreMarks trail.now self.old }
        requires within { position < length trail.now.entries }
        requires marked { words_have self.old.words position ≡ true }
        ensures over { AreMarks trail.now self.new }
        ensures removed { literals (seen trail.now self.new) ≡ filter (λ l. not (l == opposite (slice_index (map (λ a. a.literal) trail.now.entries) position))) (literals (seen trail.now self.old)) }
    {
        // For the proof: each entry of the trail is of one of the variables.
        let _known = trail.entries();
        clear_bit(&mut self.marks, position);
        if trail.is_current(position) {
            self.count -= 1;
        }
    }

    /// Puts a literal in that is false, unless it is another one.
    #[inline(always)]
    fn put_other(&mut self, trail: &Lookup, lit: Lit, but: Lit)
        requires over { AreMarks trail.now self.old }
        requires other { (lit ≡ but) ⊎ (is_on trail.now.entries (opposite lit) ≡ true) }
        ensures over { AreMarks trail.now self.new }
        ensures put { literals (seen trail.now self.new) ≡ (if lit == but then literals (seen trail.now self.old) else put (literals (seen trail.now self.old)) lit) }
    {
        if lit != but {
            self.put(trail, lit);
        }
    }

    /// Puts false literals in.
    #[inline(always)]
    pub fn put_all(&mut self, trail: &Lookup, lits: &View)
        requires over { AreMarks trail.now self.old }
        requires all_false { AllFalse trail.now.entries lits.now }
        ensures over { AreMarks trail.now self.new }
        ensures put { literals (seen trail.now self.new) ≡ fold put (literals (seen trail.now self.old)) lits.now }
    {
        for place in 0..lits.len() {
            self.put(trail, lits.get(place));
        }
    }

    /// Puts literals in, all but one; the others are false.
    #[inline(always)]
    fn put_others(&mut self, trail: &Lookup, lits: &View, but: Lit)
        requires over { AreMarks trail.now self.old }
        requires others { OthersFalse trail.now.entries lits.now but }
        ensures over { AreMarks trail.now self.new }
        ensures put { literals (seen trail.now self.new) ≡ fold put (literals (seen trail.now self.old)) (filter (λ l. not (l == but)) lits.now) }
    {
        for place in 0..lits.len() {
            self.put_other(trail, lits.get(place), but);
        }
    }

    /// Resolves with the clause that forced the literal of the entry at a position, which is marked.
    #[inline(always)]
    pub fn resolve(&mut self, trail: &Lookup, position: u32, forced: Lit, reason: &View)
        requires over { AreMarks trail.now self.old }
        requires within { position < length trail.now.entries }
        requires forced { slice_index (map (λ a. a.literal) trail.now.entries) position ≡ forced }
        requires marked { words_have self.old.words position ≡ true }
        requires others { OthersFalse trail.now.entries reason.now forced }
        ensures over { AreMarks trail.now self.new }
        ensures resolved { literals (seen trail.now self.new) ≡ resolvent (literals (seen trail.now self.old)) forced reason.now }
    {
        self.remove(trail, position);
        self.put_others(trail, reason, forced);
    }

    /// Takes all literals out, into a set by code.
    pub fn take(&mut self, trail: &Lookup, codes: &mut Codes)
        requires over { AreMarks trail.now self.old }
        requires room { 2 * trail.now.variables ≤ 64 * length codes.old.words }
        ensures clear { IsClear trail.now.variables self.new }
        ensures room { length codes.new.words ≡ length codes.old.words }
        ensures codes { (l : ℕ) → words_have codes.new.words l ≡ (words_have codes.old.words l || is_marked (words_have self.old.words) 0 (map (λ a. a.literal) trail.now.entries) l) }
    {
        let entries = trail.entries();
        let mut bound = entries.len() as u32;
        while let Some(position) = latest(self.marks.as_slice(), bound) {
            clear_bit(&mut self.marks, position);
            let entry = entries[position as usize];
            let lit = entry.literal.opposite();
            codes.insert(lit.0);
            bound = position;
        }
        self.count = 0;
    }
}
