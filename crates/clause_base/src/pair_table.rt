//! A table of the clauses of two literals by their literals.
ghost use Rattle.std.specs.Prelude.{◌≡◌, ℕ, ◌+◌, ◌≤◌, [], length, true, IfOk};
ghost use Rattle.clause_base.specs.Pairs.{pairs_of, pairs_from};

use crate::clause_list::ClauseList;
use crate::pair::Pair;
use crate::pair_build::{counted, ends_of, fill, has_pairs, variables_below};
use containers::let_go;
use containers::memory::Memory;
use std::alloc::Global;
use std::marker::Model;

/// For each literal by its code the clauses of two literals that it is in, in two blocks of memory: the pairs one after
/// another, and where those of each literal begin.
pub struct PairTable {
    offsets: Vec<u32>,
    items: Vec<Pair>,
}

impl Model for PairTable {
    ghost use Rattle.std.specs.Prelude.{List, length};
    ghost use Rattle.clause_base.specs.declared.pair.Pair.{Pair};
    ghost use Rattle.clause_base.specs.own.PairRows.{rows_of, AreOffsets};

    ghost Value = { List (List Pair) };

    ghost view = { λ t. rows_of t.offsets.items t.items.items };

    ghost invariant = { λ t. AreOffsets t.offsets.items (length t.items.items) };
}

/// All parts are let go in one call, so that a proof has one step for it and not one for each part.
impl Drop for PairTable {
    fn drop(self) {
        let_go!(self: PairTable { offsets, items });
    }
}

impl PairTable {
    /// No pairs, without memory.
    pub fn empty(alloc: Global) -> PairTable
        ensures { (x : ℕ) → pairs_of result x ≡ [] }
    {
        PairTable {
            offsets: Vec::new(alloc),
            items: Vec::new(alloc),
        }
    }

    /// The clauses of two literals of a list. Where there is none it takes no memory.
    pub fn new(alloc: Global, clauses: &ClauseList) -> Result<PairTable, Memory>
        requires few { length clauses.now ≤ 1073741824 }
        ensures { IfOk result (λ table. (x : ℕ) → pairs_of table x ≡ pairs_from 0 x clauses.now) }
    {
        if !has_pairs(clauses) {
            return Ok(PairTable::empty(alloc));
        }
        let codes = 2 * variables_below(clauses) as usize;
        let mut offsets = counted(alloc, clauses, codes)?;
        let all = ends_of(&mut offsets);
        let none = Pair {
            other: 0,
            number: 0,
        };
        let mut items = vec![in alloc; none; all as usize]?;
        fill(clauses, &mut offsets, &mut items);
        Ok(PairTable { offsets, items })
    }

    /// Whether it is known to have no pairs: so it is where none of its clauses has two literals.
    pub fn is_empty(&self) -> bool
        ensures { result ≡ true → (x : ℕ) → pairs_of self.now x ≡ [] }
    {
        self.offsets.len() == 0
    }

    /// No pairs.
    #[inline]
    pub fn none(&self) -> &[Pair]
        ensures { result.now ≡ [] }
    {
        &self.items[0..0]
    }

    /// The pairs of a literal.
    #[inline]
    pub fn row(&self, code: u32) -> &[Pair]
        ensures { result.now ≡ pairs_of self.now code }
    {
        let code = code as usize;
        if code + 1 >= self.offsets.len() {
            return self.none();
        }
        let start = self.offsets[code] as usize;
        let end = self.offsets[code + 1] as usize;
        &self.items[start..end]
    }
}
