//! The clauses of two literals of a formula by their literals.
ghost use Rattle.std.specs.Prelude.{◌≡◌, ℕ, ◌+◌, ◌*◌, ◌<◌, ◌++◌, length, All, IfOk};
ghost use Rattle.std.specs.Arc.{arc_value};
ghost use Rattle.clause_base.specs.Pairs.{pairs_of, pairs_from};
ghost use Rattle.cdcl_tables.specs.Pairs.{IsIndex};
ghost use Rattle.cdcl_tables.specs.own.Lists.{AreParts, ArePlain, AreWithin, IsShape, clauses_of};

use crate::lists::Lists;
use crate::shape::{Shape, shape_of};
use clause_base::clause_list::ClauseList;
use clause_base::formula::Formula;
use clause_base::pair_table::PairTable;
use clause_base::shared_list::SharedList;
use containers::let_go;
use containers::memory::Memory;
use std::alloc::Global;
use std::marker::Model;
use std::sync::Arc;

/// For each literal of a formula the clauses of two literals that it is in, in the order of their numbers. The clauses of one
/// step and of one time stand in tables by the literals of that step and that time, which the formulas of all horizons share;
/// those that are told, and those that were added after all of these, in tables by all literals, where there are such clauses.
/// Nothing in it changes after it is made.
pub struct PairIndex {
    shape: Shape,
    told: PairTable,
    step: Arc<PairTable>,
    time: Arc<PairTable>,
    after: PairTable,
    /// Whether no clause of two literals is told, nor added after those of all times.
    plain: bool,
}

impl Model for PairIndex {
    ghost use Rattle.std.specs.Prelude.{List};
    ghost use Rattle.std.specs.Arc.{arc_value};
    ghost use Rattle.clause_base.specs.declared.pair.Pair.{Pair};
    ghost use Rattle.cdcl_tables.specs.own.Lists.{ArePlain, AreTables, IsShape, index_of};

    ghost Value = { List (List Pair) };

    ghost view = { λ i. index_of i.shape i.told (arc_value i.step) (arc_value i.time) i.after };

    ghost invariant = { λ i. IsShape i.shape × AreTables i.shape i.told (arc_value i.step) (arc_value i.time) i.after × ArePlain i.plain i.told i.after };
}

/// All parts are let go in one call, so that a proof has one step for it and not one for each part.
impl Drop for PairIndex {
    fn drop(self) {
        let_go!(self: PairIndex { shape, told, step, time, after, plain });
    }
}

/// The table of one step, which has no pairs where there is no step.
fn step_table(alloc: Global, shape: &Shape, step: &SharedList) -> Result<Arc<PairTable>, Memory>
    requires shape { IsShape shape.now }
    requires few { length step.now ≡ shape.now.steps }
    requires below { All (All (λ l. l < 2 * (shape.now.width + 2 * shape.now.facts))) step.now }
    ensures some { IfOk result (λ table. 0 < shape.now.horizon → (x : ℕ) → pairs_of (arc_value table) x ≡ pairs_from 0 x step.now) }
    ensures within { IfOk result (λ table. AreWithin (2 * (shape.now.width + 2 * shape.now.facts)) shape.now.steps (arc_value table)) }
{
    if shape.horizon == 0 {
        let none = Arc::new(alloc, PairTable::empty(alloc))?;
        return Ok(none);
    }
    let table = step.pairs(alloc)?;
    Ok(table)
}

/// Whether the tables by all literals are known to have no pairs. In planning formulas they have none, so that one test of each literal that
/// becomes true takes the place of two look-ups.
fn are_plain(told: &PairTable, after: &PairTable) -> bool
    ensures { ArePlain result told.now after.now }
{
    told.is_empty() && after.is_empty()
}

impl PairIndex {
    /// The pairs of the clauses of a formula.
    pub fn new(alloc: Global, formula: &Formula) -> Result<PairIndex, Memory>
        ensures { IfOk result (λ index. IsIndex formula.now.variables formula.now.clauses index) }
    {
        // For the proof: a formula has at most 1,073,741,824 clauses.
        let _few = formula.count();
        let variables = formula.variables();
        let parts = formula.parts();
        let part = parts.repeated;
        let shape = shape_of(variables, parts.told, part, parts.after);
        let index = PairIndex::of_parts(
            alloc,
            shape,
            parts.told,
            part.step(),
            part.time(),
            parts.after,
        )?;
        Ok(index)
    }

    /// The pairs of the clauses of a formula with these parts.
    fn of_parts(
        alloc: Global,
        shape: Shape,
        told: &ClauseList,
        step: &SharedList,
        time: &SharedList,
        after: &ClauseList,
    ) -> Result<PairIndex, Memory>
        requires shape { IsShape shape }
        requires parts { AreParts shape told.now step.now time.now after.now }
        ensures { IfOk result (λ index. IsIndex shape.variables (clauses_of shape told.now step.now time.now after.now) index) }
    {
        let told = PairTable::new(alloc, told)?;
        let step = step_table(alloc, &shape, step)?;
        let time = time.pairs(alloc)?;
        let after = PairTable::new(alloc, after)?;
        let plain = are_plain(&told, &after);
        Ok(PairIndex {
            shape,
            told,
            step,
            time,
            after,
            plain,
        })
    }

    /// The pairs of a literal.
    #[inline]
    pub fn lists(&self, code: u32) -> Lists<'_>
        requires { code < length self.now }
        ensures { pairs_of self.now code ≡ result.told ++ (result.last ++ (result.next ++ (result.time ++ result.after))) }
    {
        Lists::of(
            &self.shape,
            &self.told,
            &self.step,
            &self.time,
            &self.after,
            self.plain,
            code,
        )
    }
}
