//! The graph of the published order: an edge leads from one action to another that it disables, where both may share a
//! step. The targets of an action are a row of bits: those that read what an effect of it takes, without those that
//! its preconditions exclude and those that surely undo what it surely does. All of these are rows that are made once.

ghost use Rattle.std.specs.Prelude.{◌≡◌, ℕ, ◌*◌, ◌<◌, ◌≤◌, ◌&&◌, ◌||◌, not, length, OnOk, IfOk};
ghost use Rattle.std.specs.List.{AllByRecursion};
ghost use Rattle.bit_sets.specs.Rows.{row_has};
ghost use Rattle.action_order.specs.own.Readers.{ActionWithin, AreRowsOf};
ghost use Rattle.action_order.specs.own.Edges.{edge_in, AreEdges, is_reader, is_touched, is_in_rows, is_opposed, surely};
ghost use Rattle.gt_core.specs.Limits.{most_facts, most_actions};

use crate::readers::{enter_literals, find_exclusions, find_readers};
use crate::sure::all_sure;
use bit_sets::row::{BitRow, empty_rows};
use containers::let_go;
use gt_core::act::Act;
use gt_core::eff::Eff;
use gt_core::lits::{Lits, opposite};
use gt_core::pairs::Pairs;
use std::alloc::{AllocError, Global};

/// Rows of actions: for each literal those that need it, for each fact those that have it in an effect condition, for
/// each literal those that surely make it true, and those with a precondition that it excludes; and for each action
/// the literals that it surely makes true.
pub struct Rows {
    needing: Vec<BitRow>,
    asking: Vec<BitRow>,
    sure: Vec<Lits>,
    making: Vec<BitRow>,
    excluding: Vec<BitRow>,
}

/// All parts are let go in one call, so that a proof has one step for it and not one for each part.
impl Drop for Rows {
    fn drop(self) {
        let_go!(self: Rows { needing, asking, sure, making, excluding });
    }
}

/// The actions that surely make each literal true.
fn find_makers(alloc: Global, keys: usize, sure: &[Lits]) -> Result<Vec<BitRow>, AllocError>
    requires few { length sure.now ≤ most_actions }
    requires below { AllByRecursion (AllByRecursion (λ l. l < keys)) sure.now }
    ensures { IfOk result (λ rows. AreRowsOf (surely sure.now) keys (length sure.now) rows.items) }
{
    let mut rows = empty_rows(alloc, keys)?;
    for (b, lits) in sure.iter().enumerate() {
        enter_literals(&mut rows, lits.as_slice(), b as u32)?;
    }
    Ok(rows)
}

/// Puts in the actions that read what an effect with this literal takes.
fn add_readers(
    row: &mut BitRow,
    needing: &[BitRow],
    asking: &[BitRow],
    lit: u32,
) -> Result<(), AllocError>
    requires long { length needing.now ≡ 2 * length asking.now }
    requires within { lit < length needing.now }
    ensures { OnOk result ((b : ℕ) → row_has row.new b ≡ (row_has row.old b || is_reader needing.now asking.now lit b)) }
{
    row.unite(&needing[opposite(lit) as usize])?;
    row.unite(&asking[(lit / 2) as usize])?;
    Ok(())
}

/// Puts in the actions that read what one of some effects takes.
fn add_touched(
    row: &mut BitRow,
    needing: &[BitRow],
    asking: &[BitRow],
    effects: &[Eff],
) -> Result<(), AllocError>
    requires long { length needing.now ≡ 2 * length asking.now }
    requires within { AllByRecursion (λ e. e.literal < length needing.now) effects.now }
    ensures { OnOk result ((b : ℕ) → row_has row.new b ≡ (row_has row.old b || is_touched needing.now asking.now effects.now b)) }
{
    for effect in effects {
        add_readers(row, needing, asking, effect.lit())?;
    }
    Ok(())
}

/// Takes the actions out that are in the row of one of some literals.
fn take_out(row: &mut BitRow, rows: &[BitRow], lits: &[u32])
    requires { AllByRecursion (λ l. l < length rows.now) lits.now }
    ensures { (b : ℕ) → row_has row.new b ≡ (row_has row.old b && not (is_in_rows rows.now lits.now b)) }
{
    for lit in lits {
        row.subtract(&rows[*lit as usize]);
    }
}

/// Takes the actions out that are in the row of the opposite of one of some literals.
fn take_out_opposed(row: &mut BitRow, rows: &[BitRow], lits: &[u32], facts: u32)
    requires long { length rows.now ≡ 2 * facts }
    requires within { AllByRecursion (λ l. l < 2 * facts) lits.now }
    ensures { (b : ℕ) → row_has row.new b ≡ (row_has row.old b && not (is_opposed rows.now lits.now b)) }
{
    for lit in lits {
        row.subtract(&rows[opposite(*lit) as usize]);
    }
}

impl Rows {
    ghost use Rattle.action_order.specs.own.Edges.{AreEdgeRows};

    /// The rows of some actions.
    fn new(alloc: Global, facts: u32, acts: &[Act], pairs: &Pairs) -> Result<Rows, AllocError>
        requires facts { facts ≤ most_facts }
        requires same { pairs.now.facts ≡ facts }
        requires few { length acts.now ≤ most_actions }
        requires within { AllByRecursion (ActionWithin facts) acts.now }
        ensures { IfOk result (AreEdgeRows pairs.now.clauses facts acts.now) }
    {
        let readers = find_readers(alloc, facts, acts)?;
        let sure = all_sure(alloc, facts, acts)?;
        let making = find_makers(alloc, 2 * facts as usize, sure.as_slice())?;
        let excluding = find_exclusions(alloc, pairs, readers.needing.as_slice())?;
        Ok(Rows {
            needing: readers.needing,
            asking: readers.asking,
            sure,
            making,
            excluding,
        })
    }

    /// The targets of an action.
    fn row(
        &self,
        alloc: Global,
        pairs: &Pairs,
        facts: u32,
        acts: &[Act],
        a: usize,
    ) -> Result<BitRow, AllocError>
        requires rows { AreEdgeRows pairs.now.clauses facts acts.now self.now }
        requires within { AllByRecursion (ActionWithin facts) acts.now }
        requires few { length acts.now ≤ most_actions }
        requires a { a < length acts.now }
        ensures { IfOk result (λ row. (b : ℕ) → row_has row b ≡ edge_in pairs.now.clauses acts.now a b) }
    {
        let act = &acts[a];
        let mut row = BitRow::new(alloc);
        add_touched(
            &mut row,
            self.needing.as_slice(),
            self.asking.as_slice(),
            act.effects(),
        )?;
        take_out(&mut row, self.excluding.as_slice(), act.pre());
        take_out_opposed(
            &mut row,
            self.making.as_slice(),
            self.sure[a].as_slice(),
            facts,
        );
        row.remove(a as u32);
        Ok(row)
    }
}

/// The targets of each action.
pub fn edges(
    alloc: Global,
    facts: u32,
    acts: &[Act],
    pairs: &Pairs,
) -> Result<Vec<BitRow>, AllocError>
    requires facts { facts ≤ most_facts }
    requires same { pairs.now.facts ≡ facts }
    requires few { length acts.now ≤ most_actions }
    requires within { AllByRecursion (ActionWithin facts) acts.now }
    ensures { IfOk result (λ targets. AreEdges pairs.now.clauses acts.now (length acts.now) targets.items) }
{
    let rows = Rows::new(alloc, facts, acts, pairs)?;
    let mut targets = Vec::new(alloc);
    for a in 0..acts.len() {
        targets.push(rows.row(alloc, pairs, facts, acts, a)?)?;
    }
    Ok(targets)
}
