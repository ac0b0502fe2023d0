//! Which clauses an action breaks whose effects have no condition: what they make true is sure, and what they make
//! false is taken.

ghost use Rattle.std.specs.Prelude.{◌≡◌, ℕ, ◌*◌, ◌<◌, ◌≤◌, ◌==◌, ◌&&◌, ◌||◌, not, true, length, IfOk, OnOk};
ghost use Rattle.std.specs.List.{AllByRecursion, list_any, list_all};
ghost use Rattle.bit_sets.specs.Rows.{row_has};
ghost use Rattle.gt_core.specs.Literal.{opposite};
ghost use Rattle.implied_literals.specs.Breaks.{is_add};
ghost use Rattle.implied_literals.specs.Rows.{clause_in, AreRows};
ghost use Rattle.implied_literals.specs.Tested.{EffectFits};
ghost use Rattle.two_invariants.specs.own.Plain.{adds_plainly, takes_plainly, breaks_plainly};

use crate::broken::add_loss;
use crate::takers::take_one;
use bit_sets::row::BitRow;
use gt_core::eff::Eff;
use gt_core::lits::opposite;
use std::alloc::{AllocError, Global};

/// Whether no effect has a condition.
pub fn are_plain(effects: &[Eff]) -> bool
    ensures { result ≡ list_all (λ e. length e.condition == 0) effects.now }
{
    for effect in effects {
        if !effect.cond().is_empty() {
            return false;
        }
    }
    true
}

/// Puts the literals of effects into a set.
fn insert_literals(effects: &[Eff], row: &mut BitRow) -> Result<(), AllocError>
    ensures { OnOk result ((k : ℕ) → row_has row.new k ≡ (row_has row.old k || adds_plainly effects.now k)) }
{
    for effect in effects {
        row.insert(effect.lit())?;
    }
    Ok(())
}

/// Takes what effects may take out of a set.
fn take_opposites(effects: &[Eff], given: &BitRow, sure: &mut BitRow)
    ensures { (m : ℕ) → row_has sure.new m ≡ (row_has sure.old m && not (takes_plainly (row_has given.now) effects.now m)) }
{
    for effect in effects {
        take_one(given, opposite(effect.lit()), sure);
    }
}

/// Adds the clauses that effects without condition break where a set is known before the action, which is used up.
pub fn add_plain_losses(
    alloc: Global,
    facts: u32,
    clauses: &[BitRow],
    effects: &[Eff],
    set: &mut BitRow,
    lost: &mut Vec<BitRow>,
) -> Result<(), AllocError>
    requires clauses { AreRows facts clauses.now }
    requires effects { AllByRecursion (EffectFits (2 * facts)) effects.now }
    requires rows { length lost.old.items ≡ 2 * facts }
    ensures long { length lost.new.items ≡ length lost.old.items }
    ensures lost { OnOk result ((l m : ℕ) → clause_in lost.new.items l m ≡ (clause_in lost.old.items l m || (clause_in clauses.now l m && breaks_plainly (row_has set.old) effects.now l m))) }
{
    let mut given = BitRow::new(alloc);
    given.make_room(clauses.len())?;
    insert_literals(effects, &mut given)?;
    set.unite(&given)?;
    take_opposites(effects, &given, set);
    let gives = &given;
    for effect in effects {
        add_loss(clauses, gives, set, opposite(effect.lit()), lost)?;
    }
    Ok(())
}
