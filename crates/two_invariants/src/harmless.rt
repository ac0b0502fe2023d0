//! What breaks nothing more for a reason that is seen at once: each literal that stands in a clause with one that may be
//! taken is known before and is not taken itself, or this clause is lost already.

ghost use Rattle.std.specs.Prelude.{◌≡◌, ℕ, ◌*◌, ◌<◌, ◌≤◌, ◌&&◌, not, true, false, length, IfOk};
ghost use Rattle.std.specs.List.{AllByRecursion};
ghost use Rattle.bit_sets.specs.Rows.{row_has};
ghost use Rattle.implied_literals.specs.Rows.{clause_in, AreRows};
ghost use Rattle.implied_literals.specs.Tested.{IsSetOf, EffectFits};
ghost use Rattle.two_invariants.specs.own.Plain.{has_opposite};
ghost use Rattle.two_invariants.specs.own.Index.{IsFirm};
ghost use Rattle.two_invariants.specs.own.Harmless.{IsKept};

use crate::groups::Group;
use crate::takers::{Room, Takers};
use bit_sets::row::BitRow;
use gt_core::eff::Eff;
use gt_core::lits::opposite;
use std::alloc::AllocError;

/// Takes the opposites of the literals of effects out of a set.
fn remove_opposites(effects: &[Eff], set: &mut BitRow)
    ensures { (m : ℕ) → row_has set.new m ≡ (row_has set.old m && not (has_opposite effects.now m)) }
{
    for effect in effects {
        set.remove(opposite(effect.lit()));
    }
}

/// True only where the clauses of a literal are all with literals of a set, but for those that are lost. `either` is room for
/// a row.
fn is_row_among(
    clauses: &[BitRow],
    lost: &[BitRow],
    l: u32,
    set: &BitRow,
    either: &mut BitRow,
) -> Result<bool, AllocError>
    requires clauses { l < length clauses.now }
    requires lost { l < length lost.now }
    ensures { IfOk result (λ among. among ≡ true → (m : ℕ) → IsKept clauses.now lost.now (row_has set.now) l m) }
{
    let row = &clauses[l as usize];
    let within = row.is_part_of(set);
    if within {
        return Ok(true);
    }
    either.make_same(set)?;
    either.unite(&lost[l as usize])?;
    let covered = row.is_part_of(either);
    Ok(covered)
}

/// True only where effects break nothing more where a set is known before them: each literal of a clause that they may break
/// is in it, and none of them takes it, or the clause is lost. It saves the work of the clauses one by one, so that false
/// promises nothing.
pub fn are_harmless(
    facts: u32,
    clauses: &[BitRow],
    lost: &[BitRow],
    effects: &[Eff],
    set: &BitRow,
    room: &mut Room,
) -> Result<bool, AllocError>
    requires clauses { AreRows facts clauses.now }
    requires lost { length lost.now ≡ 2 * facts }
    requires effects { AllByRecursion (EffectFits (2 * facts)) effects.now }
    ensures { IfOk result (λ harmless. harmless ≡ true → (l m : ℕ) → has_opposite effects.now l ≡ true → IsKept clauses.now lost.now (λ k. row_has set.now k && not (has_opposite effects.now k)) l m) }
{
    room.there.make_same(set)?;
    remove_opposites(effects, &mut room.there);
    for effect in effects {
        let l = opposite(effect.lit());
        let among = is_row_among(clauses, lost, l, &room.there, &mut room.given)?;
        if !among {
            return Ok(false);
        }
    }
    Ok(true)
}

/// True only where a group breaks nothing more for a reason that is seen at once: each literal of a clause that it may break
/// is known and taken by no group, or the clause is lost. Here too false promises nothing.
pub fn is_harmless(
    clauses: &[BitRow],
    lost: &[BitRow],
    takers: &Takers,
    group: &Group,
    known: &BitRow,
    room: &mut Room,
) -> Result<bool, AllocError>
    requires few { length clauses.now ≤ 4096 }
    requires lost { length lost.now ≡ length clauses.now }
    requires lits { IsSetOf (length clauses.now) (row_has group.now.opposites) }
    ensures { IfOk result (λ harmless. harmless ≡ true → (l m : ℕ) → row_has group.now.opposites l ≡ true → clause_in clauses.now l m ≡ true → clause_in lost.now l m ≡ false → IsFirm takers.now (row_has known.now) m) }
{
    room.there.make_same(known)?;
    room.there.subtract(&takers.plain);
    room.there.subtract(&takers.by.literals);
    let mut from = 0;
    while let Some(l) = group.opposites.least(from) {
        let among = is_row_among(clauses, lost, l, &room.there, &mut room.given)?;
        if !among {
            return Ok(false);
        }
        from = l + 1;
    }
    Ok(true)
}
