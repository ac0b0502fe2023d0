//! What surely holds after an action.

use crate::tables::Tables;
use bit_sets::row::BitRow;
use containers::codes::opposite;
use containers::memory::Memory;
use gt_core::act::Act;
use gt_core::task::Task;

/// What the effects of an action do to one fact, by what is known before it.
#[derive(Drop)]
struct Change {
    /// The literal that the fact is true.
    add: u32,
    adds_surely: bool,
    adds_perhaps: bool,
    cuts_surely: bool,
    cuts_perhaps: bool,
}

/// No change of the fact of a literal.
fn unchanged(lit: u32) -> Change {
    Change {
        add: lit & !1,
        adds_surely: false,
        adds_perhaps: false,
        cuts_surely: false,
        cuts_perhaps: false,
    }
}

/// Whether each literal of a list is in a row.
pub fn has_all(row: &BitRow, lits: &[u32]) -> bool {
    for lit in lits {
        if !row.contains(*lit) {
            return false;
        }
    }
    true
}

/// Whether the opposite of some literal of a list is in a row.
pub fn has_opposite(row: &BitRow, lits: &[u32]) -> bool {
    for lit in lits {
        if row.contains(opposite(*lit)) {
            return true;
        }
    }
    false
}

/// Takes one change into a row, which has what was known before it of the fact.
fn settle(change: &Change, row: &mut BitRow) -> Result<(), Memory> {
    let cut = opposite(change.add);
    let was_true = row.contains(change.add);
    let was_false = row.contains(cut);
    row.remove(change.add);
    row.remove(cut);
    if change.adds_surely || (was_true && !change.cuts_perhaps) {
        row.insert(change.add)?;
    } else if (was_false || change.cuts_surely) && !change.adds_perhaps {
        row.insert(cut)?;
    }
    Ok(())
}

/// The change with one effect more.
fn with_effect(change: &mut Change, lit: u32, surely: bool, perhaps: bool) {
    if lit == change.add {
        change.adds_surely |= surely;
        change.adds_perhaps |= perhaps;
    } else {
        change.cuts_surely |= surely;
        change.cuts_perhaps |= perhaps;
    }
}

/// What surely holds after an action with conditional effects, where a row of literals holds before it.
fn after_conditional(act: &Act, before: &BitRow, into: &mut BitRow) -> Result<(), Memory> {
    into.make_same(before)?;
    let mut change = unchanged(0);
    for effect in act.effects() {
        let lit = effect.lit();
        if lit & !1 != change.add {
            settle(&change, into)?;
            change = unchanged(lit);
        }
        let surely = has_all(before, effect.cond());
        let perhaps = !has_opposite(before, effect.cond());
        with_effect(&mut change, lit, surely, perhaps);
    }
    settle(&change, into)
}

/// What surely holds after an action, where a row of literals holds before it.
pub fn after(
    task: &Task,
    tables: &Tables,
    number: u32,
    before: &BitRow,
    into: &mut BitRow,
) -> Result<(), Memory> {
    let (Some(act), Some(rows)) = (
        task.acts().get(number as usize),
        tables.acts.get(number as usize),
    ) else {
        return Ok(());
    };
    if act.conditional() != 0 {
        return after_conditional(act, before, into);
    }
    into.make_same(&rows.made)?;
    into.unite_without(before, &rows.cut)?;
    Ok(())
}
