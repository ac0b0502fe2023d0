//! The slots of clauses that are watched: each has the number of one.
ghost use Rattle.std.specs.Prelude.{◌≡◌, ◌<◌, length, true, false, slice_index_or};
ghost use Rattle.cdcl_defs.specs.State.{clause_at};
ghost use Rattle.cdcl_tables.specs.Stored.{CanReadKept};
ghost use Rattle.propagation.specs.own.Steps.{AreStepped};
ghost use Rattle.propagation.specs.own.Visit.{AreSlotsBelow};
ghost use Rattle.propagation.specs.own.Tables.{AreKeptBelow, clauses_in, flags_in};

use crate::tables::Tables;
use clause_base::view::View;

/// The literals of the clause of a slot, which is kept.
#[inline(always)]
pub fn slot_clause(tables: &Tables, slot: u32) -> View<'_>
    requires inside { slot < length tables.now.slots.items }
    requires below { AreSlotsBelow (length tables.now.store.clauses) tables.now.slots.items }
    requires kept { slice_index_or (flags_in tables.now) slot false ≡ true }
    requires read { CanReadKept tables.now.kept.items tables.now.store }
    requires steps { AreStepped tables.now.store.clauses tables.now.slots.items tables.now.steps }
    ensures { result ≡ clause_at (clauses_in tables.now) slot }
{
    let number = tables.number_at(slot);
    let steps = &tables.steps;
    if (slot as usize) < steps.of_slots.len() {
        let step = steps.of_slots[slot as usize];
        let first = steps.before + step * steps.size;
        return steps.part.step_clause(step, number - first);
    }
    tables.store.clause(number)
}

/// Whether the clause of a slot is kept.
#[inline(always)]
pub fn is_slot_kept(tables: &Tables, slot: u32) -> bool
    requires inside { slot < length tables.now.slots.items }
    requires below { AreSlotsBelow (length tables.now.kept.items) tables.now.slots.items }
    requires whole { AreKeptBelow tables.now.kept_below tables.now.kept.items }
    ensures { result ≡ slice_index_or (flags_in tables.now) slot false }
{
    tables.is_kept(tables.number_at(slot))
}
