//! The effects of a task by the literal that they make true.

ghost use Rattle.std.specs.Prelude.{◌≡◌, ℕ, ◌+◌, ◌*◌, ◌≤◌, ◌<◌, [], ◌∷◌, ◌++◌, true, length, replicate, slice_index_or, OnOk, IfOk};
ghost use Rattle.gt_core.specs.Lawful.{is_conditional, conditional_in};
ghost use Rattle.step_formula.specs.Rows.{row_of, rows_of, made, ArePlaced, IsIndex};

use crate::numbers::{Place, effect_variable, number_after};
use clause_base::literal::Lit;
use containers::ListOf;
use containers::equal::empty_lists;
use containers::memory::Memory;
use formula_defs::layout::Layout;
use gt_core::eff::Eff;
use gt_core::task::Task;
use std::alloc::Global;

/// The variables of effects, as literals.
pub type Makers = ListOf<Lit>;

/// Puts the variable of an effect under its literal.
fn index_effect(
    layout: &Layout,
    place: Place,
    effect: &Eff,
    index: &mut Vec<Makers>,
) -> Result<(), Memory>
    requires horizon { 0 < layout.now.horizon }
    requires action { place.action < layout.now.actions }
    requires number { is_conditional effect.now ≡ true → place.number < layout.now.conditional }
    requires literal { effect.now.literal < length index.old.items }
    ensures long { length index.new.items ≡ length index.old.items }
    ensures each { OnOk result ((l : ℕ) → slice_index_or index.new.items l [] ≡ slice_index_or index.old.items l [] ++ made layout.now l (row_of place.action place.number effect.now ∷ [])) }
{
    let variable = effect_variable(layout, place, effect);
    index[effect.lit() as usize].push(Lit::of(variable, true))?;
    Ok(())
}

/// Puts the variables of an action's effects under their literals.
fn index_effects_of(
    layout: &Layout,
    action: u32,
    first: u32,
    effects: &[Eff],
    index: &mut Vec<Makers>,
) -> Result<(), Memory>
    requires placed { ArePlaced layout.now action first effects.now }
    requires long { length index.old.items ≡ 2 * layout.now.facts }
    ensures long { length index.new.items ≡ length index.old.items }
    ensures each { OnOk result ((l : ℕ) → slice_index_or index.new.items l [] ≡ slice_index_or index.old.items l [] ++ made layout.now l (rows_of action first effects.now)) }
{
    let mut number = first;
    for effect in effects {
        index_effect(layout, Place { action, number }, effect, index)?;
        number = number_after(number, effect);
    }
    Ok(())
}

/// For each fact literal, the variables of the effects that make it true.
pub fn index_of(alloc: Global, layout: &Layout, task: &Task) -> Result<Vec<Makers>, Memory>
    requires horizon { 0 < layout.now.horizon }
    requires actions { layout.now.actions ≡ length task.now.actions }
    requires conditional { layout.now.conditional ≡ conditional_in task.now.actions }
    requires facts { layout.now.facts ≡ task.now.facts }
    ensures { IfOk result (λ index. IsIndex layout.now task.now index.items) }
{
    let mut index = empty_lists(alloc, 2 * task.facts() as usize)?;
    let mut first = 0;
    for a in 0..layout.actions {
        let act = task.act(a);
        index_effects_of(layout, a, first, act.effects(), &mut index)?;
        first += act.conditional() as u32;
    }
    Ok(index)
}
