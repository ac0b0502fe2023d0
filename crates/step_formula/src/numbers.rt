//! The numbers and the variables of effects.

ghost use Rattle.std.specs.Prelude.{◌≡◌, ◌≤◌, ◌<◌, true, count_by};
ghost use Rattle.gt_core.specs.Lawful.{is_conditional};
ghost use Rattle.formula_defs.specs.Variables.{variable_at};
ghost use Rattle.step_formula.specs.Rows.{row_of, number_after};
ghost use Rattle.gt_core.specs.Limits.{most_conditional};

use crate::literals::action_variable;
use formula_defs::layout::Layout;
use gt_core::eff::Eff;

/// Where an effect stands: the number of its action, and the number that it has where it is conditional.
#[derive(Clone, Copy)]
pub(crate) struct Place {
    pub(crate) action: u32,
    pub(crate) number: u32,
}

/// The number of the next conditional effect after an effect.
pub(crate) fn number_after(number: u32, effect: &Eff) -> u32
    requires { number ≤ most_conditional }
    ensures { result ≡ number_after number effect.now }
{
    if effect.is_conditional() {
        number + 1
    } else {
        number
    }
}

/// The variable of an effect in the first step: its own where it is conditional, else its action's.
pub(crate) fn effect_variable(layout: &Layout, place: Place, effect: &Eff) -> u32
    requires horizon { 0 < layout.now.horizon }
    requires action { place.action < layout.now.actions }
    requires number { is_conditional effect.now ≡ true → place.number < layout.now.conditional }
    ensures value { result ≡ variable_at layout.now 0 (row_of place.action place.number effect.now) }
    ensures small { result ≤ 2147483647 }
{
    // For the proof: the layout is lawful, so what it numbers are variables of the formula.
    let _all = layout.variables();
    if effect.is_conditional() {
        layout.conditional(0, place.number)
    } else {
        action_variable(layout, place.action)
    }
}
