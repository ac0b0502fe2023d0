//! What a wanted literal asks for.

ghost use Rattle.std.specs.Prelude.{◌≡◌, ◌<◌, ◌/◌, ◌%◌, ◌==◌, not, length, Some};
ghost use Rattle.formula_defs.specs.Layout.{variables};
ghost use Rattle.goal_choice.specs.Walk.{is_false_at, support_of};
ghost use Rattle.goal_choice.specs.own.Supports.{meaning, WantsWithin};

use crate::search::has_value;
use crate::supporters::Supporters;
use clause_base::literal::Lit;
use clause_base::values::Values;

/// What a literal asks for that is wanted after a step.
#[derive(Clone, Copy)]
pub(crate) enum Support<'a> {
    /// A decision.
    Choose(Lit),
    /// That these literals hold before the step: those of a precondition and of a condition.
    Want(&'a [u32], &'a [u32]),
    /// That it holds before the step.
    Keep,
}

/// Whether a fact literal is false at a time.
fn is_false_at(means: &Supporters, values: &Values, time: u32, lit: u32) -> bool
    requires time { time < means.now.layout.horizon }
    requires lit { lit / 2 < means.now.layout.facts }
    requires fits { length values.now ≡ variables means.now.layout }
    ensures { result ≡ is_false_at means.now.layout values.now time lit }
{
    let layout = means.layout();
    // For the proof: the layout is lawful, so what it numbers are variables of the formula.
    let _all = layout.variables();
    let variable = layout.fact(time, lit / 2);
    has_value(values, variable, Some(lit % 2 != 0))
}

/// What a literal asks for that is wanted after a step.
pub(crate) fn support_for<'a>(
    means: &'a Supporters,
    values: &Values,
    step: u32,
    lit: u32,
) -> Support<'a>
    requires step { step < means.now.layout.horizon }
    requires lit { lit / 2 < means.now.layout.facts }
    requires fits { length values.now ≡ variables means.now.layout }
    ensures support { meaning lit result ≡ support_of means.now values.now step lit }
    ensures within { WantsWithin means.now.layout.facts result }
{
    let start = means.layout().step_start(step);
    if let Some(supporter) = means.least_with(lit, values, start, Some(true)) {
        return Support::Want(supporter.precondition, supporter.condition);
    }
    if !is_false_at(means, values, step, lit) {
        return Support::Keep;
    }
    match means.least_with(lit, values, start, None) {
        None => Support::Keep,
        Some(supporter) => Support::Choose(Lit::of(start + supporter.variable, true)),
    }
}
