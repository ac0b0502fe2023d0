//! What an effect's variable means, and what an effect makes true.

ghost use Rattle.std.specs.Prelude.{◌≡◌, ◌+◌, ◌/◌, ◌%◌, ◌≤◌, ◌<◌, ◌==◌, [], ◌∷◌, ◌++◌, List, true, map, if◌then◌else◌, None, OnOk};
ghost use Rattle.std.specs.List.{AllByRecursion};
ghost use Rattle.gt_core.specs.Literal.{opposite};
ghost use Rattle.gt_core.specs.Lawful.{are_effects};
ghost use Rattle.formula_defs.specs.Layout.{action_at, fact_at};
ghost use Rattle.formula_defs.specs.Clause.{Is, Not, code};
ghost use Rattle.formula_defs.specs.Variables.{Row, rows};
ghost use Rattle.formula_defs.specs.Formula.{literal_over};
ghost use Rattle.formula_defs.specs.Coded.{Appends};
ghost use Rattle.step_formula.specs.Rows.{row_of, rows_of, IsLaidOut, IsPlaced, ArePlaced, meaning_of, effect_of, effects_of};
ghost use Rattle.step_formula.specs.own.Adders.{AreOverruling};

use crate::adders::Adders;
use crate::literals::{action_variable, add_clause, literal_at};
use crate::numbers::{Place, effect_variable, number_after};
use clause_base::clause_list::ClauseList;
use clause_base::literal::Lit;
use containers::memory::Memory;
use formula_defs::layout::Layout;
use gt_core::eff::Eff;
use gt_core::lits::opposite;
use gt_core::task::Task;
use std::alloc::Global;

/// Appends that each literal of a condition holds before the step where a variable is true.
fn add_conditions(
    layout: &Layout,
    variable: u32,
    condition: &[u32],
    clauses: &mut ClauseList,
) -> Result<(), Memory>
    requires variable { variable ≤ 2147483647 }
    requires within { AllByRecursion (λ l. l / 2 < layout.now.facts) condition.now }
    ensures { OnOk result (Appends clauses.old clauses.new (map (λ c. Not variable ∷ literal_over (fact_at layout.now 0) c ∷ []) condition.now)) }
{
    for lit in condition {
        add_clause(
            clauses,
            &[Lit::of(variable, false), literal_at(layout, 0, *lit)],
        )?;
    }
    Ok(())
}

/// Appends the contrary of each literal of a condition, before the step.
fn push_opposites(layout: &Layout, condition: &[u32], lits: &mut Vec<Lit>) -> Result<(), Memory>
    requires within { AllByRecursion (λ l. l / 2 < layout.now.facts) condition.now }
    ensures { OnOk result (lits.new.items ≡ lits.old.items ++ map code (map (λ c. literal_over (fact_at layout.now 0) (opposite c)) condition.now)) }
{
    for lit in condition {
        lits.push(literal_at(layout, 0, opposite(*lit)))?;
    }
    Ok(())
}

/// Appends that a variable is true where an action is in the step and a condition holds before it.
fn add_reason(
    alloc: Global,
    layout: &Layout,
    action: u32,
    variable: u32,
    condition: &[u32],
    clauses: &mut ClauseList,
) -> Result<(), Memory>
    requires variable { variable ≤ 2147483647 }
    requires horizon { 0 < layout.now.horizon }
    requires action { action < layout.now.actions }
    requires within { AllByRecursion (λ l. l / 2 < layout.now.facts) condition.now }
    ensures { OnOk result (Appends clauses.old clauses.new ((Is variable ∷ Not (action_at layout.now 0 action) ∷ map (λ c. literal_over (fact_at layout.now 0) (opposite c)) condition.now) ∷ [])) }
{
    let mut lits = vec![in alloc;
        Lit::of(variable, true),
        Lit::of(action_variable(layout, action), false),
    ]?;
    push_opposites(layout, condition, &mut lits)?;
    add_clause(clauses, lits.as_slice())
}

/// Appends what the variable of a conditional effect means.
fn add_meaning(
    alloc: Global,
    layout: &Layout,
    place: Place,
    effect: &Eff,
    clauses: &mut ClauseList,
) -> Result<(), Memory>
    requires { IsPlaced layout.now place.action place.number effect.now }
    ensures { OnOk result (Appends clauses.old clauses.new (meaning_of layout.now (row_of place.action place.number effect.now))) }
{
    if !effect.is_conditional() {
        return Ok(());
    }
    let variable = effect_variable(layout, place, effect);
    let in_step = Lit::of(action_variable(layout, place.action), true);
    add_clause(clauses, &[Lit::of(variable, false), in_step])?;
    add_conditions(layout, variable, effect.cond(), clauses)?;
    add_reason(
        alloc,
        layout,
        place.action,
        variable,
        effect.cond(),
        clauses,
    )?;
    Ok(())
}

/// Appends, for a delete, the variables of the same action's adds of its fact, which overrule it.
fn push_overruling(adders: &Adders, lit: u32, lits: &mut Vec<Lit>) -> Result<(), Memory>
    ensures { OnOk result (lits.new.items ≡ lits.old.items ++ (if lit % 2 == 0 then [] else (if adders.now.lit == opposite lit then adders.now.vars.items else []))) }
{
    if lit % 2 == 0 {
        return Ok(());
    }
    lits.extend_from_slice(adders.with(opposite(lit)))?;
    Ok(())
}

/// Appends the clauses of one effect: what its variable means, and what it makes true, an add always, a delete unless its
/// action adds the fact.
fn add_effect(
    alloc: Global,
    layout: &Layout,
    place: Place,
    effect: &Eff,
    adders: &Adders,
    clauses: &mut ClauseList,
) -> Result<(), Memory>
    requires { IsPlaced layout.now place.action place.number effect.now }
    ensures { OnOk result ((all : List Row) → AreOverruling layout.now place.action all adders.now.lit adders.now.vars.items effect.now → Appends clauses.old clauses.new (effect_of layout.now all (row_of place.action place.number effect.now))) }
{
    add_meaning(alloc, layout, place, effect, clauses)?;
    let mut lits = vec![in alloc;
        Lit::of(effect_variable(layout, place, effect), false),
        literal_at(layout, 1, effect.lit()),
    ]?;
    push_overruling(adders, effect.lit(), &mut lits)?;
    add_clause(clauses, lits.as_slice())?;
    Ok(())
}

/// Appends the clauses of an action's effects, the first conditional one of which has the number `first`.
fn add_effects_of(
    alloc: Global,
    layout: &Layout,
    action: u32,
    first: u32,
    effects: &[Eff],
    clauses: &mut ClauseList,
) -> Result<(), Memory>
    requires placed { ArePlaced layout.now action first effects.now }
    requires sorted { are_effects layout.now.facts None effects.now ≡ true }
    ensures { OnOk result (Appends clauses.old clauses.new (effects_of layout.now (rows_of action first effects.now) (rows_of action first effects.now))) }
{
    let mut number = first;
    let mut adders = Adders::none(alloc);
    for effect in effects {
        let place = Place { action, number };
        add_effect(alloc, layout, place, effect, &adders, clauses)?;
        adders.note(layout, place, effect)?;
        number = number_after(number, effect);
    }
    Ok(())
}

/// Appends the clauses of all effects.
pub(crate) fn add_effects(
    alloc: Global,
    layout: &Layout,
    task: &Task,
    clauses: &mut ClauseList,
) -> Result<(), Memory>
    requires { IsLaidOut layout.now task.now }
    ensures { OnOk result (Appends clauses.old clauses.new (effects_of layout.now (rows task.now) (rows task.now))) }
{
    let mut first = 0;
    for a in 0..layout.actions {
        let act = task.act(a);
        add_effects_of(alloc, layout, a, first, act.effects(), clauses)?;
        first += act.conditional() as u32;
    }
    Ok(())
}
