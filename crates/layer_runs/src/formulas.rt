//! Formulas, clause by clause: those of exists-steps and of all-steps of two worked tasks, and of twenty small tasks that are
//! drawn from numbers, first under no known pair and then under all pairs that each action keeps by itself. What is due,
//! `bench/reference/formulas` wrote, from the definition of the clauses alone.

ghost use Rattle.std.specs.Prelude.{◌≡◌, ◌≤◌, IfOk};
ghost use Rattle.gt_core.specs.Published.{IsPublished};
ghost use Rattle.gt_core.specs.Reached.{HoldsWherever};
ghost use Rattle.step_encoding.specs.{Limits.most_literals, Numbers.literals_of};
ghost use Rattle.horizon_rates.specs.Limits.{last_horizon};

use crate::known::{kept_order, pairs_of};
use crate::lines::{Out, put, put_all};
use crate::model::is_model;
use action_order::order::Order;
use all_steps::form::BothWays;
use clause_base::formula::Formula;
use clause_base::view::View;
use containers::memory::Memory;
use gt_core::pairs::Pairs;
use gt_core::task::Task;
use horizon_rates::LAST_HORIZON;
use std::alloc::AllocError;
use step_encoding::exists::Components;
use step_encoding::form::StepForm;
use step_encoding::placed::{Placed, Placing};
use step_encoding::steps::Steps;
use test_kit::dice::Dice;
use test_kit::kept::kept_pairs;
use test_kit::{drawn, worked};

/// How many tasks are drawn.
const TASKS: u32 = 20;

/// Writes the components of an order.
fn put_order(out: &mut Out, order: &Order) {
    put(out, "order", &[]);
    for group in order.groups() {
        put(out, " |", &[]);
        put_all(out, group.as_slice());
    }
    put(out, "\n", &[]);
}

/// Writes the line of a clause: the word `clause` and the codes of its literals, in order.
pub(crate) fn put_clause(out: &mut Out, clause: &View) {
    put(out, "clause", &[]);
    for place in 0..clause.len() {
        put(out, " #", &[clause.get(place).0 as u64]);
    }
    put(out, "\n", &[]);
}

/// Writes, by words with four `#`, the horizon of a formula, and how many variables, clauses and literals it has.
pub(crate) fn put_counts(out: &mut Out, words: &str, formula: &Formula, size: u64) {
    let (name, variables) = (formula.name() as u64, formula.variables() as u64);
    put(out, words, &[name, variables, formula.count() as u64, size]);
}

/// Writes a formula.
fn put_formula(out: &mut Out, formula: &Formula) {
    let (name, variables) = (formula.name() as u64, formula.variables() as u64);
    put(out, "formula # variables #\n", &[name, variables]);
    for number in 0..formula.count() {
        put_clause(out, &formula.clause(number));
    }
}

/// Writes how many variables a horizon has of each kind.
fn put_layout<F: StepForm>(out: &mut Out, form: &F, n: u32)
    requires horizon { n ≤ last_horizon }
    requires size { literals_of (F.formula_of form.now n) ≤ most_literals }
{
    let z = form.layout(n);
    put(out, "layout", &[]);
    put_all(out, &[n, z.actions, z.conditional, z.chains, z.facts]);
    put(out, "\n", &[]);
}

/// Writes steps, the actions of each in a line.
fn put_steps(out: &mut Out, made: Option<Steps>) {
    let Some(steps) = made else { return out.fail() };
    for step in steps.as_slice() {
        put(out, "step", &[]);
        put_all(out, step.as_slice());
        put(out, "\n", &[]);
    }
}

/// Writes a horizon's formula, and the steps of an assignment where it satisfies it.
fn put_horizon<F: StepForm>(out: &mut Out, form: &F, n: u32, values: &[bool])
    requires { n ≤ last_horizon }
{
    let Ok(formula) = form.formula(out.alloc, n) else {
        return out.fail();
    };
    put_layout(out, form, n);
    put_formula(out, &formula);
    if is_model(&formula, values) {
        put_steps(out, form.steps_of(out.alloc, n, values).ok());
    } else {
        put(out, "no model\n", &[]);
    }
}

/// Writes what was asked of a form.
fn put_form<F: StepForm>(out: &mut Out, form: &F, n: u32, values: &[bool]) {
    for k in 0..4 {
        put(out, "size # #\n", &[k as u64, form.size(k)]);
    }
    put_horizon(out, form, n.min(LAST_HORIZON), values);
}

/// Writes what was asked of the form of a task whose chains go where `P` says, under its name.
fn put_placed<P: Placing>(
    out: &mut Out,
    name: &str,
    task: &Task,
    pairs: &Pairs,
    order: &Order,
    n: u32,
    values: &[bool],
)
    requires facts { pairs.now.facts ≡ task.now.facts }
    requires hold { HoldsWherever task.now pairs.now.clauses }
    requires published { IsPublished task.now pairs.now.clauses order.now }
{
    put(out, name, &[]);
    match Placed::<P>::new(out.alloc, task, pairs, order) {
        Ok(form) => put_form(out, &form, n, values),
        Err(_) => out.fail(),
    }
}

/// Writes pairs.
fn put_pairs(out: &mut Out, pairs: &Pairs) {
    put(out, "pairs", &[]);
    for i in 0..pairs.count() {
        let (l, m) = pairs.at(i);
        put(out, " #,#", &[l as u64, m as u64]);
    }
    put(out, "\n", &[]);
}

/// Writes known pairs, and a task's published order and its formulas under them.
fn put_known(out: &mut Out, task: &Task, made: Result<Pairs, Memory>, n: u32, values: &[bool])
    requires { IfOk made (λ pairs. pairs.facts ≡ task.now.facts) }
{
    let Ok(pairs) = made else { return out.fail() };
    let Some(order) = kept_order(out, task, &pairs) else {
        return;
    };
    put_pairs(out, &pairs);
    put_order(out, &order);
    put_placed::<Components>(out, "exists-steps\n", task, &pairs, &order, n, values);
    put_placed::<BothWays>(out, "all-steps\n", task, &pairs, &order, n, values);
}

/// Writes a task's formulas under no known pair, and then under all that are kept.
fn put_task(out: &mut Out, made: Result<Option<Task>, AllocError>, n: u32, values: &[bool]) {
    let Ok(Some(task)) = made else {
        return out.fail();
    };
    let none = pairs_of(out, &task, 0, "");
    put_known(out, &task, none, n, values);
    put_known(out, &task, kept_pairs(out.alloc, &task), n, values);
}

/// Writes the formulas of a worked task in one step, after its name.
fn put_worked(out: &mut Out, name: &str, made: Result<Option<Task>, AllocError>) {
    put(out, name, &[]);
    put_task(out, made, 1, &[true, false, true]);
}

/// Writes the formulas of all tasks.
pub(crate) fn put_tasks(out: &mut Out) {
    put_worked(out, "lamp\n", worked::lamp(out.alloc));
    put_worked(out, "rivals\n", worked::rivals(out.alloc));
    for number in 0..TASKS {
        put(out, "task #\n", &[number as u64]);
        let made = drawn::task(out.alloc, &mut Dice::new(number));
        put_task(out, made, 2, &[]);
    }
}
