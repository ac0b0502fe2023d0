//! The published order of the large tasks of `test_kit`, their two-literal invariants, and their formulas, counted and summed up.
//! The word `known` names `moves` where it is known that no two of the places hold together: 130,816 pairs. What is due of the robot
//! in rooms, `bench/reference/formulas` wrote, from the definition of the clauses alone. A body that gives up past some size fails there.

ghost use Rattle.std.specs.Prelude.{◌≡◌, ◌<◌, ◌≤◌, IfOk};
ghost use Rattle.horizon_rates.specs.Limits.{last_horizon};

use crate::formulas::put_counts;
use crate::known::{kept_order, pairs_of};
use crate::lines::{Out, put};
use action_order::publish::publish;
use clause_base::formula::Formula;
use clause_base::view::View;
use containers::memory::Memory;
use gt_core::pairs::Pairs;
use gt_core::task::Task;
use horizon_rates::LAST_HORIZON;
use std::thread::Threads;
use step_encoding::exists::ExistsForm;
use step_encoding::form::StepForm;
use test_kit::large::large;
use test_kit::rooms::rooms;
use two_invariants::find;

/// The number that comes after another one by a literal.
fn summed(sum: u64, code: u32) -> u64
    requires { sum < 2147483648 }
    ensures { result < 2147483648 }
{
    (sum * 31 + u64::from(code) + 1) % 2_147_483_648
}

/// The number that comes after another one by a clause.
fn sum_of_clause(sum: u64, clause: &View) -> u64
    requires { sum < 2147483648 }
    ensures { result < 2147483648 }
{
    let mut total = summed(sum, (clause.len() % 65536) as u32);
    for place in 0..clause.len() {
        total = summed(total, clause.get(place).0);
    }
    total
}

/// A number that depends on each literal of a formula, and on its place.
fn sum_of(formula: &Formula) -> u64 {
    let mut sum: u64 = 0;
    for number in 0..formula.count() {
        sum = sum_of_clause(sum, &formula.clause(number));
    }
    sum
}

/// The sizes of all horizons up to the greatest one, added up; past 2^64 - 1, that.
fn all_sizes<F: StepForm>(form: &F) -> u64 {
    let mut sum: u64 = 0;
    for n in 0..256 {
        sum = sum.saturating_add(form.size(n));
    }
    sum
}

/// Builds a formula, and writes how many literals and clauses it has and what they sum up to.
fn put_formula<F: StepForm>(out: &mut Out, form: &F, n: u32)
    requires { n ≤ last_horizon }
{
    let Ok(formula) = form.formula(out.alloc, n) else {
        return out.fail();
    };
    let words = "horizon #: # variables, # clauses, # literals";
    put_counts(out, words, &formula, form.size(n));
    put(out, ", sum #\n", &[sum_of(&formula)]);
}

/// Builds the formula of a horizon from 1 to the greatest one, and so many times adds up the sizes of all horizons.
fn put_form<F: StepForm>(out: &mut Out, form: &F, horizon: u32, sizes: u32) {
    if 0 < horizon && horizon <= LAST_HORIZON {
        put_formula(out, form, horizon);
    }
    let (one, two) = (form.size(1), form.size(2));
    put(out, "sizes: # and # literals\n", &[one, two]);
    for _ in 0..sizes {
        put(out, "all sizes: #\n", &[all_sizes(form)]);
    }
}

/// Makes the published order under pairs and the form, builds the formula of a horizon from 1 to the greatest one, and so many times adds up the
/// sizes of all horizons.
fn put_task(out: &mut Out, task: &Task, made: Result<Pairs, Memory>, horizon: u32, sizes: u32)
    requires { IfOk made (λ pairs. pairs.facts ≡ task.now.facts) }
{
    let Ok(pairs) = made else { return out.fail() };
    let Some(order) = kept_order(out, task, &pairs) else {
        return;
    };
    let (components, count) = (order.components() as u64, pairs.count() as u64);
    put(out, "# components, # known pairs\n", &[components, count]);
    match ExistsForm::new(out.alloc, task, &pairs, &order) {
        Ok(form) => put_form(out, &form, horizon, sizes),
        Err(_) => out.fail(),
    }
}

/// Takes the task of a robot in rooms with lamps, of which it is known that each is on or off and not both. Writes how many literals
/// and clauses the formula of a horizon has, and a number that depends on each literal and on its place; of horizon 0, nothing. So
/// many times it adds up the sizes of all horizons up to the greatest one.
pub(crate) fn put_rooms(out: &mut Out, count: u32, horizon: u32, sizes: u32) {
    let Ok(Some(task)) = rooms(out.alloc, count) else {
        return out.fail();
    };
    let pairs = pairs_of(out, &task, count, "");
    put_task(out, &task, pairs, horizon, sizes);
}

/// Writes the sizes of two horizons of a task under no known pair.
fn put_sizes(out: &mut Out, task: &Task) {
    let none = pairs_of(out, task, 0, "");
    put_task(out, task, none, 0, 0);
}

/// Writes how many actions and components the order of the task for a word has.
fn put_order(out: &mut Out, task: &Task, word: &str) {
    let Ok(pairs) = pairs_of(out, task, 0, word) else {
        return out.fail();
    };
    let Ok(order) = publish(out.alloc, task, &pairs) else {
        return out.fail();
    };
    let (actions, components) = (order.actions() as u64, order.components() as u64);
    put(out, word, &[]);
    put(out, ": # actions, # components\n", &[actions, components]);
}

/// Writes how many invariants the task for a word has.
fn put_count(rt: &(impl Threads + Sync), out: &mut Out, task: &Task, word: &str) {
    let Ok(pairs) = find(rt, out.alloc, task) else {
        return out.fail();
    };
    put(out, word, &[]);
    put(out, ": # invariants\n", &[pairs.count() as u64]);
}

/// Publishes the order of the large task for a word, finds its invariants, or writes how large its formulas are.
pub(crate) fn put_large(rt: &(impl Threads + Sync), out: &mut Out, first: &str, word: &str) {
    let name = if word == "known" { "moves" } else { word };
    let Ok(Some(task)) = large(out.alloc, name) else {
        return out.fail();
    };
    match first {
        "order" => put_order(out, &task, word),
        "invariants" => put_count(rt, out, &task, word),
        _ => put_sizes(out, &task),
    }
}
