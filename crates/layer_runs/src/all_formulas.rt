//! The formulas of all-steps of two worked tasks under their invariants: how large they are at the horizons 0 to 2, and the clauses
//! of their chains in one step. What is due, a plain listing by the definition of the clauses wrote.

ghost use Rattle.std.specs.Prelude.{◌≤◌};
ghost use Rattle.horizon_rates.specs.Limits.{last_horizon};

use crate::formulas::{put_clause, put_counts};
use crate::lines::{Out, keep, put};
use action_order::publish::publish;
use all_steps::form::AllForm;
use clause_base::formula::Formula;
use clause_base::view::View;
use gt_core::act::{Act, Acts};
use gt_core::lits::{Bits, Lits};
use gt_core::task::Task;
use std::alloc::AllocError;
use std::thread::Threads;
use step_encoding::form::StepForm;
use test_kit::actions::plain;
use test_kit::worked;
use two_invariants::find;

/// How large a formula is, in words.
const SIZE: &str = "horizon # variables # clauses # size #\n";

/// Adds an action, if it was made.
fn add_act(out: &mut Out, acts: &mut Vec<Act>, made: Result<Act, AllocError>) {
    match made {
        Ok(act) => keep(out, acts.push(act)),
        Err(_) => out.fail(),
    }
}

/// Burn takes the fact match away, and use needs it. Facts: match 0, used 1, burnt 2.
fn burning_acts(out: &mut Out) -> Acts {
    let mut acts = Vec::new(out.alloc);
    add_act(out, &mut acts, plain(out.alloc, &[], &[1, 4]));
    add_act(out, &mut acts, plain(out.alloc, &[0], &[2]));
    Acts::of(acts)
}

/// A match that is used while it is there, and burns.
fn burning(out: &mut Out) -> Result<Option<Task>, AllocError> {
    let init = Bits::copied_from(out.alloc, &[true, false, false])?;
    let goal = Lits::copied_from(out.alloc, &[2, 4])?;
    Ok(Task::try_new(3, init, goal, false, burning_acts(out)))
}

/// Whether a clause has a literal of a variable from one on and below another.
fn touches(clause: &View, first: u64, end: u64) -> bool {
    for place in 0..clause.len() {
        let variable = u64::from(clause.get(place).variable());
        if first <= variable && variable < end {
            return true;
        }
    }
    false
}

/// Writes the clauses of a formula that have a literal of a variable from one on and below another.
fn put_touching(out: &mut Out, formula: &Formula, first: u64, end: u64) {
    for number in 0..formula.count() {
        let clause = formula.clause(number);
        if touches(&clause, first, end) {
            put_clause(out, &clause);
        }
    }
}

/// Writes how large the formula of a horizon is.
fn put_size<F: StepForm>(out: &mut Out, form: &F, n: u32)
    requires { n ≤ last_horizon }
{
    match form.formula(out.alloc, n) {
        Ok(formula) => put_counts(out, SIZE, &formula, form.size(n)),
        Err(_) => out.fail(),
    }
}

/// Writes how many chain variables a step has, and the clauses in which they are.
fn put_chains<F: StepForm>(out: &mut Out, form: &F) {
    let Ok(formula) = form.formula(out.alloc, 1) else {
        return out.fail();
    };
    let z = form.layout(1);
    put(out, "chain variables #\n", &[z.chains as u64]);
    let first = u64::from(z.actions) + u64::from(z.conditional);
    put_touching(out, &formula, first, first + u64::from(z.chains));
}

/// Writes how large the formulas of three horizons are, and what there is to write of the chains.
fn put_form<F: StepForm>(out: &mut Out, form: &F) {
    for n in 0..3 {
        put_size(out, form, n);
    }
    put_chains(out, form);
}

/// Writes what there is to write of a task under its invariants.
fn put_task(rt: &(impl Threads + Sync), out: &mut Out, made: Result<Option<Task>, AllocError>) {
    let Ok(Some(task)) = made else {
        return out.fail();
    };
    let Ok(pairs) = find(rt, out.alloc, &task) else {
        return out.fail();
    };
    let Ok(order) = publish(out.alloc, &task, &pairs) else {
        return out.fail();
    };
    match AllForm::new(out.alloc, &task, &pairs, &order) {
        Ok(form) => put_form(out, &form),
        Err(_) => out.fail(),
    }
}

/// Writes what there is to write of both tasks.
pub(crate) fn put_tasks(rt: &(impl Threads + Sync), out: &mut Out) {
    put(out, "burning\n", &[]);
    let made = burning(out);
    put_task(rt, out, made);
    put(out, "rivals\n", &[]);
    put_task(rt, out, worked::rivals(out.alloc));
}
