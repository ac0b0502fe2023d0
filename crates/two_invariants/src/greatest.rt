//! Rounds until no action breaks a clause. A round tests the actions alone that may know less than when they were tested
//! last: of what the others break nothing is left.

ghost use Rattle.std.specs.Prelude.{◌≡◌, ℕ, ◌<◌, ◌==◌, true, IfOk};
ghost use Rattle.std.specs.List.{AllByRecursion, list_any};
ghost use Rattle.bit_sets.specs.Rows.{row_has};
ghost use Rattle.two_invariants.specs.Closed.{AreInvariants};
ghost use Rattle.implied_literals.specs.Rows.{clause_in, AreRows};
ghost use Rattle.gt_core.specs.Reached.{HoldsWherever};
ghost use Rattle.two_invariants.specs.own.Greatest.{AreGreatest};
ghost use Rattle.implied_literals.specs.Renewed.{asks};
ghost use Rattle.gt_core.specs.Literal.{opposite};

use crate::first::first_clauses;
use crate::list::list_clauses;
use crate::round::drop_broken;
use bit_sets::row::BitRow;
use containers::memory::Memory;
use gt_core::pairs::Pairs;
use gt_core::task::Task;
use implied_literals::again::{first_known, prepare};
use implied_literals::asked::asked_literals;
use std::alloc::{AllocError, Global};
use std::thread::Threads;

/// The numbers of so many actions.
fn all_numbers(alloc: Global, count: usize) -> Result<Vec<usize>, AllocError>
    ensures numbers { IfOk result (λ todo. AllByRecursion (λ a. a < count) todo.items) }
    ensures all { IfOk result (λ todo. (a : ℕ) → a < count → list_any (λ b. b == a) todo.items ≡ true) }
{
    let mut todo = Vec::new(alloc);
    for a in 0..count {
        todo.push(a)?;
    }
    Ok(todo)
}

/// The rows of the greatest set of clauses.
fn greatest_rows(
    rt: &(impl Threads + Sync),
    alloc: Global,
    task: &Task,
    asked: &BitRow,
) -> Result<Vec<BitRow>, AllocError>
    requires { (k : ℕ) → row_has asked.now k ≡ list_any (λ x. asks x k) task.now.actions }
    ensures rows { IfOk result (λ rows. AreRows task.now.facts rows.items) }
    ensures either { IfOk result (λ rows. (l m : ℕ) → clause_in rows.items l m ≡ clause_in rows.items m l) }
    ensures apart { IfOk result (λ rows. (l : ℕ) → clause_in rows.items l (opposite l) ≡ true → ⊥) }
    ensures greatest { IfOk result (λ rows. AreGreatest task.now rows.items) }
{
    let facts = task.facts();
    let mut rows = first_clauses(alloc, task.init())?;
    let mut known = first_known(alloc, facts, rows.as_slice(), asked)?;
    let mut todo = all_numbers(alloc, task.acts().len())?;
    'round: loop {
        let mut stale = BitRow::new(alloc);
        let dropped = drop_broken(
            rt,
            alloc,
            task,
            asked,
            &known,
            todo.as_slice(),
            &mut rows,
            &mut stale,
        )?;
        if !dropped {
            return Ok(rows);
        }
        todo = prepare(alloc, task, rows.as_slice(), &stale, asked, &mut known)?;
    }
}

/// The greatest set of clauses of one or two literals that are true in the initial state and that no action of the task
/// breaks under the set.
pub fn find(rt: &(impl Threads + Sync), alloc: Global, task: &Task) -> Result<Pairs, Memory>
    ensures facts { IfOk result (λ pairs. pairs.facts ≡ task.now.facts) }
    ensures greatest { IfOk result (λ pairs. AreInvariants task.now pairs.clauses) }
    ensures holds { IfOk result (λ pairs. HoldsWherever task.now pairs.clauses) }
{
    let facts = task.facts();
    let asked = asked_literals(alloc, task.acts())?;
    let rows = greatest_rows(rt, alloc, task, &asked)?;
    let pairs = list_clauses(alloc, facts, rows.as_slice())?;
    Ok(pairs)
}
