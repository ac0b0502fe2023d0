//! The search.

ghost use Rattle.std.specs.Prelude.{◌≡◌, ℕ, List, IfOk, IfSome};
ghost use Rattle.gt_core.specs.Clauses.{IsKnownClauses};
ghost use Rattle.never_search.specs.Answer.{IsFound, IsAnswer};

use crate::answer::{Answer, End};
use crate::excluded::Known;
use crate::layers::Layer;
use crate::set::clauses_of;
use crate::steps::Search;
use crate::tables::Tables;
use bit_sets::row::BitRow;
use containers::limits::CERTIFICATE_BYTES;
use containers::memory::Memory;
use gt_core::pairs::Pairs;
use gt_core::task::Task;
use never_check::backward::{BackwardVerdict, check_backward};
use state_search::shorten::run_to_goal;
use std::alloc::Global;

/// The end that actions are, where they run to the goal.
fn plan_of(alloc: Global, task: &Task, actions: Vec<u32>) -> Result<Option<End>, Memory>
    ensures { (known : List (ℕ × ℕ)) → IfOk result (λ o. IfSome o (IsFound task.now known)) }
{
    let facts = task.facts() as usize;
    let mut before = vec![in alloc; false; facts]?;
    let mut after = vec![in alloc; false; facts]?;
    if !run_to_goal(task, &actions, &mut before, &mut after) {
        return Ok(None);
    }
    Ok(Some(End::Plan(actions)))
}

/// The end that cubes are, where the opposite clauses are a backward set.
fn set_of(
    alloc: Global,
    task: &Task,
    known: &Pairs,
    layers: &[Layer],
) -> Result<Option<End>, Memory>
    requires facts { known.now.facts ≡ task.now.facts }
    requires known { IsKnownClauses known.now }
    ensures { IfOk result (λ o. IfSome o (IsFound task.now known.now.clauses)) }
{
    if layers.len() > CERTIFICATE_BYTES as usize {
        return Ok(None);
    }
    let clauses = clauses_of(alloc, task.facts(), layers)?;
    match check_backward(alloc, task, known, &clauses)? {
        BackwardVerdict::Accepted => Ok(Some(End::Set(clauses))),
        _ => Ok(None),
    }
}

/// One turn of a search: an obligation, or the end of a round. Answers how the search ends, where it does.
fn turn(
    alloc: Global,
    task: &Task,
    pairs: &Pairs,
    known: &Known<'_>,
    search: &mut Search,
) -> Result<Option<End>, Memory>
    requires facts { pairs.now.facts ≡ task.now.facts }
    requires known { IsKnownClauses pairs.now }
    ensures { IfOk result (λ o. IfSome o (IsFound task.now pairs.now.clauses)) }
{
    match search.obligations.take() {
        Some(number) => match search.meet(known, number)? {
            Some(actions) => plan_of(alloc, task, actions),
            None => Ok(None),
        },
        None => {
            if search.end_round(known)? {
                return set_of(alloc, task, pairs, &search.layers);
            }
            Ok(None)
        }
    }
}

/// How a search ends before its first turn, where it does: the goal is hopeless, or holds in the initial state.
fn at_once(alloc: Global, task: &Task, pairs: &Pairs) -> Result<Option<End>, Memory>
    requires facts { pairs.now.facts ≡ task.now.facts }
    requires known { IsKnownClauses pairs.now }
    ensures { IfOk result (λ o. IfSome o (IsFound task.now pairs.now.clauses)) }
{
    if !task.hopeless() {
        return plan_of(alloc, task, Vec::new(alloc));
    }
    let mut layers = Vec::new(alloc);
    layers.push(Layer {
        cube: BitRow::new(alloc),
        lits: Vec::new(alloc),
        level: 1,
    })?;
    set_of(alloc, task, pairs, &layers)
}

/// Turns, until the search ends or so many were taken.
fn turns(
    alloc: Global,
    task: &Task,
    pairs: &Pairs,
    tables: &Tables,
    budget: u64,
) -> Result<Answer, Memory>
    requires facts { pairs.now.facts ≡ task.now.facts }
    requires known { IsKnownClauses pairs.now }
    ensures { IfOk result (IsAnswer task.now pairs.now.clauses budget) }
{
    let known = Known { task, tables };
    let mut search = Search::new(alloc, tables.side)?;
    for spent in 0..budget {
        if let Some(end) = turn(alloc, task, pairs, &known, &mut search)? {
            return Ok(Answer {
                obligations: spent + 1,
                end,
            });
        }
    }
    Ok(Answer {
        obligations: budget,
        end: End::Open,
    })
}

/// Searches for a backward set or a plan, with so many obligations at most.
pub fn search(alloc: Global, task: &Task, pairs: &Pairs, budget: u64) -> Result<Answer, Memory>
    requires facts { pairs.now.facts ≡ task.now.facts }
    requires known { IsKnownClauses pairs.now }
    ensures { IfOk result (IsAnswer task.now pairs.now.clauses budget) }
{
    if let Some(end) = at_once(alloc, task, pairs)? {
        return Ok(Answer {
            obligations: 0,
            end,
        });
    }
    let tables = Tables::new(alloc, task, pairs)?;
    turns(alloc, task, pairs, &tables, budget)
}
