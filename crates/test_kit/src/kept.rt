//! Pairs of literals that each action keeps, as a look at the action alone shows.

ghost use Rattle.std.specs.Prelude.{◌≡◌, ◌*◌, ◌<◌, ◌||◌, true, IfOk};
ghost use Rattle.std.specs.List.{list_all};
ghost use Rattle.gt_core.specs.Literal.{opposite, holds};
ghost use Rattle.gt_core.specs.Task.{initial_state};
ghost use Rattle.gt_core.specs.Interference.{action_needs, action_may_make, action_surely_makes};
ghost use Rattle.gt_core.specs.Reached.{HoldsWherever};
ghost use Rattle.test_kit.specs.own.Kept.{secures, keeps, is_kept};

use containers::memory::Memory;
use gt_core::act::Act;
use gt_core::lits::opposite;
use gt_core::pairs::Pairs;
use gt_core::task::Task;
use std::alloc::Global;

/// Whether an action may take a literal away.
fn takes(act: &Act, lit: u32) -> bool
    ensures { result ≡ action_may_make act.now (opposite lit) }
{
    let contrary = opposite(lit);
    act.effects().iter().any(|e| e.lit() == contrary)
}

/// Whether an action needs a literal.
fn needs(act: &Act, lit: u32) -> bool
    ensures { result ≡ action_needs act.now lit }
{
    act.pre().iter().any(|l| *l == lit)
}

/// Whether an action surely makes a literal true.
fn surely_makes(act: &Act, lit: u32) -> bool
    ensures { result ≡ action_surely_makes act.now lit }
{
    act.effects()
        .iter()
        .any(|e| e.lit() == lit && e.cond().is_empty())
}

/// Whether a literal surely holds after an action.
fn secures(act: &Act, lit: u32) -> bool
    ensures { result ≡ secures act.now lit }
{
    !takes(act, lit) && (needs(act, lit) || surely_makes(act, lit))
}

/// Whether an action keeps a pair.
fn keeps(act: &Act, l: u32, m: u32) -> bool
    ensures { result ≡ keeps act.now (l, m) }
{
    (!takes(act, l) || secures(act, m)) && (!takes(act, m) || secures(act, l))
}

/// Whether a literal holds at first.
fn holds_first(task: &Task, lit: u32) -> bool
    ensures { result ≡ holds (initial_state task.now) lit }
{
    let value = task
        .init()
        .get((lit / 2) as usize)
        .copied()
        .unwrap_or(false);
    if lit % 2 == 0 { value } else { !value }
}

/// Whether one of two literals holds at first.
fn one_holds_first(task: &Task, l: u32, m: u32) -> bool
    ensures { result ≡ (holds (initial_state task.now) l || holds (initial_state task.now) m) }
{
    holds_first(task, l) || holds_first(task, m)
}

/// Whether each action keeps a pair.
fn all_keep(task: &Task, l: u32, m: u32) -> bool
    ensures { result ≡ list_all (λ x. keeps x (l, m)) task.now.actions }
{
    task.acts().iter().all(|act| keeps(act, l, m))
}

/// Whether a pair holds at first, and each action keeps it.
fn is_kept(task: &Task, l: u32, m: u32) -> bool
    ensures { result ≡ is_kept task.now (l, m) }
{
    one_holds_first(task, l, m) && all_keep(task, l, m)
}

/// Whether each pair holds at first and each action keeps it, so that all hold wherever actions lead.
pub fn are_kept(task: &Task, pairs: &Pairs) -> bool
    ensures { result ≡ true → HoldsWherever task.now pairs.now.clauses }
{
    for i in 0..pairs.count() {
        let (l, m) = pairs.at(i);
        if !is_kept(task, l, m) {
            return false;
        }
    }
    true
}

/// Adds the pairs of a literal and a greater one, or the literal itself, that are kept.
fn add_kept(task: &Task, l: u32, pairs: &mut Pairs) -> Result<(), Memory>
    requires { l < 2 * pairs.old.facts }
    ensures { pairs.new.facts ≡ pairs.old.facts }
{
    // For the proof: the known clauses are lawful.
    let _count = pairs.count();
    let side = 2 * pairs.facts();
    for m in l..side {
        let apart = l == m || l / 2 != m / 2;
        if apart && is_kept(task, l, m) {
            pairs.add(l, m)?;
        }
    }
    Ok(())
}

/// All pairs that are kept.
pub fn kept_pairs(alloc: Global, task: &Task) -> Result<Pairs, Memory>
    ensures { IfOk result (λ pairs. pairs.facts ≡ task.now.facts) }
{
    let facts = task.facts();
    let mut pairs = Pairs::empty(alloc, facts)?;
    for l in 0..2 * facts {
        add_kept(task, l, &mut pairs)?;
    }
    Ok(pairs)
}
