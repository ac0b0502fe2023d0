//! The tests of what each task keeps.

ghost use Rattle.std.specs.Prelude.{◌≡◌, ℕ, ◌≤◌, ◌*◌, nat_le, None};
ghost use Rattle.std.specs.List.{list_all};
ghost use Rattle.std.specs.Option.{option_copied};
ghost use Rattle.gt_core.specs.Lawful.{are_rising, list_less, effect_less, follows, are_effects, is_action, conditional_in, is_within};
ghost use Rattle.gt_core.specs.Limits.{most_wide_facts, most_wide_conditional};
ghost use Rattle.gt_core.specs.Task.{Task};

use crate::act::Act;
use crate::eff::Eff;
use crate::limits::Limits;

/// Literals below `top`, sorted and without repeats.
fn are_rising(lits: &[u32], top: u32) -> bool
    ensures { result ≡ are_rising top 0 lits.now }
{
    let mut low = 0;
    for lit in lits {
        if *lit < low || *lit >= top {
            return false;
        }
        low = *lit + 1;
    }
    true
}

fn list_less(first: &[u32], second: &[u32]) -> bool
    ensures { result ≡ list_less first.now second.now }
{
    for (i, x) in first.iter().enumerate() {
        if i >= second.len() {
            return false;
        }
        let y = second[i];
        if *x != y {
            return *x < y;
        }
    }
    first.len() < second.len()
}

fn effect_less(first: &Eff, second: &Eff) -> bool
    ensures { result ≡ effect_less first.now second.now }
{
    if first.lit() != second.lit() {
        return first.lit() < second.lit();
    }
    list_less(first.cond(), second.cond())
}

fn follows(last: Option<&Eff>, effect: &Eff) -> bool
    ensures { result ≡ follows (option_copied last.entry) effect.now }
{
    match last {
        None => true,
        Some(last) => effect_less(last, effect),
    }
}

fn are_effects(effects: &[Eff], facts: u32) -> bool
    requires { facts ≤ most_wide_facts }
    ensures { result ≡ are_effects facts None effects.now }
{
    let mut last = None;
    for effect in effects {
        if !follows(last, effect)
            || effect.lit() >= 2 * facts
            || !are_rising(effect.cond(), 2 * facts)
        {
            return false;
        }
        last = Some(effect);
    }
    true
}

fn is_action(act: &Act, facts: u32) -> bool
    requires { facts ≤ most_wide_facts }
    ensures { result ≡ is_action facts act.now }
{
    are_rising(act.pre(), 2 * facts) && are_effects(act.effects(), facts)
}

fn are_actions(acts: &[Act], facts: u32) -> bool
    requires { facts ≤ most_wide_facts }
    ensures { result ≡ list_all (is_action facts) acts.now }
{
    acts.iter().all(|act| is_action(act, facts))
}

fn has_few_conditional(acts: &[Act], most: u64) -> bool
    ensures { result ≡ nat_le (conditional_in acts.now) most }
{
    let mut left = most;
    for act in acts {
        let count = act.conditional() as u64;
        if count > left {
            return false;
        }
        left -= count;
    }
    true
}

/// Whether these are the parts of a task within the limits.
pub(crate) fn is_within(
    limits: &Limits,
    facts: u32,
    init: &[bool],
    goal: &[u32],
    hopeless: bool,
    acts: &[Act],
) -> bool
    requires { limits.now.facts ≤ most_wide_facts }
    ensures { let task : Task = record { facts = facts; initial = init.now; goal = goal.now; hopeless = hopeless; actions = acts.now } in result ≡ is_within limits.now task }
{
    if u64::from(facts) > limits.facts
        || acts.len() as u64 > limits.actions
        || !has_few_conditional(acts, limits.conditional)
    {
        return false;
    }
    init.len() == facts as usize && are_rising(goal, 2 * facts) && are_actions(acts, facts)
}

/// How many effects of these actions have a condition.
pub(crate) fn conditional_in(acts: &[Act]) -> u32
    requires { conditional_in acts.now ≤ most_wide_conditional }
    ensures { result ≡ conditional_in acts.now }
{
    let mut count = 0;
    for act in acts {
        count += act.conditional() as u32;
    }
    count
}
