//! How many literals the clauses of an action's effects have.
ghost use Rattle.std.specs.Prelude.{◌≡◌, ◌+◌, ◌*◌, ◌≤◌, true, length, count_by, None};
ghost use Rattle.gt_core.specs.Lawful.{are_effects, is_conditional};
ghost use Rattle.step_formula.specs.own.Sizes.{has_both, meaning_size, effects_size};
ghost use Rattle.gt_core.specs.Limits.{most_facts, most_conditional};

use crate::counted_adds::Adds;
use gt_core::eff::Eff;

/// Whether a sorted list has both literals of a fact.
fn has_both(lits: &[u32]) -> bool
    ensures { result ≡ has_both lits.now }
{
    for place in 1..lits.len() {
        if lits[place - 1] / 2 == lits[place] / 2 {
            return true;
        }
    }
    false
}

/// How many literals the clauses have that say what an effect's variable means.
fn meaning_size(effect: &Eff) -> u64
    requires { length effect.now.condition ≤ 4096 }
    ensures size { result ≡ meaning_size effect.now }
    ensures few { result ≤ 12292 }
{
    let long = effect.cond().len() as u64;
    if long == 0 {
        return 0;
    }
    if has_both(effect.cond()) {
        2 + 2 * long
    } else {
        4 + 3 * long
    }
}

/// How many literals the clauses of an action's effects have, which are sorted and over so many facts.
pub(crate) fn effects_size(facts: u32, effects: &[Eff]) -> u64
    requires facts { facts ≤ most_facts }
    requires sorted { are_effects facts None effects.now ≡ true }
    requires few { count_by is_conditional effects.now ≤ most_conditional }
    ensures size { result ≡ effects_size effects.now }
    ensures few { result ≤ 131072 * length effects.now }
{
    let mut adds = Adds::none();
    let mut size = 0;
    for effect in effects {
        size += meaning_size(effect) + adds.result_size(effect);
        adds = adds.with(effect);
    }
    size
}
