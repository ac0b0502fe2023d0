//! A walk goes down from a time.

ghost use Rattle.std.specs.Prelude.{◌≡◌, ◌-◌, ◌≤◌, ◌<◌, Some, length, IfSome, IfNone};
ghost use Rattle.formula_defs.specs.Layout.{variables};
ghost use Rattle.goal_choice.specs.own.Kept.{walked, IsWalk};

use crate::literals::Literals;
use crate::supporters::Supporters;
use crate::walk::wanted_before;
use clause_base::literal::Lit;
use clause_base::values::Values;

/// What a walk came to: a decision, where there is one, and the least time for which it knows what is wanted.
#[derive(Drop)]
pub(crate) struct Descent {
    pub(crate) choice: Option<Lit>,
    pub(crate) low: u32,
}

/// Goes down by a step: to a choice, or else to what is wanted at the time before it.
fn step_down(
    means: &Supporters,
    values: &Values,
    low: u32,
    wanted: &mut Vec<Literals>,
    before: &mut Literals,
) -> Option<Lit>
    requires low { 0 < low }
    requires walk { IsWalk (record { means = means.now; seen = values.now; wanted = wanted.old.items; low = low }) }
    requires before { before.old.facts ≡ means.now.layout.facts }
    ensures chosen { IfSome result (λ c. walked means.now values.now ≡ Some c) }
    ensures stays { IfSome result (λ _. IsWalk (record { means = means.now; seen = values.now; wanted = wanted.new.items; low = low })) }
    ensures lower { IfNone result (IsWalk (record { means = means.now; seen = values.now; wanted = wanted.new.items; low = low - 1 })) }
    ensures before { before.new.facts ≡ means.now.layout.facts }
{
    let step = low - 1;
    before.clear();
    let after = &wanted[low as usize];
    match wanted_before(means, values, step, after, before) {
        Some(choice) => Some(choice),
        None => {
            before.keeps_within();
            std::mem::swap(&mut wanted[step as usize], before);
            None
        }
    }
}

/// Goes down from a time to a choice, or else to the initial state.
pub(crate) fn walk_down(
    means: &Supporters,
    values: &Values,
    from: u32,
    wanted: &mut Vec<Literals>,
    before: &mut Literals,
) -> Descent
    requires walk { IsWalk (record { means = means.now; seen = values.now; wanted = wanted.old.items; low = from }) }
    requires before { before.old.facts ≡ means.now.layout.facts }
    ensures choice { result.choice ≡ walked means.now values.now }
    ensures walk { IsWalk (record { means = means.now; seen = values.now; wanted = wanted.new.items; low = result.low }) }
    ensures lower { result.low ≤ from }
    ensures before { before.new.facts ≡ means.now.layout.facts }
{
    let mut low = from;
    'walking: while low > 0 {
        if let Some(choice) = step_down(means, values, low, wanted, before) {
            return Descent {
                choice: Some(choice),
                low,
            };
        }
        low -= 1;
    }
    Descent { choice: None, low }
}

/// The choice of the walk over some values, where there is one, from the goals at the last time on.
pub(crate) fn whole_walk(
    means: &Supporters,
    values: &Values,
    wanted: &mut Literals,
    before: &mut Literals,
) -> Option<Lit>
    requires fits { length values.now ≡ variables means.now.layout }
    requires wanted { wanted.old.facts ≡ means.now.layout.facts }
    requires before { before.old.facts ≡ means.now.layout.facts }
    ensures choice { result ≡ walked means.now values.now }
    ensures wanted { wanted.new.facts ≡ means.now.layout.facts }
    ensures before { before.new.facts ≡ means.now.layout.facts }
{
    wanted.clear();
    wanted.put_all(means.goal());
    let mut time = means.layout().horizon;
    'walking: while time > 0 {
        before.clear();
        if let Some(choice) = wanted_before(means, values, time - 1, wanted, before) {
            return Some(choice);
        }
        std::mem::swap(wanted, before);
        time -= 1;
    }
    None
}
