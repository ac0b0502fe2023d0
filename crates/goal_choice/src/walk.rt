//! A step of the walk from the goals at the last time to the initial state.

ghost use Rattle.std.specs.Prelude.{◌≡◌, ◌<◌, [], length};
ghost use Rattle.formula_defs.specs.Layout.{variables};
ghost use Rattle.goal_choice.specs.Walk.{support_of, supports};
ghost use Rattle.goal_choice.specs.own.Supports.{IsStep};

use crate::literals::Literals;
use crate::support::{Support, support_for};
use crate::supporters::Supporters;
use clause_base::literal::Lit;
use clause_base::values::Values;

/// What the wanted literals ask for in a step: a decision, or else what is wanted before it.
pub(crate) fn wanted_before(
    means: &Supporters,
    values: &Values,
    step: u32,
    wanted: &Literals,
    before: &mut Literals,
) -> Option<Lit>
    requires step { step < means.now.layout.horizon }
    requires fits { length values.now ≡ variables means.now.layout }
    requires wanted { wanted.now.facts ≡ means.now.layout.facts }
    requires before { before.old ≡ record { facts = means.now.layout.facts; members = [] } }
    ensures step { IsStep (supports (support_of means.now values.now step) wanted.now.members) result before.new.members }
    ensures before { before.new.facts ≡ before.old.facts }
{
    let mut from = 0;
    'stepping: while let Some(lit) = wanted.least(from) {
        from = lit + 1;
        match support_for(means, values, step, lit) {
            Support::Choose(choice) => return Some(choice),
            Support::Want(precondition, condition) => {
                before.put_all(precondition);
                before.put_all(condition);
            }
            Support::Keep => before.put(lit),
        }
    }
    None
}
