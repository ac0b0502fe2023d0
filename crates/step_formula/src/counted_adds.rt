//! The adds of one fact among the effects of an action, which are sorted by literal.
ghost use Rattle.std.specs.Prelude.{◌≡◌, ◌+◌, ◌-◌, ◌%◌, ◌≤◌, ◌<◌, ◌&&◌, not, cond, ◌++◌, ◌∷◌, List, []};
ghost use Rattle.std.specs.List.{AllByRecursion};
ghost use Rattle.gt_core.specs.Literal.{opposite};
ghost use Rattle.gt_core.specs.Task.{Effect};
ghost use Rattle.gt_core.specs.Lawful.{is_conditional};

use crate::adders::add_of_fact;
use gt_core::eff::Eff;

/// Whether an effect, where it is an add, has no condition.
fn is_sure(effect: &Eff, adds: bool) -> bool
    ensures { result ≡ (adds && not (is_conditional effect.now)) }
{
    adds && !effect.is_conditional()
}

/// The effects that were passed with the literal `lit`, an add: how many there are, and whether one has no condition.
#[derive(Clone, Copy)]
pub(crate) struct Adds {
    pub(crate) lit: u32,
    pub(crate) count: u32,
    pub(crate) sure: bool,
}

/// One where something is so, else none.
fn one_if(so: bool) -> u32
    ensures value { result ≡ cond so 1 0 }
    ensures few { result ≤ 1 }
{
    if so { 1 } else { 0 }
}

impl Adds {
    ghost use Rattle.step_formula.specs.own.Adds.{IsCount};
    ghost use Rattle.step_formula.specs.own.Sizes.{adds_of, adds_surely, result_size};

    /// No effect passed.
    pub(crate) fn none() -> Adds
        ensures count { IsCount result [] }
        ensures few { result.count ≡ 0 }
    {
        Adds {
            lit: 0,
            count: 0,
            sure: false,
        }
    }

    /// What is counted after one more effect.
    pub(crate) fn with(self, effect: &Eff) -> Adds
        requires { self.count < 4294967295 }
        ensures count { (before : List Effect) → AllByRecursion (λ d. d.literal ≤ effect.now.literal) before → IsCount self before → IsCount result (before ++ effect.now ∷ []) }
        ensures few { result.count ≤ self.count + 1 }
    {
        let lit = add_of_fact(effect);
        let adds = effect.lit() == lit;
        let sure = is_sure(effect, adds);
        let count = one_if(adds);
        if lit == self.lit {
            return Adds {
                lit,
                count: self.count + count,
                sure: self.sure | sure,
            };
        }
        Adds { lit, count, sure }
    }

    /// How many literals the clause has of what the next effect makes true.
    pub(crate) fn result_size(self, effect: &Eff) -> u64
        ensures size { (before : List Effect) → AllByRecursion (λ d. d.literal ≤ effect.now.literal) before → IsCount self before → result ≡ result_size (adds_of before (opposite effect.now.literal)) (adds_surely before (opposite effect.now.literal)) effect.now }
        ensures few { result ≤ 2 + self.count }
    {
        let lit = effect.lit();
        if lit % 2 == 0 || self.lit != lit - 1 {
            return 2;
        }
        if self.sure && !effect.is_conditional() {
            return 0;
        }
        2 + u64::from(self.count)
    }
}
