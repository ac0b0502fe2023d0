//! The adds of one fact among the effects of an action, which are sorted by literal.

ghost use Rattle.std.specs.Prelude.{◌≡◌, ℕ, ◌+◌, ◌-◌, ◌%◌, ◌≤◌, ◌<◌, ◌==◌, [], ◌∷◌, ◌++◌, List, true, count_by, if◌then◌else◌, OnOk};
ghost use Rattle.std.specs.List.{AllByRecursion};
ghost use Rattle.gt_core.specs.{Task.Effect, Lawful.is_conditional};

use crate::numbers::{Place, effect_variable};
use clause_base::literal::Lit;
use containers::memory::Memory;
use formula_defs::layout::Layout;
use gt_core::eff::Eff;
use std::alloc::Global;

/// The effects that were passed with the literal `lit`, an add: their variables.
#[derive(Drop)]
pub(crate) struct Adders {
    lit: u32,
    vars: Vec<Lit>,
}

/// The literal that adds the fact of an effect.
pub fn add_of_fact(effect: &Eff) -> u32
    ensures { result ≡ effect.now.literal - effect.now.literal % 2 }
{
    effect.lit() - effect.lit() % 2
}

impl Adders {
    ghost use Rattle.step_formula.specs.Rows.{row_of, made_by};
    ghost use Rattle.step_formula.specs.own.Adders.{IsAdders};

    /// No effect passed.
    pub(crate) fn none(alloc: Global) -> Adders
        ensures { result.vars.items ≡ [] }
    {
        Adders {
            lit: 0,
            vars: Vec::new(alloc),
        }
    }

    /// The variables of the effects with an add, if they were the last ones of an add.
    pub(crate) fn with(&self, lit: u32) -> &[Lit]
        ensures { result.now ≡ (if self.now.lit == lit then self.now.vars.items else []) }
    {
        if self.lit == lit {
            return self.vars.as_slice();
        }
        &[]
    }

    /// Goes on to an add.
    fn go_to(&mut self, lit: u32)
        ensures lit { self.new.lit ≡ lit }
        ensures again { self.old.lit ≡ lit → self.new.vars.items ≡ self.old.vars.items }
        ensures first { (self.old.lit ≡ lit → ⊥) → self.new.vars.items ≡ [] }
    {
        if self.lit != lit {
            self.vars.clear();
            self.lit = lit;
        }
    }

    /// Notes the variable of an effect, if it is one of the add.
    fn push_if(&mut self, layout: &Layout, place: Place, effect: &Eff) -> Result<(), Memory>
        requires horizon { 0 < layout.now.horizon }
        requires action { place.action < layout.now.actions }
        requires number { is_conditional effect.now ≡ true → place.number < layout.now.conditional }
        ensures lit { self.new.lit ≡ self.old.lit }
        ensures vars { OnOk result (self.new.vars.items ≡ self.old.vars.items ++ made_by layout.now place.action self.old.lit (row_of place.action place.number effect.now ∷ [])) }
    {
        if effect.lit() == self.lit {
            let variable = effect_variable(layout, place, effect);
            self.vars.push(Lit::of(variable, true))?;
        }
        Ok(())
    }

    /// Notes one more effect.
    pub(crate) fn note(&mut self, layout: &Layout, place: Place, effect: &Eff) -> Result<(), Memory>
        requires horizon { 0 < layout.now.horizon }
        requires action { place.action < layout.now.actions }
        requires number { is_conditional effect.now ≡ true → place.number < layout.now.conditional }
        ensures { OnOk result ((first : ℕ) (before : List Effect) → place.number ≡ first + count_by is_conditional before → AllByRecursion (λ d. d.literal ≤ effect.now.literal) before → IsAdders layout.now place.action first before self.old.lit self.old.vars.items → IsAdders layout.now place.action first (before ++ effect.now ∷ []) self.new.lit self.new.vars.items) }
    {
        self.go_to(add_of_fact(effect));
        self.push_if(layout, place, effect)?;
        Ok(())
    }
}
