//! The last walk over literals that were told, from which the next one goes on.

ghost use Rattle.std.specs.Prelude.{◌≡◌, ◌-◌, ◌/◌, ◌≤◌, ◌<◌, [], ◌∷◌, ◌++◌, false, Some, None, length, take, IfOk};
ghost use Rattle.std.specs.Bool.{OnTrue};
ghost use Rattle.formula_defs.specs.Layout.{variables, fact_at};
ghost use Rattle.clause_base.specs.Told.{told_value, told_values};
ghost use Rattle.goal_choice.specs.own.Kept.{walked, IsSameFrom};
ghost use Rattle.goal_choice.specs.own.Told.{walk_of};

use crate::descent::walk_down;
use crate::literals::{Literals, empty_sets};
use crate::supporters::Supporters;
use clause_base::literal::Lit;
use clause_base::values::Values;
use containers::memory::Memory;
use std::alloc::Global;
use std::marker::Model;

/// What a chooser of actions backwards from the goals keeps from one choice to the next: the literals that it was told, oldest
/// first, and of its last walk over their values the literals that it wanted at each time, from the last time down to `low`.
/// Beside that, a set to write over.
#[derive(Drop)]
pub struct ToldWalk {
    means: Supporters,
    own: Vec<Lit>,
    wanted: Vec<Literals>,
    low: u32,
    before: Literals,
}

impl Model for ToldWalk {
    ghost use Rattle.std.specs.Prelude.{vec_capacity};
    ghost use Rattle.goal_choice.specs.own.Told.{ToldView, IsTold};

    ghost Value = { ToldView };

    ghost view = { λ w. record { means = w.means; told = w.own.items; wanted = w.wanted.items; low = w.low } };

    ghost invariant = { λ w. IsTold (record { means = w.means; told = w.own.items; wanted = w.wanted.items; low = w.low }) w.before.facts (vec_capacity w.own) };
}

/// Whether a value is false.
fn is_false(value: Option<bool>) -> bool
    ensures { OnTrue result (value ≡ Some false) }
{
    value == Some(false)
}

impl ToldWalk {
    /// The walk over no values, before its first step.
    pub(crate) fn new(alloc: Global, means: Supporters) -> Result<ToldWalk, Memory>
        ensures means { IfOk result (λ w. w.means ≡ means) }
        ensures told { IfOk result (λ w. w.told ≡ []) }
    {
        let layout = *means.layout();
        let own = Vec::with_capacity(alloc, layout.variables() as usize)?;
        let mut wanted = empty_sets(alloc, layout.horizon as usize + 1, layout.facts)?;
        wanted[layout.horizon as usize].put_all(means.goal());
        let before = Literals::new(alloc, layout.facts)?;
        Ok(ToldWalk {
            before,
            low: layout.horizon,
            means,
            own,
            wanted,
        })
    }

    /// Where a fact gets a value at a time, a time from which on the steps that the walk went over ask for the same.
    fn fact_same_from(&self, time: u32, fact: u32, value: Option<bool>) -> u32
        requires { fact < self.now.means.layout.facts }
        ensures within { result ≤ self.now.means.layout.horizon }
        ensures same { IsSameFrom (walk_of self.now) (fact_at self.now.means.layout time fact) value result }
    {
        if time < self.low {
            return 0;
        }
        if time >= self.means.layout().horizon {
            return 0;
        }
        match value {
            None => 0,
            Some(given) => {
                if self.wanted[time as usize + 1].contains(2 * fact + u32::from(given)) {
                    time + 1
                } else {
                    0
                }
            }
        }
    }

    /// Where a variable gets a value, a time from which on the steps that the walk went over ask for the same. No such step
    /// asks for something else where an action that was open becomes false, or where no wanted literal becomes false.
    fn same_from(&self, v: u32, value: Option<bool>) -> u32
        requires { v < variables self.now.means.layout }
        ensures within { result ≤ self.now.means.layout.horizon }
        ensures same { (value ≡ Some false → told_value self.now.told v ≡ None) → IsSameFrom (walk_of self.now) v value result }
    {
        let layout = self.means.layout();
        let steps = layout.step_start(layout.horizon);
        if v >= steps {
            let place = v - steps;
            return self.fact_same_from(place / layout.facts, place % layout.facts, value);
        }
        if is_false(value) {
            return 0;
        }
        if v < layout.step_start(self.low) {
            return 0;
        }
        let looked_at = layout.actions + layout.conditional;
        let width = looked_at + layout.chains;
        if v % width >= looked_at {
            return 0;
        }
        v / width + 1
    }

    /// Is told that a literal is true. Of the walk what stands above the steps that then ask for something else stays.
    pub(crate) fn tell(&mut self, lit: Lit)
        requires room { length self.old.told < variables self.old.means.layout }
        requires below { lit / 2 < variables self.old.means.layout }
        ensures told { self.new.told ≡ self.old.told ++ lit ∷ [] }
        ensures means { self.new.means ≡ self.old.means }
    {
        let end = self.same_from(lit.variable(), Some(lit.is_positive()));
        self.low = self.low.max(end);
        self.own.push_reserved(lit);
    }

    /// Is told that the last literal is no longer true.
    fn take_back(&mut self)
        requires { 0 < length self.old.told }
        ensures told { self.new.told ≡ take (length self.old.told - 1) self.old.told }
        ensures means { self.new.means ≡ self.old.means }
    {
        let last = self.own.len() - 1;
        let lit = self.own[last];
        let end = self.same_from(lit.variable(), None);
        self.low = self.low.max(end);
        self.own.truncate(last);
    }

    /// How many literals it was told.
    fn count(&self) -> usize
        ensures { result ≡ length self.now.told }
    {
        self.own.len()
    }

    /// Is told that only so many of the first literals are still true.
    pub(crate) fn untell(&mut self, length: usize)
        ensures told { self.new.told ≡ take length self.old.told }
        ensures means { self.new.means ≡ self.old.means }
    {
        'taking: while self.count() > length {
            self.take_back();
        }
    }

    /// The choice of the walk over the values of the literals that were told, where there is one; the walk goes on from what is
    /// kept. In the program this is a function of its own too, so that `bench/time/choose` can tell its time.
    #[inline(never)]
    pub(crate) fn choice(&mut self, values: &Values) -> Option<Lit>
        requires values { values.now ≡ told_values (variables self.old.means.layout) self.old.told }
        ensures choice { result ≡ walked self.old.means values.now }
        ensures told { self.new.told ≡ self.old.told }
        ensures means { self.new.means ≡ self.old.means }
    {
        let descent = walk_down(
            &self.means,
            values,
            self.low,
            &mut self.wanted,
            &mut self.before,
        );
        self.low = descent.low;
        descent.choice
    }
}
