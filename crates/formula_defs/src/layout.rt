//! The numbers of the variables of a horizon's formula.

ghost use Rattle.std.specs.Prelude.{◌≡◌, ◌+◌, ◌*◌, ◌≤◌, ◌<◌};
ghost use Rattle.formula_defs.specs.Layout.{width, action_at, conditional_at, chain_at, fact_at, variables, IsLayout};

use std::marker::Model;

/// How many steps, actions, conditional effects, chain variables and facts a horizon's formula has. Variables are
/// numbered from 0: step after step, first the actions, then the conditional effects, then the chain variables;
/// after the last step the facts, time after time, from time 0 to the horizon. There are at most 2,147,483,647.
#[derive(Clone, Copy)]
pub struct Layout {
    /// How many steps.
    pub horizon: u32,
    /// How many actions.
    pub actions: u32,
    /// How many effects with a condition, of all actions.
    pub conditional: u32,
    /// How many chain variables a step has.
    pub chains: u32,
    /// How many facts.
    pub facts: u32,
}

impl Model for Layout {
    ghost use Rattle.formula_defs.specs.Layout.{Layout, IsLayout};

    ghost Value = { Layout };

    ghost view = { λ z. record { horizon = z.horizon; actions = z.actions; conditional = z.conditional; chains = z.chains; facts = z.facts } };

    ghost invariant = { λ z. IsLayout (record { horizon = z.horizon; actions = z.actions; conditional = z.conditional; chains = z.chains; facts = z.facts }) };

    ghost inverse = { λ z. record { horizon = z.horizon; actions = z.actions; conditional = z.conditional; chains = z.chains; facts = z.facts } };
}

impl Layout {
    ghost use Rattle.formula_defs.specs.Layout.{Layout as LayoutNumbers};

    /// The layout of these numbers.
    pub fn new(horizon: u32, actions: u32, conditional: u32, chains: u32, facts: u32) -> Layout
        requires { let layout : LayoutNumbers = record { horizon = horizon; actions = actions; conditional = conditional; chains = chains; facts = facts } in
            variables layout ≤ 2147483647 }
        ensures { result ≡ record { horizon = horizon; actions = actions; conditional = conditional; chains = chains; facts = facts } }
    {
        Layout {
            horizon,
            actions,
            conditional,
            chains,
            facts,
        }
    }

    /// The first variable of a step, or past the last step that of the facts.
    pub fn step_start(&self, step: u32) -> u32
        requires { step ≤ self.now.horizon }
        ensures start { result ≡ step * width self.now }
        ensures lawful { IsLayout self.now }
        ensures room { step < self.now.horizon → result + width self.now ≤ 2147483647 }
    {
        let width = u64::from(self.actions) + u64::from(self.conditional) + u64::from(self.chains);
        (u64::from(step) * width) as u32
    }

    /// How many variables there are.
    pub fn variables(&self) -> u32
        ensures variables { result ≡ variables self.now }
        ensures lawful { IsLayout self.now }
    {
        let times = (u64::from(self.horizon) + 1) * u64::from(self.facts);
        (u64::from(self.step_start(self.horizon)) + times) as u32
    }

    /// The variable of an action in a step, from 0.
    pub fn action(&self, step: u32, a: u32) -> u32
        requires step { step < self.now.horizon }
        requires a { a < self.now.actions }
        ensures { result ≡ action_at self.now step a }
    {
        self.step_start(step) + a
    }

    /// The variable of a conditional effect in a step.
    pub fn conditional(&self, step: u32, j: u32) -> u32
        requires step { step < self.now.horizon }
        requires j { j < self.now.conditional }
        ensures { result ≡ conditional_at self.now step j }
    {
        self.step_start(step) + self.actions + j
    }

    /// A chain variable in a step.
    pub fn chain(&self, step: u32, c: u32) -> u32
        requires step { step < self.now.horizon }
        requires c { c < self.now.chains }
        ensures { result ≡ chain_at self.now step c }
    {
        self.step_start(step) + self.actions + self.conditional + c
    }

    /// The variable of a fact at a time, from 0 to the horizon.
    pub fn fact(&self, time: u32, f: u32) -> u32
        requires time { time ≤ self.now.horizon }
        requires f { f < self.now.facts }
        ensures { result ≡ fact_at self.now time f }
    {
        self.step_start(self.horizon) + time * self.facts + f
    }
}
