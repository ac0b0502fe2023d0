//! Actions.

use crate::eff::{Eff, Effs};
use crate::lits::Lits;
use containers::ListOf;
use std::marker::Model;

/// An action: what has to hold before it, and what it does.
#[derive(Drop)]
pub struct Act {
    pre: Lits,
    effects: Effs,
}

impl Model for Act {
    ghost use Rattle.gt_core.specs.Task.{Action};

    ghost Value = { Action };

    ghost view = { λ a. record { precondition = a.pre; effects = a.effects } };
}

impl Act {
    ghost use Rattle.std.specs.Prelude.{◌≡◌, count_by};
    ghost use Rattle.gt_core.specs.Lawful.{is_conditional};

    /// The action with this precondition and these effects.
    pub fn new(pre: Lits, effects: Effs) -> Act
        ensures { result ≡ record { precondition = pre; effects = effects } }
    {
        Act { pre, effects }
    }

    /// The literals that have to hold.
    pub fn pre(&self) -> &[u32]
        ensures { result.now ≡ self.now.precondition }
    {
        self.pre.as_slice()
    }

    /// What the action does.
    pub fn effects(&self) -> &[Eff]
        ensures { result.now ≡ self.now.effects }
    {
        self.effects.as_slice()
    }

    /// How many effects have a condition.
    pub fn conditional(&self) -> usize
        ensures { result ≡ count_by is_conditional self.now.effects }
    {
        self.effects().iter().filter(|e| e.is_conditional()).count()
    }
}

/// Actions.
pub type Acts = ListOf<Act>;
