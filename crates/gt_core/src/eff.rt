//! The effects of an action.
ghost use Rattle.std.specs.Prelude.{◌≡◌, [], IfOk};

use crate::lits::Lits;
use containers::{ListOf, let_go};
use std::alloc::{AllocError, Global};
use std::marker::Model;

/// A condition and the literal that comes true under it.
#[derive(Drop)]
struct Conditional {
    cond: Lits,
    lit: u32,
}

/// What an effect is. One without a condition takes no memory of its own.
#[derive(Drop)]
enum Kind {
    Sure(u32),
    When(Box<Conditional>),
}

/// An effect: its literal comes true where the literals of its condition hold. An even literal adds its fact, an
/// odd one deletes it. An effect is conditional where its condition is not empty.
pub struct Eff {
    kind: Kind,
}

impl Model for Eff {
    ghost use Rattle.gt_core.specs.Task.{Effect};
    ghost use Rattle.gt_core.specs.own.Kinds.{effect_held};

    ghost Value = { Effect };

    ghost view = { λ e. effect_held e.kind };
}

/// All parts are let go in one call, so that a proof has one step for it and not one for each part.
impl Drop for Eff {
    fn drop(self) {
        let_go!(self: Eff { kind });
    }
}

impl Eff {
    ghost use Rattle.gt_core.specs.Lawful.{is_conditional};

    /// The effect without a condition that makes this literal true. It takes no memory.
    pub fn sure(lit: u32) -> Eff
        ensures { result ≡ record { condition = []; literal = lit } }
    {
        Eff {
            kind: Kind::Sure(lit),
        }
    }

    /// The effect with this condition and this literal.
    pub fn new(alloc: Global, cond: Lits, lit: u32) -> Result<Eff, AllocError>
        ensures { IfOk result (λ e. e ≡ record { condition = cond; literal = lit }) }
    {
        if cond.as_slice().is_empty() {
            return Ok(Eff::sure(lit));
        }
        Ok(Eff {
            kind: Kind::When(Box::new(alloc, Conditional { cond, lit })?),
        })
    }

    /// The literals that have to hold.
    pub fn cond(&self) -> &[u32]
        ensures { result.now ≡ self.now.condition }
    {
        match &self.kind {
            Kind::Sure(_) => &[],
            Kind::When(when) => when.cond.as_slice(),
        }
    }

    /// Whether there is a condition.
    pub fn is_conditional(&self) -> bool
        ensures { result ≡ is_conditional self.now }
    {
        !self.cond().is_empty()
    }

    /// The literal that comes true.
    pub fn lit(&self) -> u32
        ensures { result ≡ self.now.literal }
    {
        match &self.kind {
            Kind::Sure(lit) => *lit,
            Kind::When(when) => when.lit,
        }
    }
}

/// Effects.
pub type Effs = ListOf<Eff>;
