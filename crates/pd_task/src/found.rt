// The effects that are read.
ghost use Rattle.std.specs.Prelude.{◌≡◌, ◌++◌, ◌∷◌, [], IfOk, IfErr, OnOk};
ghost use Rattle.pd_words.specs.declared.fault.ReadError.TheVariants as errors;

use pd_model::{Effect, Effects, Pattern, Sameness, SharedConds, SharedTypeNumbers};
use pd_words::ReadError;
use std::alloc::Global;
use std::marker::Model;
use std::mem;

/// The effects that were read, and what the next one stands under: the types of the variables of each `forall`, and the condition
/// of the `when`. All effects that stand under the same share them.
#[derive(Drop)]
pub struct Found {
    effects: Effects,
    over: SharedTypeNumbers,
    cond: SharedConds,
    // what the next effect shares with the last one
    same: Sameness,
}

impl Model for Found {
    ghost use Rattle.pd_task.specs.own.Found.{Found};
    ghost use Rattle.pd_model.specs.Sameness.{IsSame, last_under, no_under};

    ghost Value = { Found };

    ghost view = { λ f. record { effects = f.effects; under = record { over = f.over; cond = f.cond } } };

    ghost invariant = { λ f. IsSame (last_under no_under f.effects) (record { over = f.over; cond = f.cond }) f.same };
}

impl Found {
    /// No effects. The next one stands under these variables and no condition.
    pub fn new(alloc: Global, over: SharedTypeNumbers) -> Result<Self, ReadError>
        ensures found { IfOk result (λ f. f ≡ record { effects = []; under = record { over = over; cond = [] } }) }
        ensures memory { IfErr result (λ e. e ≡ errors.Memory) }
    {
        Ok(Found {
            effects: Effects::new(alloc),
            over,
            cond: SharedConds::of(alloc, Vec::new(alloc))?,
            same: Sameness {
                over: false,
                cond: false,
            },
        })
    }

    /// Adds an effect. It fails only for want of memory.
    pub fn push(&mut self, atom: Pattern, adds: bool) -> Result<(), ReadError>
        ensures effects { OnOk result (self.new.effects ≡ self.old.effects ++ record { over = self.old.under.over; cond = self.old.under.cond; atom = atom; adds = adds } ∷ []) }
        ensures under { self.new.under ≡ self.old.under }
        ensures memory { IfErr result (λ e. e ≡ errors.Memory) }
    {
        let effect = Effect {
            over: self.over.copy()?,
            cond: self.cond.copy()?,
            atom,
            adds,
        };
        self.effects.push(effect, self.same)?;
        self.same = Sameness {
            over: true,
            cond: true,
        };
        Ok(())
    }

    /// The next effects stand under these variables. Answers those before.
    pub fn set_over(&mut self, over: SharedTypeNumbers) -> SharedTypeNumbers
        ensures effects { self.new.effects ≡ self.old.effects }
        ensures over { self.new.under.over ≡ over }
        ensures cond { self.new.under.cond ≡ self.old.under.cond }
        ensures before { result ≡ self.old.under.over }
    {
        self.same.over = false;
        mem::replace(&mut self.over, over)
    }

    /// The next effects stand under this condition. Answers the one before.
    pub fn set_cond(&mut self, cond: SharedConds) -> SharedConds
        ensures effects { self.new.effects ≡ self.old.effects }
        ensures over { self.new.under.over ≡ self.old.under.over }
        ensures cond { self.new.under.cond ≡ cond }
        ensures before { result ≡ self.old.under.cond }
    {
        self.same.cond = false;
        mem::replace(&mut self.cond, cond)
    }

    /// The effects.
    pub fn into_effects(self) -> Effects
        ensures { result ≡ self.effects }
    {
        self.effects
    }
}
