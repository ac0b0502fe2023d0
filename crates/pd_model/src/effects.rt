// Effects.
use crate::{Pattern, Sameness, SharedConds, SharedTypeNumbers};
use containers::let_go;
use std::alloc::{AllocError, Global};
use std::marker::Model;

/// One literal that an action adds or deletes, where its condition holds before the action: once for each
/// tuple of objects that fit the types of the `forall` round it.
#[derive(Drop)]
pub struct Effect {
    /// The types of the variables of the `forall`, which follow the parameters.
    pub over: SharedTypeNumbers,
    /// What stands under `when`.
    pub cond: SharedConds,
    /// The atom that is added or deleted.
    pub atom: Pattern,
    /// Whether the atom is added; else it is deleted.
    pub adds: bool,
}

/// The effects of an action, in the order of the file. Contracts see the list of them.
///
/// Beside each it is kept whether its types and its condition are those of the effect before it, so that whoever works through
/// them need not compare what they share.
pub struct Effects {
    items: Vec<Effect>,
    marks: Vec<Sameness>,
}

impl Model for Effects {
    ghost use Rattle.std.specs.Prelude.{List};
    ghost use Rattle.pd_model.specs.declared.effects.Effect.{Effect};
    ghost use Rattle.pd_model.specs.Sameness.{AreSame, no_under};

    ghost Value = { List Effect };

    ghost view = { λ e. e.items.items };

    ghost invariant = { λ e. AreSame no_under e.items.items e.marks.items };
}

/// All parts are let go in one call, so that a proof has one step for it and not one for each part.
impl Drop for Effects {
    fn drop(self) {
        let_go!(self: Effects { items, marks });
    }
}

impl Effects {
    ghost use Rattle.std.specs.Prelude.{◌≡◌, ◌++◌, ◌∷◌, ◌<◌, [], Some, length, take, slice_get, OnOk, OnErr};
    ghost use Rattle.pd_model.specs.declared.effects.Effect.{Effect};
    ghost use Rattle.pd_model.specs.Sameness.{IsSame, last_under, no_under, under_of};

    /// No effects. They take no memory, and keep the allocator for those to come.
    pub fn new(alloc: Global) -> Self
        ensures { result ≡ [] }
    {
        Effects {
            items: Vec::new(alloc),
            marks: Vec::new(alloc),
        }
    }

    /// Adds an effect at the end, with what it shares with the one before it. The first one has no variables and no condition
    /// before it. After `AllocError` the effects are as they were.
    pub fn push(&mut self, effect: Effect, same: Sameness) -> Result<(), AllocError>
        requires { IsSame (last_under no_under self.old) (under_of effect) same }
        ensures ok { OnOk result (self.new ≡ self.old ++ effect ∷ []) }
        ensures err { OnErr result (self.new ≡ self.old) }
    {
        self.marks.truncate(self.items.len());
        self.marks.push(same)?;
        self.items.push(effect)?;
        Ok(())
    }

    /// What the effect at a place shares with the one before it.
    pub fn sameness(&self, place: usize) -> Sameness
        requires { place < length self.now }
        ensures { (e : Effect) → slice_get self.now place ≡ Some e → IsSame (last_under no_under (take place self.now)) (under_of e) result }
    {
        self.marks[place]
    }

    /// The effects, lent.
    pub fn as_slice(&self) -> &[Effect]
        ensures { result.now ≡ self.now }
    {
        &self.items
    }
}
