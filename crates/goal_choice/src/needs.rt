//! What has to hold before effects, by their variables in the first step: the precondition of an action stands once for all
//! of its effects.

ghost use Rattle.std.specs.Prelude.{◌≡◌, ◌<◌, ◌++◌, [], length, slice_index_or};

use crate::flat_lists::list_at;
use containers::{FlatLists, let_go};
use std::marker::Model;

/// For each variable of the first step that is not a chain variable, what has to hold before its effects. Contracts see one
/// list for each variable: the precondition of each action, and then for each conditional effect the precondition of its action
/// and its condition.
pub(crate) struct Needs {
    pub(crate) preconditions: FlatLists<u32>,
    /// For each conditional effect the number of its action, counted from 0.
    pub(crate) actions: Vec<usize>,
    pub(crate) conditions: FlatLists<u32>,
}

/// All parts are let go in one call, so that a proof has one step for it and not one for each part.
impl Drop for Needs {
    fn drop(self) {
        let_go!(self: Needs { preconditions, actions, conditions });
    }
}

impl Model for Needs {
    ghost use Rattle.std.specs.Prelude.{◌≡◌, ◌<◌, ℕ, List, length};
    ghost use Rattle.std.specs.List.{AllByRecursion};
    ghost use Rattle.goal_choice.specs.own.Joined.{all_needs};

    ghost Value = { List (List ℕ) };

    ghost view = { λ n. all_needs n.preconditions n.actions.items n.conditions };

    ghost invariant = { λ n.
        (length n.actions.items ≡ length n.conditions)
        × AllByRecursion (λ a. a < length n.preconditions) n.actions.items };
}

impl Needs {
    /// What has to hold before the effects of a variable: a precondition and a condition.
    pub(crate) fn of(&self, variable: usize) -> (&[u32], &[u32])
        requires { variable < length self.now }
        ensures { result.0.now ++ result.1.now ≡ slice_index_or self.now variable [] }
    {
        let count = self.preconditions.len();
        if variable < count {
            return (list_at(&self.preconditions, variable), &[]);
        }
        let place = variable - count;
        let action = self.actions[place];
        let precondition = list_at(&self.preconditions, action);
        let condition = list_at(&self.conditions, place);
        (precondition, condition)
    }
}
