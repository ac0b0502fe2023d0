//! What an encoding of step plans by formulas is.

ghost use Rattle.std.specs.Prelude.{◌≡◌, ℕ, ◌≤◌, ◌<◌, List, Bool, length, IfOk, IsOk};
ghost use Rattle.std.specs.List.{AllByRecursion};
ghost use Rattle.gt_core.specs.Task.{Task};
ghost use Rattle.formula_defs.specs.Layout.{Layout as LayoutNumbers};
ghost use Rattle.clause_base.specs.Formula.{Cnf, IsModel, IsUnsatisfiable};
ghost use Rattle.step_encoding.specs.{Limits.most_literals, Numbers.HasNumbersOf, Numbers.literals_of};
ghost use Rattle.horizon_rates.specs.Limits.{last_horizon};

use crate::steps::Steps;
use clause_base::formula::Formula;
use containers::memory::Memory;
use formula_defs::layout::Layout;
use std::alloc::Global;

/// Why there is no formula.
#[derive(Clone, Copy, PartialEq, Eq)]
pub enum FormError {
    /// The formula has more than `MOST_LITERALS` literals.
    Literals { count: u64 },
    /// There was no memory for the formula.
    Memory,
}

impl From<Memory> for FormError {
    fn from(_: Memory) -> Self {
        FormError::Memory
    }
}

/// A way to say by formulas that a task has a plan of n steps, for each horizon n up to the greatest one.
pub trait StepForm {
    /// What the form stands on is as it must be.
    ghost is_form: { Self → Type 0 };

    /// The task that this is a form of.
    ghost task: { Self → Task };

    /// The layout of the variables of a horizon.
    ghost layout_of: { Self → ℕ → LayoutNumbers };

    /// The formula of a horizon.
    ghost formula_of: { Self → ℕ → Cnf };

    /// Which lists of so many sets of actions are plans.
    ghost is_plan: { Self → ℕ → List (List ℕ) → Type 0 };

    /// The list of sets that an assignment stands for, each in the order in which it is listed.
    ghost stands_for: { Self → ℕ → List Bool → List (List ℕ) };

    /// The layout has the task's numbers of actions, conditional effects and facts, and the formula has the horizon
    /// as its name and the layout's number of variables.
    ghost numbers: { (form : Self) (n : ℕ) → HasNumbersOf (task form) n (layout_of form n) (formula_of form n) };

    /// The list that a satisfying assignment stands for is a plan.
    ghost plans: { (form : Self) (n : ℕ) (values : List Bool) → is_form form → IsModel (formula_of form n) values → is_plan form n (stands_for form n values) };

    /// A plan of n steps is a list of n sets.
    ghost long: { (form : Self) (n : ℕ) (steps : List (List ℕ)) → is_plan form n steps → length steps ≡ n };

    /// The members of a plan's sets are actions of the task.
    ghost members: { (form : Self) (n : ℕ) (steps : List (List ℕ)) → is_plan form n steps → AllByRecursion (λ set. AllByRecursion (λ a. a < length (task form).actions) set) steps };

    /// Where no assignment satisfies the formula there is no plan.
    ghost refutes: { (form : Self) (n : ℕ) → is_form form → IsUnsatisfiable (formula_of form n).clauses → (steps : List (List ℕ)) → is_plan form n steps → ⊥ };

    /// The layout of a horizon of which the formula has at most `MOST_LITERALS` literals.
    fn layout(&self, n: u32) -> Layout
        requires horizon { n ≤ last_horizon }
        requires size { literals_of (formula_of self.now n) ≤ most_literals }
        ensures { result ≡ layout_of self.now n };

    /// How many literals the formula of a horizon has. It takes no memory, and does not build the formula.
    fn size(&self, n: u32) -> u64
        requires { n ≤ last_horizon }
        ensures size { result ≡ literals_of (formula_of self.now n) }
        ensures lawful { is_form self.now };

    /// The formula of a horizon. `Literals` comes exactly where it has more than `MOST_LITERALS` of them, with their count.
    fn formula(&self, alloc: Global, n: u32) -> Result<Formula, FormError>
        requires { n ≤ last_horizon }
        ensures formula { IfOk result (λ formula. formula ≡ formula_of self.now n) }
        ensures small { IsOk result → literals_of (formula_of self.now n) ≤ most_literals }
        ensures literals { (count : ℕ) → result ≡ Err (FormError.Literals count) → (most_literals < count) × (count ≡ literals_of (formula_of self.now n)) }
        ensures memory { result ≡ Err FormError.Memory → literals_of (formula_of self.now n) ≤ most_literals };

    /// The steps that a satisfying assignment stands for.
    fn steps_of(&self, alloc: Global, n: u32, values: &[bool]) -> Result<Steps, Memory>
        requires horizon { n ≤ last_horizon }
        requires size { literals_of (formula_of self.now n) ≤ most_literals }
        requires model { IsModel (formula_of self.now n) values.now }
        ensures { IfOk result (λ steps. steps ≡ stands_for self.now n values.now) };
}
