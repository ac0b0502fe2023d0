ghost use Rattle.std.specs.Prelude.{◌≡◌, ℕ, ◌+◌, ◌/◌, ◌<◌, List, [], ◌∷◌, ◌++◌, Option, Bool, length, take, IfOk};
ghost use Rattle.clause_base.specs.Choice.{IsOpenChoice, plain_choice};
ghost use Rattle.clause_base.specs.ChoiceLaw.{plain_choice-open};
ghost use Rattle.clause_base.specs.Told.{told_values};

use crate::literal::Lit;
use crate::values::Values;
use containers::memory::Memory;
use std::alloc::Global;

/// What picks the literal of a solver's decision. What `choice` and `fits` are is open: a type that is a chooser says it in
/// its own clauses or in its documentation, and a caller that is generic over choosers knows of a choice only that it is open
/// (`opens`).
pub trait Chooser {
    /// The numbers of variables that it fits.
    ghost fits: { Self → ℕ → Type 0 };

    /// The literal that it chooses, by the values and by what it was made from.
    ghost choice: { Self → List (Option Bool) → Option ℕ };

    /// A literal whose variable has no value, to be made true; `None` exactly where every variable has a value. It takes
    /// no memory, and leaves the chooser as it was: marks that it writes over are not seen.
    fn choose(&mut self, values: &Values) -> Option<Lit>
        requires { fits self.old (length values.now) }
        ensures chosen { result ≡ choice self.old values.now }
        ensures kept { self.new ≡ self.old };

    /// What it keeps from one choice to the next where it is told which literals are true, as a solver's trail has them.
    type Told: Drop;

    /// What is kept is of these literals, oldest first: so they were told.
    ghost knows: { Self → Self.Told → List ℕ → Type 0 };

    /// What it keeps before anything was told.
    fn start(&self, alloc: Global) -> Result<Self::Told, Memory>
        ensures { IfOk result (λ t. knows self.now t []) };

    /// Tells that a literal is true. Fewer were told than it fits variables. It takes no memory.
    fn tell(&self, told: &mut Self::Told, lit: Lit)
        requires room { (ls : List ℕ) × (n : ℕ) × knows self.now told.old ls × fits self.now n × (length ls < n) × (lit / 2 < n) }
        ensures { (ls : List ℕ) → knows self.now told.old ls → knows self.now told.new (ls ++ lit ∷ []) };

    /// Takes back what was told, but for so many literals.
    fn untell(&self, told: &mut Self::Told, length: usize)
        ensures { (ls : List ℕ) → knows self.now told.old ls → knows self.now told.new (take length ls) };

    /// The literal that it chooses, as `choose` does, by values that are those of the literals that were told. What it costs is
    /// what has changed since the last choice.
    fn choose_told(&mut self, told: &mut Self::Told, values: &Values) -> Option<Lit>
        requires fits { fits self.old (length values.now) }
        requires told { (ls : List ℕ) × knows self.old told.old ls × (values.now ≡ told_values (length values.now) ls) }
        ensures chosen { result ≡ choice self.old values.now }
        ensures kept { self.new ≡ self.old }
        ensures told { (ls : List ℕ) → knows self.old told.old ls → knows self.old told.new ls };

    /// A choice is open, and there is none exactly where every variable has a value.
    ghost opens: { (c : Self) (values : List (Option Bool)) → fits c (length values) → IsOpenChoice values (choice c values) };
}

/// The chooser that makes the least variable without a value false. It fits every number of variables.
#[derive(Clone, Copy)]
pub struct PlainChooser;

impl PlainChooser {
    /// The plain chooser. It takes no memory.
    pub fn new() -> PlainChooser {
        PlainChooser
    }
}

impl Chooser for PlainChooser {
    ghost fits = { λ _ _. Unit {0} };

    ghost choice = { λ _ values. plain_choice values };

    ghost opens = { λ _ values _. plain_choice-open values };

    type Told = ();

    ghost knows = { λ _ _ _. Unit {0} };

    fn start(&self, _alloc: Global) -> Result<(), Memory> {
        Ok(())
    }

    fn tell(&self, _told: &mut (), _lit: Lit) {}

    fn untell(&self, _told: &mut (), _length: usize) {}

    fn choose_told(&mut self, _told: &mut (), values: &Values) -> Option<Lit> {
        self.choose(values)
    }

    fn choose(&mut self, values: &Values) -> Option<Lit> {
        match values.least_open() {
            None => None,
            Some(v) => Some(Lit::of(v, false)),
        }
    }
}
