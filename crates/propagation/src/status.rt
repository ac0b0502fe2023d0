//! How a clause stands on a trail.
ghost use Rattle.std.specs.Prelude.{◌≡◌, ℕ, ◌∷◌, [], List, Bool, true, MatchOption};
ghost use Rattle.propagation.specs.own.Status.{IsStatus};

use clause_base::literal::Lit;

/// How a clause stands on a trail.
#[derive(Clone, Copy)]
pub enum Status {
    /// It is not pending: a literal is true, or two are not false.
    Open,
    /// All its literals are false.
    Falsified,
    /// It is a unit clause: this literal is not false, and all others are.
    Unit(Lit),
}

impl Status {
    /// The literal that is not false of a clause that is pending, if there is one.
    #[inline]
    pub fn left(&self) -> Option<Lit>
        ensures { (pending : Bool) (free : List ℕ) → IsStatus pending free self.now → pending ≡ true → MatchOption result (free ≡ []) (λ lit. free ≡ lit ∷ []) }
    {
        match self {
            Status::Unit(lit) => Some(*lit),
            _ => None,
        }
    }
}
