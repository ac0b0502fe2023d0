ghost use Rattle.std.specs.Prelude.{◌≡◌, ℕ, ◌+◌, ◌*◌, ◌/◌, ◌%◌, ◌≤◌, ◌==◌};
ghost use Rattle.clause_base.specs.Literal.{literal_of, opposite};

use containers::ListOf;
use containers::codes::opposite;
use std::marker::Model;

/// A literal by its code: `2v` is variable v, and `2v + 1` its negation. Variables are numbered from 0.
#[derive(Clone, Copy, PartialEq, Eq, PartialOrd, Ord)]
pub struct Lit(pub u32);

impl Model for Lit {
    ghost Value = { ℕ };

    ghost view = { λ l. l.0 };

    ghost inverse = { λ n. record { 0 = n } };
}

impl Lit {
    /// The literal that is true where the variable has this value.
    pub fn of(variable: u32, value: bool) -> Lit
        requires { variable ≤ 2147483647 }
        ensures { result ≡ literal_of variable value }
    {
        if value {
            Lit(2 * variable)
        } else {
            Lit(2 * variable + 1)
        }
    }

    /// The variable of the literal.
    pub fn variable(self) -> u32
        ensures value { result ≡ self / 2 }
        ensures small { result ≤ 2147483647 }
    {
        self.0 / 2
    }

    /// Whether the literal is a variable, and not the negation of one.
    pub fn is_positive(self) -> bool
        ensures { result ≡ (self % 2 == 0) }
    {
        self.0 % 2 == 0
    }

    /// The negation of the literal.
    pub fn opposite(self) -> Lit
        ensures { result ≡ opposite self }
    {
        Lit(opposite(self.0))
    }
}

/// A list of literals.
pub type Lits = ListOf<Lit>;
