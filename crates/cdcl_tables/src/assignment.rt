ghost use Rattle.std.specs.Prelude.{◌≡◌, ℕ, ◌*◌, ◌<◌, ◌≤◌, take, length, true, nat_lt};
ghost use Rattle.clause_base.specs.Literal.{opposite};
ghost use Rattle.clause_base.specs.Clause.{has_literal};
ghost use Rattle.cdcl_tables.specs.Assignment.{IsAssignment, literals};

use cdcl_defs::trail::Assigned;
use clause_base::literal::Lit;
use std::marker::Model;

/// What a trail says: the literals that are true, oldest first, with the truth of each literal by its code and the position of
/// each variable. It is read where the trail keeps it.
#[derive(Drop)]
pub struct Assignment<'a> {
    variables: u32,
    entries: &'a [Assigned],
    on: &'a [bool],
    positions: &'a [u32],
}

impl<'a> Model for Assignment<'a> {
    ghost use Rattle.cdcl_tables.specs.Assignment.{AssignmentView, IsAssignment, literals};

    ghost Value = { AssignmentView };

    ghost view = { λ t. record { variables = t.variables; trail = literals t.entries.now } };

    ghost invariant = { λ t. IsAssignment t.variables (literals t.entries.now) t.on.now t.positions.now };
}

impl<'a> Assignment<'a> {
    /// The assignment with these tables.
    #[inline(always)]
    pub(crate) fn of(
        variables: u32,
        entries: &'a [Assigned],
        on: &'a [bool],
        positions: &'a [u32],
    ) -> Assignment<'a>
        requires { IsAssignment variables (literals entries.now) on.now positions.now }
        ensures { result ≡ record { variables = variables; trail = literals entries.now } }
    {
        Assignment {
            variables,
            entries,
            on,
            positions,
        }
    }

    /// How many literals are true.
    #[inline]
    pub fn length(&self) -> u32
        ensures is { result ≡ length self.now.trail }
        ensures short { result ≤ self.now.variables }
    {
        self.entries.len() as u32
    }

    /// Whether the literal with this code is true.
    #[inline]
    pub fn is_true(&self, code: u32) -> bool
        requires { code < 2 * self.now.variables }
        ensures { result ≡ has_literal self.now.trail code }
    {
        self.on[code as usize]
    }

    /// Whether the literal with this code is false: its negation is true.
    #[inline]
    pub fn is_false(&self, code: u32) -> bool
        requires { code < 2 * self.now.variables }
        ensures { result ≡ has_literal self.now.trail (opposite code) }
    {
        self.on[Lit(code).opposite().0 as usize]
    }

    /// The position on the trail, counted from 0, of a literal or of its negation. Where neither is there it says nothing.
    #[inline]
    pub fn position(&self, code: u32) -> u32
        requires { code < 2 * self.now.variables }
        ensures risen { has_literal self.now.trail code ≡ true → (n : ℕ) → n ≤ length self.now.trail → has_literal (take n self.now.trail) code ≡ nat_lt result n }
        ensures falsified { has_literal self.now.trail (opposite code) ≡ true → (n : ℕ) → n ≤ length self.now.trail → has_literal (take n self.now.trail) (opposite code) ≡ nat_lt result n }
    {
        self.positions[(code / 2) as usize]
    }
}
