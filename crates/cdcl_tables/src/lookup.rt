ghost use Rattle.std.specs.Prelude.{◌≡◌, ◌==◌, ◌+◌, ◌/◌, ◌<◌, ◌≤◌, true, take, length, All, slice_index};
ghost use Rattle.clause_base.specs.Literal.{opposite};
ghost use Rattle.cdcl_defs.specs.State.{is_on, decision_count};
ghost use Rattle.cdcl_defs.specs.Learn.{level_of};
ghost use Rattle.cdcl_tables.specs.Assignment.{literals};
ghost use Rattle.cdcl_tables.specs.Mirrored.{IsLookedUp, AreApart};

use cdcl_defs::trail::Assigned;
use clause_base::literal::Lit;
use std::marker::Model;

/// A trail as a walk over it reads it: the entries, the position of each variable, and where the current level begins. Who reads
/// many entries holds these three, and reads no table of the trail anew for each.
#[derive(Drop)]
pub struct Lookup<'a> {
    variables: u32,
    entries: &'a [Assigned],
    positions: &'a [u32],
    start: u32,
}

impl<'a> Model for Lookup<'a> {
    ghost use Rattle.cdcl_tables.specs.Mirrored.{TrailView, IsLookedUp};

    ghost Value = { TrailView };

    ghost view = { λ t. record { variables = t.variables; entries = t.entries.now } };

    ghost invariant = { λ t. IsLookedUp t.variables t.entries.now t.positions.now t.start };
}

impl<'a> Lookup<'a> {
    /// The trail with these tables.
    #[inline(always)]
    pub(crate) fn of(
        variables: u32,
        entries: &'a [Assigned],
        positions: &'a [u32],
        start: u32,
    ) -> Lookup<'a>
        requires { IsLookedUp variables entries.now positions.now start }
        ensures { result ≡ record { variables = variables; entries = entries.now } }
    {
        Lookup {
            variables,
            entries,
            positions,
            start,
        }
    }

    /// The entries, oldest first; they are of the variables, and no literal stands at two positions.
    #[inline(always)]
    pub fn entries(&self) -> &'a [Assigned]
        ensures value { result.now ≡ self.now.entries }
        ensures below { All (λ a. a.literal / 2 < self.now.variables) self.now.entries }
        ensures apart { AreApart (literals self.now.entries) }
        ensures short { length self.now.entries ≤ self.now.variables }
        ensures small { self.now.variables ≤ 2147483647 }
    {
        self.entries
    }

    /// The position, counted from 0, of the entry that made a literal false.
    #[inline(always)]
    pub fn position(&self, lit: Lit) -> u32
        requires { is_on self.now.entries (opposite lit) ≡ true }
        ensures within { result < length self.now.entries }
        ensures place { slice_index (literals self.now.entries) result ≡ opposite lit }
        ensures level { decision_count (take (result + 1) self.now.entries) ≡ level_of self.now.entries lit }
        ensures below { lit / 2 < self.now.variables }
    {
        self.positions[lit.variable() as usize]
    }

    /// Whether the entry at a position is of the current level.
    #[inline(always)]
    pub fn is_current(&self, position: u32) -> bool
        requires { position < length self.now.entries }
        ensures { result ≡ (decision_count (take (position + 1) self.now.entries) == decision_count self.now.entries) }
    {
        position >= self.start
    }
}
