//! Pairs of a literal of one step or one time, moved.
ghost use Rattle.std.specs.Prelude.{◌≡◌, ◌+◌, ◌<◌, ◌≤◌, length, map};
ghost use Rattle.clause_base.specs.Pairs.{pair_in};
ghost use Rattle.clause_base.specs.Repeats.{moved_code};
ghost use Rattle.cdcl_tables.specs.own.Moved.{moved_pair, AreMovable};

use clause_base::pair::Pair;
use std::marker::Model;

/// Where the pairs of one step or one time go.
#[derive(Clone, Copy)]
pub struct Move {
    /// How many variables of the pairs' literals are the step's own.
    pub width: u32,
    /// The variable at which these begin.
    pub step: u32,
    /// The variable at which the facts begin.
    pub facts: u32,
    /// The number of the first clause.
    pub first: u32,
}

/// Pairs of a literal: those of one step or one time as they stand in its table, and how they are moved.
#[derive(Drop)]
pub struct PairList<'a> {
    pairs: &'a [Pair],
    to: Move,
}

impl<'a> Model for PairList<'a> {
    ghost use Rattle.std.specs.Prelude.{List, map};
    ghost use Rattle.clause_base.specs.declared.pair.Pair.{Pair};
    ghost use Rattle.cdcl_tables.specs.own.Moved.{moved_pair, AreMovable};

    ghost Value = { List Pair };

    ghost view = { λ l. map (moved_pair l.to) l.pairs.now };

    ghost invariant = { λ l. AreMovable l.to l.pairs.now };
}

/// A literal with its variable moved.
#[inline]
fn moved(code: u32, to: Move) -> u32
    requires width { to.width ≤ 2147483647 }
    requires fits { moved_code to.width to.step to.facts code < 4294967296 }
    ensures { result ≡ moved_code to.width to.step to.facts code }
{
    if code < 2 * to.width {
        2 * to.step + code
    } else {
        2 * to.facts + (code - 2 * to.width)
    }
}

/// The pair at a place, moved.
#[inline]
fn pair_at(pairs: &[Pair], place: usize, to: Move) -> Pair
    requires place { place < length pairs.now }
    requires movable { AreMovable to pairs.now }
    ensures { result ≡ moved_pair to (pair_in pairs.now place) }
{
    let pair = pairs[place];
    Pair {
        other: moved(pair.other, to),
        number: to.first + pair.number,
    }
}

impl<'a> PairList<'a> {
    /// These pairs, moved.
    #[inline]
    pub(crate) fn of(pairs: &'a [Pair], to: Move) -> PairList<'a>
        requires { AreMovable to pairs.now }
        ensures { result ≡ map (moved_pair to) pairs.now }
    {
        PairList { pairs, to }
    }

    /// How many pairs there are.
    #[inline]
    pub fn len(&self) -> usize
        ensures { result ≡ length self.now }
    {
        self.pairs.len()
    }

    /// The pair at a place, counted from 0.
    #[inline]
    pub fn at(&self, place: usize) -> Pair
        requires { place < length self.now }
        ensures { result ≡ pair_in self.now place }
    {
        pair_at(self.pairs, place, self.to)
    }
}
