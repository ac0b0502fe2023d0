//! Sets of fact literals.

ghost use Rattle.std.specs.Prelude.{◌≡◌, ◌≤◌, replicate, IfOk};
ghost use Rattle.goal_choice.specs.own.Members.{no_literals};
ghost use Rattle.gt_core.specs.Limits.{most_facts};

use bit_sets::row::BitRow;
use containers::memory::Memory;
use std::alloc::Global;
use std::marker::Model;

/// A set of literals of so many facts, as a row of bits.
#[derive(Drop)]
pub(crate) struct Literals {
    facts: u32,
    row: BitRow,
}

impl Model for Literals {
    ghost use Rattle.std.specs.Prelude.{◌*◌};
    ghost use Rattle.goal_choice.specs.own.Members.{Literals, members_of, IsOver};

    ghost Value = { Literals };

    ghost view = { λ s. record { facts = s.facts; members = members_of s.row (2 * s.facts) } };

    ghost invariant = { λ s. IsOver (2 * s.facts) s.row };
}

impl Literals {
    ghost use Rattle.std.specs.Prelude.{◌≡◌, ◌+◌, ◌≤◌, ◌<◌, ◌/◌, [], ◌∷◌, fold, IfOk, IfSome, IfNone};
    ghost use Rattle.std.specs.Bool.{OnFalse};
    ghost use Rattle.std.specs.List.{AllByRecursion};
    ghost use Rattle.containers.specs.Rising.{put};
    ghost use Rattle.goal_choice.specs.own.Members.{members_from};

    /// The set without literals, with room for those of so many facts.
    pub(crate) fn new(alloc: Global, facts: u32) -> Result<Literals, Memory>
        requires { facts ≤ most_facts }
        ensures { IfOk result (λ s. s ≡ record { facts = facts; members = [] }) }
    {
        let mut row = BitRow::new(alloc);
        match row.make_room(2 * facts as usize) {
            Ok(()) => Ok(Literals { facts, row }),
            Err(_) => Err(Memory),
        }
    }

    /// Puts a literal in.
    pub(crate) fn put(&mut self, lit: u32)
        requires { lit / 2 < self.old.facts }
        ensures { self.new ≡ record self.old { members = put self.old.members lit } }
    {
        self.row.set(lit);
    }

    /// Puts literals in.
    pub(crate) fn put_all(&mut self, lits: &[u32])
        requires { AllByRecursion (λ l. l / 2 < self.old.facts) lits.now }
        ensures { self.new ≡ record self.old { members = fold put self.old.members lits.now } }
    {
        for lit in lits {
            self.put(*lit);
        }
    }

    /// The least literal from a number on.
    pub(crate) fn least(&self, from: u32) -> Option<u32>
        ensures some { IfSome result (λ l. members_from from self.now.members ≡ l ∷ members_from (l + 1) self.now.members) }
        ensures none { IfNone result (members_from from self.now.members ≡ []) }
        ensures within { IfSome result (λ l. l / 2 < self.now.facts) }
        ensures small { IfSome result (λ l. l < 4096) }
    {
        match self.row.least(from) {
            None => None,
            Some(lit) => Some(lit),
        }
    }

    /// Whether a literal is in.
    pub(crate) fn contains(&self, lit: u32) -> bool
        ensures { OnFalse result (AllByRecursion (λ l. l ≡ lit → ⊥) self.now.members) }
    {
        self.row.contains(lit)
    }

    /// Its literals are of its facts.
    pub(crate) fn keeps_within(&self)
        ensures { AllByRecursion (λ l. l / 2 < self.now.facts) self.now.members }
    {
        let _ = &self.row;
    }

    /// Takes the least literal out.
    pub(crate) fn take_least(&mut self) -> Option<u32>
        ensures some { IfSome result (λ l. self.old.members ≡ l ∷ self.new.members) }
        ensures none { IfNone result (self.old.members ≡ []) }
        ensures within { IfSome result (λ l. l / 2 < self.old.facts) }
        ensures facts { self.new.facts ≡ self.old.facts }
        ensures same { IfNone result (self.new ≡ self.old) }
    {
        match self.row.least(0) {
            None => None,
            Some(lit) => {
                self.row.remove(lit);
                Some(lit)
            }
        }
    }

    /// Takes all literals out.
    pub(crate) fn clear(&mut self)
        ensures { self.new ≡ record self.old { members = [] } }
    {
        'clearing: while let Some(_lit) = self.take_least() {}
    }
}

/// So many sets without literals, each with room for those of so many facts.
pub(crate) fn empty_sets(alloc: Global, count: usize, facts: u32) -> Result<Vec<Literals>, Memory>
    requires { facts ≤ most_facts }
    ensures { IfOk result (λ sets. sets.items ≡ replicate count (no_literals facts)) }
{
    let mut sets = Vec::with_capacity(alloc, count)?;
    'filling: while sets.len() < count {
        sets.push(Literals::new(alloc, facts)?)?;
    }
    Ok(sets)
}
