//! By what literals are followed: the known clauses of a task, and clauses of any length.

ghost use Rattle.std.specs.Prelude.{◌≤◌, IfOk};
ghost use Rattle.gt_core.specs.{Limits.most_facts, Clauses.IsKnownClauses};
ghost use Rattle.never_check.specs.Rules.{IsNothing, ArePlain};

use crate::uses::uses_of;
use containers::memory::Memory;
use containers::{FlatLists, ListOf};
use gt_core::pairs::Pairs;
use std::alloc::Global;

/// Known clauses and clauses of any length, with the numbers of those in which each literal stands.
#[derive(Drop)]
pub struct Rules<'a> {
    pub known: &'a Pairs,
    pub clauses: &'a FlatLists<u32>,
    pub uses: &'a [ListOf<u32>],
}

/// No clauses of any length.
#[derive(Drop)]
pub struct Nothing {
    pub clauses: FlatLists<u32>,
    pub uses: Vec<ListOf<u32>>,
}

impl Nothing {
    /// For the literals of so many facts.
    pub fn new(alloc: Global, facts: u32) -> Result<Nothing, Memory>
        requires { facts ≤ most_facts }
        ensures { IfOk result (IsNothing facts) }
    {
        let clauses = FlatLists::new(alloc);
        let uses = uses_of(alloc, facts, &clauses)?;
        Ok(Nothing { clauses, uses })
    }

    /// Known clauses alone.
    pub fn rules<'a>(&'a self, known: &'a Pairs) -> Rules<'a>
        requires nothing { IsNothing known.now.facts self.now }
        requires known { IsKnownClauses known.now }
        ensures { ArePlain known.now result }
    {
        Rules {
            known,
            clauses: &self.clauses,
            uses: &self.uses,
        }
    }
}
