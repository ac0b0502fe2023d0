//! Tables of clauses that are done with: those of the next formula's clauses are made in their memory.
ghost use Rattle.std.specs.Prelude.{◌≡◌, ◌+◌, ◌*◌, length, replicate, true, IfOk};
ghost use Rattle.cdcl_tables.specs.Stored.{CanReadAll};
ghost use Rattle.propagation.specs.own.Given.{AreGiven};

use crate::given::Given;
use crate::quiet::fit_quiet;
use crate::room::keep_all;
use cdcl_tables::store::Store;
use clause_base::formula::Formula;
use containers::memory::Memory;
use std::alloc::Global;

/// The tables by clause, by slot and by length of the trail.
#[derive(Drop)]
pub struct OldTables {
    pub kept: Vec<bool>,
    pub quiet: Vec<bool>,
    pub given: Given,
}

impl OldTables {
    /// Tables without room. It takes no memory.
    pub fn none(alloc: Global) -> OldTables {
        OldTables {
            kept: Vec::new(alloc),
            quiet: Vec::new(alloc),
            given: Given::none(alloc),
        }
    }

    /// The tables of the clauses of a formula, of which a store has a copy: all are kept, and no literal is true.
    pub fn fitted(
        self,
        alloc: Global,
        store: &Store,
        formula: &Formula,
    ) -> Result<OldTables, Memory>
        requires same { store.now.clauses ≡ formula.now.clauses }
        requires read { CanReadAll store.now }
        ensures kept { IfOk result (λ s. s.kept.items ≡ replicate (length formula.now.clauses) true) }
        ensures quiet { IfOk result (λ s. length s.quiet.items ≡ formula.now.variables + 1) }
        ensures given { IfOk result (λ s. AreGiven (2 * formula.now.variables) store.now.clauses (length store.now.clauses) s.given) }
    {
        let OldTables {
            mut kept,
            mut quiet,
            given,
        } = self;
        let variables = formula.variables();
        let count = formula.count();
        keep_all(&mut kept, count)?;
        fit_quiet(&mut quiet, variables)?;
        let given = given.renewed(alloc, store, formula, 2 * variables)?;
        Ok(OldTables { kept, quiet, given })
    }
}
