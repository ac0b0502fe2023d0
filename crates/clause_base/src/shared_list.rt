//! Lists of clauses in memory that their copies share, with the tables of their clauses of two literals.
ghost use Rattle.std.specs.Prelude.{◌≡◌, ℕ, ◌<◌, ◌≤◌, Some, length, slice_get, All, IfOk};
ghost use Rattle.std.specs.Arc.{arc_value};
ghost use Rattle.clause_base.specs.Clause.{IsClause};
ghost use Rattle.clause_base.specs.Pairs.{pairs_of, pairs_from};

use crate::clause_list::ClauseList;
use crate::literal::Lit;
use crate::pair_table::PairTable;
use containers::memory::Memory;
use std::alloc::Global;
use std::marker::Model;
use std::sync::Arc;

/// How many clauses a list has at most whose clauses of two literals stand in a table.
const MOST_CLAUSES: usize = 1_073_741_824;

/// Whose memory the clauses are in. Beside shared ones stands the table of those of two literals.
#[derive(Drop)]
enum Held {
    Own(ClauseList),
    Shared(Arc<ClauseList>, Arc<PairTable>),
}

/// A list of clauses that does not change any more. Once it is shared, its copies stand in the same memory, and so does the table
/// of its clauses of two literals, which is made once.
pub struct SharedList {
    held: Held,
}

impl Model for SharedList {
    ghost use Rattle.std.specs.Prelude.{List, ℕ};
    ghost use Rattle.clause_base.specs.own.Shared.{clauses_held, HasTable};

    ghost Value = { List (List ℕ) };

    ghost view = { λ s. clauses_held s.held };

    ghost invariant = { λ s. HasTable s.held };
}

/// All parts are let go in one call, so that a proof has one step for it and not one for each part.
impl Drop for SharedList {
    fn drop(self) {
        let SharedList { held: _ } = self;
    }
}

/// A list in memory that its copies share, with its table. One that is too long for a formula stays in memory of its own.
fn shared(alloc: Global, list: ClauseList) -> Result<SharedList, Memory>
    ensures { IfOk result (λ shared. shared ≡ list) }
{
    if list.count() > MOST_CLAUSES {
        return Ok(SharedList::own(list));
    }
    let pairs = Arc::new(alloc, PairTable::new(alloc, &list)?)?;
    let list = Arc::new(alloc, list)?;
    Ok(SharedList {
        held: Held::Shared(list, pairs),
    })
}

impl SharedList {
    /// A list in memory of its own. It takes no memory.
    pub fn own(list: ClauseList) -> SharedList
        ensures { result ≡ list }
    {
        SharedList {
            held: Held::Own(list),
        }
    }

    /// The same list in memory that its copies share. One of more than 1,073,741,824 clauses, which no formula has, stays in memory of
    /// its own.
    pub fn share(self, alloc: Global) -> Result<SharedList, Memory>
        ensures { IfOk result (λ list. list ≡ self) }
    {
        let SharedList { held } = self;
        match held {
            Held::Own(list) => shared(alloc, list),
            Held::Shared(list, pairs) => Ok(SharedList {
                held: Held::Shared(list, pairs),
            }),
        }
    }

    /// The table of its clauses of two literals: of a shared list the one that stands beside it, in the same memory.
    pub fn pairs(&self, alloc: Global) -> Result<Arc<PairTable>, Memory>
        requires { length self.now ≤ 1073741824 }
        ensures { IfOk result (λ table. (x : ℕ) → pairs_of (arc_value table) x ≡ pairs_from 0 x self.now) }
    {
        match &self.held {
            Held::Own(list) => {
                let pairs = Arc::new(alloc, PairTable::new(alloc, list)?)?;
                Ok(pairs)
            }
            Held::Shared(_, pairs) => {
                let pairs = Arc::try_clone(pairs)?;
                Ok(pairs)
            }
        }
    }

    /// The same list: in the same memory, if it is shared.
    pub fn copy(&self, alloc: Global) -> Result<SharedList, Memory>
        ensures { IfOk result (λ list. list ≡ self.now) }
    {
        match &self.held {
            Held::Own(list) => Ok(SharedList::own(list.copy(alloc)?)),
            Held::Shared(list, pairs) => Ok(SharedList {
                held: Held::Shared(Arc::try_clone(list)?, Arc::try_clone(pairs)?),
            }),
        }
    }

    /// The list.
    #[inline]
    pub fn list(&self) -> &ClauseList
        ensures { result.now ≡ self.now }
    {
        match &self.held {
            Held::Own(list) => list,
            Held::Shared(list, _) => list,
        }
    }

    /// How many clauses there are.
    #[inline]
    pub fn count(&self) -> usize
        ensures value { result ≡ length self.now }
        ensures lawful { All IsClause self.now }
    {
        self.list().count()
    }

    /// The literals of the clause with this number, counted from 0.
    #[inline]
    pub fn clause(&self, number: usize) -> &[Lit]
        requires { number < length self.now }
        ensures value { slice_get self.now number ≡ Some result.now }
        ensures lawful { IsClause result.now }
    {
        self.list().clause(number)
    }
}
