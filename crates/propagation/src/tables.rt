//! The clauses by number, which of them are kept, and where each is found: what is read, and stays as it is, where clauses are
//! visited and where the first one that is pending is sought.
ghost use Rattle.std.specs.Prelude.{◌≡◌, ◌<◌, length, false, slice_index, slice_index_or};
ghost use Rattle.propagation.specs.own.Tables.{AreKeptBelow};

use crate::given::Given;
use crate::spare::OldTables;
use crate::steps::Steps;
use crate::visit::WatchState;
use cdcl_tables::store::Store;
use containers::let_go;

/// The clauses by number, which of them are kept, and the number and the step of each slot's clause.
pub struct Tables {
    pub store: Store,
    pub kept: Vec<bool>,
    /// For each slot the number of its clause.
    pub slots: Vec<u32>,
    pub steps: Steps,
    /// All clauses below this number are kept: those of the formula, as long as none of these is dropped. So one test of a number at hand
    /// takes the place of a look at its flag.
    pub kept_below: u32,
}

/// All parts are let go in one call, so that a proof has one step for it and not one for each part.
impl Drop for Tables {
    fn drop(self) {
        let_go!(self: Tables { store, kept, slots, steps, kept_below });
    }
}

impl Tables {
    /// What can be taken again of these tables, with those that are beside them.
    pub fn into_spare(self, lists: WatchState, quiet: Vec<bool>) -> OldTables {
        let Tables {
            store: _,
            kept,
            slots,
            steps: _,
            kept_below: _,
        } = self;
        OldTables {
            kept,
            quiet,
            given: Given { slots, lists },
        }
    }

    /// The number of the clause of a slot.
    #[inline(always)]
    pub fn number_at(&self, slot: u32) -> u32
        requires { slot < length self.now.slots.items }
        ensures { result ≡ slice_index self.now.slots.items slot }
    {
        self.slots[slot as usize]
    }

    /// Whether the clause with a number is kept.
    #[inline(always)]
    pub fn is_kept(&self, number: u32) -> bool
        requires inside { number < length self.now.kept.items }
        requires whole { AreKeptBelow self.now.kept_below self.now.kept.items }
        ensures { result ≡ slice_index_or self.now.kept.items number false }
    {
        number < self.kept_below || self.kept[number as usize]
    }
}
