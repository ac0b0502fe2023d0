//! Stored states.

ghost use Rattle.std.specs.Prelude.{◌≡◌, ℕ, ◌*◌, ◌+◌, ◌/◌, ◌<◌, ◌≤◌, ◌++◌, ◌∷◌, [], Some, length, min, slice_get, slice_index, IfOk};
ghost use Rattle.state_store.specs.Packed.{unpacked, IsPacked};
ghost use Rattle.state_store.specs.own.Table.{IsSpot};
ghost use Rattle.state_store.specs.own.Kept.{AreKept};
ghost use Rattle.state_store.specs.Distinct.{AreDistinct};
ghost use Rattle.state_store.specs.Store.{IsEntered, bytes_of, emptied};

use crate::pack::width_of;
use crate::rows::Rows;
use crate::table::{Spot, Table};
use containers::let_go;
use containers::memory::Memory;
use std::alloc::Global;
use std::marker::Model;

/// What comes of a state that is handed in: it is known by a number, or is new and was entered with the next number, or there is
/// no room for it.
#[derive(Clone, Copy, PartialEq, Eq)]
pub enum Entered {
    Known(u32),
    New,
    Full,
}

/// How many bytes a state of so many facts takes, with where it comes from and what it is found by.
pub fn bytes_of(facts: u32) -> u64
    requires { facts ≤ 2147483647 }
    ensures { result ≡ bytes_of facts }
{
    8 * width_of(facts) as u64 + 24
}

/// How many states of so many facts these bytes hold: 4,294,967,295 at most.
pub fn most_within(facts: u32, bytes: u64) -> u32
    requires { facts ≤ 2147483647 }
    ensures { result ≡ min (bytes / bytes_of facts) 4294967295 }
{
    (bytes / bytes_of(facts)).min(4_294_967_295) as u32
}

/// Adds a row that is not there, which belongs to a spot.
fn add_row(rows: &mut Rows, table: &mut Table, row: &[u64], spot: Spot)
    requires kept { AreKept rows.old table.old }
    requires room { length rows.old.rows < rows.old.most }
    requires width { length row.now ≡ rows.old.width }
    requires absent { (k : ℕ) → k < length rows.old.rows → slice_get rows.old.rows k ≡ Some row.now → ⊥ }
    requires spot { IsSpot rows.old.width table.old.heads table.old.nodes rows.old.rows row.now spot }
    ensures rows { rows.new ≡ record rows.old { rows = rows.old.rows ++ row.now ∷ [] } }
    ensures kept { AreKept rows.new table.new }
{
    rows.push(row);
    table.put(rows, spot);
    table.grow(rows);
}

/// States of so many facts, each a truth value a fact, and for each the number of the state that it comes from, and of the action
/// that led from there. They are numbered in the order in which they were entered, and no two are equal. All memory is taken when
/// the store is made.
pub struct Store {
    facts: u32,
    most: u32,
    rows: Rows,
    parents: Vec<u32>,
    actions: Vec<u32>,
    table: Table,
}

impl Model for Store {
    ghost use Rattle.std.specs.Prelude.{map, vec_capacity};
    ghost use Rattle.state_store.specs.Packed.{unpacked};
    ghost use Rattle.state_store.specs.Store.{Stored};
    ghost use Rattle.state_store.specs.own.Kept.{IsKept, HasRoom};

    ghost Value = { Stored };

    ghost view = { λ s. record { facts = s.facts; room = s.rows.most; most = s.most; states = map (unpacked s.facts) s.rows.rows; parents = s.parents.items; actions = s.actions.items } };

    ghost invariant = { λ s. IsKept s.facts s.most s.rows s.parents.items s.actions.items s.table × HasRoom s.rows.most (vec_capacity s.parents) (vec_capacity s.actions) };
}

impl Drop for Store {
    fn drop(self) {
        let_go!(self: Store { facts, most, rows, parents, actions, table });
    }
}

impl Store {
    ghost use Rattle.state_store.specs.Store.{Stored};

    /// A store without states of so many facts, with room for so many states.
    pub fn new(alloc: Global, facts: u32, most: u32) -> Result<Store, Memory>
        requires facts { facts ≤ 2147483647 }
        requires most { 0 < most }
        ensures { IfOk result (λ s. s ≡ record { facts = facts; room = most; most = most; states = []; parents = []; actions = [] }) }
    {
        let rows = Rows::new(alloc, width_of(facts), most)?;
        let table = Table::new(alloc, most)?;
        Ok(Store {
            facts,
            most,
            rows,
            parents: Vec::with_capacity(alloc, most as usize)?,
            actions: Vec::with_capacity(alloc, most as usize)?,
            table,
        })
    }

    /// How many states there are.
    pub fn len(&self) -> u32
        ensures len { result ≡ length self.now.states }
        ensures most { result ≤ self.now.most }
        ensures parents { length self.now.parents ≡ result }
        ensures actions { length self.now.actions ≡ result }
        ensures distinct { AreDistinct self.now.states }
    {
        self.rows.len()
    }

    /// Lets go of all states. From now on so many may be entered.
    pub fn clear(&mut self, most: u32)
        requires { most ≤ self.old.room }
        ensures { self.new ≡ emptied self.old most }
    {
        self.most = most;
        self.rows.clear();
        self.table.restart();
        self.parents.clear();
        self.actions.clear();
    }

    /// Enters the state of a row, where it is not there and may be entered.
    pub fn enter(&mut self, row: &[u64], parent: u32, action: u32) -> Entered
        requires { IsPacked self.old.facts row.now }
        ensures { IsEntered self.old self.new (unpacked self.old.facts row.now) parent action result }
    {
        let spot = self.table.spot(&self.rows, row);
        if let Spot::Known(number) = spot {
            return Entered::Known(number);
        }
        if self.rows.len() == self.most {
            return Entered::Full;
        }
        add_row(&mut self.rows, &mut self.table, row, spot);
        self.parents.push_reserved(parent);
        self.actions.push_reserved(action);
        Entered::New
    }

    /// The row of the state with this number.
    #[inline(always)]
    pub fn row(&self, number: u32) -> &[u64]
        requires { number < length self.now.states }
        ensures packed { IsPacked self.now.facts result.now }
        ensures state { slice_get self.now.states number ≡ Some (unpacked self.now.facts result.now) }
    {
        self.rows.at(number)
    }

    /// The number of the state that one comes from.
    pub fn parent(&self, number: u32) -> u32
        requires { number < length self.now.states }
        ensures { result ≡ slice_index self.now.parents number }
    {
        self.parents[number as usize]
    }

    /// The number of the action that led to a state.
    pub fn action(&self, number: u32) -> u32
        requires { number < length self.now.states }
        ensures { result ≡ slice_index self.now.actions number }
    {
        self.actions[number as usize]
    }
}
