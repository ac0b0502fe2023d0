//! Room in the tables for clauses and slots to come: for one more of each, and for learned clauses from the beginning. After want of
//! memory a table may have room for one more already, and nothing else has changed.
ghost use Rattle.std.specs.Prelude.{◌≡◌, ℕ, ◌+◌, ◌*◌, ◌<◌, ◌≤◌, Option, length, replicate, true, vec_capacity, OnOk};
ghost use Rattle.cdcl_tables.specs.Linked.{IsLinked, blocking_of};
ghost use Rattle.propagation.specs.own.Added.{AreSame, AreWider, HasRoom, HasRoomBelow};

use crate::tables::Tables;
use crate::visit::WatchState;
use cdcl_tables::chains::Chains;
use cdcl_tables::refill::refill;
use std::alloc::AllocError;

/// For so many learned clauses there is room in the tables of all clauses, and of all slots, from the beginning. Else the first one would have them moved
/// to memory of twice the size.
pub const LEARNED: usize = 4096;

/// Makes the table of what so many clauses ask for that are not in the set, with room for learned ones. What stands in it is free.
pub fn fit_asks(asks: &mut Vec<u32>, count: u32) -> Result<(), AllocError>
    ensures { OnOk result (length asks.new.items ≡ count) }
{
    asks.resize(count as usize + LEARNED, 0)?;
    asks.truncate(count as usize);
    Ok(())
}

/// Makes the flags of so many clauses that are all kept, with room for learned ones.
pub fn keep_all(kept: &mut Vec<bool>, count: u32) -> Result<(), AllocError>
    ensures { OnOk result (kept.new.items ≡ replicate count true) }
{
    refill(kept, count as usize + LEARNED, true)?;
    kept.truncate(count as usize);
    Ok(())
}

/// Makes the two nodes of a slot, where those of all slots before it are there.
fn widen_nodes(chains: &mut Chains, slot: u32) -> Result<(), AllocError>
    requires few { slot < 2147483647 }
    requires many { 2 * slot ≤ length chains.old.nodes.items }
    ensures room { OnOk result (2 * slot + 1 < length chains.new.nodes.items) }
    ensures more { length chains.old.nodes.items ≤ length chains.new.nodes.items }
    ensures linked { (on : ℕ → Option ℕ) → IsLinked chains.old.heads.items chains.old.nodes.items on → IsLinked chains.new.heads.items chains.new.nodes.items on }
    ensures blockings { (k : ℕ) → k < length chains.old.nodes.items → blocking_of chains.new.nodes.items k ≡ blocking_of chains.old.nodes.items k }
    ensures heads { length chains.new.heads.items ≡ length chains.old.heads.items }
{
    if chains.nodes.len() <= 2 * slot as usize + 1 {
        chains.add_two()?;
    }
    Ok(())
}

/// Makes room for where the search in a slot's clause goes on, where there is room for those of all slots before it.
fn widen_froms(resume_at: &mut Vec<u32>, slot: u32) -> Result<(), AllocError>
    requires many { slot ≤ length resume_at.old.items }
    ensures room { OnOk result (slot < length resume_at.new.items) }
    ensures more { length resume_at.old.items ≤ length resume_at.new.items }
{
    if resume_at.len() <= slot as usize {
        resume_at.push(0)?;
    }
    Ok(())
}

impl WatchState {
    /// Makes room for a clause and a slot, where there is room for all before them.
    pub fn widen(&mut self, number: u32, slot: u32) -> Result<(), AllocError>
        requires { HasRoomBelow number slot self.old }
        ensures room { OnOk result (HasRoom number slot self.new) }
        ensures wider { AreWider self.old self.new }
    {
        self.pending.widen(number)?;
        widen_nodes(&mut self.chains, slot)?;
        widen_froms(&mut self.resume_at, slot)
    }
}

/// Makes room for the next clause in all tables but that of the clauses.
pub fn make_room(
    tables: &mut Tables,
    lists: &mut WatchState,
    number: u32,
    slot: u32,
) -> Result<(), AllocError>
    requires { HasRoomBelow number slot lists.old }
    ensures same { AreSame tables.old tables.new }
    ensures kept { OnOk result (length tables.new.kept.items < vec_capacity tables.new.kept) }
    ensures slots { OnOk result (length tables.new.slots.items < vec_capacity tables.new.slots) }
    ensures room { OnOk result (HasRoom number slot lists.new) }
    ensures wider { AreWider lists.old lists.new }
{
    tables.kept.reserve(1)?;
    tables.slots.reserve(1)?;
    lists.widen(number, slot)
}
