//! In which clauses each literal stands.

ghost use Rattle.std.specs.Prelude.{◌≡◌, ℕ, ◌*◌, ◌<◌, ◌≤◌, ◌==◌, ◌||◌, ◌&&◌, [], length, slice_index_or, IfOk, OnOk};
ghost use Rattle.std.specs.List.{AllByRecursion};
ghost use Rattle.containers.specs.Limits.{certificate_bytes};
ghost use Rattle.gt_core.specs.{Literal.is_in, Limits.most_facts};
ghost use Rattle.never_check.specs.Follow.{AreBelow, AreUses};

use containers::equal::empty_lists;
use containers::memory::Memory;
use containers::{FlatLists, ListOf};
use std::alloc::Global;

/// Adds a number to the list of a literal.
fn put(uses: &mut Vec<ListOf<u32>>, lit: u32, number: u32) -> Result<(), Memory>
    requires { lit < length uses.old.items }
    ensures long { length uses.new.items ≡ length uses.old.items }
    ensures has { OnOk result ((l k : ℕ) → is_in (slice_index_or uses.new.items l []) k ≡ (is_in (slice_index_or uses.old.items l []) k || ((lit == l) && (number == k)))) }
{
    let list = &mut uses[lit as usize];
    list.push(number)?;
    Ok(())
}

/// Adds the number of a clause to the lists of its literals.
fn put_all(uses: &mut Vec<ListOf<u32>>, clause: &[u32], number: u32) -> Result<(), Memory>
    requires { AreBelow (length uses.old.items) clause.now }
    ensures long { length uses.new.items ≡ length uses.old.items }
    ensures has { OnOk result ((l k : ℕ) → is_in (slice_index_or uses.new.items l []) k ≡ (is_in (slice_index_or uses.old.items l []) k || (is_in clause.now l && (number == k)))) }
{
    for lit in clause {
        put(uses, *lit, number)?;
    }
    Ok(())
}

/// For each literal of so many facts the numbers of the clauses in which it stands.
pub fn uses_of(
    alloc: Global,
    facts: u32,
    clauses: &FlatLists<u32>,
) -> Result<Vec<ListOf<u32>>, Memory>
    requires facts { facts ≤ most_facts }
    requires few { length clauses.now ≤ certificate_bytes }
    requires over { AllByRecursion (AreBelow (2 * facts)) clauses.now }
    ensures { IfOk result (λ uses. AreUses (2 * facts) clauses.now uses.items) }
{
    let mut uses = empty_lists(alloc, 2 * facts as usize)?;
    for number in 0..clauses.len() {
        put_all(&mut uses, clauses.at(number), number as u32)?;
    }
    Ok(uses)
}
