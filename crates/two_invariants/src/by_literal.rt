//! Numbers by key, and by literal.

ghost use Rattle.std.specs.Prelude.{◌≡◌, ℕ, ◌<◌, true, length, IfOk, OnOk};
ghost use Rattle.bit_sets.specs.Rows.{row_has};
ghost use Rattle.implied_literals.specs.Tested.{IsSetOf};
ghost use Rattle.two_invariants.specs.own.Numbers.{numbers_for, has_number, finds, FindsMore};

use bit_sets::row::BitRow;
use std::alloc::{AllocError, Global};

/// So many empty lists, but one at least.
pub fn no_lists(alloc: Global, count: usize) -> Result<Vec<Vec<usize>>, AllocError>
    ensures { IfOk result (λ lists. 0 < length lists.items) }
{
    let mut lists = Vec::new(alloc);
    lists.push(Vec::new(alloc))?;
    for _ in 1..count {
        lists.push(Vec::new(alloc))?;
    }
    Ok(lists)
}

/// The list of a key, which others may share.
pub fn list_of(lists: &[Vec<usize>], key: u32) -> &[usize]
    requires { 0 < length lists.now }
    ensures { result.now ≡ numbers_for lists.now key }
{
    lists[key as usize % lists.len()].as_slice()
}

/// Adds a number to the list of a key.
pub fn add_at_key(lists: &mut Vec<Vec<usize>>, key: u32, number: usize) -> Result<(), AllocError>
    requires { 0 < length lists.old.items }
    ensures long { length lists.new.items ≡ length lists.old.items }
    ensures more { OnOk result ((k n : ℕ) → has_number lists.old.items k n ≡ true → has_number lists.new.items k n ≡ true) }
    ensures own { OnOk result (has_number lists.new.items key number ≡ true) }
{
    let place = key as usize % lists.len();
    lists[place].push(number)?;
    Ok(())
}

/// Numbers by literal: the literals that have some, and the lists of all.
#[derive(Drop)]
pub struct ByLiteral {
    pub literals: BitRow,
    pub lists: Vec<Vec<usize>>,
}

/// No numbers, in so many lists.
pub fn no_numbers(alloc: Global, count: usize) -> Result<ByLiteral, AllocError>
    ensures { IfOk result (λ by. 0 < length by.lists.items) }
{
    Ok(ByLiteral {
        literals: BitRow::new(alloc),
        lists: no_lists(alloc, count)?,
    })
}

/// Adds a number to those of a literal.
pub fn add_number(by: &mut ByLiteral, literal: u32, number: usize) -> Result<(), AllocError>
    requires { 0 < length by.old.lists.items }
    ensures long { length by.new.lists.items ≡ length by.old.lists.items }
    ensures more { OnOk result (FindsMore by.old by.new) }
    ensures own { OnOk result (finds by.new literal number ≡ true) }
{
    by.literals.insert(literal)?;
    add_at_key(&mut by.lists, literal, number)
}

/// Adds a number to those of each of some literals.
pub fn add_to_all(by: &mut ByLiteral, literals: &BitRow, number: usize) -> Result<(), AllocError>
    requires lists { 0 < length by.old.lists.items }
    requires literals { IsSetOf 4096 (row_has literals.now) }
    ensures long { length by.new.lists.items ≡ length by.old.lists.items }
    ensures more { OnOk result (FindsMore by.old by.new) }
    ensures own { OnOk result ((l : ℕ) → row_has literals.now l ≡ true → finds by.new l number ≡ true) }
{
    let mut from = 0;
    while let Some(literal) = literals.least(from) {
        add_number(by, literal, number)?;
        from = literal + 1;
    }
    Ok(())
}
