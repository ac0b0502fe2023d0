//! What effects surely make true where literals are known. Where more is known than before the action, only conditions
//! that have a literal of what is new may be met besides those that are met at any rate.

ghost use Rattle.std.specs.Prelude.{◌≡◌, ℕ, ◌<◌, ◌==◌, ◌&&◌, ◌||◌, ◌⊎◌, true, None, length, IfOk, IfSome, OnOk};
ghost use Rattle.implied_literals.specs.Rows.{IsPart};
ghost use Rattle.two_invariants.specs.own.Index.{IsNumbered, gives_in, IsGiver, AreGivers};
ghost use Rattle.bit_sets.specs.Rows.{row_has};
ghost use Rattle.two_invariants.specs.own.Groups.{group_with};
ghost use Rattle.implied_literals.specs.Tested.{IsSetOf};
ghost use Rattle.two_invariants.specs.own.Numbers.{FindsMore};
ghost use Rattle.std.specs.List.{list_any, list_all};

use crate::by_literal::{ByLiteral, add_number, list_of, no_numbers};
use crate::groups::Group;
use bit_sets::row::BitRow;
use implied_literals::known::all_known;
use std::alloc::{AllocError, Global};

/// What groups of effects make true where a set is known: the literals of those whose condition is in the set (`base`),
/// and the numbers of the others, each by a literal of its condition that is not in the set.
#[derive(Drop)]
pub struct Givers {
    pub base: BitRow,
    pub by: ByLiteral,
}

/// The first of some literals that is not in a set.
fn first_unknown(set: &BitRow, lits: &[u32]) -> Option<u32>
    ensures some { IfSome result (λ k. list_any (λ l. l == k) lits.now ≡ true) }
    ensures none { result ≡ None → list_all (row_has set.now) lits.now ≡ true }
{
    for lit in lits {
        if !set.contains(*lit) {
            return Some(*lit);
        }
    }
    None
}

/// Notes what a group makes true.
fn add_giver(
    set: &BitRow,
    group: &Group,
    number: usize,
    givers: &mut Givers,
) -> Result<(), AllocError>
    requires { 0 < length givers.old.by.lists.items }
    ensures long { length givers.new.by.lists.items ≡ length givers.old.by.lists.items }
    ensures base { OnOk result ((m : ℕ) → row_has givers.new.base m ≡ true → (row_has givers.old.base m ≡ true) ⊎ (gives_in (row_has set.now) group.now m ≡ true)) }
    ensures more { OnOk result (IsPart (row_has givers.old.base) (row_has givers.new.base)) }
    ensures finds { OnOk result (FindsMore givers.old.by givers.new.by) }
    ensures own { OnOk result (IsGiver group.now number givers.new) }
{
    match first_unknown(set, group.condition.as_slice()) {
        None => givers.base.unite(&group.literals),
        Some(lit) => add_number(&mut givers.by, lit, number),
    }
}

/// What groups of effects make true where a set is known.
pub fn givers_of(alloc: Global, set: &BitRow, groups: &[Group]) -> Result<Givers, AllocError>
    ensures { IfOk result (AreGivers (row_has set.now) groups.now (length groups.now)) }
{
    let mut givers = Givers {
        base: BitRow::new(alloc),
        by: no_numbers(alloc, groups.len())?,
    };
    for number in 0..groups.len() {
        add_giver(set, &groups[number], number, &mut givers)?;
    }
    Ok(givers)
}

/// Puts the literals of a group into a set, where the group's condition is known.
fn give(group: &Group, set: &BitRow, given: &mut BitRow) -> Result<(), AllocError>
    ensures { OnOk result ((m : ℕ) → row_has given.new m ≡ (row_has given.old m || gives_in (row_has set.now) group.now m)) }
{
    if all_known(set, group.condition.as_slice()) {
        given.unite(&group.literals)?;
    }
    Ok(())
}

/// Puts the literals of the group of a number into a set, where the group's condition is known.
fn give_at(
    groups: &[Group],
    number: usize,
    set: &BitRow,
    given: &mut BitRow,
) -> Result<(), AllocError>
    ensures more { OnOk result (IsPart (row_has given.old) (row_has given.new)) }
    ensures sound { OnOk result ((m : ℕ) → row_has given.new m ≡ true → (row_has given.old m ≡ true) ⊎ (group_with groups.now m (list_all (row_has set.now)) ≡ true)) }
    ensures done { OnOk result ((m : ℕ) (g : Group) → IsNumbered groups.now number g → gives_in (row_has set.now) g m ≡ true → row_has given.new m ≡ true) }
{
    let Some(group) = groups.get(number) else {
        return Ok(());
    };
    give(group, set, given)
}

/// Puts the literals of some groups into a set, of each whose condition is known.
fn give_listed(
    groups: &[Group],
    numbers: &[usize],
    set: &BitRow,
    given: &mut BitRow,
) -> Result<(), AllocError>
    ensures more { OnOk result (IsPart (row_has given.old) (row_has given.new)) }
    ensures sound { OnOk result ((m : ℕ) → row_has given.new m ≡ true → (row_has given.old m ≡ true) ⊎ (group_with groups.now m (list_all (row_has set.now)) ≡ true)) }
    ensures done { OnOk result ((n m : ℕ) (g : Group) → list_any (λ k. k == n) numbers.now ≡ true → IsNumbered groups.now n g → gives_in (row_has set.now) g m ≡ true → row_has given.new m ≡ true) }
{
    for number in numbers {
        give_at(groups, *number, set, given)?;
    }
    Ok(())
}

/// Makes a row of the literals that effects surely make true where a set is known.
pub fn fill_given(
    groups: &[Group],
    givers: &Givers,
    set: &BitRow,
    given: &mut BitRow,
) -> Result<(), AllocError>
    requires set { IsSetOf 4096 (row_has set.now) }
    requires givers { AreGivers (row_has set.now) groups.now (length groups.now) givers.now }
    ensures { OnOk result ((m : ℕ) → row_has given.new m ≡ group_with groups.now m (list_all (row_has set.now))) }
{
    given.make_same(&givers.base)?;
    let mut from = 0;
    while let Some(lit) = givers.by.literals.least_common(set, from) {
        give_listed(groups, list_of(&givers.by.lists, lit), set, given)?;
        from = lit + 1;
    }
    Ok(())
}
