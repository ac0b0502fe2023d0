//! What effects may take where literals are known: each by itself, but for an add that overrules a delete.

ghost use Rattle.std.specs.Prelude.{◌≡◌, ℕ, ◌*◌, ◌<◌, ◌≤◌, ◌==◌, ◌&&◌, ◌⊎◌, not, true, false, length, IfOk, OnOk};
ghost use Rattle.std.specs.List.{list_any};
ghost use Rattle.bit_sets.specs.Rows.{row_has};
ghost use Rattle.gt_core.specs.Literal.{opposite};
ghost use Rattle.implied_literals.specs.Breaks.{is_add};
ghost use Rattle.implied_literals.specs.Rows.{IsPart};
ghost use Rattle.implied_literals.specs.Tested.{with_more, has_no_pair, IsSetOf};
ghost use Rattle.two_invariants.specs.own.Groups.{GroupFits};
ghost use Rattle.two_invariants.specs.own.Numbers.{has_number, finds, FindsMore};
ghost use Rattle.two_invariants.specs.own.Index.{IsNumbered, IsGroupOf, IsTaker, AreTakers};
ghost use Rattle.two_invariants.specs.own.Before.{IsBefore, IsHere, takes_here, loses_here};

use crate::by_literal::{ByLiteral, add_to_all, list_of, no_numbers};
use crate::givers::{Givers, fill_given};
use crate::groups::Group;
use bit_sets::row::BitRow;
use implied_literals::known::fill_with;
use std::alloc::{AllocError, Global};

/// The effects of an action in groups, and what is known before it: a set, and the rows of what literals tell.
#[derive(Drop)]
pub struct Before<'a> {
    pub facts: u32,
    pub rows: &'a [BitRow],
    pub set: &'a BitRow,
    pub groups: &'a [Group],
}

/// What groups of effects may take where a set is known: the opposites of the literals of those without condition
/// (`plain`), and the numbers of the others whose condition may hold, by the opposites of their literals.
#[derive(Drop)]
pub struct Takers {
    pub plain: BitRow,
    pub by: ByLiteral,
}

/// What is known where the condition of a group holds besides: a set, and what the groups give there. They are found by
/// what is known without the condition.
#[derive(Drop)]
pub struct Here<'a> {
    pub before: &'a Before<'a>,
    pub givers: &'a Givers,
    pub takers: &'a Takers,
    pub set: &'a BitRow,
    pub given: &'a BitRow,
}

/// Rows to work in.
#[derive(Drop)]
pub struct Room {
    pub there: BitRow,
    pub given: BitRow,
}

/// Notes what a group may take. `there` is room for a row.
fn add_taker(
    before: &Before,
    group: &Group,
    number: usize,
    takers: &mut Takers,
    there: &mut BitRow,
) -> Result<(), AllocError>
    requires before { IsBefore before.now }
    requires group { GroupFits (2 * before.now.facts) group.now }
    requires lists { 0 < length takers.old.by.lists.items }
    ensures long { length takers.new.by.lists.items ≡ length takers.old.by.lists.items }
    ensures plain { OnOk result ((m : ℕ) → row_has takers.new.plain m ≡ true → (row_has takers.old.plain m ≡ true) ⊎ ((row_has group.now.opposites m && (length group.now.condition.items == 0)) ≡ true)) }
    ensures more { OnOk result (IsPart (row_has takers.old.plain) (row_has takers.new.plain)) }
    ensures finds { OnOk result (FindsMore takers.old.by takers.new.by) }
    ensures own { OnOk result (IsTaker before.now.facts before.now.rows.now (row_has before.now.set.now) group.now number takers.new) }
{
    if group.condition.is_empty() {
        takers.plain.unite(&group.opposites)?;
        return Ok(());
    }
    fill_with(before.rows, before.set, group.condition.as_slice(), there)?;
    if there.has_pair() {
        return Ok(());
    }
    add_to_all(&mut takers.by, &group.opposites, number)
}

/// What groups of effects may take where a set is known.
pub fn takers_of(alloc: Global, before: &Before) -> Result<Takers, AllocError>
    requires { IsBefore before.now }
    ensures { IfOk result (AreTakers before.now.facts before.now.rows.now (row_has before.now.set.now) before.now.groups.now (length before.now.groups.now)) }
{
    let groups = before.groups;
    let mut takers = Takers {
        plain: BitRow::new(alloc),
        by: no_numbers(alloc, groups.len())?,
    };
    let mut there = BitRow::new(alloc);
    for number in 0..groups.len() {
        add_taker(before, &groups[number], number, &mut takers, &mut there)?;
    }
    Ok(takers)
}

/// Whether an effect may take a literal where some are given: an add overrules a delete.
pub fn is_taken(given: &BitRow, l: u32) -> bool
    ensures { result ≡ not (is_add l && row_has given.now l) }
{
    !(l % 2 == 0 && given.contains(l))
}

/// Takes a literal out of a set, where an effect may take it.
pub fn take_one(given: &BitRow, l: u32, sure: &mut BitRow)
    ensures { (m : ℕ) → row_has sure.new m ≡ (row_has sure.old m && not ((l == m) && not (is_add m && row_has given.now m))) }
{
    if is_taken(given, l) {
        sure.remove(l);
    }
}

/// Takes those of some literals out of a set that an effect may take.
fn take_out(lits: &BitRow, given: &BitRow, sure: &mut BitRow)
    requires { IsSetOf 4096 (row_has lits.now) }
    ensures { (m : ℕ) → row_has sure.new m ≡ (row_has sure.old m && not (row_has lits.now m && not (is_add m && row_has given.now m))) }
{
    let mut from = 0;
    while let Some(l) = lits.least_common(sure, from) {
        take_one(given, l, sure);
        from = l + 1;
    }
}

/// Whether a group may take a literal where a set is known.
fn takes(here: &Here, group: &Group, l: u32, room: &mut Room) -> Result<bool, AllocError>
    requires here { IsHere here.now }
    requires group { GroupFits (2 * here.now.before.now.facts) group.now }
    ensures { IfOk result (λ taken. taken ≡ takes_here here.now group.now l) }
{
    if !group.opposites.contains(l) {
        return Ok(false);
    }
    let before = here.before;
    let there = &mut room.there;
    fill_with(before.rows, here.set, group.condition.as_slice(), there)?;
    if there.has_pair() {
        return Ok(false);
    }
    if l % 2 == 1 {
        return Ok(true);
    }
    fill_given(before.groups, here.givers, there, &mut room.given)?;
    Ok(is_taken(&room.given, l))
}

/// Whether the group of a number may take a literal where a set is known.
fn takes_at(here: &Here, number: usize, l: u32, room: &mut Room) -> Result<bool, AllocError>
    requires here { IsHere here.now }
    ensures some { IfOk result (λ taken. taken ≡ true → loses_here here.now l ≡ true) }
    ensures none { IfOk result (λ taken. taken ≡ false → (g : Group) → IsNumbered here.now.before.now.groups.now number g → takes_here here.now g l ≡ false) }
{
    let Some(group) = here.before.groups.get(number) else {
        return Ok(false);
    };
    let taken = takes(here, group, l, room)?;
    Ok(taken)
}

/// Whether one of some groups may take a literal where a set is known.
fn some_takes(here: &Here, numbers: &[usize], l: u32, room: &mut Room) -> Result<bool, AllocError>
    requires here { IsHere here.now }
    ensures some { IfOk result (λ taken. taken ≡ true → loses_here here.now l ≡ true) }
    ensures none { IfOk result (λ taken. taken ≡ false → (n : ℕ) (g : Group) → list_any (λ k. k == n) numbers.now ≡ true → IsNumbered here.now.before.now.groups.now n g → takes_here here.now g l ≡ false) }
{
    for number in numbers {
        if takes_at(here, *number, l, room)? {
            return Ok(true);
        }
    }
    Ok(false)
}

/// Takes a literal out of a set where a listed group may take it.
fn take_by_listed(here: &Here, l: u32, sure: &mut BitRow, room: &mut Room) -> Result<(), AllocError>
    requires here { IsHere here.now }
    ensures less { OnOk result (IsPart (row_has sure.new) (row_has sure.old)) }
    ensures lost { OnOk result ((m : ℕ) → row_has sure.old m ≡ true → row_has sure.new m ≡ false → loses_here here.now m ≡ true) }
    ensures own { OnOk result (row_has sure.new l ≡ true → (n : ℕ) (g : Group) → has_number here.now.takers.now.by.lists.items l n ≡ true → IsNumbered here.now.before.now.groups.now n g → takes_here here.now g l ≡ false) }
{
    if !is_taken(here.given, l) {
        return Ok(());
    }
    let numbers = list_of(&here.takers.by.lists, l);
    if some_takes(here, numbers, l, room)? {
        sure.remove(l);
    }
    Ok(())
}

/// Takes out of a set what listed groups may take where a set is known.
fn take_all_listed(here: &Here, sure: &mut BitRow, room: &mut Room) -> Result<(), AllocError>
    requires here { IsHere here.now }
    requires sure { IsSetOf (2 * here.now.before.now.facts) (row_has sure.old) }
    ensures less { OnOk result (IsPart (row_has sure.new) (row_has sure.old)) }
    ensures lost { OnOk result ((m : ℕ) → row_has sure.old m ≡ true → row_has sure.new m ≡ false → loses_here here.now m ≡ true) }
    ensures done { OnOk result ((m n : ℕ) (g : Group) → row_has sure.new m ≡ true → finds here.now.takers.now.by m n ≡ true → IsNumbered here.now.before.now.groups.now n g → takes_here here.now g m ≡ false) }
{
    let mut from = 0;
    while let Some(l) = here.takers.by.literals.least_common(sure, from) {
        take_by_listed(here, l, sure, room)?;
        from = l + 1;
    }
    Ok(())
}

/// Takes out of a set what effects may take where the condition of a group is known: those without a condition, those
/// of this group, and the others.
pub fn take_all_lost(
    here: &Here,
    group: &Group,
    sure: &mut BitRow,
    room: &mut Room,
) -> Result<(), AllocError>
    requires here { IsHere here.now }
    requires takers { AreTakers here.now.before.now.facts here.now.before.now.rows.now (row_has here.now.set.now) here.now.before.now.groups.now (length here.now.before.now.groups.now) here.now.takers.now }
    requires sure { IsSetOf (2 * here.now.before.now.facts) (row_has sure.old) }
    requires consistent { has_no_pair here.now.before.now.facts (row_has here.now.set.now) ≡ true }
    requires group { IsGroupOf here.now.before.now.groups.now group.now }
    requires fits { GroupFits (2 * here.now.before.now.facts) group.now }
    requires own { (m : ℕ) → with_more here.now.before.now.rows.now (row_has here.now.set.now) group.now.condition.items m ≡ row_has here.now.set.now m }
    ensures { OnOk result ((m : ℕ) → row_has sure.new m ≡ (row_has sure.old m && not (loses_here here.now m))) }
{
    take_out(&here.takers.plain, here.given, sure);
    take_out(&group.opposites, here.given, sure);
    take_all_listed(here, sure, room)?;
    Ok(())
}
