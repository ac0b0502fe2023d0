//! Which clauses one action breaks: for each of its effects that may take a literal, the clauses of this literal with
//! those that are not sure afterwards. What is known and what is sure is worked out once for all effects of one
//! condition. What is broken comes into one row a literal, which actions share.

ghost use Rattle.std.specs.Prelude.{◌≡◌, ℕ, ◌*◌, ◌<◌, ◌≤◌, ◌==◌, ◌&&◌, not, length, IfOk, IfSome, OnOk, ◌||◌};
ghost use Rattle.bit_sets.specs.Rows.{row_has};
ghost use Rattle.gt_core.specs.Literal.{opposite};
ghost use Rattle.implied_literals.specs.Rows.{clause_in, AreRows};
ghost use Rattle.implied_literals.specs.Breaks.{is_add};
ghost use Rattle.implied_literals.specs.Tested.{with_more, ActionFits, IsSetOf, AreRowsOf, breaks_by};
ghost use Rattle.two_invariants.specs.own.Groups.{group_with, breaks_under, GroupFits};
ghost use Rattle.two_invariants.specs.own.Index.{IsGroupOf, AreGivers, AreTakers};
ghost use Rattle.two_invariants.specs.own.Before.{IsBefore};

use crate::givers::{Givers, fill_given, givers_of};
use crate::groups::{Group, group_effects};
use crate::harmless::{are_harmless, is_harmless};
use crate::plain::{add_plain_losses, are_plain};
use crate::takers::{Before, Here, Room, Takers, is_taken, take_all_lost, takers_of};
use bit_sets::row::BitRow;
use gt_core::act::Act;
use implied_literals::known::{Known, copy, with_more};
use std::alloc::{AllocError, Global};

/// Puts the clauses of a literal with those that are not sure into its row of lost clauses, where an effect may take it.
pub fn add_loss(
    clauses: &[BitRow],
    given: &BitRow,
    sure: &BitRow,
    l: u32,
    lost: &mut Vec<BitRow>,
) -> Result<(), AllocError>
    requires clauses { l < length clauses.now }
    requires rows { l < length lost.old.items }
    ensures long { length lost.new.items ≡ length lost.old.items }
    ensures lost { OnOk result ((a m : ℕ) → clause_in lost.new.items a m ≡ (clause_in lost.old.items a m || ((l == a) && (clause_in clauses.now a m && (not (is_add a && row_has given.now a) && not (row_has sure.now m)))))) }
{
    if !is_taken(given, l) || clauses[l as usize].is_part_of(sure) {
        return Ok(());
    }
    let row = &mut lost[l as usize];
    row.unite_without(&clauses[l as usize], sure)?;
    Ok(())
}

/// Adds the clauses of those of some literals that an effect may take, with those that are not sure.
fn add_losses(
    facts: u32,
    clauses: &[BitRow],
    lits: &BitRow,
    given: &BitRow,
    sure: &BitRow,
    lost: &mut Vec<BitRow>,
) -> Result<(), AllocError>
    requires clauses { AreRows facts clauses.now }
    requires lits { IsSetOf (2 * facts) (row_has lits.now) }
    requires rows { length lost.old.items ≡ 2 * facts }
    ensures long { length lost.new.items ≡ length lost.old.items }
    ensures lost { OnOk result ((l m : ℕ) → clause_in lost.new.items l m ≡ (clause_in lost.old.items l m || (clause_in clauses.now l m && (row_has lits.now l && (not (is_add l && row_has given.now l) && not (row_has sure.now m)))))) }
{
    let mut from = 0;
    while let Some(l) = lits.least(from) {
        add_loss(clauses, given, sure, l, lost)?;
        from = l + 1;
    }
    Ok(())
}

/// Adds the clauses that the effects of a group break where a set is known before the action.
fn add_group_losses<'a>(
    alloc: Global,
    before: &'a Before<'a>,
    clauses: &[BitRow],
    givers: &'a Givers,
    takers: &'a Takers,
    group: &Group,
    lost: &mut Vec<BitRow>,
    room: &mut Room,
) -> Result<(), AllocError>
    requires before { IsBefore before.now }
    requires clauses { AreRows before.now.facts clauses.now }
    requires group { GroupFits (2 * before.now.facts) group.now }
    requires one { IsGroupOf before.now.groups.now group.now }
    requires givers { AreGivers (row_has before.now.set.now) before.now.groups.now (length before.now.groups.now) givers.now }
    requires takers { AreTakers before.now.facts before.now.rows.now (row_has before.now.set.now) before.now.groups.now (length before.now.groups.now) takers.now }
    requires rows { length lost.old.items ≡ 2 * before.now.facts }
    ensures long { length lost.new.items ≡ length lost.old.items }
    ensures lost { OnOk result ((l m : ℕ) → clause_in lost.new.items l m ≡ (clause_in lost.old.items l m || (clause_in clauses.now l m && (row_has group.now.literals (opposite l) && breaks_under before.now.facts before.now.rows.now (group_with before.now.groups.now) (row_has before.now.set.now) l m group.now.condition.items)))) }
{
    let known = with_more(alloc, before.rows, before.set, group.condition.as_slice())?;
    if known.has_pair() {
        return Ok(());
    }
    let so_far = lost.as_slice();
    let harmless = is_harmless(clauses, so_far, takers, group, &known, room)?;
    if harmless {
        return Ok(());
    }
    let mut given = BitRow::new(alloc);
    fill_given(before.groups, givers, &known, &mut given)?;
    let mut sure = copy(alloc, &known)?;
    sure.unite(&given)?;
    let here = Here {
        before: &*before,
        givers,
        takers,
        set: &known,
        given: &given,
    };
    take_all_lost(&here, group, &mut sure, room)?;
    add_losses(before.facts, clauses, &group.opposites, &given, &sure, lost)?;
    Ok(())
}

/// Adds the clauses that groups of effects break where a set is known before the action.
fn add_all_groups(
    alloc: Global,
    before: &Before,
    clauses: &[BitRow],
    lost: &mut Vec<BitRow>,
    room: &mut Room,
) -> Result<(), AllocError>
    requires before { IsBefore before.now }
    requires clauses { AreRows before.now.facts clauses.now }
    requires rows { length lost.old.items ≡ 2 * before.now.facts }
    ensures long { length lost.new.items ≡ length lost.old.items }
    ensures lost { OnOk result ((l m : ℕ) → clause_in lost.new.items l m ≡ (clause_in lost.old.items l m || (clause_in clauses.now l m && group_with before.now.groups.now (opposite l) (breaks_under before.now.facts before.now.rows.now (group_with before.now.groups.now) (row_has before.now.set.now) l m)))) }
{
    let groups = before.groups;
    let givers = givers_of(alloc, before.set, groups)?;
    let takers = takers_of(alloc, before)?;
    for group in groups {
        add_group_losses(
            alloc, &*before, clauses, &givers, &takers, group, lost, room,
        )?;
    }
    Ok(())
}

/// Adds the clauses that an action breaks, by its effects, to those that are lost. `room` is room for rows.
pub fn add_losses_of(
    alloc: Global,
    facts: u32,
    known: &Known,
    clauses: &[BitRow],
    act: &Act,
    lost: &mut Vec<BitRow>,
    room: &mut Room,
) -> Result<(), AllocError>
    requires rows { AreRowsOf (2 * facts) known.now.rows.items }
    requires none { IsSetOf (2 * facts) (row_has known.now.none) }
    requires clauses { AreRows facts clauses.now }
    requires act { ActionFits (2 * facts) act.now }
    requires lost { length lost.old.items ≡ 2 * facts }
    ensures long { length lost.new.items ≡ length lost.old.items }
    ensures lost { OnOk result ((l m : ℕ) → clause_in lost.new.items l m ≡ (clause_in lost.old.items l m || (clause_in clauses.now l m && breaks_by facts known.now act.now l m))) }
{
    let rows = known.rows.as_slice();
    let mut set = with_more(alloc, rows, &known.none, act.pre())?;
    if set.has_pair() {
        return Ok(());
    }
    let effects = act.effects();
    let so_far = lost.as_slice();
    let harmless = are_harmless(facts, clauses, so_far, effects, &set, room)?;
    if harmless {
        return Ok(());
    }
    if are_plain(effects) {
        add_plain_losses(alloc, facts, clauses, effects, &mut set, lost)?;
        return Ok(());
    }
    let groups = group_effects(alloc, effects)?;
    let before = Before {
        facts,
        rows,
        set: &set,
        groups: groups.as_slice(),
    };
    add_all_groups(alloc, &before, clauses, lost, room)?;
    Ok(())
}
