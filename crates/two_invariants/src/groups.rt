//! The effects of an action in groups of one condition, so that what a condition tells is worked out once a group.

ghost use Rattle.std.specs.Prelude.{◌≡◌, ℕ, ◌<◌, ◌==◌, ◌&&◌, ◌||◌, [], List, Bool, slice_index_or, length, IfOk, IfSome, OnOk};
ghost use Rattle.std.specs.List.{AllByRecursion};
ghost use Rattle.bit_sets.specs.Rows.{row_has};
ghost use Rattle.gt_core.specs.Literal.{opposite};
ghost use Rattle.implied_literals.specs.Tested.{EffectFits};
ghost use Rattle.two_invariants.specs.own.Groups.{effect_with, group_with, GroupFits};

use crate::by_literal::{add_at_key, list_of, no_lists};
use bit_sets::row::BitRow;
use gt_core::eff::Eff;
use gt_core::lits::opposite;
use std::alloc::{AllocError, Global};

/// Effects with one condition: the literals that they make true, and the opposites of these.
#[derive(Drop)]
pub struct Group {
    pub condition: Vec<u32>,
    pub literals: BitRow,
    pub opposites: BitRow,
}

/// A number that conditions have in common that are the same.
fn key_of(condition: &[u32]) -> u32 {
    let mut key: u32 = 0;
    for lit in condition {
        key = (key % 65_521) * 4_099 + *lit % 65_536;
    }
    key
}

/// The place of a group with a condition, among some places.
fn place_of(groups: &[Group], places: &[usize], condition: &[u32]) -> Option<usize>
    ensures { IfSome result (λ i. (i < length groups.now) × ((d : Group) → (slice_index_or groups.now i d).condition.items ≡ condition.now)) }
{
    for place in places {
        if *place < groups.len() && groups[*place].condition.as_slice() == condition {
            return Some(*place);
        }
    }
    None
}

/// Puts a literal into a group.
fn add_literal(group: &mut Group, lit: u32) -> Result<(), AllocError>
    ensures condition { OnOk result (group.new.condition.items ≡ group.old.condition.items) }
    ensures literals { OnOk result ((m : ℕ) → row_has group.new.literals m ≡ ((lit == m) || row_has group.old.literals m)) }
    ensures opposites { OnOk result ((m : ℕ) → row_has group.new.opposites m ≡ ((opposite lit == m) || row_has group.old.opposites m)) }
{
    group.literals.insert(lit)?;
    group.opposites.insert(opposite(lit))?;
    Ok(())
}

/// Puts a literal into a group of a list.
fn add_at(groups: &mut Vec<Group>, i: usize, lit: u32) -> Result<(), AllocError>
    requires { i < length groups.old.items }
    ensures has { OnOk result ((c : List ℕ) → ((d : Group) → (slice_index_or groups.old.items i d).condition.items ≡ c) → (l : ℕ) (test : List ℕ → Bool) → group_with groups.new.items l test ≡ (group_with groups.old.items l test || ((lit == l) && test c))) }
    ensures fit { OnOk result ((size : ℕ) → opposite lit < size → AllByRecursion (GroupFits size) groups.old.items → AllByRecursion (GroupFits size) groups.new.items) }
{
    add_literal(&mut groups[i], lit)?;
    Ok(())
}

/// The group of one effect.
fn group_of(alloc: Global, effect: &Eff) -> Result<Group, AllocError>
    ensures condition { IfOk result (λ group. group.condition.items ≡ effect.now.condition) }
    ensures literals { IfOk result (λ group. (m : ℕ) → row_has group.literals m ≡ (effect.now.literal == m)) }
    ensures opposites { IfOk result (λ group. (m : ℕ) → row_has group.opposites m ≡ (opposite effect.now.literal == m)) }
{
    let mut literals = BitRow::new(alloc);
    literals.insert(effect.lit())?;
    let mut opposites = BitRow::new(alloc);
    opposites.insert(opposite(effect.lit()))?;
    Ok(Group {
        condition: Vec::from_slice(alloc, effect.cond())?,
        literals,
        opposites,
    })
}

/// Puts an effect into the group of its condition, which is looked for among the places of its key.
fn put(
    alloc: Global,
    groups: &mut Vec<Group>,
    places: &mut Vec<Vec<usize>>,
    effect: &Eff,
) -> Result<(), AllocError>
    requires places { 0 < length places.old.items }
    ensures places { length places.new.items ≡ length places.old.items }
    ensures has { OnOk result ((l : ℕ) (test : List ℕ → Bool) → group_with groups.new.items l test ≡ (group_with groups.old.items l test || ((effect.now.literal == l) && test effect.now.condition))) }
    ensures fit { OnOk result ((size : ℕ) → EffectFits size effect.now → AllByRecursion (GroupFits size) groups.old.items → AllByRecursion (GroupFits size) groups.new.items) }
{
    let key = key_of(effect.cond());
    match place_of(
        groups.as_slice(),
        list_of(places.as_slice(), key),
        effect.cond(),
    ) {
        Some(i) => {
            add_at(groups, i, effect.lit())?;
            Ok(())
        }
        None => {
            add_at_key(places, key, groups.len())?;
            groups.push(group_of(alloc, effect)?)?;
            Ok(())
        }
    }
}

/// Effects in groups of one condition.
pub fn group_effects(alloc: Global, effects: &[Eff]) -> Result<Vec<Group>, AllocError>
    ensures same { IfOk result (λ groups. (l : ℕ) (test : List ℕ → Bool) → group_with groups.items l test ≡ effect_with effects.now l test) }
    ensures fit { IfOk result (λ groups. (size : ℕ) → AllByRecursion (EffectFits size) effects.now → AllByRecursion (GroupFits size) groups.items) }
{
    let mut groups = Vec::new(alloc);
    let mut places = no_lists(alloc, effects.len())?;
    for effect in effects {
        put(alloc, &mut groups, &mut places, effect)?;
    }
    Ok(groups)
}
