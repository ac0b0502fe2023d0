//! The effects of actions: those that are left, in order, each once.
ghost use Rattle.std.specs.Prelude.{◌≡◌, ◌++◌, IfOk, OnOk};
ghost use Rattle.std.specs.List.{flat_map, AllByRecursion};
ghost use Rattle.gt_core.specs.Lawful.{effect_less};
ghost use Rattle.grounding_defs.specs.Instance.{change_of, changes_of};
ghost use Rattle.grounding_defs.specs.Sorted.{sorted_set};
ghost use Rattle.grounder.specs.own.Few.{HasFewTuples};
ghost use Rattle.grounder.specs.own.Known.{IsKnown};
ghost use Rattle.grounder.specs.own.Putting.{effects_at, add_change, left_effects};

use crate::bindings::bindings_of;
use crate::known::Known;
use crate::literals::any_never;
use crate::places::place_in;
use crate::simplify::{fact_literal, simplified};
use gt_core::eff::{Eff, Effs};
use gt_core::lits::Lits;
use pd_model::{Effect, Memory};
use std::alloc::Global;

/// An effect, in the order of effects: by literal, then by condition as a list.
#[derive(PartialEq, Eq, PartialOrd, Ord, Drop)]
struct Keyed {
    literal: u32,
    condition: Vec<u32>,
}

/// Adds the effect of an instance, where it is left.
fn add_effect(
    known: &Known,
    objects: &[u32],
    effect: &Effect,
    into: &mut Vec<Keyed>,
) -> Result<(), Memory>
    requires { IsKnown known.now }
    ensures { OnOk result (effects_at into.new.items ≡ add_change known.now.domains.now known.now.facts (change_of effect.now objects.now) (effects_at into.old.items)) }
{
    let Some(place) = place_in(&known.facts, objects, &effect.atom) else {
        return Ok(());
    };
    let conds = effect.cond.as_slice();
    if any_never(known, objects, conds) {
        return Ok(());
    }
    let literal = fact_literal(place, effect.adds);
    let condition = simplified(known, objects, conds)?.into_vec();
    into.push(Keyed { literal, condition })?;
    Ok(())
}

/// Adds the effects of an effect's instances.
fn add_instances(
    known: &Known,
    objects: &[u32],
    effect: &Effect,
    into: &mut Vec<Keyed>,
) -> Result<(), Memory>
    requires known { IsKnown known.now }
    requires few { HasFewTuples known.now.domains.now effect.now }
    ensures { OnOk result (effects_at into.new.items ≡ effects_at into.old.items ++ left_effects known.now.domains.now known.now.facts (changes_of known.now.domains.now objects.now effect.now)) }
{
    let over = effect.over.as_slice();
    if over.is_empty() {
        return add_effect(known, objects, effect, into);
    }
    if !known.domains.have_objects(over) {
        return Ok(());
    }
    let bindings = bindings_of(known.alloc, known.domains, over)?;
    for number in 0..bindings.count {
        let objects = bindings.extended(known.alloc, objects, number)?;
        add_effect(known, &objects, effect, into)?;
    }
    Ok(())
}

/// Effects in order, each once.
fn in_order(effects: Vec<Keyed>) -> Vec<Keyed>
    ensures { effects_at result.items ≡ sorted_set effect_less (effects_at effects.items) }
{
    let mut effects = effects;
    if !effects.is_sorted() {
        effects.sort_unstable();
    }
    effects.dedup();
    effects
}

/// The effects that these stand for.
fn effects_in(alloc: Global, all: Vec<Keyed>) -> Result<Effs, Memory>
    ensures { IfOk result (λ effects. effects ≡ effects_at all.items) }
{
    let mut effects = Vec::with_capacity(alloc, all.len())?;
    for key in all {
        effects.push(Eff::new(alloc, Lits::of(key.condition), key.literal)?)?;
    }
    Ok(Effs::of(effects))
}

/// The effects of an action with these effects and objects.
pub(crate) fn effects_of(known: &Known, objects: &[u32], effects: &[Effect]) -> Result<Effs, Memory>
    requires known { IsKnown known.now }
    requires few { AllByRecursion (HasFewTuples known.now.domains.now) effects.now }
    ensures { IfOk result (λ all. all ≡ sorted_set effect_less (left_effects known.now.domains.now known.now.facts (flat_map (changes_of known.now.domains.now objects.now) effects.now))) }
{
    let mut all = Vec::with_capacity(known.alloc, effects.len())?;
    for effect in effects {
        add_instances(known, objects, effect, &mut all)?;
    }
    effects_in(known.alloc, in_order(all))
}
