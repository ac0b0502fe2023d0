//! The constant atoms, and the facts.
ghost use Rattle.std.specs.Prelude.{◌≡◌, ◌≤◌, false, not, IfOk, OnOk};
ghost use Rattle.std.specs.List.{list_any, filter};
ghost use Rattle.pd_model.specs.State.{is_in};
ghost use Rattle.grounding_defs.specs.Instance.{change_of, changes_of, instance_of};
ghost use Rattle.grounding_defs.specs.Found.{deletes, is_constant};
ghost use Rattle.grounding_defs.specs.Limits.{most_tuples};
ghost use Rattle.grounding_defs.specs.Tuples.{tuples_in};
ghost use Rattle.reachability.specs.Derived.{call_with};
ghost use Rattle.grounder.specs.own.Found.{AreFound};
ghost use Rattle.grounder.specs.own.Putting.{LeavesOut, HasExactly};
ghost use Rattle.grounder.specs.own.Few.{HasFewTuples, HasFew, HaveFew};

use crate::bindings::bindings_of;
use crate::literals::all_may_hold;
use atom_join::AtomTable;
use pd_model::{Atoms, Effect, Memory, State, instance_of};
use reachability::{CallRows, Reached, reach};
use schema_domains::Domains;
use std::alloc::Global;

/// Takes out the atom of an instance of a delete, where it is possible.
fn leave_out_deleted(
    alloc: Global,
    reached: &AtomTable,
    objects: &[u32],
    effect: &Effect,
    constant: &mut State,
) -> Result<(), Memory>
    requires { effect.now.adds ≡ false }
    ensures { OnOk result (LeavesOut (λ a. deletes reached.now a (change_of effect.now objects.now)) constant.old constant.new) }
{
    if all_may_hold(reached, objects, effect.cond.as_slice()) {
        constant.remove(&instance_of(alloc, objects, &effect.atom)?);
    }
    Ok(())
}

/// Takes out the atoms of the possible instances of an effect, where it is a delete.
fn leave_out_effect(
    alloc: Global,
    domains: &Domains,
    reached: &AtomTable,
    objects: &[u32],
    effect: &Effect,
    constant: &mut State,
) -> Result<(), Memory>
    requires { HasFewTuples domains.now effect.now }
    ensures { OnOk result (LeavesOut (λ a. list_any (deletes reached.now a) (changes_of domains.now objects.now effect.now)) constant.old constant.new) }
{
    if effect.adds {
        return Ok(());
    }
    let over = effect.over.as_slice();
    if over.is_empty() {
        return leave_out_deleted(alloc, reached, objects, effect, constant);
    }
    if !domains.have_objects(over) {
        return Ok(());
    }
    let bindings = bindings_of(alloc, domains, over)?;
    for number in 0..bindings.count {
        let objects = bindings.extended(alloc, objects, number)?;
        leave_out_deleted(alloc, reached, &objects, effect, constant)?;
    }
    Ok(())
}

/// Takes out the atoms that a call's possible deletes name.
fn leave_out_call(
    alloc: Global,
    domains: &Domains,
    reached: &AtomTable,
    schema: u32,
    objects: &[u32],
    constant: &mut State,
) -> Result<(), Memory>
    requires { HasFew domains.now (call_with schema objects.now) }
    ensures { OnOk result (LeavesOut (λ a. list_any (deletes reached.now a) (instance_of domains.now (call_with schema objects.now)).changes) constant.old constant.new) }
{
    let Some(schema) = domains.schemas().as_slice().get(schema as usize) else {
        return Ok(());
    };
    for effect in schema.effects.as_slice() {
        leave_out_effect(alloc, domains, reached, objects, effect, constant)?;
    }
    Ok(())
}

/// The constant atoms: the initial ones that no possible delete of a kept call names.
fn constant_atoms(alloc: Global, domains: &Domains, reached: &Reached) -> Result<State, Memory>
    requires { HaveFew domains.now reached.now.calls }
    ensures { IfOk result (λ constant. HasExactly (is_constant domains.now reached.now.atoms reached.now.calls) constant) }
{
    let atoms = AtomTable::of(alloc, reached.atoms.as_slice())?;
    let mut constant = State::new(alloc);
    constant.add_all(domains.init().as_slice())?;
    for place in 0..reached.calls.len() {
        let (schema, objects) = reached.calls.at(place);
        leave_out_call(alloc, domains, &atoms, schema, objects, &mut constant)?;
    }
    Ok(constant)
}

/// The facts: the reachable atoms that are not constant.
fn facts_of(alloc: Global, atoms: Atoms, constant: &State) -> Result<Atoms, Memory>
    ensures { IfOk result (λ facts. facts ≡ filter (λ a. not (is_in a constant.now)) atoms) }
{
    let mut facts = Vec::new(alloc);
    for atom in atoms.into_vec() {
        if !constant.has(&atom) {
            facts.push(atom)?;
        }
    }
    Ok(Atoms::of(facts))
}

/// The facts of a task and its kept calls, each in order.
#[derive(Drop)]
pub(crate) struct Found {
    pub(crate) facts: Atoms,
    pub(crate) kept: CallRows,
}

/// What the search finds of a task that is within the limit on tuples.
pub(crate) fn found_in(alloc: Global, domains: &Domains) -> Result<Found, Memory>
    requires { tuples_in domains.now ≤ most_tuples }
    ensures { IfOk result (λ found. AreFound domains.now found.facts found.kept) }
{
    let reached = reach(alloc, domains)?;
    let constant = constant_atoms(alloc, domains, &reached)?;
    let facts = facts_of(alloc, reached.atoms, &constant)?;
    Ok(Found {
        facts,
        kept: reached.calls,
    })
}
