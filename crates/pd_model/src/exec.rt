// The atoms of the active instances of effects. They are kept as a set, and a variable that an effect does not name stands for
// one object alone: so the atoms take as much room as there are of them, and not as there are tuples of objects.
ghost use Rattle.std.specs.Prelude.{◌≡◌, ◌++◌, [], IfOk, OnOk, if◌then◌else◌};
ghost use Rattle.std.specs.List.{flat_map};
ghost use Rattle.pd_model.specs.State.{SameState};
ghost use Rattle.pd_model.specs.Instance.{agrees};
ghost use Rattle.pd_model.specs.Fits.{fitting, tuples};
ghost use Rattle.pd_model.specs.Exec.{active, active_at, of_sign};
ghost use Rattle.pd_model.specs.own.Variables.{StandForAll, effect_names};

use crate::fits::{fitting_objects, one_fitting};
use crate::instance::{are_true, instance_of};
use crate::state::State;
use crate::variables::effect_names;
use crate::{Effect, Memory, Pddl};
use std::alloc::Global;

/// Adds the atom of the effect's instance for these objects, where its condition holds.
fn add_one(
    alloc: Global,
    state: &State,
    objects: &[u32],
    effect: &Effect,
    into: &mut State,
) -> Result<(), Memory>
    ensures { OnOk result (SameState into.new (active_at state.now effect.now objects.now ++ into.old)) }
{
    if are_true(alloc, state, objects, effect.cond.as_slice())? {
        into.add(instance_of(alloc, objects, &effect.atom)?)?;
    }
    Ok(())
}

/// The objects to be tried for the variable at a place: all that fit, or one of them where the effect does not name it.
fn tried(
    alloc: Global,
    p: &Pddl,
    kind: u32,
    place: usize,
    effect: &Effect,
) -> Result<Vec<u32>, Memory>
    ensures { IfOk result (λ objects. StandForAll (effect_names place effect.now) (fitting p.now kind) objects.items) }
{
    if effect_names(place, effect) {
        fitting_objects(alloc, p, kind)
    } else {
        one_fitting(alloc, p, kind)
    }
}

/// Adds the atoms of the active instances of an effect, for each tuple of the objects that fit.
fn add_active(
    alloc: Global,
    p: &Pddl,
    state: &State,
    objects: &mut Vec<u32>,
    over: &[u32],
    effect: &Effect,
    into: &mut State,
) -> Result<(), Memory>
    ensures kept { OnOk result (objects.new.items ≡ objects.old.items) }
    ensures added { OnOk result (SameState into.new (flat_map (λ more. active_at state.now effect.now (objects.old.items ++ more)) (tuples p.now over.now) ++ into.old)) }
{
    let Some((kind, rest)) = over.split_first() else {
        return add_one(alloc, state, objects, effect, into);
    };
    let tried = tried(alloc, p, *kind, objects.len(), effect)?;
    for o in &tried {
        objects.push(*o)?;
        add_active(alloc, p, state, objects, rest, effect, into)?;
        objects.pop();
    }
    Ok(())
}

fn add_signed(
    alloc: Global,
    p: &Pddl,
    state: &State,
    objects: &mut Vec<u32>,
    effect: &Effect,
    sign: bool,
    into: &mut State,
) -> Result<(), Memory>
    ensures kept { OnOk result (objects.new.items ≡ objects.old.items) }
    ensures added { OnOk result (SameState into.new ((if agrees sign effect.now.adds then active p.now state.now objects.old.items effect.now else []) ++ into.old)) }
{
    if effect.adds == sign {
        add_active(
            alloc,
            p,
            state,
            objects,
            effect.over.as_slice(),
            effect,
            into,
        )?;
    }
    Ok(())
}

/// The atoms of the active adds, or of the active deletes.
pub fn active_atoms(
    alloc: Global,
    p: &Pddl,
    state: &State,
    objects: &[u32],
    effects: &[Effect],
    sign: bool,
) -> Result<State, Memory>
    ensures { IfOk result (λ atoms. SameState atoms (flat_map (active p.now state.now objects.now) (of_sign sign effects.now))) }
{
    let mut tuple = Vec::from_slice(alloc, objects)?;
    let mut atoms = State::new(alloc);
    for effect in effects {
        add_signed(alloc, p, state, &mut tuple, effect, sign, &mut atoms)?;
    }
    Ok(atoms)
}
