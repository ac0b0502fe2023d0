//! Atoms and calls, spelled by their names.
ghost use Rattle.std.specs.Prelude.{◌≡◌, ◌++◌, List, map, codes, OnOk};
ghost use Rattle.std.specs.List.{flat_map};
ghost use Rattle.pd_model.specs.Text.{predicate_name, object_name, schema_name, spelled, atom_text, call_text};

use pd_model::{Atom, Call, Memory, Pddl};

/// The name of an object.
pub fn object_name(p: &Pddl, object: u32) -> &[u8]
    ensures { result.now ≡ object_name p.now object }
{
    match p.objects().as_slice().get(object as usize) {
        Some(declared) => declared.name.as_slice(),
        None => &[],
    }
}

/// The name of a predicate.
fn predicate_name(p: &Pddl, predicate: u32) -> &[u8]
    ensures { result.now ≡ predicate_name p.now predicate }
{
    match p.predicates().as_slice().get(predicate as usize) {
        Some(declared) => declared.name.as_slice(),
        None => &[],
    }
}

/// The name of an action's schema.
fn schema_name(p: &Pddl, schema: u32) -> &[u8]
    ensures { result.now ≡ schema_name p.now schema }
{
    match p.schemas().as_slice().get(schema as usize) {
        Some(declared) => declared.name.as_slice(),
        None => &[],
    }
}

/// Appends the names of objects, each after a space.
fn push_objects(p: &Pddl, objects: &[u32], text: &mut Vec<u8>) -> Result<(), Memory>
    ensures { OnOk result (text.new.items ≡ text.old.items ++ flat_map (λ o. codes " " ++ o) (map (object_name p.now) objects.now)) }
{
    for object in objects {
        text.extend_from_slice(b" ")?;
        text.extend_from_slice(object_name(p, *object))?;
    }
    Ok(())
}

/// Appends a list of a name and objects.
fn push_spelled(p: &Pddl, name: &[u8], objects: &[u32], text: &mut Vec<u8>) -> Result<(), Memory>
    ensures { OnOk result (text.new.items ≡ text.old.items ++ spelled name.now (map (object_name p.now) objects.now)) }
{
    text.extend_from_slice(b"(")?;
    text.extend_from_slice(name)?;
    push_objects(p, objects, text)?;
    text.extend_from_slice(b")")?;
    Ok(())
}

/// Appends an atom.
pub fn push_atom(p: &Pddl, atom: &Atom, text: &mut Vec<u8>) -> Result<(), Memory>
    ensures { OnOk result (text.new.items ≡ text.old.items ++ atom_text p.now atom.now) }
{
    let name = predicate_name(p, atom.predicate);
    push_spelled(p, name, atom.objects.as_slice(), text)
}

/// Appends a call.
pub fn push_call(p: &Pddl, call: &Call, text: &mut Vec<u8>) -> Result<(), Memory>
    ensures { OnOk result (text.new.items ≡ text.old.items ++ call_text p.now call.now) }
{
    let name = schema_name(p, call.schema);
    push_spelled(p, name, call.objects.as_slice(), text)
}
