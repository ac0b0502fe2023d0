// The calls that lists of words spell.
ghost use Rattle.std.specs.Prelude.{◌≡◌, ℕ, List};
ghost use Rattle.pd_model.specs.Names.{object_names, schema_names};
ghost use Rattle.pd_words.specs.Names.{number_of};
ghost use Rattle.pd_plan.specs.own.Answers.{Gives};
ghost use Rattle.pd_plan.specs.own.Names.{looked_up};
ghost use Rattle.pd_plan.specs.PlanFile as plans;

use crate::PlanFault;
use crate::lists::WordList;
use crate::names::NameNumbers;
use pd_model::{Call, Calls, Objects, Pddl};
use pd_words::Named;
use std::alloc::Global;

// The object that a word names.
fn read_argument(p: &Pddl, objects: &NameNumbers, kind: u32, word: &Named) -> Result<u32, PlanFault>
    requires { (name : List ℕ) → looked_up objects.now name ≡ number_of name (object_names p.now.objects) }
    ensures { Gives (plans.argument p.now kind word.now) result }
{
    let Some(object) = objects.number(&word.name) else {
        return Err(PlanFault::Unknown { at: word.at });
    };
    if !p.fits(kind, object) {
        return Err(PlanFault::Mistyped { at: word.at });
    }
    Ok(object)
}

// The objects that words name, one for each type.
#[tactic(auto, using(crate::proofs::Kept::no_words))]
fn read_arguments(
    alloc: Global,
    p: &Pddl,
    objects: &NameNumbers,
    kinds: &[u32],
    words: &[Named],
) -> Result<Objects, PlanFault>
    requires { (name : List ℕ) → looked_up objects.now name ≡ number_of name (object_names p.now.objects) }
    ensures { Gives (plans.arguments p.now kinds.now words.now) result }
{
    let mut numbers = Vec::new(alloc);
    let mut rest = words;
    for kind in kinds {
        let Some((word, others)) = rest.split_first() else {
            return Ok(Objects::of(numbers));
        };
        numbers.push(read_argument(p, objects, *kind, word)?)?;
        rest = others;
    }
    Ok(Objects::of(numbers))
}

// The call that a list spells.
fn read_call(
    alloc: Global,
    p: &Pddl,
    schemas: &NameNumbers,
    objects: &NameNumbers,
    list: &WordList,
) -> Result<Call, PlanFault>
    requires schemas { (name : List ℕ) → looked_up schemas.now name ≡ number_of name (schema_names p.now.schemas) }
    requires objects { (name : List ℕ) → looked_up objects.now name ≡ number_of name (object_names p.now.objects) }
    ensures { Gives (plans.call_of p.now list.now) result }
{
    let Some((name, words)) = list.words.as_slice().split_first() else {
        return Err(PlanFault::Syntax { at: list.at });
    };
    let Some(number) = schemas.number(&name.name) else {
        return Err(PlanFault::Unknown { at: name.at });
    };
    let Some(schema) = p.schemas().as_slice().get(number as usize) else {
        return Err(PlanFault::Unknown { at: name.at });
    };
    let kinds = schema.parameters.as_slice();
    if words.len() != kinds.len() {
        return Err(PlanFault::Arity { at: list.at });
    }
    let objects = read_arguments(alloc, p, objects, kinds, words)?;
    Ok(Call {
        schema: number,
        objects,
    })
}

/// The calls that the lists spell. Names are looked up in tables.
pub fn read_calls(alloc: Global, p: &Pddl, lists: &[WordList]) -> Result<Calls, PlanFault>
    ensures { Gives (plans.calls_of p.now lists.now) result }
{
    let schemas = NameNumbers::of_schemas(alloc, p.schemas().as_slice())?;
    let objects = NameNumbers::of_objects(alloc, p.objects().as_slice())?;
    let mut calls = Vec::new(alloc);
    for list in lists {
        calls.push(read_call(alloc, p, &schemas, &objects, list)?)?;
    }
    Ok(Calls::of(calls))
}
