// How many things a task has, so that each has a number of 32 bits.
ghost use Rattle.std.specs.Prelude.{◌≡◌, ◌+◌, ◌<◌, ◌^◌, length};
ghost use Rattle.std.specs.List.{list_all};
ghost use Rattle.pd_model.specs.Few as few;

use crate::{Effect, Parts, Schema};

fn is_few(count: usize) -> bool
    ensures { result ≡ few.is_few count }
{
    count < 4_294_967_296
}

fn few_effect(parameters: usize, effect: &Effect) -> bool
    requires { parameters < 2 ^ 32 }
    ensures { result ≡ few.few_effect parameters effect.now }
{
    let over = effect.over.as_slice().len();
    if over >= 4_294_967_296 {
        return false;
    }
    is_few(parameters + over)
}

fn few_effects(parameters: usize, effects: &[Effect]) -> bool
    requires { parameters < 2 ^ 32 }
    ensures { result ≡ list_all (few.few_effect parameters) effects.now }
{
    for effect in effects {
        if !few_effect(parameters, effect) {
            return false;
        }
    }
    true
}

fn few_schema(schema: &Schema) -> bool
    ensures { result ≡ few.few_schema schema.now }
{
    let parameters = schema.parameters.as_slice().len();
    is_few(parameters) && few_effects(parameters, schema.effects.as_slice())
}

fn few_schemas(schemas: &[Schema]) -> bool
    ensures { result ≡ list_all few.few_schema schemas.now }
{
    for schema in schemas {
        if !few_schema(schema) {
            return false;
        }
    }
    true
}

/// Whether each thing of the task, and each variable of its actions, has a number of 32 bits.
pub fn few_parts(parts: &Parts) -> bool
    ensures { result ≡ few.few_parts parts.now }
{
    is_few(parts.types.as_slice().len())
        && is_few(parts.predicates.as_slice().len())
        && is_few(parts.objects.as_slice().len())
        && is_few(parts.schemas.as_slice().len())
        && few_schemas(parts.schemas.as_slice())
}
