//! The count of tuples, before any is listed.
ghost use Rattle.std.specs.Prelude.{◌≡◌, sum_by};
ghost use Rattle.grounding_defs.specs.Tuples.{product_of, effect_tuples, schema_tuples, tuples_in, saturated};

use pd_model::{Effect, Pddl, Schema};

/// How many tuples of objects fit these types.
fn product_of(p: &Pddl, kinds: &[u32]) -> u64
    ensures { result ≡ saturated (product_of p.now kinds.now) }
{
    let mut product: u64 = 1;
    for kind in kinds {
        if product == 0 {
            return 0;
        }
        product = product.saturating_mul(p.fitting_count(*kind) as u64);
    }
    product
}

/// The tuples of an effect.
fn effect_tuples(p: &Pddl, effect: &Effect) -> u64
    ensures { result ≡ saturated (effect_tuples p.now effect.now.over) }
{
    let over = effect.over.as_slice();
    if over.is_empty() {
        return 0;
    }
    product_of(p, over)
}

/// The tuples of effects.
fn effects_tuples(p: &Pddl, effects: &[Effect]) -> u64
    ensures { result ≡ saturated (sum_by (λ e. effect_tuples p.now e.over) effects.now) }
{
    let mut sum: u64 = 0;
    for effect in effects {
        sum = sum.saturating_add(effect_tuples(p, effect));
    }
    sum
}

/// The tuples of a schema.
fn schema_tuples(p: &Pddl, schema: &Schema) -> u64
    ensures { result ≡ saturated (schema_tuples p.now schema.now) }
{
    let parameters = product_of(p, schema.parameters.as_slice());
    let effects = effects_tuples(p, schema.effects.as_slice());
    parameters.saturating_mul(1u64.saturating_add(effects))
}

/// The count of tuples of a task; past the greatest number of 64 bits, that number. It takes no memory.
pub(crate) fn count_tuples(p: &Pddl) -> u64
    ensures { result ≡ saturated (tuples_in p.now) }
{
    let mut sum: u64 = 0;
    for schema in p.schemas().as_slice() {
        sum = sum.saturating_add(schema_tuples(p, schema));
    }
    sum
}
