//! The actions among the kept calls.
ghost use Rattle.std.specs.Prelude.{◌≡◌, ◌<◌, ◌+◌, ◌++◌, ◌∷◌, [], length, IfOk, OnOk, if◌then◌else◌};
ghost use Rattle.std.specs.List.{list_all};
ghost use Rattle.grounding_defs.specs.Instance.{literals_of, instance_of};
ghost use Rattle.grounding_defs.specs.Found.{may_be_true, actions_of};
ghost use Rattle.reachability.specs.Derived.{call_with};
ghost use Rattle.grounder.specs.own.Known.{IsKnown};

use crate::known::Known;
use crate::literals::may_be_true;
use pd_model::{Call, Calls, Cond, Memory, Objects};
use reachability::CallRows;

/// Whether no literal wants a constant atom to be false.
fn all_may_be_true(known: &Known, objects: &[u32], conds: &[Cond]) -> bool
    requires { IsKnown known.now }
    ensures { result ≡ list_all (may_be_true known.now.domains.now known.now.facts) (literals_of objects.now conds.now) }
{
    for cond in conds {
        if !may_be_true(known, objects, cond) {
            return false;
        }
    }
    true
}

/// Whether a kept call is an action: its precondition wants no constant atom to be false.
fn is_able(known: &Known, schema: u32, objects: &[u32]) -> bool
    requires { IsKnown known.now }
    ensures { result ≡ list_all (may_be_true known.now.domains.now known.now.facts) (instance_of known.now.domains.now (call_with schema objects.now)).precondition }
{
    let Some(schema) = known.domains.schemas().as_slice().get(schema as usize) else {
        return true;
    };
    all_may_be_true(known, objects, schema.pre.as_slice())
}

/// The count with one more, where that is an action.
fn counted(count: usize, able: bool) -> usize
    requires { count < 18446744073709551615 }
    ensures { result ≡ (if able then count + 1 else count) }
{
    if able { count + 1 } else { count }
}

/// How many of the kept calls are actions.
pub(crate) fn count_actions(known: &Known, kept: &CallRows) -> usize
    requires { IsKnown known.now }
    ensures { result ≡ length (actions_of known.now.domains.now known.now.facts kept.now) }
{
    let mut count = 0;
    for place in 0..kept.len() {
        let (schema, objects) = kept.at(place);
        count = counted(count, is_able(known, schema, objects));
    }
    count
}

/// Adds a kept call, where it is an action.
fn add_able(known: &Known, schema: u32, objects: &[u32], into: &mut Vec<Call>) -> Result<(), Memory>
    requires { IsKnown known.now }
    ensures { OnOk result (into.new.items ≡ (if list_all (may_be_true known.now.domains.now known.now.facts) (instance_of known.now.domains.now (call_with schema objects.now)).precondition then into.old.items ++ call_with schema objects.now ∷ [] else into.old.items)) }
{
    if !is_able(known, schema, objects) {
        return Ok(());
    }
    let objects = Objects::of(Vec::from_slice(known.alloc, objects)?);
    into.push(Call { schema, objects })?;
    Ok(())
}

/// The actions among the kept calls, in order.
pub(crate) fn actions_of(known: &Known, kept: &CallRows) -> Result<Calls, Memory>
    requires { IsKnown known.now }
    ensures { IfOk result (λ calls. calls ≡ actions_of known.now.domains.now known.now.facts kept.now) }
{
    let mut calls = Vec::new(known.alloc);
    for place in 0..kept.len() {
        let (schema, objects) = kept.at(place);
        add_able(known, schema, objects, &mut calls)?;
    }
    Ok(Calls::of(calls))
}
