//! The literals of conditions, with objects for variables.
ghost use Rattle.std.specs.Prelude.{◌≡◌, ◌==◌};
ghost use Rattle.pd_model.specs.Instance.{value, agrees};
ghost use Rattle.grounding_defs.specs.Instance.{literal_of, literals_of};
ghost use Rattle.grounding_defs.specs.Found.{may_hold, all_may_hold, may_be_true};
ghost use Rattle.grounding_defs.specs.Simplify.{is_never, any_never};
ghost use Rattle.grounder.specs.own.Known.{IsKnown};

use crate::known::Known;
use atom_join::AtomTable;
use pd_model::{Cond, Term, object_of};

/// Whether an equation of two terms is as is wanted.
fn agrees(objects: &[u32], left: Term, right: Term, want: bool) -> bool
    ensures { result ≡ agrees want (value objects.now left == value objects.now right) }
{
    (object_of(objects, left) == object_of(objects, right)) == want
}

/// Whether the literal may hold, as far as the reachable atoms say.
fn may_be_reached(reached: &AtomTable, objects: &[u32], cond: &Cond) -> bool
    ensures { result ≡ may_hold reached.now (literal_of objects.now cond.now) }
{
    match cond {
        Cond::Has { atom, want } => !*want || reached.has_instance(objects, atom),
        Cond::Same { left, right, want } => agrees(objects, *left, *right, *want),
    }
}

/// Whether each literal may hold, as far as the reachable atoms say.
pub(crate) fn all_may_hold(reached: &AtomTable, objects: &[u32], conds: &[Cond]) -> bool
    ensures { result ≡ all_may_hold reached.now (literals_of objects.now conds.now) }
{
    for cond in conds {
        if !may_be_reached(reached, objects, cond) {
            return false;
        }
    }
    true
}

/// Whether the literal does not want a constant atom to be false.
pub(crate) fn may_be_true(known: &Known, objects: &[u32], cond: &Cond) -> bool
    requires { IsKnown known.now }
    ensures { result ≡ may_be_true known.now.domains.now known.now.facts (literal_of objects.now cond.now) }
{
    match cond {
        Cond::Has { atom, want } => {
            if *want {
                return true;
            }
            known.facts.has_instance(objects, atom) || !known.initial.has_instance(objects, atom)
        }
        Cond::Same { .. } => true,
    }
}

/// Whether the literal is never true: it wants an atom that is not reachable, or a constant one to be false, or is
/// a false equation.
fn is_never(known: &Known, objects: &[u32], cond: &Cond) -> bool
    requires { IsKnown known.now }
    ensures { result ≡ is_never known.now.domains.now known.now.facts (literal_of objects.now cond.now) }
{
    match cond {
        Cond::Has { atom, want } => {
            !known.facts.has_instance(objects, atom)
                && known.initial.has_instance(objects, atom) != *want
        }
        Cond::Same { left, right, want } => !agrees(objects, *left, *right, *want),
    }
}

/// Whether some literal is never true.
pub(crate) fn any_never(known: &Known, objects: &[u32], conds: &[Cond]) -> bool
    requires { IsKnown known.now }
    ensures { result ≡ any_never known.now.domains.now known.now.facts (literals_of objects.now conds.now) }
{
    for cond in conds {
        if is_never(known, objects, cond) {
            return true;
        }
    }
    false
}
