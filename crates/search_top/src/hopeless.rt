//! The first condition of a goal that no state has which calls lead to, by grounding alone.
ghost use Rattle.std.specs.Prelude.{◌≡◌, ◌++◌, [], length, OnOk, IfOk};
ghost use Rattle.pd_model.specs.State.{is_in, same_atom};
ghost use Rattle.grounding_defs.specs.Instance.{literal_of};
ghost use Rattle.grounding_defs.specs.Simplify.{is_never};
ghost use Rattle.search_top.specs.Hopeless.{wanted_front, wanted_back, equation_text, condition_text, hopeless_text};

use grounder::Grounded;
use pd_model::{Atom, Cond, Memory, Pddl, instance_of, object_of};
use plan_report::{object_name, push_atom};
use std::alloc::Global;

// Whether two atoms are the same.
fn is_same(atom: &Atom, other: &Atom) -> bool
    ensures { result ≡ same_atom atom.now other.now }
{
    *atom == *other
}

// Whether an atom is a fact.
fn is_fact(g: &Grounded, atom: &Atom) -> bool
    requires { length g.now.facts ≡ g.now.task.facts }
    ensures { result ≡ is_in atom.now g.now.facts }
{
    for f in 0..g.task().facts() {
        if is_same(atom, g.fact(f)) {
            return true;
        }
    }
    false
}

// Whether an atom is true at first.
fn is_initial(p: &Pddl, atom: &Atom) -> bool
    ensures { result ≡ is_in atom.now p.now.init }
{
    for other in p.init().as_slice() {
        if is_same(atom, other) {
            return true;
        }
    }
    false
}

// Whether a condition without variables is never true.
fn is_never(alloc: Global, p: &Pddl, g: &Grounded, cond: &Cond) -> Result<bool, Memory>
    requires { length g.now.facts ≡ g.now.task.facts }
    ensures { IfOk result (λ never. never ≡ is_never p.now g.now.facts (literal_of [] cond.now)) }
{
    match cond {
        Cond::Has { atom, want } => {
            let atom = instance_of(alloc, &[], atom)?;
            Ok(!is_fact(g, &atom) && is_initial(p, &atom) != *want)
        }
        Cond::Same { left, right, want } => {
            Ok((object_of(&[], *left) == object_of(&[], *right)) != *want)
        }
    }
}

// Appends what stands before a literal's atom, and after it.
fn push_front(want: bool, text: &mut Vec<u8>) -> Result<(), Memory>
    ensures { OnOk result (text.new.items ≡ text.old.items ++ wanted_front want) }
{
    if !want {
        text.extend_from_slice(b"(not ")?;
    }
    Ok(())
}

fn push_back(want: bool, text: &mut Vec<u8>) -> Result<(), Memory>
    ensures { OnOk result (text.new.items ≡ text.old.items ++ wanted_back want) }
{
    if !want {
        text.extend_from_slice(b")")?;
    }
    Ok(())
}

// Appends an equation of objects.
fn push_equation(p: &Pddl, left: u32, right: u32, text: &mut Vec<u8>) -> Result<(), Memory>
    ensures { OnOk result (text.new.items ≡ text.old.items ++ equation_text p.now left right) }
{
    text.extend_from_slice(b"(= ")?;
    text.extend_from_slice(object_name(p, left))?;
    text.extend_from_slice(b" ")?;
    text.extend_from_slice(object_name(p, right))?;
    text.extend_from_slice(b")")?;
    Ok(())
}

// Appends a condition without variables.
fn push_condition(alloc: Global, p: &Pddl, cond: &Cond, text: &mut Vec<u8>) -> Result<(), Memory>
    ensures { OnOk result (text.new.items ≡ text.old.items ++ condition_text p.now cond.now) }
{
    match cond {
        Cond::Has { atom, want } => {
            let atom = instance_of(alloc, &[], atom)?;
            push_front(*want, text)?;
            push_atom(p, &atom, text)?;
            push_back(*want, text)
        }
        Cond::Same { left, right, want } => {
            push_front(*want, text)?;
            push_equation(p, object_of(&[], *left), object_of(&[], *right), text)?;
            push_back(*want, text)
        }
    }
}

/// Appends the first condition of the goal that is never true, where there is one.
pub(crate) fn push_hopeless(
    alloc: Global,
    p: &Pddl,
    g: &Grounded,
    text: &mut Vec<u8>,
) -> Result<(), Memory>
    requires { length g.now.facts ≡ g.now.task.facts }
    ensures { OnOk result (text.new.items ≡ text.old.items ++ hopeless_text p.now g.now p.now.goal) }
{
    for cond in p.goal().as_slice() {
        if is_never(alloc, p, g, cond)? {
            return push_condition(alloc, p, cond, text);
        }
    }
    Ok(())
}
