//! Fact literals: what is left of the literals of conditions.
ghost use Rattle.std.specs.Prelude.{◌≡◌, ◌<◌, ◌+◌, ◌*◌, IfOk, OnOk, if◌then◌else◌};
ghost use Rattle.grounding_defs.specs.Instance.{literal_of, literals_of};
ghost use Rattle.grounding_defs.specs.Simplify.{number_of, simplified};
ghost use Rattle.grounder.specs.own.Known.{IsKnown};
ghost use Rattle.grounder.specs.own.Putting.{add_literal};
ghost use Rattle.gt_core.specs.Limits.{most_facts};

use crate::known::Known;
use crate::places::place_in;
use gt_core::lits::Lits;
use pd_model::{Cond, Memory};

/// The fact literal of the fact at a place: it says that the fact is true, or that it is false.
pub(crate) fn fact_literal(place: usize, want: bool) -> u32
    requires { place < most_facts }
    ensures { result ≡ (if want then 2 * place else 2 * place + 1) }
{
    let place = place as u32;
    if want { 2 * place } else { 2 * place + 1 }
}

/// The fact literal of a literal, where its atom is a fact.
fn number_of(known: &Known, objects: &[u32], cond: &Cond) -> Option<u32>
    requires { IsKnown known.now }
    ensures { result ≡ number_of known.now.facts (literal_of objects.now cond.now) }
{
    match cond {
        Cond::Has { atom, want } => match place_in(&known.facts, objects, atom) {
            Some(place) => Some(fact_literal(place, *want)),
            None => None,
        },
        Cond::Same { .. } => None,
    }
}

/// Adds a literal, where there is one.
fn add_literal(literal: Option<u32>, into: &mut Vec<u32>) -> Result<(), Memory>
    ensures { OnOk result (into.new.items ≡ add_literal literal into.old.items) }
{
    if let Some(literal) = literal {
        into.push(literal)?;
    }
    Ok(())
}

/// What is left of literals: the fact literals, in order, each once.
pub(crate) fn simplified(known: &Known, objects: &[u32], conds: &[Cond]) -> Result<Lits, Memory>
    requires { IsKnown known.now }
    ensures { IfOk result (λ literals. literals ≡ simplified known.now.facts (literals_of objects.now conds.now)) }
{
    let mut literals = Vec::new(known.alloc);
    for cond in conds {
        add_literal(number_of(known, objects, cond), &mut literals)?;
    }
    literals.sort_unstable();
    literals.dedup();
    Ok(Lits::of(literals))
}
