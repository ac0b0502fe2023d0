// Effects.
ghost use Rattle.std.specs.Prelude.{◌≡◌, OnOk};
ghost use Rattle.pd_sexp.specs.View.{view, views};
ghost use Rattle.pd_words.specs.First.{GivesAs, Leaves};
ghost use Rattle.pd_task.specs.Atoms.{condition};
ghost use Rattle.pd_task.specs.Effects as effects;
ghost use Rattle.pd_task.specs.own.Scope.{site_of, opened};

use crate::cond::{one, read_cond};
use crate::found::Found;
use crate::headed::read_headed;
use crate::terms::read_atom;
use crate::vocabulary::Vocabulary;
use pd_model::{SharedConds, SharedTypeNumbers};
use pd_sexp::Tree;
use pd_words::{Fault, Keyword, ReadError, Scope, head_keyword, no_more, read_variable_list};
use std::alloc::Global;

// What stands under the `not` at this place.
fn read_removed(
    alloc: Global,
    vocabulary: &Vocabulary,
    scope: &Scope,
    at: u32,
    tree: &Tree,
    into: &mut Found,
) -> Result<(), ReadError>
    requires { into.old.under.over ≡ scope.now.over }
    ensures effects { Leaves (effects.removed (site_of vocabulary.now scope.now into.old.under.cond) into.old.effects at (view tree.now)) into.new.effects result }
    ensures under { OnOk result (into.new.under ≡ into.old.under) }
{
    let Some(list) = read_headed(tree)? else {
        return Err(ReadError::Fault(Fault::Shape(at)));
    };
    match head_keyword(list.head) {
        Keyword::Free => {
            let atom = read_atom(alloc, vocabulary, scope, list.at, list.items)?;
            into.push(atom, false)
        }
        Keyword::Equals => Err(ReadError::Fault(Fault::Shape(list.at))),
        _ => Err(ReadError::Fault(Fault::Unsupported(at))),
    }
}

fn read_removal(
    alloc: Global,
    vocabulary: &Vocabulary,
    scope: &Scope,
    at: u32,
    items: &[Tree],
    into: &mut Found,
) -> Result<(), ReadError>
    requires { into.old.under.over ≡ scope.now.over }
    ensures effects { Leaves (effects.removal (site_of vocabulary.now scope.now into.old.under.cond) into.old.effects at (views items.now)) into.new.effects result }
    ensures under { OnOk result (into.new.under ≡ into.old.under) }
{
    let Some(item) = one(items) else {
        return Err(ReadError::Fault(Fault::Shape(at)));
    };
    read_removed(alloc, vocabulary, scope, at, item, into)
}

// Adds the literals after the condition of a `when`.
fn read_literals(
    alloc: Global,
    vocabulary: &Vocabulary,
    scope: &Scope,
    tree: &Tree,
    into: &mut Found,
) -> Result<(), ReadError>
    requires { into.old.under.over ≡ scope.now.over }
    ensures effects { Leaves (effects.literals (site_of vocabulary.now scope.now into.old.under.cond) into.old.effects (view tree.now)) into.new.effects result }
    ensures under { OnOk result (into.new.under ≡ into.old.under) }
{
    let Some(list) = read_headed(tree)? else {
        return Ok(());
    };
    match head_keyword(list.head) {
        Keyword::And => {
            for item in list.rest {
                read_literals(alloc, vocabulary, scope, item, into)?;
            }
            Ok(())
        }
        Keyword::Not => read_removal(alloc, vocabulary, scope, list.at, list.rest, into),
        Keyword::Free => {
            let atom = read_atom(alloc, vocabulary, scope, list.at, list.items)?;
            into.push(atom, true)
        }
        Keyword::Equals => Err(ReadError::Fault(Fault::Shape(list.at))),
        _ => Err(ReadError::Fault(Fault::Unsupported(list.at))),
    }
}

// `when`, a condition and literals.
fn read_conditional(
    alloc: Global,
    vocabulary: &Vocabulary,
    scope: &Scope,
    at: u32,
    items: &[Tree],
    into: &mut Found,
) -> Result<(), ReadError>
    requires { into.old.under.over ≡ scope.now.over }
    ensures effects { Leaves (effects.conditional (site_of vocabulary.now scope.now into.old.under.cond) into.old.effects at (views items.now)) into.new.effects result }
    ensures under { OnOk result (into.new.under ≡ into.old.under) }
{
    let Some((first, rest)) = items.split_first() else {
        return Err(ReadError::Fault(Fault::Shape(at)));
    };
    let mut cond = Vec::new(alloc);
    read_cond(alloc, vocabulary, scope, first, &mut cond)?;
    let Some((what, more)) = rest.split_first() else {
        return Err(ReadError::Fault(Fault::Shape(at)));
    };
    let outside = into.set_cond(SharedConds::of(alloc, cond)?);
    read_literals(alloc, vocabulary, scope, what, into)?;
    into.set_cond(outside);
    no_more(more)
}

// An effect that is neither `and` nor `forall`, by what its head makes of it.
fn read_simple(
    alloc: Global,
    vocabulary: &Vocabulary,
    scope: &Scope,
    keyword: Keyword,
    at: u32,
    items: &[Tree],
    into: &mut Found,
) -> Result<(), ReadError>
    requires { into.old.under.over ≡ scope.now.over }
    ensures effects { Leaves (effects.simple (site_of vocabulary.now scope.now into.old.under.cond) into.old.effects keyword at (views items.now)) into.new.effects result }
    ensures under { OnOk result (into.new.under ≡ into.old.under) }
{
    let rest = match items.split_first() {
        None => items,
        Some((_, rest)) => rest,
    };
    match keyword {
        Keyword::Not => read_removal(alloc, vocabulary, scope, at, rest, into),
        Keyword::When => read_conditional(alloc, vocabulary, scope, at, rest, into),
        Keyword::Free => {
            let atom = read_atom(alloc, vocabulary, scope, at, items)?;
            into.push(atom, true)
        }
        Keyword::Equals => Err(ReadError::Fault(Fault::Shape(at))),
        _ => Err(ReadError::Fault(Fault::Unsupported(at))),
    }
}

// Puts the variables of the `forall` at this place into scope, and gives its effect and what follows that.
fn enter_forall<'a>(
    alloc: Global,
    vocabulary: &Vocabulary,
    scope: &mut Scope,
    at: u32,
    items: &'a [Tree],
) -> Result<(&'a Tree, &'a [Tree]), ReadError>
    ensures { GivesAs (λ r. (scope.new, view r.0.now, views r.1.now)) (opened vocabulary.now.types.now scope.old at (views items.now)) result }
{
    let Some((list, rest)) = items.split_first() else {
        return Err(ReadError::Fault(Fault::Shape(at)));
    };
    let variables = read_variable_list(alloc, vocabulary.types, list)?;
    scope.enter(variables)?;
    match rest.split_first() {
        None => Err(ReadError::Fault(Fault::Shape(at))),
        Some((body, more)) => Ok((body, more)),
    }
}

/// Adds the effects of a tree.
#[tactic(auto)]
pub fn read_effect(
    alloc: Global,
    vocabulary: &Vocabulary,
    scope: &mut Scope,
    tree: &Tree,
    into: &mut Found,
) -> Result<(), ReadError>
    requires { into.old.under.over ≡ scope.old.over }
    ensures effects { Leaves (effects.effect vocabulary.now.types.now (site_of vocabulary.now scope.old into.old.under.cond) into.old.effects (view tree.now)) into.new.effects result }
    ensures under { OnOk result (into.new.under ≡ into.old.under) }
    ensures scope { OnOk result (scope.new ≡ scope.old) }
{
    let Some(list) = read_headed(tree)? else {
        return Ok(());
    };
    match head_keyword(list.head) {
        Keyword::And => {
            for item in list.rest {
                read_effect(alloc, vocabulary, scope, item, into)?;
            }
            Ok(())
        }
        Keyword::Forall => {
            let count = scope.over().len();
            let (body, more) = enter_forall(alloc, vocabulary, scope, list.at, list.rest)?;
            let outside = into.set_over(SharedTypeNumbers::copied_from(alloc, scope.over())?);
            read_effect(alloc, vocabulary, scope, body, into)?;
            into.set_over(outside);
            scope.leave(count);
            no_more(more)
        }
        other => read_simple(alloc, vocabulary, scope, other, list.at, list.items, into),
    }
}
